// The conditions of the sentence on two boards: boards that meet them, and boards that show why they stand. There is no code here.
#![tactic(auto)]
