// Demand 3 whole: theorems over the answers of the operations, in specs/ and proofs/. There is no code here.
#![tactic(auto)]
