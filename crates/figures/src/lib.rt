// Figures: those by hand of the scope paper, a table of groups of one's own, and equal keys. This crate has no function: the figures are
// in specs/, and proofs/ computes them.
#![tactic(auto)]
