// Demand 3, one theorem over every list of calls and power cuts: the crate is its proofs.
#![tactic(auto)]
