// The laws of places and of the medium: the crate is its proofs.
#![tactic(auto)]
