// The rules' worked cases, refused images and power cuts, computed by the prover: the crate is its proofs/.
#![tactic(auto)]
