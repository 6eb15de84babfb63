// The crash theorems: what every power cut leaves of every call. The crate is its definitions and proofs.
#![tactic(auto)]
