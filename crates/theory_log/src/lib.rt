// The laws of the log and of contents: the crate is its definitions and proofs.
#![tactic(auto)]
