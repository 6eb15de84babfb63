// Key table, bits and sums at a call's last fence: a commit's items join them (module `join`), a cleaned chunk's
// entries leave them (module `remove`).
#![tactic(auto)]

pub mod join;
pub mod remove;
