// Where things go: module `lines` has the log lines of a commit or of a cleaning's copies, module `blocks` the block of
// a large value.
#![tactic(auto)]

pub mod blocks;
pub mod lines;
