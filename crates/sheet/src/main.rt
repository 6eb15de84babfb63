// Program: prints the register sheet of the image on standard input, pages of a heading and up to 50 rows, or why it is
// refused.
#![tactic(auto)]

use std::process::ExitCode;

fn main(rt: HostRuntime) -> ExitCode {
    printing::print_sheet(&rt)
}
