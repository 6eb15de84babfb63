// Program: prints the present keys of the image on standard input with what is listed of each, or why it is refused.
#![tactic(auto)]

use std::process::ExitCode;

fn main(rt: HostRuntime) -> ExitCode {
    printing::print_list(&rt)
}
