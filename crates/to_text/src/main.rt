// Converts a trace on standard input to a text log on standard output (document 02, N6), as `conversion_filter` says.
#![tactic(auto)]

use conversion_filter::Direction;
use std::process::ExitCode;

fn main(rt: HostRuntime) -> ExitCode {
    conversion_filter::run(rt, Direction::ToText)
}
