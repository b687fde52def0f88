//! Performs scripts on a board, and compares what boards make of captures.

#![tactic(auto)]

mod banks;
mod capture;
mod digest;
mod events;
mod faults;
mod files;
mod fittings;
mod isolation;
mod line;
mod names;
mod numbers;
mod outcome;
mod performing;
mod play;
mod portrait;
mod progress;
mod states;
mod tally;
mod trouble;
mod twin;

use crate::files::{read_input, read_text};
use crate::performing::run_script;
use crate::trouble::Trouble;
use crate::twin::{replay, twin, twin_with_other};
use std::process::ExitCode;
use std::{env, io};
use words::VERSION;

const USAGE: &str = "usage: rig run [FILE]
       rig replay FITTINGS CAPTURE
       rig twin FITTINGS CAPTURE [--other CAPTURE]
       rig --help
";

/// Does what the program is called to do, and answers the status with which it ends.
fn perform(rt: &HostRuntime) -> Result<ExitCode, Trouble> {
    let heap = rt.alloc();
    let args = env::args(rt).map_err(Trouble::Arguments)?;
    let args: Vec<String> = args.skip(1).collect(heap)?;
    let words: Vec<&str> = args.iter().map(|arg| arg.as_str()).collect(heap)?;
    match words.as_slice() {
        ["run"] | ["run", "-"] => run_script(rt, read_input(rt)?.as_str()),
        ["run", file] => run_script(rt, read_text(rt, file)?.as_str()),
        ["replay", fittings, capture] => replay(rt, fittings, capture),
        ["twin", fittings, capture] => twin(rt, fittings, capture),
        ["twin", fittings, capture, "--other", other] => {
            twin_with_other(rt, fittings, capture, other)
        }
        ["--help"] => {
            rt.print(USAGE)?;
            Ok(ExitCode::SUCCESS)
        }
        ["--version"] => {
            println!(rt; "rig {VERSION}")?;
            Ok(ExitCode::SUCCESS)
        }
        _ => Err(Trouble::Usage),
    }
}

/// Says on standard error what went wrong.
fn tell(rt: &HostRuntime, trouble: &Trouble) -> io::Result<()> {
    match trouble {
        Trouble::Usage => rt.eprint(USAGE),
        _ => eprintln!(rt; "rig: {trouble}"),
    }
}

fn main(rt: HostRuntime) -> ExitCode {
    match perform(&rt) {
        Ok(status) => status,
        Err(trouble) => {
            // Where standard error fails too, the status still tells.
            let _ = tell(&rt, &trouble);
            ExitCode::FAILURE
        }
    }
}
