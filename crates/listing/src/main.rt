//! Lists the records of one block, which it reads from standard input.

#![tactic(auto)]

mod lines;

use crate::lines::Tally;
use block::Walk;
use input::read_up_to;
use std::env;
use words::VERSION;

fn list(rt: &HostRuntime, block: &[u8]) -> anyhow::Result<()> {
    let walk = match Walk::new(block) {
        Ok(walk) => walk,
        Err(fault) => {
            println!(rt; "refused {fault}")?;
            return Ok(());
        }
    };
    let mut tally = Tally::default();
    for item in walk {
        match item {
            Ok(carried) => tally.show(rt, carried)?,
            Err(fault) => println!(rt; "fault {fault}")?,
        }
    }
    tally.close(rt)
}

fn run(rt: &HostRuntime) -> anyhow::Result<()> {
    // One byte more than a block may have, so that a longer input is seen to be one.
    let mut bytes = [0u8; 513];
    let count = read_up_to(&mut rt.stdin(), &mut bytes)?;
    list(rt, &bytes[0..count])
}

/// Whether the program is called with the one word `--version`.
fn asks_version(rt: &HostRuntime) -> bool {
    let Ok(mut args) = env::args(rt) else {
        return false;
    };
    args.len() == 2 && args.nth(1).is_some_and(|word| word.as_str() == "--version")
}

fn main(rt: HostRuntime) -> anyhow::Result<()> {
    if asks_version(&rt) {
        println!(rt; "listing {VERSION}")?;
        return Ok(());
    }
    run(&rt)
}
