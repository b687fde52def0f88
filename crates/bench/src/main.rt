//! Fits a mobile, a basic and an extended decoder, takes standard input as one block, and prints what they hold then.

#![tactic(auto)]

mod lines;
mod trial;

use crate::lines::Shown;
use crate::trial::try_block;
use input::read_up_to;
use std::env;
use words::VERSION;

fn run(rt: &HostRuntime) -> anyhow::Result<()> {
    // One byte more than a block may have, so that a longer input is seen to be one.
    let mut bytes = [0u8; 513];
    let count = read_up_to(&mut rt.stdin(), &mut bytes)?;
    let answers = try_block(rt.alloc(), &bytes[0..count])?;
    rt.print(Shown(&answers))?;
    Ok(())
}

/// Whether the program is called with the one word `--version`.
fn asks_version(rt: &HostRuntime) -> bool {
    let Ok(mut args) = env::args(rt) else {
        return false;
    };
    args.len() == 2 && args.nth(1).is_some_and(|word| word.as_str() == "--version")
}

fn main(rt: HostRuntime) -> anyhow::Result<()> {
    if asks_version(&rt) {
        println!(rt; "bench {VERSION}")?;
        return Ok(());
    }
    run(&rt)
}
