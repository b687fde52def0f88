//! Holds a table of packets, from standard input, to what they should say, and writes each accepted one again.

#![tactic(auto)]

#[cfg(test)]
mod blocks;
#[cfg(test)]
mod memories;
#[cfg(test)]
mod prints;
mod refusals;
mod rows;
#[cfg(test)]
mod writes;

use crate::refusals::show_refusals;
use crate::rows::{is_comment, judge};
use std::env;
use words::VERSION;

fn run(rt: &HostRuntime) -> anyhow::Result<()> {
    let mut good: u32 = 0;
    let mut bad: u32 = 0;
    for line in rt.lines(rt.alloc()) {
        let line = line?;
        if is_comment(line.as_str()) {
            continue;
        }
        match judge(rt.alloc(), line.as_str())? {
            None => good = good.saturating_add(1),
            Some(said) => {
                bad = bad.saturating_add(1);
                println!(rt; "{line} but it says {said}")?;
            }
        }
    }
    show_refusals(rt)?;
    println!(rt; "{good} packets as expected, {bad} not")?;
    Ok(())
}

/// Whether the program is called with the one word `--version`.
fn asks_version(rt: &HostRuntime) -> bool {
    let Ok(mut args) = env::args(rt) else {
        return false;
    };
    args.len() == 2 && args.nth(1).is_some_and(|word| word.as_str() == "--version")
}

fn main(rt: HostRuntime) -> anyhow::Result<()> {
    if asks_version(&rt) {
        println!(rt; "trials {VERSION}")?;
        return Ok(());
    }
    run(&rt)
}
