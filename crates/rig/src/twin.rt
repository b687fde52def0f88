use crate::banks::CELLS;
use crate::capture::Capture;
use crate::digest::Digest;
use crate::files::{read_bytes, read_text};
use crate::fittings::{Wanted, read_fittings};
use crate::isolation::compare_ends;
use crate::names::Named;
use crate::play::{Played, play};
use crate::portrait::{Field, Portrait};
use crate::trouble::Trouble;
use memory::{ByteMemory, Memory, Strip, WordMemory};
use script::DecoderName;
use std::process::ExitCode;

/// Where the strip of the second board begins, in cells.
const STRIP_FIRST: usize = 64;

/// How many words hold the strip and the cells before it.
const WORDS: usize = (STRIP_FIRST + CELLS) / 2;

/// A decoder that is not the same on both boards.
#[derive(Clone, Copy)]
struct Difference {
    name: DecoderName,
    field: Field,
}

/// Plays a capture over a memory of bytes.
fn play_on_bytes(
    rt: &HostRuntime,
    fittings: &[Wanted],
    capture: &Capture<'_>,
) -> Result<Played, Trouble> {
    let mut bytes = vec![in rt.alloc(); 0u8; CELLS]?;
    let mut memory = ByteMemory::new(bytes.as_mut_slice());
    play(rt, &mut memory, fittings, capture)
}

/// Plays a capture over a strip of a memory of words.
fn play_on_words(
    rt: &HostRuntime,
    fittings: &[Wanted],
    capture: &Capture<'_>,
) -> Result<Played, Trouble> {
    let mut words = vec![in rt.alloc(); 0u16; WORDS]?;
    let below = WordMemory::new(words.as_mut_slice());
    let mut memory = Strip::new(below, STRIP_FIRST, CELLS);
    play(rt, &mut memory, fittings, capture)
}

/// The first decoder that differs, and in which field.
fn first_difference(one: &[Portrait], other: &[Portrait]) -> Option<Difference> {
    one.iter().zip(other).find_map(|(first, second)| {
        let field = first.difference(second)?;
        Some(Difference {
            name: first.fitted.name,
            field,
        })
    })
}

fn digest_of(portraits: &[Portrait]) -> Digest {
    let mut digest = Digest::new();
    for portrait in portraits {
        portrait.add_to(&mut digest);
    }
    digest
}

/// Prints what was played, in two lines.
fn show(rt: &HostRuntime, played: &Played, capture: &Capture<'_>) -> Result<(), Trouble> {
    let decoders = played.portraits.len();
    let blocks = capture.blocks.len();
    let tally = played.tally;
    println!(rt; "decoders {decoders} blocks {blocks}")?;
    println!(rt; "{tally}")?;
    Ok(())
}

/// Prints whether two boards are alike, and fails where they are not.
fn compare(rt: &HostRuntime, one: &[Portrait], other: &[Portrait]) -> Result<ExitCode, Trouble> {
    match first_difference(one, other) {
        None => {
            let digest = digest_of(one);
            println!(rt; "alike {digest}")?;
            Ok(ExitCode::SUCCESS)
        }
        Some(Difference { name, field }) => {
            let name = Named(name);
            println!(rt; "differ {name} {field}")?;
            Ok(ExitCode::FAILURE)
        }
    }
}

fn fittings_in(rt: &HostRuntime, path: &str) -> Result<Vec<Wanted>, Trouble> {
    let text = read_text(rt, path)?;
    read_fittings(rt.alloc(), text.as_str())
}

/// Takes a capture on one board, and tells what it holds then by a digest.
pub(crate) fn replay(rt: &HostRuntime, fittings: &str, capture: &str) -> Result<ExitCode, Trouble> {
    let fittings = fittings_in(rt, fittings)?;
    let bytes = read_bytes(rt, capture)?;
    let capture = Capture::new(rt.alloc(), capture, bytes.as_slice())?;
    let played = play_on_bytes(rt, fittings.as_slice(), &capture)?;
    show(rt, &played, &capture)?;
    let digest = digest_of(played.portraits.as_slice());
    println!(rt; "digest {digest}")?;
    Ok(ExitCode::SUCCESS)
}

/// Takes a capture on two boards over different memories, and compares their decoders.
pub(crate) fn twin(rt: &HostRuntime, fittings: &str, capture: &str) -> Result<ExitCode, Trouble> {
    let fittings = fittings_in(rt, fittings)?;
    let bytes = read_bytes(rt, capture)?;
    let capture = Capture::new(rt.alloc(), capture, bytes.as_slice())?;
    let one = play_on_bytes(rt, fittings.as_slice(), &capture)?;
    let other = play_on_words(rt, fittings.as_slice(), &capture)?;
    show(rt, &one, &capture)?;
    compare(rt, one.portraits.as_slice(), other.portraits.as_slice())
}

/// Takes a capture on each of two boards, and compares what became of each decoder.
pub(crate) fn twin_with_other(
    rt: &HostRuntime,
    fittings: &str,
    capture: &str,
    other_capture: &str,
) -> Result<ExitCode, Trouble> {
    let fittings = fittings_in(rt, fittings)?;
    let bytes = read_bytes(rt, capture)?;
    let capture = Capture::new(rt.alloc(), capture, bytes.as_slice())?;
    let other_bytes = read_bytes(rt, other_capture)?;
    let other_capture = Capture::new(rt.alloc(), other_capture, other_bytes.as_slice())?;
    let one = play_on_bytes(rt, fittings.as_slice(), &capture)?;
    let other = play_on_words(rt, fittings.as_slice(), &other_capture)?;
    show(rt, &one, &capture)?;
    show(rt, &other, &other_capture)?;
    compare_ends(rt, &capture, &other_capture, &one, &other)
}
