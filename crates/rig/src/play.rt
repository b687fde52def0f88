use crate::banks::Records;
use crate::capture::Capture;
use crate::fittings::{Fitted, Wanted};
use crate::portrait::Portrait;
use crate::progress::{Progress, Task};
use crate::tally::Tally;
use crate::trouble::Trouble;
use board::Running;
use memory::Memory;
use roster::{Banks, BanksMut};
use script::Fit;
use std::alloc::Global;

/// What a board made of a capture.
#[derive(Drop)]
pub struct Played {
    /// Its decoders, in the order of fitting.
    pub portraits: Vec<Portrait>,
    pub tally: Tally,
}

/// A board with all that is wanted, in its order, and its decoders: a run without calls yet.
fn fit_all<M: Memory>(
    heap: Global,
    banks: &mut BanksMut<'_>,
    memory: &mut M,
    fittings: &[Wanted],
) -> Result<(Running, Vec<Fitted>), Trouble> {
    let fits: Vec<Fit> = fittings.iter().map(|wanted| wanted.fit).collect(heap)?;
    let mut numbers = vec![in heap; Ok(0); fits.len()]?;
    let board = board::run(
        fits.as_slice(),
        &[],
        banks,
        memory,
        numbers.as_mut_slice(),
        &mut [],
    )?;
    let decoders = fittings
        .iter()
        .zip(numbers.iter())
        .map(|(wanted, number)| wanted.fitted(*number))
        .try_collect(heap)?;
    Ok((board, decoders))
}

// Board, banks and memory stay apart here and in the portraits, as the board's calls take them: a struct of the three
// would be taken apart at each call.

/// Takes every block of a capture.
fn take_all<M: Memory>(
    rt: &HostRuntime,
    board: &Running,
    banks: &mut BanksMut<'_>,
    memory: &mut M,
    capture: &Capture<'_>,
) -> Tally {
    let mut tally = Tally::default();
    let progress = Progress::new(rt, Task::Take, capture.blocks.len());
    for (done, block) in capture.blocks.iter().enumerate() {
        progress.tell(rt, done);
        let result = board.take(banks, memory, block);
        tally.add(block, result);
    }
    progress.close(rt);
    tally
}

/// The portraits of all decoders, in the order of fitting.
fn portray_all<M: Memory>(
    heap: Global,
    board: &Running,
    banks: Banks<'_>,
    memory: &mut M,
    decoders: &[Fitted],
) -> Result<Vec<Portrait>, Trouble> {
    decoders
        .iter()
        .map(|fitted| Portrait::new(heap, board, banks, memory, *fitted))
        .try_collect(heap)
}

fn play_on<M: Memory>(
    rt: &HostRuntime,
    banks: &mut BanksMut<'_>,
    memory: &mut M,
    fittings: &[Wanted],
    capture: &Capture<'_>,
) -> Result<Played, Trouble> {
    let heap = rt.alloc();
    let (board, decoders) = fit_all(heap, banks, memory, fittings)?;
    let tally = take_all(rt, &board, banks, memory, capture);
    let portraits = portray_all(heap, &board, banks.shared(), memory, decoders.as_slice())?;
    Ok(Played { portraits, tally })
}

/// Fits a new board over a memory, takes a capture on it, and portrays its decoders.
pub(crate) fn play<M: Memory>(
    rt: &HostRuntime,
    memory: &mut M,
    fittings: &[Wanted],
    capture: &Capture<'_>,
) -> Result<Played, Trouble> {
    let mut records = Records::new(rt.alloc())?;
    play_on(rt, &mut records.banks(), memory, fittings, capture)
}
