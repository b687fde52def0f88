use crate::capture::Capture;
use crate::progress::{Progress, Task};
use crate::trouble::Trouble;
use block::{Record, Walk};
use board::{Fitting, Running};
use decoder::{Basic, Extended, Mobile};
use fault::Fault;
use memory::{ByteMemory, Memory};
use roster::BanksMut;
use script::Fit;

/// How many cells a decoder owns.
const WINDOW: usize = 1024;

// Board, banks and memory stay apart, as the board's calls take them: a struct of the three would be taken apart at each.

/// Performs one record, given as a block of its own, and answers whether it is an event of some decoder.
fn is_event<M: Memory>(
    board: &Running,
    banks: &mut BanksMut<'_>,
    memory: &mut M,
    record: Record<'_>,
    bytes: &[u8],
) -> Result<bool, Fault> {
    let taken = board.take(banks, memory, bytes)?;
    match record {
        Record::Fill => Ok(false),
        Record::PowerUp => Ok(true),
        Record::Packet(_) => Ok(taken.heard == 1),
    }
}

/// Performs a block record by record, and adds those that are events. A block of a refused length has none.
fn add_events<M: Memory>(
    board: &Running,
    banks: &mut BanksMut<'_>,
    memory: &mut M,
    block: &[u8],
    events: &mut Vec<u8>,
) -> Result<(), Trouble> {
    let Ok(walk) = Walk::new(block) else {
        return Ok(());
    };
    for item in walk {
        let Ok(carried) = item else {
            break;
        };
        // The kind byte of a packet is its length, so that a record by itself is a block.
        let Some(bytes) = block.get(carried.offset..carried.next) else {
            break;
        };
        let record = carried.record;
        if is_event(board, banks, memory, record, bytes)? {
            events.extend_from_slice(bytes)?;
        }
    }
    Ok(())
}

/// Fits one decoder, and performs a capture on it alone.
fn events_alone<M: Memory>(
    rt: &HostRuntime,
    progress: Progress,
    banks: &mut BanksMut<'_>,
    memory: &mut M,
    fit: Fit,
    capture: &Capture<'_>,
) -> Result<Vec<u8>, Trouble> {
    let mut board = Fitting::new();
    board.fit(banks, memory, fit)?;
    let board = board.start();
    let mut events = Vec::new(rt.alloc());
    for (done, block) in capture.blocks.iter().enumerate() {
        progress.tell(rt, done);
        add_events(&board, banks, memory, block, &mut events)?;
    }
    Ok(events)
}

/// The decoder's own events in a capture, one behind the other: the power-ups, and the packets that it hears.
///
/// They are found on a board on which it is alone.
pub(crate) fn own_events(
    rt: &HostRuntime,
    task: Task,
    fit: Fit,
    capture: &Capture<'_>,
) -> Result<Vec<u8>, Trouble> {
    let mut banks = BanksMut {
        mobiles: &mut [Mobile::new()],
        basics: &mut [Basic::new(0)],
        extendeds: &mut [Extended::new(0)],
    };
    let mut cells = vec![in rt.alloc(); 0u8; WINDOW]?;
    let mut memory = ByteMemory::new(cells.as_mut_slice());
    let progress = Progress::new(rt, task, capture.blocks.len());
    let events = events_alone(rt, progress, &mut banks, &mut memory, fit, capture);
    progress.close(rt);
    events
}
