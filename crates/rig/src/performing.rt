use crate::banks::{CELLS, RECORDS, Records};
use crate::line::{Lent, Line};
use crate::outcome::{NotPerformed, Outcome};
use crate::trouble::Trouble;
use board::{Fitting, Running};
use memory::{ByteMemory, Memory};
use roster::BanksMut;
use script::{Call, DecoderName};
use std::mem;
use std::process::ExitCode;

/// The board as far as it has come.
#[derive(Drop)]
enum Phase {
    Fitting(Fitting),
    Running(Running),
}

impl Phase {
    /// The board, to which decoders can be fitted.
    fn fitting(&mut self) -> Result<&mut Fitting, NotPerformed> {
        match self {
            Phase::Fitting(board) => Ok(board),
            Phase::Running(_) => Err(NotPerformed::BeginNewBoard),
        }
    }

    /// The board, which runs.
    fn running(&self) -> Result<&Running, NotPerformed> {
        match self {
            Phase::Running(board) => Ok(board),
            Phase::Fitting(_) => Err(NotPerformed::StartFirst),
        }
    }

    /// Starts the board.
    fn start(&mut self) -> Result<(), NotPerformed> {
        match mem::replace(self, Phase::Fitting(Fitting::new())) {
            Phase::Fitting(board) => {
                *self = Phase::Running(board.start());
                Ok(())
            }
            Phase::Running(board) => {
                *self = Phase::Running(board);
                Err(NotPerformed::BeginNewBoard)
            }
        }
    }
}

/// Performs a line on what is lent.
fn perform_lent<M: Memory>(
    phase: &mut Phase,
    banks: &mut BanksMut<'_>,
    memory: &mut M,
    line: Line,
) -> Result<Outcome, NotPerformed> {
    match line {
        Line::New => {
            *phase = Phase::Fitting(Fitting::new());
            Ok(Outcome::NewBoard)
        }
        Line::Lend(much) => Ok(Outcome::Lent(much)),
        Line::Start => {
            phase.start()?;
            Ok(Outcome::Started)
        }
        Line::Fit(fit) => {
            let board = phase.fitting()?;
            let number = board.fit(banks, memory, fit)?;
            let kind = fit.kind();
            Ok(Outcome::Fitted(DecoderName { kind, number }))
        }
        Line::Take(block) => {
            let board = phase.running()?;
            let answer = board.perform(banks, memory, &Call::Take(block.as_slice()))?;
            Ok(Outcome::Answered(None, answer))
        }
        Line::Ask(name, request) => {
            let board = phase.running()?;
            let answer = board.perform(banks, memory, &Call::Ask(name, request))?;
            Ok(Outcome::Answered(Some(request), answer))
        }
    }
}

/// Lends as much as is said, and performs a line on it.
fn perform(
    phase: &mut Phase,
    lent: Lent,
    records: &mut Records,
    cells: &mut [u8],
    line: Line,
) -> Result<Outcome, NotPerformed> {
    let cell_count = lent.cells.min(cells.len());
    let mut memory = ByteMemory::new(&mut cells[0..cell_count]);
    perform_lent(phase, &mut records.lend(lent), &mut memory, line)
}

/// Performs a script on banks of 32 records each and a memory of 32768 cells, and prints the answers.
pub(crate) fn run_script(rt: &HostRuntime, text: &str) -> Result<ExitCode, Trouble> {
    let heap = rt.alloc();
    let mut records = Records::new(heap)?;
    let mut cells = vec![in heap; 0u8; CELLS]?;
    let mut phase = Phase::Fitting(Fitting::new());
    let mut lent = Lent {
        mobiles: RECORDS,
        basics: RECORDS,
        extendeds: RECORDS,
        cells: CELLS,
    };
    for (number, text) in (1..).zip(text.lines()) {
        let Some(line) = Line::read(heap, number, text)? else {
            continue;
        };
        if let Line::Lend(much) = &line {
            lent = *much;
        }
        match perform(&mut phase, lent, &mut records, cells.as_mut_slice(), line) {
            Ok(outcome) => println!(rt; "{outcome}")?,
            Err(reason) => println!(rt; "{reason}")?,
        }
    }
    Ok(ExitCode::SUCCESS)
}
