use crate::faults::Told;
use fault::Fault;
use std::alloc::AllocError;
use std::io;
use thiserror::Error;

/// Where a capture is cut off.
#[derive(Clone, Copy, Debug, Error)]
pub enum Cut {
    #[error("ends within the length of a block")]
    WithinLength,
    #[error("ends within a block")]
    WithinBlock,
}

/// Why the program fails.
#[derive(Debug, Drop, Error)]
pub enum Trouble {
    /// The program was called in another way than it can be.
    #[error("no such command")]
    Usage,
    /// The line of this number is no call that may stand there.
    #[error("line {line}: bad line, expected {expected}")]
    BadLine { line: usize, expected: &'static str },
    /// The decoder that this line asks for cannot be fitted.
    #[error("line {line}: refused {}", Told(*.fault))]
    Unfitted { line: usize, fault: Fault },
    /// A call of a board that is sound was refused.
    #[error("refused {}", Told(*.0))]
    Refused(#[from] Fault),
    /// A file cannot be read.
    #[error("{path}: {error}")]
    File { path: String, error: io::Error },
    /// A capture ends too soon.
    #[error("{path}: {cut}")]
    CutOff { path: String, cut: Cut },
    /// The words that the program was called with are no text.
    #[error("arguments: {0}")]
    Arguments(io::Error),
    /// Standard output fails.
    #[error("standard output: {0}")]
    Output(#[from] io::Error),
    #[error("no memory left")]
    Memory(#[from(alloc)] AllocError),
}
