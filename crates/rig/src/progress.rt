use std::fmt;
use std::io::IsTerminal;

/// How many blocks pass between two reports.
const STRIDE: usize = 256;

/// Up to how many blocks a capture is done too soon to tell of it.
const SHORT: usize = 1024;

/// What is done with a capture.
#[derive(Clone, Copy)]
pub enum Task {
    /// A whole board takes it.
    Take,
    /// One of so many decoders, counted from 1, takes it alone, so that its own events are found.
    FindEvents { decoder: usize, decoders: usize },
}

impl fmt::Display for Task {
    fn fmt<W: fmt::Write>(&self, f: &mut fmt::Formatter<W>) -> fmt::Result {
        match *self {
            Task::Take => Ok(()),
            Task::FindEvents { decoder, decoders } => {
                write!(f, "own events of decoder {decoder} of {decoders}: ")
            }
        }
    }
}

/// Tells on standard error how far a long capture has come, where that is a terminal. A report that cannot be written is
/// no reason to stop.
#[derive(Clone, Copy)]
pub struct Progress {
    task: Task,
    /// How many blocks there are, where it is told.
    total: Option<usize>,
}

impl Progress {
    pub(crate) fn new(rt: &HostRuntime, task: Task, total: usize) -> Progress {
        let is_told = total > SHORT && rt.stderr().is_terminal();
        Progress {
            task,
            total: is_told.then_some(total),
        }
    }

    /// Tells how many blocks are done, now and then, in the place of what was told before.
    pub(crate) fn tell(self, rt: &HostRuntime, done: usize) {
        let Progress { task, total } = self;
        match total {
            Some(total) if done % STRIDE == 0 => {
                let _ = eprint!(rt; "\r{task}{done} of {total} blocks\x1b[K");
            }
            _ => (),
        }
    }

    /// Clears what was told.
    pub(crate) fn close(self, rt: &HostRuntime) {
        if self.total.is_some() {
            let _ = eprint!(rt; "\r\x1b[K");
        }
    }
}
