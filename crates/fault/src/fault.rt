ghost use Rattle.std.specs.Prelude.{◌≡◌};
ghost use Rattle.fault.specs.Places.{nowhere};

use crate::refusal::Refusal;
use thiserror::Error;

/// A refusal and where it stands: a byte of a block or a cell of a memory, else 0.
#[derive(Clone, Copy, PartialEq, Eq, Debug, Error)]
#[error("{} {refusal}, offset {offset}", .refusal.number())]
pub struct Fault {
    pub refusal: Refusal,
    pub offset: usize,
}

/// A refusal that is about no place.
impl From<Refusal> for Fault {
    ghost from_gives = { λ refusal fault. fault ≡ nowhere refusal };

    fn from(refusal: Refusal) -> Fault {
        Fault { refusal, offset: 0 }
    }
}
