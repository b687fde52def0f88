ghost use Rattle.std.specs.Prelude.{◌≤◌, length};

use arrayvec::ArrayVec;
use bank::Kind;

// Two types, and not one over its phase: each has calls of its own, and no more in common than these two lines and `kinds`.

/// A board to which decoders are fitted. It cannot run yet.
#[derive(Drop)]
pub struct Fitting {
    pub(crate) kinds: ArrayVec<Kind, 32>,
    ghost short: { length kinds.items ≤ 32 },
}

/// A board that runs. Nothing can be fitted to it any more.
#[derive(Drop)]
pub struct Running {
    pub(crate) kinds: ArrayVec<Kind, 32>,
    ghost short: { length kinds.items ≤ 32 },
}
