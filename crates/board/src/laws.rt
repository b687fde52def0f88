ghost use Rattle.board.specs.Strips.{StripsKept};

use memory::{Memory, Strip};

/// A board on a strip of another memory changes nothing there but the windows of its decoders.
pub fn strips_kept<M: Memory>()
    ensures { StripsKept M.Memory ⟦<Strip<M> as Memory>⟧ }
{}
