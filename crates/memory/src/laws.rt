ghost use Rattle.memory.specs.Laws.{CellsLie};

/// Each byte of a slice lies in the cell of its number, and each word in two: the even cell is the low byte.
pub fn cells_lie()
    ensures { CellsLie }
{}
