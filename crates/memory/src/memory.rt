ghost use Rattle.std.specs.Prelude.{◌≡◌, ℕ, ◌^◌, ◌<◌, List, length, slice_index, slice_set};
ghost use Rattle.memory.specs.Cells.{Outside, cell_read, cell_write};

use fault::Fault;

/// A fixed count of byte cells, numbered from 0.
///
/// Only a cell at or beyond the count is refused, and then no cell changes.
pub trait Memory {
    // The bytes in the cells.
    ghost cells: { Self → List ℕ };

    // What lies outside of the cells in each memory that this one is a part of, the nearest first.
    ghost outside: { Self → List Outside };

    // The slices that the cells stand in, each by the name of the reference that lends it.
    ghost lenders: { Self → List ℕ };

    /// How many cells there are.
    fn count(&self) -> usize
        ensures { result ≡ length (cells self.now) };

    /// The byte in a cell. No cell changes, though the memory may move things inside.
    fn read(&mut self, cell: usize) -> Result<u8, Fault>
        ensures answer { result ≡ cell_read (cells self.old) cell }
        ensures same { cells self.new ≡ cells self.old }
        ensures outside { outside self.new ≡ outside self.old }
        ensures lenders { lenders self.new ≡ lenders self.old };

    /// Puts the byte into that cell alone: nothing else changes, here or in a memory that this one is a part of.
    fn write(&mut self, cell: usize, byte: u8) -> Result<(), Fault>
        ensures answer { result ≡ cell_write (cells self.old) cell }
        ensures after { cells self.new ≡ slice_set (cells self.old) cell byte }
        ensures outside { outside self.new ≡ outside self.old }
        ensures lenders { lenders self.new ≡ lenders self.old };

    // Every cell holds a byte.
    ghost fits: { (m : Self) (k : ℕ) → slice_index (cells m) k < 256 };

    // Their count is a `usize`.
    ghost small: { (m : Self) → length (cells m) < 2 ^ 64 };
}
