ghost use Rattle.std.specs.Prelude.{◌≡◌, slice_set};
ghost use Rattle.memory.specs.Cells.{cell_read, cell_write, strip_cells, strip_check};
ghost use Rattle.memory.specs.Bounds.{strip_fits, strip_small};
ghost use Rattle.memory.specs.Strips.{cells_below, cells_within, below_written, outsides, rejoined};

use crate::memory::Memory;
use fault::{Fault, Refusal};

/// A part of another memory as a memory of its own: its cell `k` is the cell `first + k` below.
///
/// Where the memory below ends sooner, so does the strip.
#[derive(Drop)]
pub struct Strip<M: Memory> {
    below: M,
    first: usize,
    count: usize,
}

impl<M: Memory> Strip<M> {
    /// Whether all `count` cells from `first` on are there below. If not, the refusal names `first`.
    pub fn check(below: &M, first: usize, count: usize) -> Result<(), Fault>
        ensures { result ≡ strip_check (M.Memory.cells below.now) first count }
    {
        let total = below.count();
        if first <= total && count <= total - first {
            Ok(())
        } else {
            Err(Refusal::CellOutOfRange.at(first))
        }
    }

    /// The `count` cells from `first` on, or as many of them as there are.
    pub fn new(below: M, first: usize, count: usize) -> Strip<M>
        ensures is { result ≡ record { below = below; first = first; count = count } }
        ensures cells { cells_within M.Memory.cells result ≡ strip_cells (M.Memory.cells below) first count }
        ensures below { cells_below M.Memory.cells result ≡ M.Memory.cells below }
    {
        Strip {
            below,
            first,
            count,
        }
    }

    /// The memory below, with what was written through the strip.
    pub fn into_inner(self) -> M
        ensures is { result ≡ self.below }
        ensures cells { M.Memory.cells result ≡ rejoined M.Memory.cells self }
    {
        let Strip { below, .. } = self;
        below
    }
}

impl<M: Memory> Memory for Strip<M> {
    ghost cells = { cells_within M.Memory.cells };

    ghost outside = { outsides M.Memory.cells M.Memory.outside };

    ghost lenders = { λ s. M.Memory.lenders s.below };

    ghost fits = { λ s. strip_fits (M.Memory.cells s.below) s.first s.count (M.Memory.fits s.below) };

    ghost small = { λ s. strip_small (M.Memory.cells s.below) s.first s.count (M.Memory.small s.below) };

    fn count(&self) -> usize {
        self.count
            .min(self.below.count().saturating_sub(self.first))
    }

    fn read(&mut self, cell: usize) -> Result<u8, Fault>
        ensures answer { result ≡ cell_read (cells_within M.Memory.cells self.old) cell }
        ensures same { cells_within M.Memory.cells self.new ≡ cells_within M.Memory.cells self.old }
        ensures outside { outsides M.Memory.cells M.Memory.outside self.new ≡ outsides M.Memory.cells M.Memory.outside self.old }
        ensures lenders { M.Memory.lenders self.new.below ≡ M.Memory.lenders self.old.below }
        ensures below { cells_below M.Memory.cells self.new ≡ cells_below M.Memory.cells self.old }
        ensures first { self.new.first ≡ self.old.first }
        ensures count { self.new.count ≡ self.old.count }
    {
        if cell < self.count() {
            self.below.read(self.first + cell)
        } else {
            Err(Refusal::CellOutOfRange.at(cell))
        }
    }

    fn write(&mut self, cell: usize, byte: u8) -> Result<(), Fault>
        ensures answer { result ≡ cell_write (cells_within M.Memory.cells self.old) cell }
        ensures after { cells_within M.Memory.cells self.new ≡ slice_set (cells_within M.Memory.cells self.old) cell byte }
        ensures outside { outsides M.Memory.cells M.Memory.outside self.new ≡ outsides M.Memory.cells M.Memory.outside self.old }
        ensures lenders { M.Memory.lenders self.new.below ≡ M.Memory.lenders self.old.below }
        ensures below { cells_below M.Memory.cells self.new ≡ below_written M.Memory.cells self.old cell byte }
        ensures first { self.new.first ≡ self.old.first }
        ensures count { self.new.count ≡ self.old.count }
    {
        if cell >= self.count() {
            return Err(Refusal::CellOutOfRange.at(cell));
        }
        self.below.write(self.first + cell, byte)
    }
}
