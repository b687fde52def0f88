ghost use Rattle.std.specs.Prelude.{◌≡◌, slice_set, [], ◌∷◌};
ghost use Rattle.memory.specs.Cells.{word_cells};
ghost use Rattle.memory.specs.Bounds.{word_laws};

use crate::memory::Memory;
use crate::slices::{Place, SliceMemory};

impl Place<2> for u16 {
    ghost cells = { word_cells };

    ghost laws = { word_laws };

    fn to_cells(self) -> [u8; 2]
        ensures { result ≡ word_cells (self ∷ []) }
    {
        self.to_le_bytes()
    }

    fn from_cells(bytes: [u8; 2]) -> u16
        ensures { word_cells (result ∷ []) ≡ bytes }
    {
        u16::from_le_bytes(bytes)
    }

    // By halves: the load of both would wait for a byte that is stored into an array.
    fn put(&mut self, cell: usize, byte: u8)
        ensures { word_cells (self.new ∷ []) ≡ slice_set (word_cells (self.old ∷ [])) cell byte }
    {
        match cell {
            0 => *self = *self / 256 * 256 + u16::from(byte),
            1 => *self = *self % 256 + 256 * u16::from(byte),
            _ => {}
        }
    }
}

/// A memory of two cells for each 16-bit word of a slice: the even cell is the low byte.
pub type WordMemory<'a> = SliceMemory<'a, u16, 2>;

impl<'a> WordMemory<'a> {
    /// The cells are the halves of the words as they stand, and what is written to a cell stands in the slice.
    pub fn new(words: &'a mut [u16]) -> WordMemory<'a>
        ensures means { ⟦<WordMemory<'a> as Memory>⟧.cells result ≡ word_cells words.old }
        ensures holds { result.places.now ≡ words.old }
        ensures lender { result.places.ghost_name ≡ words.entry.ghost_name }
    {
        SliceMemory { places: words }
    }
}
