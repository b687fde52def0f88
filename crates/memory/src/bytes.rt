ghost use Rattle.std.specs.Prelude.{◌≡◌, [], ◌∷◌};
ghost use Rattle.memory.specs.Cells.{AreBytes, byte_cells};
ghost use Rattle.memory.specs.Bounds.{byte_laws};

use crate::memory::Memory;
use crate::slices::{Place, SliceMemory};

impl Place<1> for u8 {
    ghost cells = { byte_cells };

    ghost laws = { byte_laws };

    fn to_cells(self) -> [u8; 1]
        ensures { result ≡ byte_cells (self ∷ []) }
    {
        [self]
    }

    fn from_cells(bytes: [u8; 1]) -> u8
        ensures { byte_cells (result ∷ []) ≡ bytes }
    {
        bytes[0]
    }
}

/// A memory of one cell for each byte of a slice.
pub type ByteMemory<'a> = SliceMemory<'a, u8, 1>;

impl<'a> ByteMemory<'a> {
    /// The cells are the bytes as they stand, and what is written to a cell stands in the slice.
    pub fn new(bytes: &'a mut [u8]) -> ByteMemory<'a>
        ensures means { ⟦<ByteMemory<'a> as Memory>⟧.cells result ≡ byte_cells bytes.old }
        ensures holds { result.places.now ≡ bytes.old }
        ensures lender { result.places.ghost_name ≡ bytes.entry.ghost_name }
        ensures cells { AreBytes bytes.old → byte_cells result.places.now ≡ bytes.old }
    {
        SliceMemory { places: bytes }
    }
}
