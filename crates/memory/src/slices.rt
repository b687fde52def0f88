ghost use Rattle.std.specs.Prelude.{◌≡◌, ◌≤◌, Some, IfOk, IfErr, ℕ, ◌*◌, ◌^◌, ◌<◌, List, [], ◌∷◌, length, slice_get, slice_set, ◌/◌};
ghost use Rattle.memory.specs.Cells.{cell_read, cell_write, none_outside, out_of_range};
ghost use Rattle.memory.specs.Places.{PlaceLaws};
ghost use Rattle.memory.specs.Bounds.{places_small};

use crate::memory::Memory;
use fault::{Fault, Refusal};

/// A number that takes up `N` cells of a memory.
pub trait Place<const N: usize>: Copy {
    // The bytes in the cells of places side by side.
    ghost cells: { List Self → List ℕ };

    /// The bytes in its cells.
    fn to_cells(self) -> [u8; N]
        ensures { result ≡ cells (self ∷ []) };

    /// The number with these bytes in its cells.
    fn from_cells(bytes: [u8; N]) -> Self
        ensures { cells (result ∷ []) ≡ bytes.entry };

    /// Puts a byte into one of its cells, where it has that cell.
    #[tactic(auto, using(std::proofs::lemmas::List::set_past))]
    fn put(&mut self, cell: usize, byte: u8)
        ensures { cells (self.new ∷ []) ≡ slice_set (cells (self.old ∷ [])) cell byte }
    {
        let mut bytes = self.to_cells();
        if cell < N {
            bytes[cell] = byte;
        }
        *self = Self::from_cells(bytes);
    }

    // Each place has its own `N` cells, and each of them holds a byte.
    ghost laws: { PlaceLaws N cells };
}

/// A memory of the cells of a slice of places.
// Each kind of place has a `new` of its own: only a place of known size bounds how many a slice has, as `small` asks.
#[derive(Drop)]
pub struct SliceMemory<'a, P: Place<N>, const N: usize> {
    pub(crate) places: &'a mut [P],
    ghost small: { N * length places.now < 2 ^ 64 },
}

impl<'a, P: Place<N>, const N: usize> SliceMemory<'a, P, N> {
    /// The place that the cell belongs to.
    fn place(&self, cell: usize) -> Result<P, Fault>
        ensures ok { IfOk result (λ p. slice_get self.now.places.now (cell / N) ≡ Some p) }
        ensures err { IfErr result (λ e. (length self.now.places.now ≤ cell / N) × (e ≡ out_of_range cell)) }
    {
        self.places
            .get(cell / N)
            .copied()
            .ok_or(Refusal::CellOutOfRange.at(cell))
    }
}

impl<'a, P: Place<N>, const N: usize> Memory for SliceMemory<'a, P, N> {
    ghost cells = { λ m. P.Place.cells m.places.now };

    ghost outside = { λ m. none_outside (P.Place.cells m.places.now) };

    ghost lenders = { λ m. m.places.ghost_name ∷ [] };

    ghost fits = { λ m. P.Place.laws.fit m.places.now };

    ghost small = { λ m. places_small P.Place.laws m.places.now m.small };

    #[tactic(auto, using(crate::specs::Bounds::length_places))]
    fn count(&self) -> usize {
        N * self.places.len()
    }

    #[tactic(auto, using(crate::proofs::PlaceCells::places))]
    fn read(&mut self, cell: usize) -> Result<u8, Fault>
        ensures answer { result ≡ cell_read (P.Place.cells self.old.places.now) cell }
        ensures same { P.Place.cells self.new.places.now ≡ P.Place.cells self.old.places.now }
        ensures outside { none_outside (P.Place.cells self.new.places.now) ≡ none_outside (P.Place.cells self.old.places.now) }
        ensures lenders { self.new.places.ghost_name ∷ [] ≡ self.old.places.ghost_name ∷ [] }
    {
        let bytes = self.place(cell)?.to_cells();
        Ok(bytes[cell % N])
    }

    #[tactic(auto, using(crate::proofs::PlaceCells::places))]
    fn write(&mut self, cell: usize, byte: u8) -> Result<(), Fault>
        ensures answer { result ≡ cell_write (P.Place.cells self.old.places.now) cell }
        ensures after { P.Place.cells self.new.places.now ≡ slice_set (P.Place.cells self.old.places.now) cell byte }
        ensures outside { none_outside (P.Place.cells self.new.places.now) ≡ none_outside (P.Place.cells self.old.places.now) }
        ensures lenders { self.new.places.ghost_name ∷ [] ≡ self.old.places.ghost_name ∷ [] }
    {
        let _ = self.place(cell)?;
        // Tried: `get_mut`. Of what it leaves a proof learns only the length, and `returns-clause-after` didn't close.
        let places = &mut *self.places;
        places[cell / N].put(cell % N, byte);
        Ok(())
    }
}
