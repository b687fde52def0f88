ghost use Rattle.std.specs.Prelude.{◌≡◌, ◌-◌, true, false, slice_set};
ghost use Rattle.decoder.specs.Alone.{variable as variable_of};
ghost use Rattle.bank.specs.Banks.{ChangedAt, is_there, unless_short};
ghost use Rattle.bank.specs.Windows.{window, has_window, Wrote};

use crate::variables::Variables;
use crate::window::{Window, has_window};
use fault::{Fault, Refusal};
use memory::Memory;
use packet::CvNumber;

/// Sets one variable of the decoder of a number at its slot, and no write waits there any more.
///
/// An inner call of the board. Refused, and nothing changes, where the bank has no record of that
/// number or the memory not the slot's window.
// The clauses that hang on `is_there` are not those of `Fits`: a record changes with the window, and both are refused.
pub fn set_variable<T: Variables, M: Memory>(
    bank: &mut [T],
    number: usize,
    memory: &mut M,
    slot: usize,
    cv: CvNumber,
    value: u8,
) -> Result<(), Fault>
    ensures answer { result ≡ unless_short (is_there number slot bank.old (M.Memory.cells memory.old)) tt }
    ensures record { is_there number slot bank.old (M.Memory.cells memory.old) ≡ true → ChangedAt number T.Listener.rules.unwaits bank.old bank.new }
    ensures cells { is_there number slot bank.old (M.Memory.cells memory.old) ≡ true → Wrote (M.Memory.cells memory.old) (M.Memory.cells memory.new) slot (slice_set (window (M.Memory.cells memory.old) slot) (cv.number - 1) value) }
    ensures refused { is_there number slot bank.old (M.Memory.cells memory.old) ≡ false → (bank.new ≡ bank.old) × (M.Memory.cells memory.new ≡ M.Memory.cells memory.old) }
    ensures outside { M.Memory.outside memory.new ≡ M.Memory.outside memory.old }
    ensures lenders { M.Memory.lenders memory.new ≡ M.Memory.lenders memory.old }
{
    if number >= bank.len() || !has_window(memory, slot) {
        return Err(Refusal::LentTooShort.into());
    }
    bank[number].end_wait();
    Window::new(memory, slot).put(cv, value);
    Ok(())
}

/// One variable of the decoder at a slot.
///
/// An inner call of the board. Refused where the memory has not the slot's window.
pub fn variable<M: Memory>(memory: &mut M, slot: usize, cv: CvNumber) -> Result<u8, Fault>
    ensures answer { result ≡ unless_short (has_window slot (M.Memory.cells memory.old)) (variable_of (window (M.Memory.cells memory.old) slot) cv.number) }
    ensures same { M.Memory.cells memory.new ≡ M.Memory.cells memory.old }
    ensures outside { M.Memory.outside memory.new ≡ M.Memory.outside memory.old }
    ensures lenders { M.Memory.lenders memory.new ≡ M.Memory.lenders memory.old }
{
    if !has_window(memory, slot) {
        return Err(Refusal::LentTooShort.into());
    }
    Ok(Window::new(memory, slot).get(cv))
}
