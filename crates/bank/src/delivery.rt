ghost use Rattle.std.specs.Prelude.{◌≡◌, ℕ, ◌*◌, ◌≤◌, true, false, length, slice_index};
ghost use Rattle.bank.specs.Banks.{Turned, Kept, hears_at, is_enough, unless_short};
ghost use Rattle.bank.specs.Hearers.{after_hearing};
ghost use Rattle.bank.specs.Kinds.{count_below, count_of, is_kind};

use crate::counting::is_enough;
use crate::kind::Kind;
use crate::slots::SlotsOf;
use crate::variables::Variables;
use crate::window::Window;
use fault::{Fault, Refusal};
use memory::Memory;
use packet::Packet;

/// Every decoder of the kind hears the packet, in the order of the slots. Answers how many did.
///
/// An inner call of the board. Refused, and nothing changes, where the bank has fewer records than
/// the slots have decoders of the kind, or the memory has fewer windows than there are slots.
// `kind` is no constant of `T`, and no field beside `kinds`: a bank of any type may stand for any kind, and a
// board asks for each kind in turn of one list. `packet` and what it says are no struct: that the bytes read so is
// asked of nobody, and without that it would only rename them. `outside` is no part of `Kept`, nor in `setting` of
// `Wrote`: those
// compare lists of cells.
pub fn deliver<T: Variables, M: Memory>(
    bank: &mut [T],
    kind: Kind,
    kinds: &[Kind],
    memory: &mut M,
    packet: &[u8],
    said: Packet,
) -> Result<usize, Fault>
    ensures answer { result ≡ unless_short (is_enough kinds.now kind bank.old (M.Memory.cells memory.old)) (count_below (hears_at T.Listener.rules said.target (is_kind kinds.now kind) bank.old (M.Memory.cells memory.old)) (length kinds.now)) }
    ensures turned { is_enough kinds.now kind bank.old (M.Memory.cells memory.old) ≡ true → Turned (is_kind kinds.now kind) (length kinds.now) (λ _. after_hearing T.Listener.rules packet.now said.target said.instruction) bank.old (M.Memory.cells memory.old) bank.new (M.Memory.cells memory.new) }
    ensures kept { is_enough kinds.now kind bank.old (M.Memory.cells memory.old) ≡ true → Kept (is_kind kinds.now kind) (length kinds.now) (M.Memory.cells memory.old) (M.Memory.cells memory.new) }
    ensures refused { is_enough kinds.now kind bank.old (M.Memory.cells memory.old) ≡ false → (bank.new ≡ bank.old) × (M.Memory.cells memory.new ≡ M.Memory.cells memory.old) }
    ensures beyond { (k : ℕ) → 1024 * length kinds.now ≤ k → slice_index (M.Memory.cells memory.new) k ≡ slice_index (M.Memory.cells memory.old) k }
    ensures outside { M.Memory.outside memory.new ≡ M.Memory.outside memory.old }
    ensures lenders { M.Memory.lenders memory.new ≡ M.Memory.lenders memory.old }
{
    if !is_enough(bank, kind, kinds, memory) {
        return Err(Refusal::LentTooShort.into());
    }
    Ok(deliver_all(bank, kind, kinds, memory, packet, said))
}

fn deliver_all<T: Variables, M: Memory>(
    bank: &mut [T],
    kind: Kind,
    kinds: &[Kind],
    memory: &mut M,
    packet: &[u8],
    said: Packet,
) -> usize
    requires records { count_of kinds.now kind ≤ length bank.old }
    requires windows { 1024 * length kinds.now ≤ length (M.Memory.cells memory.old) }
    ensures answer { result ≡ count_below (hears_at T.Listener.rules said.target (is_kind kinds.now kind) bank.old (M.Memory.cells memory.old)) (length kinds.now) }
    ensures turned { Turned (is_kind kinds.now kind) (length kinds.now) (λ _. after_hearing T.Listener.rules packet.now said.target said.instruction) bank.old (M.Memory.cells memory.old) bank.new (M.Memory.cells memory.new) }
    ensures kept { Kept (is_kind kinds.now kind) (length kinds.now) (M.Memory.cells memory.old) (M.Memory.cells memory.new) }
    ensures outside { M.Memory.outside memory.new ≡ M.Memory.outside memory.old }
    ensures lenders { M.Memory.lenders memory.new ≡ M.Memory.lenders memory.old }
{
    // By its number: of a zip with `bank.iter_mut()`, which was tried, a proof knows afterwards how many records
    // there are, and none of them.
    let mut heard = 0;
    for (number, slot) in SlotsOf::new(kind, kinds).enumerate() {
        let mut window = Window::new(memory, slot);
        let hears = bank[number].hear(&mut window, packet, said);
        heard += usize::from(hears);
    }
    heard
}
