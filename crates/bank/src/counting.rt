ghost use Rattle.std.specs.Prelude.{◌≡◌, length};
ghost use Rattle.bank.specs.Banks.{has_records, is_enough};
ghost use Rattle.bank.specs.Kinds.{SlotOf, count_of, is_kind};

use crate::kind::Kind;
use crate::slots::SlotsOf;
use crate::window::windows;
use memory::Memory;

// `kind` is no field beside `kinds`, here and in `power_up`, as in `deliver`.

/// How many of the slots are of the kind.
pub fn count_of(kind: Kind, kinds: &[Kind]) -> usize
    ensures { result ≡ count_of kinds.now kind }
{
    // Not the count of `SlotsOf`, which takes ten times as long: here several kinds are looked at in one step.
    kinds.iter().map(|found| usize::from(*found == kind)).sum()
}

/// The slot of the decoder that has a number in its kind's bank, if there is one.
pub fn slot_of(kind: Kind, number: usize, kinds: &[Kind]) -> Option<usize>
    ensures { SlotOf (is_kind kinds.now kind) (length kinds.now) number result }
{
    SlotsOf::new(kind, kinds).nth(number)
}

/// Whether the bank has a record for each slot of the kind.
#[tactic(auto, using(crate::proofs::Counts::count_most))]
fn has_records<T>(bank: &[T], kind: Kind, kinds: &[Kind]) -> bool
    ensures { result ≡ has_records kinds.now kind bank.now }
{
    // Where there are as many records as slots there is no need to count.
    kinds.len() <= bank.len() || count_of(kind, kinds) <= bank.len()
}

/// Whether the bank has a record for each slot of the kind, and the memory a window for each slot.
pub fn is_enough<T, M: Memory>(bank: &[T], kind: Kind, kinds: &[Kind], memory: &M) -> bool
    ensures { result ≡ is_enough kinds.now kind bank.now (M.Memory.cells memory.now) }
{
    let windows = windows(memory);
    has_records(bank, kind, kinds) && kinds.len() <= windows
}
