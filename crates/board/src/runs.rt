ghost use Rattle.std.specs.Prelude.{◌≡◌, ◌≤◌, true, ◌&&◌, [], length, take, drop, if◌then◌else◌, Some, None, nat_le};
ghost use Rattle.fault.specs.declared.refusal.Refusal.TheVariants.{PlaceTooShort};
ghost use Rattle.script.specs.Decoders.{refused_by};
ghost use Rattle.script.specs.Boards.{is_lent};
ghost use Rattle.script.specs.Calls.{OnSuccess, OnRefusal, refused_with};
ghost use Rattle.script.specs.Promises.{Promised};
ghost use Rattle.roster.specs.Held.{held, SameLenders};
ghost use Rattle.board.specs.Slots.{fitting_kinds, running_kinds};
ghost use Rattle.board.specs.Steps.{FittedAll, PerformedAll};

use crate::boards::{Fitting, Running};
use fault::{Fault, Refusal};
use memory::Memory;
use roster::BanksMut;
use script::{Answer, Call, Fit};

/// A whole run: a new board, the fittings, the start, and the calls, each answered at its place, refused ones too.
///
/// The places for the answers are lent, as there is no heap. Refused with 21, and nothing is done, where there are
/// fewer
/// places than fittings or calls.
pub fn run<M: Memory>(
    fits: &[Fit],
    calls: &[Call<'_>],
    banks: &mut BanksMut<'_>,
    memory: &mut M,
    numbers: &mut [Result<usize, Fault>],
    answers: &mut [Result<Answer, Fault>],
) -> Result<Running, Fault>
    ensures answer { refused_with result ≡ (if nat_le (length fits.now) (length numbers.old) && nat_le (length calls.now) (length answers.old) then None else Some (refused_by PlaceTooShort)) }
    ensures promised { OnSuccess result (λ b. Promised fits.now calls.now (held M.Memory banks.old memory.old) (running_kinds b) (held M.Memory banks.new memory.new) (take (length fits.now) numbers.new) (take (length calls.now) answers.new)) }
    ensures spare { OnSuccess result (λ _. (drop (length fits.now) numbers.new ≡ drop (length fits.now) numbers.old) × (drop (length calls.now) answers.new ≡ drop (length calls.now) answers.old)) }
    ensures refused { OnRefusal result ((held M.Memory banks.new memory.new ≡ held M.Memory banks.old memory.old) × (numbers.new ≡ numbers.old) × (answers.new ≡ answers.old)) }
    ensures lenders { SameLenders M.Memory banks.old memory.old banks.new memory.new }
{
    if numbers.len() < fits.len() || answers.len() < calls.len() {
        return Err(Refusal::PlaceTooShort.into());
    }
    let mut board = Fitting::new();
    fit_all(&mut board, fits, banks, memory, numbers);
    let board = board.start();
    perform_all(&board, calls, banks, memory, answers);
    Ok(board)
}

fn fit_all<M: Memory>(
    board: &mut Fitting,
    fits: &[Fit],
    banks: &mut BanksMut<'_>,
    memory: &mut M,
    numbers: &mut [Result<usize, Fault>],
)
    requires new { fitting_kinds board.old ≡ [] }
    requires room { length fits.now ≤ length numbers.old }
    ensures fitted { FittedAll fits.now (held M.Memory banks.old memory.old) (fitting_kinds board.new) (held M.Memory banks.new memory.new) numbers.old numbers.new }
    ensures lenders { SameLenders M.Memory banks.old memory.old banks.new memory.new }
{
    // Tried: a zip with `numbers.iter_mut()`, of which a proof knows afterwards how many numbers there are, and none
    // of them.
    for (i, fit) in fits.iter().enumerate() {
        numbers[i] = board.fit(banks, memory, *fit);
    }
}

fn perform_all<M: Memory>(
    board: &Running,
    calls: &[Call<'_>],
    banks: &mut BanksMut<'_>,
    memory: &mut M,
    answers: &mut [Result<Answer, Fault>],
)
    requires lent { is_lent (running_kinds board.now) (held M.Memory banks.old memory.old) ≡ true }
    requires room { length calls.now ≤ length answers.old }
    ensures performed { PerformedAll calls.now (running_kinds board.now) (held M.Memory banks.old memory.old) (held M.Memory banks.new memory.new) answers.old answers.new }
    ensures lenders { SameLenders M.Memory banks.old memory.old banks.new memory.new }
{
    // By its index, as the fittings are and for the same reason. One loop over a closure for both would have to say
    // what the closure
    // makes of the banks and the memory, which is all that these two say.
    for (i, call) in calls.iter().enumerate() {
        answers[i] = board.perform(banks, memory, call);
    }
}
