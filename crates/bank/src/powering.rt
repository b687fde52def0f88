ghost use Rattle.std.specs.Prelude.{◌≡◌, ℕ, true, false, List, length};
ghost use Rattle.decoder.specs.Alone.{live, powered};
ghost use Rattle.bank.specs.Banks.{ChangedBelow, Turned, has_records, unless_short};
ghost use Rattle.bank.specs.Kinds.{is_kind};

use crate::counting::count_of;
use crate::kind::Kind;
use crate::listener::Listener;
use fault::{Fault, Refusal};

/// The power comes up for every decoder of the kind; their variables stay.
///
/// An inner call of the board. Refused, and nothing changes, where the bank has fewer records than
/// the slots have decoders of the kind.
pub fn power_up<T: Listener>(bank: &mut [T], kind: Kind, kinds: &[Kind]) -> Result<(), Fault>
    ensures answer { result ≡ unless_short (has_records kinds.now kind bank.old) tt }
    ensures turned { has_records kinds.now kind bank.old ≡ true → (cells : List ℕ) → Turned (is_kind kinds.now kind) (length kinds.now) (λ _ o. live T.Listener.rules o powered) bank.old cells bank.new cells }
    ensures refused { has_records kinds.now kind bank.old ≡ false → bank.new ≡ bank.old }
{
    let count = count_of(kind, kinds);
    if count > bank.len() {
        return Err(Refusal::LentTooShort.into());
    }
    power_up_each(&mut bank[..count]);
    Ok(())
}

/// The power comes up for each record.
fn power_up_each<T: Listener>(bank: &mut [T])
    ensures { ChangedBelow (length bank.old) T.Listener.rules.starts bank.old bank.new }
{
    for record in bank.iter_mut() {
        record.power_up();
    }
}
