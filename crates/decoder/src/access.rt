ghost use Rattle.std.specs.Prelude.{◌≡◌};
ghost use Rattle.decoder.specs.Accesses.{access_of, accessed as accessed_of, agrees as agrees_of, result as result_of, barred as barred_of, writes_in, waits_after, access_acts};
ghost use Rattle.decoder.specs.Mobiles.{access_effect};

use crate::effect::{Access, Accessed, Change, Effect};
use crate::heard::Heard;
use crate::role::Role;
use crate::view::NamedVariable;
use packet::Instruction;
use state::{WaitingWrite, has_bit, with_bit};

/// The instruction as one in the long form, if it is one.
pub fn access_of(instruction: Instruction) -> Option<Access>
    ensures { result ≡ access_of instruction }
{
    let (cv, writes, change) = match instruction {
        Instruction::VerifyByte { cv, value } => (cv, false, Change::Byte(value)),
        Instruction::WriteByte { cv, value } => (cv, true, Change::Byte(value)),
        Instruction::VerifyBit { cv, bit, value } => (cv, false, Change::Bit { bit, on: value }),
        Instruction::WriteBit { cv, bit, value } => (cv, true, Change::Bit { bit, on: value }),
        _ => return None,
    };
    Some(Access { cv, writes, change })
}

impl Change {
    /// Whether a variable with this value is as the change says.
    fn agrees(self, value: u8) -> bool
        ensures { result ≡ agrees_of self value }
    {
        match self {
            Change::Byte(byte) => byte == value,
            Change::Bit { bit, on } => has_bit(value, bit) == on,
        }
    }

    /// What the change makes of a variable with this value.
    fn result(self, value: u8) -> u8
        ensures { result ≡ result_of self value }
    {
        match self {
            Change::Byte(byte) => byte,
            Change::Bit { bit, on } => with_bit(value, bit, on),
        }
    }
}

/// Whether packets never write the variable of that number, where so many stand before the kind's own.
pub fn barred(offset: u16, number: u16) -> bool
    ensures { result ≡ barred_of offset number }
{
    matches!(number.checked_sub(offset), Some(7 | 8))
}

/// What a long form that acts does to its variable.
pub(crate) fn access_effect(accessed: Option<Accessed>) -> Option<Effect>
    ensures { result ≡ access_effect accessed }
{
    let Accessed { access, value, .. } = accessed?;
    access.writes.then_some(Effect::Put {
        cv: access.cv,
        value: access.change.result(value),
    })
}

impl Heard {
    /// The long form that it is, if it is one and this is the variable that it names.
    pub(crate) fn accessed(self, named: Option<NamedVariable>) -> Option<Accessed>
        ensures { result ≡ accessed_of (access_of self.instruction) named }
    {
        let access = access_of(self.instruction)?;
        let NamedVariable { value, read_only } = named?;
        Some(Accessed {
            access,
            value,
            read_only,
        })
    }

    /// Whether it is a write that counts: one by the own address or to all.
    fn writes(self) -> bool
        ensures { result ≡ writes_in self.role self.instruction }
    {
        self.role != Role::Consist
            && access_of(self.instruction).is_some_and(|access| access.writes)
    }

    /// What waits afterwards: a write unless it is the one that waited, and after any other nothing.
    pub(crate) fn waits_after(self, waiting: Option<WaitingWrite>) -> Option<WaitingWrite>
        ensures { result ≡ waits_after waiting self.role self.packet self.instruction }
    {
        (self.writes() && !self.packet.repeats(waiting)).then_some(self.packet)
    }

    /// Whether it acts as a long form, this one.
    pub(crate) fn accesses(self, waiting: Option<WaitingWrite>, accessed: Option<Accessed>) -> bool
        ensures { result ≡ access_acts waiting self.packet accessed }
    {
        match accessed {
            Some(named) if named.access.writes => {
                self.packet.repeats(waiting) && !named.read_only
            }
            Some(named) => named.access.change.agrees(named.value),
            None => false,
        }
    }
}
