ghost use Rattle.std.specs.Prelude.{◌≡◌};
ghost use Rattle.format.specs.Reading.{basic as basic_of, extended as extended_of, basic_address, extended_address, is_extended_head, accessory as accessory_of};

use crate::lengths::alone;
use crate::reading::told;
use crate::variables::cv_access;
use fault::Refusal;
use packet::{Instruction, Packet, Target};

/// What stands behind the head of a basic accessory decoder.
fn basic(head: u8, rest: &[u8]) -> Result<Instruction, Refusal>
    ensures { result ≡ basic_of head rest.now }
{
    match rest {
        [] => Ok(Instruction::Output {
            output: head % 8,
            on: head / 8 % 2 == 1,
        }),
        _ if head % 16 == 0 => cv_access(rest),
        _ => Err(Refusal::InstructionLength),
    }
}

/// What stands behind the head of an extended accessory decoder.
#[tactic(auto, unfolding(format::specs::Reading::extended))]
fn extended(bytes: &[u8]) -> Result<Instruction, Refusal>
    ensures { result ≡ extended_of bytes.now }
{
    match bytes {
        [] => Err(Refusal::InstructionLength),
        [aspect @ 0..=0x1f, rest @ ..] => alone(rest, Instruction::Aspect { aspect: *aspect }),
        _ => cv_access(bytes),
    }
}

fn basic_address(first: u8, second: u8) -> u16
    ensures { result ≡ basic_address first second }
{
    64 * u16::from(7 - second / 16 % 8) + u16::from(first % 64)
}

fn extended_address(first: u8, second: u8) -> u16
    ensures { result ≡ extended_address first second }
{
    4 * basic_address(first, second) + u16::from(second / 2 % 4)
}

/// The head is 0AAA0AA1.
fn is_extended_head(second: u8) -> bool
    ensures { result ≡ is_extended_head second }
{
    second < 0x80 && second / 8 % 2 == 0 && second % 2 == 1
}

#[tactic(auto, unfolding(format::specs::Reading::accessory))]
pub(crate) fn accessory(first: u8, rest: &[u8]) -> Result<Packet, Refusal>
    ensures { result ≡ accessory_of first rest.now }
{
    match rest {
        [second @ 0x80.., rest @ ..] => {
            let address = basic_address(first, *second);
            told(Target::Basic { address }, basic(*second, rest))
        }
        [second, rest @ ..] if is_extended_head(*second) => {
            let address = extended_address(first, *second);
            told(Target::Extended { address }, extended(rest))
        }
        _ => Err(Refusal::AccessoryHead),
    }
}
