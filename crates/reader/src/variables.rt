ghost use Rattle.std.specs.Prelude.{◌≡◌};
ghost use Rattle.packet.specs.Wires.{cv_at};
ghost use Rattle.format.specs.Reading.{bit_operation as bit_operation_of, long_form, cv_access};

use crate::lengths::with_two;
use fault::Refusal;
use packet::{CvNumber, Instruction, WireAddress};

fn cv_at(first: u8, second: u8) -> CvNumber
    ensures { result ≡ cv_at first second }
{
    WireAddress::from_bytes(first, second).into()
}

fn bit_operation(first: u8, second: u8, last: u8) -> Result<Instruction, Refusal>
    ensures { result ≡ bit_operation_of first second last }
{
    let cv = cv_at(first, second);
    let bit = last % 8;
    let value = last / 8 % 2 == 1;
    match last {
        0xe0..=0xef => Ok(Instruction::VerifyBit { cv, bit, value }),
        0xf0..=0xff => Ok(Instruction::WriteBit { cv, bit, value }),
        _ => Err(Refusal::ReservedInstruction),
    }
}

/// A verify, a bit operation or a write, by the first byte.
pub(crate) fn long_form(first: u8, rest: &[u8]) -> Result<Instruction, Refusal>
    ensures { result ≡ long_form first rest.now }
{
    match first {
        0..=0xe7 => with_two(rest, |second, value| {
            Ok(Instruction::VerifyByte {
                cv: cv_at(first, second),
                value,
            })
        }),
        0xe8..=0xeb => with_two(rest, |second, last| bit_operation(first, second, last)),
        _ => with_two(rest, |second, value| {
            Ok(Instruction::WriteByte {
                cv: cv_at(first, second),
                value,
            })
        }),
    }
}

/// A long form and no other instruction.
#[tactic(auto, unfolding(format::specs::Reading::cv_access))]
pub(crate) fn cv_access(bytes: &[u8]) -> Result<Instruction, Refusal>
    ensures { result ≡ cv_access bytes.now }
{
    match bytes {
        [] => Err(Refusal::InstructionLength),
        [first @ 0xe4..=0xef, rest @ ..] => long_form(*first, rest),
        _ => Err(Refusal::ReservedInstruction),
    }
}
