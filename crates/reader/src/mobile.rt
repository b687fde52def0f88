ghost use Rattle.std.specs.Prelude.{◌≡◌};
ghost use Rattle.format.specs.Reading.{alone, with_one, consist as consist_of, speed126 as speed_of, binary_long, binary_short, eight as eight_of, by_first, mobile as mobile_of};

use crate::lengths::{alone, with_one, with_two};
use crate::variables::long_form;
use fault::Refusal;
use packet::{FunctionGroup, Instruction};

fn consist(reversed: bool, address: u8) -> Result<Instruction, Refusal>
    ensures { result ≡ consist_of reversed address }
{
    match address {
        0..=0x7f => Ok(Instruction::Consist { reversed, address }),
        _ => Err(Refusal::ReservedInstruction),
    }
}

fn speed126(b: u8) -> Result<Instruction, Refusal>
    ensures { result ≡ speed_of b }
{
    Ok(Instruction::Speed126 {
        forward: b >= 0x80,
        code: b % 128,
    })
}

fn binary_state_long(low: u8, high: u8) -> Result<Instruction, Refusal>
    ensures { result ≡ binary_long low high }
{
    Ok(Instruction::BinaryStateLong {
        on: low >= 0x80,
        number: u16::from(low % 128) + 128 * u16::from(high),
    })
}

fn binary_state_short(b: u8) -> Result<Instruction, Refusal>
    ensures { result ≡ binary_short b }
{
    Ok(Instruction::BinaryStateShort {
        on: b >= 0x80,
        number: b % 128,
    })
}

/// Functions by bits of the first byte.
fn functions(rest: &[u8], group: FunctionGroup, bits: u8) -> Result<Instruction, Refusal>
    ensures { result ≡ alone (Instruction.Functions group bits) rest.now }
{
    alone(rest, Instruction::Functions { group, bits })
}

/// Eight functions by a byte of their own.
fn eight(rest: &[u8], group: FunctionGroup) -> Result<Instruction, Refusal>
    ensures { result ≡ with_one (eight_of group) rest.now }
{
    with_one(rest, |bits| Ok(Instruction::Functions { group, bits }))
}

fn by_first(first: u8, rest: &[u8]) -> Result<Instruction, Refusal>
    ensures { result ≡ by_first first rest.now }
{
    match first {
        0x00 => alone(rest, Instruction::Reset),
        0x01 => alone(rest, Instruction::HardReset),
        0x0a | 0x0b => alone(rest, Instruction::AdvancedAddressing { on: first == 0x0b }),
        0x0f => alone(rest, Instruction::AcknowledgmentRequest),
        0x12 | 0x13 => with_one(rest, |address| consist(first == 0x13, address)),
        0x3f => with_one(rest, speed126),
        0x40..=0x7f => alone(
            rest,
            Instruction::Speed {
                forward: first >= 0x60,
                code: first % 32,
            },
        ),
        0x80..=0x9f => functions(rest, FunctionGroup::F0ToF4, first % 32),
        0xa0..=0xaf => functions(rest, FunctionGroup::F9ToF12, first % 16),
        0xb0..=0xbf => functions(rest, FunctionGroup::F5ToF8, first % 16),
        0xc0 => with_two(rest, binary_state_long),
        0xd8 => eight(rest, FunctionGroup::F29ToF36),
        0xd9 => eight(rest, FunctionGroup::F37ToF44),
        0xda => eight(rest, FunctionGroup::F45ToF52),
        0xdb => eight(rest, FunctionGroup::F53ToF60),
        0xdc => eight(rest, FunctionGroup::F61ToF68),
        0xdd => with_one(rest, binary_state_short),
        0xde => eight(rest, FunctionGroup::F13ToF20),
        0xdf => eight(rest, FunctionGroup::F21ToF28),
        0xe4..=0xef => long_form(first, rest),
        0xf2 => with_one(
            rest,
            |value| Ok(Instruction::AccelerationAdjustment { value }),
        ),
        0xf3 => with_one(
            rest,
            |value| Ok(Instruction::DecelerationAdjustment { value }),
        ),
        _ => Err(Refusal::ReservedInstruction),
    }
}

/// One instruction to a mobile decoder, taken apart as its first byte and the rest.
#[tactic(auto, unfolding(format::specs::Reading::mobile))]
pub(crate) fn mobile(bytes: &[u8]) -> Result<Instruction, Refusal>
    ensures { result ≡ mobile_of bytes.now }
{
    match bytes {
        [] => Err(Refusal::NoInstruction),
        [first, rest @ ..] => by_first(*first, rest),
    }
}
