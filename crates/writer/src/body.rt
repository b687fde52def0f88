ghost use Rattle.std.specs.Prelude.{◌≡◌, ◌≤◌};
ghost use Rattle.format.specs.Writing.{flag as flag_of, at_cv, at_bit, cv_body, function_bytes, form_of, idle_body, mobile_body, basic_body, extended_body, body_of};
ghost use Rattle.writer.specs.Contents.{listed};

use crate::bytes::{Bytes, bytes};
use fault::Refusal;
use packet::{CvNumber, FunctionGroup, Instruction, Packet, Target, WireAddress};

/// A bit of a byte, by its weight.
pub(crate) fn flag(on: bool, weight: u8) -> u8
    ensures { result ≡ flag_of on weight }
{
    if on { weight } else { 0 }
}

/// A long-form instruction on a variable.
fn at_cv(first: u8, cv: CvNumber, last: u8) -> Bytes
    requires { first ≤ 0xec }
    ensures { result.items ≡ at_cv first cv last }
{
    let [upper, lower] = WireAddress::from(cv).to_bytes();
    bytes([first + upper, lower, last])
}

fn at_bit(form: u8, cv: CvNumber, bit: u8, value: bool) -> Result<Bytes, Refusal>
    requires { form ≤ 0xf0 }
    ensures { listed result ≡ at_bit form cv bit value }
{
    if bit >= 8 {
        return Err(Refusal::FieldOutOfRange);
    }
    Ok(at_cv(0xe8, cv, form + flag(value, 8) + bit))
}

fn function_bytes(group: FunctionGroup, bits: u8) -> Result<Bytes, Refusal>
    ensures { listed result ≡ function_bytes group bits }
{
    match group {
        FunctionGroup::F0ToF4 if bits < 32 => Ok(bytes([0x80 + bits])),
        FunctionGroup::F5ToF8 if bits < 16 => Ok(bytes([0xb0 + bits])),
        FunctionGroup::F9ToF12 if bits < 16 => Ok(bytes([0xa0 + bits])),
        FunctionGroup::F0ToF4 | FunctionGroup::F5ToF8 | FunctionGroup::F9ToF12 => Err(
            Refusal::FieldOutOfRange,
        ),
        FunctionGroup::F13ToF20 => Ok(bytes([0xde, bits])),
        FunctionGroup::F21ToF28 => Ok(bytes([0xdf, bits])),
        FunctionGroup::F29ToF36 => Ok(bytes([0xd8, bits])),
        FunctionGroup::F37ToF44 => Ok(bytes([0xd9, bits])),
        FunctionGroup::F45ToF52 => Ok(bytes([0xda, bits])),
        FunctionGroup::F53ToF60 => Ok(bytes([0xdb, bits])),
        FunctionGroup::F61ToF68 => Ok(bytes([0xdc, bits])),
    }
}

/// The long form, which every decoder with variables takes.
fn cv_body(instruction: Instruction) -> Result<Bytes, Refusal>
    ensures { listed result ≡ cv_body (form_of instruction) }
{
    match instruction {
        Instruction::VerifyByte { cv, value } => Ok(at_cv(0xe4, cv, value)),
        Instruction::WriteByte { cv, value } => Ok(at_cv(0xec, cv, value)),
        Instruction::VerifyBit { cv, bit, value } => at_bit(0xe0, cv, bit, value),
        Instruction::WriteBit { cv, bit, value } => at_bit(0xf0, cv, bit, value),
        _ => Err(Refusal::FieldOutOfRange),
    }
}

fn idle_body(instruction: Instruction) -> Result<Bytes, Refusal>
    ensures { listed result ≡ idle_body (form_of instruction) }
{
    match instruction {
        Instruction::NoOperation => Ok(bytes([])),
        _ => Err(Refusal::FieldOutOfRange),
    }
}

fn mobile_body(instruction: Instruction) -> Result<Bytes, Refusal>
    ensures { listed result ≡ mobile_body (form_of instruction) }
{
    match instruction {
        Instruction::Reset => Ok(bytes([0x00])),
        Instruction::HardReset => Ok(bytes([0x01])),
        Instruction::AdvancedAddressing { on } => Ok(bytes([0x0a + flag(on, 1)])),
        Instruction::AcknowledgmentRequest => Ok(bytes([0x0f])),
        Instruction::Consist { reversed, address } if address < 128 => Ok(bytes([
            0x12 + flag(reversed, 1),
            address,
        ])),
        Instruction::Speed { forward, code } if code < 32 => Ok(bytes([
            0x40 + flag(forward, 0x20) + code,
        ])),
        Instruction::Speed126 { forward, code } if code < 128 => Ok(bytes([
            0x3f,
            flag(forward, 128) + code,
        ])),
        Instruction::Functions { group, bits } => function_bytes(group, bits),
        Instruction::BinaryStateShort { on, number } if number < 128 => Ok(bytes([
            0xdd,
            flag(on, 128) + number,
        ])),
        Instruction::BinaryStateLong { on, number } if number < 32768 => Ok(bytes([
            0xc0,
            flag(on, 128) + (number % 128) as u8,
            (number / 128) as u8,
        ])),
        Instruction::AccelerationAdjustment { value } => Ok(bytes([0xf2, value])),
        Instruction::DecelerationAdjustment { value } => Ok(bytes([0xf3, value])),
        Instruction::VerifyByte { .. }
        | Instruction::WriteByte { .. }
        | Instruction::VerifyBit { .. }
        | Instruction::WriteBit { .. } => cv_body(instruction),
        _ => Err(Refusal::FieldOutOfRange),
    }
}

fn basic_body(instruction: Instruction) -> Result<Bytes, Refusal>
    ensures { listed result ≡ basic_body (form_of instruction) }
{
    match instruction {
        Instruction::Output { output: 0..=7, .. } => Ok(bytes([])),
        _ => cv_body(instruction),
    }
}

fn extended_body(instruction: Instruction) -> Result<Bytes, Refusal>
    ensures { listed result ≡ extended_body (form_of instruction) }
{
    match instruction {
        Instruction::Aspect { aspect } if aspect < 32 => Ok(bytes([aspect])),
        _ => cv_body(instruction),
    }
}

pub(crate) fn body(packet: Packet) -> Result<Bytes, Refusal>
    ensures { listed result ≡ body_of packet.target (form_of packet.instruction) }
{
    let Packet {
        target,
        instruction,
    } = packet;
    match target {
        Target::Idle => idle_body(instruction),
        Target::Broadcast | Target::Short { .. } | Target::Long { .. } => mobile_body(instruction),
        Target::Basic { .. } => basic_body(instruction),
        Target::Extended { .. } => extended_body(instruction),
    }
}
