ghost use Rattle.std.specs.Prelude.{Some};
ghost use Rattle.std.specs.Fmt.{WritesOnOk};
ghost use Rattle.words.specs.Functions.{functions_text};
ghost use Rattle.words.specs.Instructions.{consist_text, instruction_text};
ghost use Rattle.words.specs.Speeds.{speed_text, speed126_text};

use crate::lists::NumbersOn;
use crate::switches::{direction, switched};
use crate::wrapper::InWords;
use packet::{FunctionGroup, Instruction};
use state::{Functions, Scale, Speed, has_bit};
use std::fmt;

/// The functions that are on after their group is switched, all off before. FL, in the first group, is F0.
fn functions<W: fmt::Write>(
    group: FunctionGroup,
    bits: u8,
    f: &mut fmt::Formatter<W>,
) -> fmt::Result
    ensures { WritesOnOk W.write_str_gives f.old result (functions_text group bits) f.new }
{
    let first = match group {
        FunctionGroup::F0ToF4 => 0,
        _ => group.lowest(),
    };
    let last = group.lowest() + group.width() - 1;
    let mut functions = Functions { on: [false; 69] };
    functions.switch(group, bits, true);
    let on = NumbersOn::new(&functions.on, "-");
    write!(f, "functions {first} to {last} on {on}")
}

/// What a code of five bits asks in 28 steps, and in 14, where its bit 4 is FL.
fn speed<W: fmt::Write>(forward: bool, code: u8, f: &mut fmt::Formatter<W>) -> fmt::Result
    ensures { WritesOnOk W.write_str_gives f.old result (speed_text forward code) f.new }
{
    let way = direction(forward);
    let light = switched(has_bit(code, 4));
    let of_28 = Speed::at(Scale::TwentyEight, code);
    let of_14 = Speed::at(Scale::Fourteen, code);
    match (of_28, of_14) {
        (Speed::Running(of_28), Speed::Running(of_14)) => write!(
            f,
            "speed {way} step {} of 28, in 14 steps {} and FL {light}",
            of_28.number(),
            of_14.number()
        ),
        (Speed::EmergencyStop, _) => write!(
            f,
            "speed {way} emergency stop, in 14 steps FL {light}"
        ),
        _ => write!(f, "speed {way} stop, in 14 steps FL {light}"),
    }
}

fn speed126<W: fmt::Write>(forward: bool, code: u8, f: &mut fmt::Formatter<W>) -> fmt::Result
    ensures { WritesOnOk W.write_str_gives f.old result (speed126_text forward code) f.new }
{
    let way = direction(forward);
    // No packet has such a code, but an instruction that somebody made may.
    if code > 127 {
        return write!(f, "speed {way} step {} of 126", code - 1);
    }
    match Speed::at(Scale::OneTwentySix, code) {
        Speed::Stop => write!(f, "speed {way} stop of 126"),
        Speed::EmergencyStop => write!(f, "speed {way} emergency stop of 126"),
        Speed::Running(step) => write!(f, "speed {way} step {} of 126", step.number()),
    }
}

fn consist<W: fmt::Write>(reversed: bool, address: u8, f: &mut fmt::Formatter<W>) -> fmt::Result
    ensures { WritesOnOk W.write_str_gives f.old result (consist_text reversed address) f.new }
{
    let way = if reversed { " reversed" } else { "" };
    match address {
        0 => write!(f, "consist none{way}"),
        _ => write!(f, "consist {address}{way}"),
    }
}

impl fmt::Display for InWords<Instruction> {
    ghost output = { λ words. Some (instruction_text words.0) };

    fn fmt<W: fmt::Write>(&self, f: &mut fmt::Formatter<W>) -> fmt::Result {
        match self.0 {
            Instruction::NoOperation => write!(f, "no operation"),
            Instruction::Reset => write!(f, "reset"),
            Instruction::HardReset => write!(f, "hard reset"),
            Instruction::AdvancedAddressing { on } => write!(
                f,
                "advanced addressing {}",
                switched(on)
            ),
            Instruction::AcknowledgmentRequest => write!(f, "acknowledgment request"),
            Instruction::Consist { reversed, address } => consist(reversed, address, f),
            Instruction::Speed { forward, code } => speed(forward, code, f),
            Instruction::Speed126 { forward, code } => speed126(forward, code, f),
            Instruction::Functions { group, bits } => functions(group, bits, f),
            Instruction::BinaryStateShort { on, number: 0 } => write!(
                f,
                "binary states 1 to 127 {}",
                switched(on)
            ),
            Instruction::BinaryStateShort { on, number } => write!(
                f,
                "binary state {number} {}",
                switched(on)
            ),
            Instruction::BinaryStateLong { on, number: 0 } => write!(
                f,
                "all binary states {}",
                switched(on)
            ),
            Instruction::BinaryStateLong { on, number } => write!(
                f,
                "binary state {number} {}",
                switched(on)
            ),
            Instruction::AccelerationAdjustment { value } => write!(f, "write CV 23 = {value}"),
            Instruction::DecelerationAdjustment { value } => write!(f, "write CV 24 = {value}"),
            Instruction::VerifyByte { cv, value } => write!(f, "verify CV {} = {value}", cv.get()),
            Instruction::WriteByte { cv, value } => write!(f, "write CV {} = {value}", cv.get()),
            Instruction::VerifyBit { cv, bit, value } => {
                write!(f, "verify CV {} bit {bit} = {}", cv.get(), u8::from(value))
            }
            Instruction::WriteBit { cv, bit, value } => {
                write!(f, "write CV {} bit {bit} = {}", cv.get(), u8::from(value))
            }
            Instruction::Output { output, on } => write!(f, "output {output} {}", switched(on)),
            Instruction::Aspect { aspect } => write!(f, "aspect {aspect}"),
        }
    }
}
