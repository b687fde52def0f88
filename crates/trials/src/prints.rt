use bank::Kind;
use fault::{Layer, Refusal};
use packet::{CvNumber, FunctionGroup, Instruction, Packet, Target};
use std::alloc::{AllocError, Global};
use std::fmt::Display;
use std::process::Abort;
use std::test::Fail;
use words::{Hex, InWords, NumbersOn};

// What is printed where the writing succeeds is proved; these show that none fails by itself.

/// Prints a value, which succeeds.
fn prints<T: Display>(
    rt: &impl Abort,
    heap: Global,
    value: &T,
    expected: &str,
) -> Result<(), AllocError> {
    let text = value.to_string(heap)?;
    assert_eq!(rt; text.as_str(), expected);
    Ok(())
}

#[test]
fn targets_are_printed(rt: HostRuntime) -> Result<(), Fail> {
    for (target, words) in [
        (Target::Idle, "idle"),
        (Target::Broadcast, "all mobiles"),
        (Target::Short { address: 3 }, "short 3"),
        (Target::Long { address: 1000 }, "long 1000"),
        (Target::Basic { address: 1 }, "basic 1"),
        (Target::Basic { address: 511 }, "all basic"),
        (Target::Extended { address: 1 }, "extended 1"),
        (Target::Extended { address: 2047 }, "all extended"),
    ] {
        prints(&rt, rt.alloc(), &InWords(target), words)?;
    }
    Ok(())
}

/// The words of an instruction to a mobile decoder or of a long form, and of those whose words have more than one form,
/// of each.
#[test]
fn instructions_are_printed(rt: HostRuntime) -> Result<(), Fail> {
    for (instruction, words) in [
        (Instruction::NoOperation, "no operation"),
        (Instruction::Reset, "reset"),
        (Instruction::HardReset, "hard reset"),
        (
            Instruction::AdvancedAddressing { on: true },
            "advanced addressing on",
        ),
        (Instruction::AcknowledgmentRequest, "acknowledgment request"),
        (
            Instruction::Consist {
                reversed: true,
                address: 0,
            },
            "consist none reversed",
        ),
        (
            Instruction::Consist {
                reversed: false,
                address: 5,
            },
            "consist 5",
        ),
        (
            Instruction::Functions {
                group: FunctionGroup::F0ToF4,
                bits: 0x11,
            },
            "functions 0 to 4 on 0,1",
        ),
        (
            Instruction::Functions {
                group: FunctionGroup::F61ToF68,
                bits: 0,
            },
            "functions 61 to 68 on -",
        ),
        (
            Instruction::AccelerationAdjustment { value: 7 },
            "write CV 23 = 7",
        ),
        (
            Instruction::DecelerationAdjustment { value: 7 },
            "write CV 24 = 7",
        ),
        (
            Instruction::Output {
                output: 7,
                on: false,
            },
            "output 7 off",
        ),
        (Instruction::Aspect { aspect: 31 }, "aspect 31"),
    ] {
        prints(&rt, rt.alloc(), &InWords(instruction), words)?;
    }
    Ok(())
}

#[test]
fn speeds_are_printed(rt: HostRuntime) -> Result<(), Fail> {
    for (forward, code, words) in [
        (
            true,
            20,
            "speed forward step 6 of 28, in 14 steps 3 and FL on",
        ),
        (false, 0, "speed reverse stop, in 14 steps FL off"),
        (true, 1, "speed forward emergency stop, in 14 steps FL off"),
    ] {
        prints(
            &rt,
            rt.alloc(),
            &InWords(Instruction::Speed { forward, code }),
            words,
        )?;
    }
    for (forward, code, words) in [
        (true, 127, "speed forward step 126 of 126"),
        (false, 0, "speed reverse stop of 126"),
        (true, 1, "speed forward emergency stop of 126"),
        // In no packet is the code above 127.
        (true, 128, "speed forward step 127 of 126"),
        (false, 255, "speed reverse step 254 of 126"),
    ] {
        prints(
            &rt,
            rt.alloc(),
            &InWords(Instruction::Speed126 { forward, code }),
            words,
        )?;
    }
    Ok(())
}

#[test]
fn states_are_printed(rt: HostRuntime) -> Result<(), Fail> {
    for (on, number, words) in [
        (true, 0, "binary states 1 to 127 on"),
        (false, 127, "binary state 127 off"),
    ] {
        prints(
            &rt,
            rt.alloc(),
            &InWords(Instruction::BinaryStateShort { on, number }),
            words,
        )?;
    }
    for (on, number, words) in [
        (false, 0, "all binary states off"),
        (true, 32767, "binary state 32767 on"),
    ] {
        prints(
            &rt,
            rt.alloc(),
            &InWords(Instruction::BinaryStateLong { on, number }),
            words,
        )?;
    }
    Ok(())
}

#[test]
fn long_forms_are_printed(rt: HostRuntime) -> Result<(), Fail> {
    let cv = CvNumber::new(1024).ok_or("no such variable")?;
    for (instruction, words) in [
        (
            Instruction::VerifyByte { cv, value: 255 },
            "verify CV 1024 = 255",
        ),
        (Instruction::WriteByte { cv, value: 0 }, "write CV 1024 = 0"),
        (
            Instruction::VerifyBit {
                cv,
                bit: 7,
                value: true,
            },
            "verify CV 1024 bit 7 = 1",
        ),
        (
            Instruction::WriteBit {
                cv,
                bit: 0,
                value: false,
            },
            "write CV 1024 bit 0 = 0",
        ),
    ] {
        prints(&rt, rt.alloc(), &InWords(instruction), words)?;
    }
    Ok(())
}

#[test]
fn packets_and_lists_are_printed(rt: HostRuntime) -> Result<(), Fail> {
    let packet = Packet {
        target: Target::Basic { address: 1 },
        instruction: Instruction::Output {
            output: 0,
            on: true,
        },
    };
    prints(&rt, rt.alloc(), &InWords(packet), "basic 1: output 0 on")?;
    prints(&rt, rt.alloc(), &Hex(&[]), "")?;
    prints(&rt, rt.alloc(), &Hex(&[0x03, 0xfa, 0x00]), "03 FA 00")?;
    prints(&rt, rt.alloc(), &NumbersOn::new(&[false], "none"), "none")?;
    prints(
        &rt,
        rt.alloc(),
        &NumbersOn::new(&[true, false, true], "none"),
        "0,2",
    )?;
    Ok(())
}

#[test]
fn names_are_printed(rt: HostRuntime) -> Result<(), Fail> {
    prints(&rt, rt.alloc(), &Layer::Packet, "packet")?;
    prints(&rt, rt.alloc(), &Layer::Block, "block")?;
    prints(&rt, rt.alloc(), &Layer::Board, "board")?;
    prints(&rt, rt.alloc(), &Layer::Memory, "memory")?;
    prints(&rt, rt.alloc(), &Kind::Mobile, "mobile")?;
    prints(&rt, rt.alloc(), &Kind::Basic, "basic")?;
    prints(&rt, rt.alloc(), &Kind::Extended, "extended")?;
    prints(
        &rt,
        rt.alloc(),
        &Refusal::NonzeroFill.at(4),
        "13 byte after fill not zero, offset 4",
    )?;
    Ok(())
}
