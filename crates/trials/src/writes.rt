use fault::Refusal;
use packet::{CvNumber, FunctionGroup, Instruction, Packet, Target};
use std::process::Abort;
use std::test::Fail;
use writer::write;

/// The refusal of a write, which leaves the place as it was.
fn refused(rt: &impl Abort, target: Target, instruction: Instruction) {
    let mut place = [9u8; 6];
    assert_eq!(rt;
        write(
            Packet {
                target,
                instruction
            },
            &mut place
        ),
        Err(Refusal::FieldOutOfRange.into())
    );
    assert_eq!(rt; place, [9; 6]);
}

#[test]
fn addresses_have_their_ranges(rt: HostRuntime) {
    refused(&rt, Target::Short { address: 0 }, Instruction::Reset);
    refused(&rt, Target::Short { address: 128 }, Instruction::Reset);
    refused(&rt, Target::Long { address: 10240 }, Instruction::Reset);
    refused(
        &rt,
        Target::Basic { address: 512 },
        Instruction::Output {
            output: 0,
            on: true,
        },
    );
    refused(
        &rt,
        Target::Extended { address: 2048 },
        Instruction::Aspect { aspect: 0 },
    );
}

#[test]
fn fields_have_their_ranges(rt: HostRuntime) {
    let loco = Target::Short { address: 3 };
    refused(
        &rt,
        loco,
        Instruction::Speed {
            forward: true,
            code: 32,
        },
    );
    refused(
        &rt,
        loco,
        Instruction::Speed126 {
            forward: true,
            code: 128,
        },
    );
    refused(
        &rt,
        loco,
        Instruction::Consist {
            reversed: false,
            address: 128,
        },
    );
    refused(
        &rt,
        loco,
        Instruction::Functions {
            group: FunctionGroup::F0ToF4,
            bits: 32,
        },
    );
    refused(
        &rt,
        loco,
        Instruction::Functions {
            group: FunctionGroup::F9ToF12,
            bits: 16,
        },
    );
    refused(
        &rt,
        loco,
        Instruction::BinaryStateShort {
            on: true,
            number: 128,
        },
    );
    refused(
        &rt,
        loco,
        Instruction::BinaryStateLong {
            on: true,
            number: 32768,
        },
    );
    refused(
        &rt,
        Target::Basic { address: 1 },
        Instruction::Output {
            output: 8,
            on: true,
        },
    );
    refused(
        &rt,
        Target::Extended { address: 1 },
        Instruction::Aspect { aspect: 32 },
    );
}

#[test]
fn instructions_have_their_targets(rt: HostRuntime) {
    refused(&rt, Target::Idle, Instruction::Reset);
    refused(&rt, Target::Broadcast, Instruction::NoOperation);
    refused(&rt, Target::Broadcast, Instruction::Aspect { aspect: 0 });
    refused(&rt, Target::Basic { address: 1 }, Instruction::Reset);
    refused(
        &rt,
        Target::Extended { address: 1 },
        Instruction::Output {
            output: 0,
            on: true,
        },
    );
}

#[test]
fn the_place_keeps_its_rest(rt: HostRuntime) -> Result<(), Fail> {
    let cv = CvNumber::new(29).ok_or("no such variable")?;
    let setting = Packet {
        target: Target::Long { address: 1000 },
        instruction: Instruction::WriteByte { cv, value: 6 },
    };
    let mut place = [9u8; 8];
    assert_eq!(rt; write(setting, &mut place), Ok(6));
    assert_eq!(rt; place, [0xc3, 0xe8, 0xec, 0x1c, 0x06, 0xdd, 9, 9]);
    let reset = Packet {
        instruction: Instruction::Reset,
        ..setting
    };
    let mut short = [9u8; 3];
    assert_eq!(rt;
        write(reset, &mut short),
        Err(Refusal::PlaceTooShort.into())
    );
    assert_eq!(rt; short, [9; 3]);
    let outside = Packet {
        target: Target::Short { address: 0 },
        ..reset
    };
    assert_eq!(rt;
        write(outside, &mut []),
        Err(Refusal::FieldOutOfRange.into())
    );
    Ok(())
}

/// The number of the variable that a number makes, if it makes one.
fn numbered(number: u16) -> Option<u16> {
    CvNumber::new(number).map(CvNumber::get)
}

#[test]
fn variables_are_numbered_from_one(rt: HostRuntime) {
    assert_eq!(rt; numbered(0), None);
    assert_eq!(rt; numbered(1), Some(1));
    assert_eq!(rt; numbered(1024), Some(1024));
    assert_eq!(rt; numbered(1025), None);
}
