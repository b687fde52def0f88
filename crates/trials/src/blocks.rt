use block::{Survey, packet_at, survey};
use fault::{Fault, Refusal};
use std::process::Abort;

fn surveyed(
    rt: &impl Abort,
    block: &[u8],
    packets: usize,
    power_ups: usize,
    end: usize,
    fault: Option<Fault>,
) {
    let expected = Survey {
        packets,
        power_ups,
        end,
        fault,
    };
    assert_eq!(rt; survey(block), Ok(expected));
}

#[test]
fn fill_carries_nothing(rt: HostRuntime) {
    surveyed(&rt, &[0, 0, 0], 0, 0, 0, None);
    surveyed(&rt, &[0; 512], 0, 0, 0, None);
}

#[test]
fn records_are_counted_up_to_the_fault(rt: HostRuntime) {
    surveyed(&rt, &[3, 0, 0, 0], 1, 0, 4, None);
    surveyed(&rt, &[0x10, 3, 0, 0, 0, 0x10, 0, 0], 1, 2, 6, None);
    surveyed(&rt, &[2], 0, 0, 0, Some(Refusal::UnknownKind.at(0)));
    surveyed(&rt, &[3, 3, 0x74], 0, 0, 0, Some(Refusal::BodyCutOff.at(0)));
    surveyed(&rt, &[0, 1], 0, 0, 0, Some(Refusal::NonzeroFill.at(1)));
    surveyed(
        &rt,
        &[0x10, 0, 0, 0, 5, 6],
        0,
        1,
        1,
        Some(Refusal::NonzeroFill.at(4)),
    );
    surveyed(
        &rt,
        &[0x10, 0x10, 7, 0],
        0,
        2,
        2,
        Some(Refusal::UnknownKind.at(2)),
    );
}

#[test]
fn length_is_refused(rt: HostRuntime) {
    let refused = Refusal::BlockLength.into();
    assert_eq!(rt; survey(&[]), Err(refused));
    assert_eq!(rt; survey(&[0; 513]), Err(refused));
}

fn handed_out<'a>(rt: &impl Abort, block: &'a [u8], n: usize, expected: &'a [u8]) {
    assert_eq!(rt; packet_at(block, n), Ok(expected));
}

/// The refusal of a number that no packet of the block has.
fn not_there(rt: &impl Abort, block: &[u8], n: usize) {
    let missing = Refusal::NumberOutOfRange.into();
    assert_eq!(rt; packet_at(block, n), Err(missing));
}

#[test]
fn packets_are_handed_out(rt: HostRuntime) {
    let block = [0x10, 3, 0xff, 0, 0xff, 4, 3, 0xde, 1, 0xdc, 9];
    handed_out(&rt, &block, 0, &[0xff, 0, 0xff]);
    handed_out(&rt, &block, 1, &[3, 0xde, 1, 0xdc]);
    not_there(&rt, &block, 2);
    not_there(&rt, &[0, 0, 0, 0], 0);
}
