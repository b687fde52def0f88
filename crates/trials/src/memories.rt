use fault::{Fault, Refusal};
use memory::{ByteMemory, Memory, Strip, WordMemory};
use std::process::Abort;

/// The refusal of a cell.
fn beyond(cell: usize) -> Fault {
    Refusal::CellOutOfRange.at(cell)
}

/// Writes 1, 2, 3, .. to all cells and finds them there; the cell at the count is refused.
fn takes_all<M: Memory>(rt: &impl Abort, memory: &mut M, cells: usize) {
    assert_eq!(rt; memory.count(), cells);
    for cell in 0..cells {
        assert_eq!(rt; memory.write(cell, (cell % 251) as u8), Ok(()));
    }
    for cell in 0..cells {
        assert_eq!(rt; memory.read(cell), Ok((cell % 251) as u8));
    }
    assert_eq!(rt; memory.read(cells), Err(beyond(cells)));
    assert_eq!(rt; memory.write(cells, 9), Err(beyond(cells)));
    assert_eq!(rt; memory.read(usize::MAX), Err(beyond(usize::MAX)));
}

#[test]
fn bytes_take_all_cells(rt: HostRuntime) {
    let mut bytes = [0u8; 300];
    takes_all(&rt, &mut ByteMemory::new(&mut bytes), 300);
}

#[test]
fn words_have_two_cells_each(rt: HostRuntime) {
    let mut words = [0u16; 4];
    takes_all(&rt, &mut WordMemory::new(&mut words), 8);
    assert_eq!(rt; words, [0x0100, 0x0302, 0x0504, 0x0706]);
    assert_eq!(rt; WordMemory::new(&mut words).write(2, 9), Ok(()));
    assert_eq!(rt; words, [0x0100, 0x0309, 0x0504, 0x0706]);
}

#[test]
fn a_strip_keeps_what_lies_beside_it(rt: HostRuntime) {
    let mut bytes = [200u8; 6];
    let mut strip = Strip::new(ByteMemory::new(&mut bytes), 2, 3);
    takes_all(&rt, &mut strip, 3);
    let mut below = strip.into_inner();
    assert_eq!(rt; below.read(3), Ok(1));
    assert_eq!(rt; bytes, [200, 200, 0, 1, 2, 200]);
}

#[test]
fn a_strip_of_a_strip_of_words(rt: HostRuntime) {
    let mut words = [0xaaaau16; 8];
    let outer = Strip::new(WordMemory::new(&mut words), 2, 8);
    let mut inner = Strip::new(outer, 3, 4);
    takes_all(&rt, &mut inner, 4);
    let outer = inner.into_inner();
    let mut below = outer.into_inner();
    assert_eq!(rt; below.read(6), Ok(1));
    assert_eq!(rt;
        words,
        [
            0xaaaa, 0xaaaa, 0x00aa, 0x0201, 0xaa03, 0xaaaa, 0xaaaa, 0xaaaa,
        ]
    );
}

#[test]
fn strips_are_checked_and_cut_off(rt: HostRuntime) {
    let mut bytes = [0u8; 6];
    let memory = ByteMemory::new(&mut bytes);
    assert_eq!(rt; Strip::check(&memory, 2, 4), Ok(()));
    assert_eq!(rt; Strip::check(&memory, 6, 0), Ok(()));
    assert_eq!(rt; Strip::check(&memory, 2, 5), Err(beyond(2)));
    assert_eq!(rt; Strip::check(&memory, 7, 0), Err(beyond(7)));
    assert_eq!(rt; Strip::check(&memory, 1, usize::MAX), Err(beyond(1)));
    let strip = Strip::new(memory, 4, 9);
    assert_eq!(rt; strip.count(), 2);
    let past = Strip::new(strip, 3, 1);
    assert_eq!(rt; past.count(), 0);
}
