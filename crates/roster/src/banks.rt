use decoder::{Basic, Extended, Mobile};

/// A bank of records for each kind, lent to be read.
#[derive(Clone, Copy)]
pub struct Banks<'a> {
    pub mobiles: &'a [Mobile],
    pub basics: &'a [Basic],
    pub extendeds: &'a [Extended],
}

/// A bank of records for each kind, lent to be changed.
// In no struct with kinds and memory: where the banks are shared the memory is lent by `&` or by `&mut`, so it would
// be three.
// Two structs, as a slice has two references: who only reads need not hold the banks alone.
// What the banks before a call are to those after it (`Rest`, `SameLenders`) is a relation of two values and no fact
// of one, so it stands in the clauses.
#[derive(Drop)]
pub struct BanksMut<'a> {
    pub mobiles: &'a mut [Mobile],
    pub basics: &'a mut [Basic],
    pub extendeds: &'a mut [Extended],
}
