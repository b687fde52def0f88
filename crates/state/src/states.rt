/// The binary states 1 to 2047. State k is bit k mod 8 of byte k div 8; the bit that would be number 0 stays zero.
// A bit each in fixed memory: there is no heap, and a bank may hold 32 of these.
#[derive(Clone, Copy)]
pub struct BinaryStates {
    pub bits: [u8; 256],
}
