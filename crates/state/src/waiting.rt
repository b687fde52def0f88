/// A write that waits for its repetition: the packet's bytes, the first `length` of the six.
// The states are `Copy` and there is no heap, so the bytes are an array with their length: an `ArrayVec` is not `Copy`.
// The type does not bound the length: a board answers for whatever the banks hold that it is lent.
#[derive(Clone, Copy, PartialEq, Eq, Debug)]
pub struct WaitingWrite {
    pub bytes: [u8; 6],
    pub length: usize,
}
