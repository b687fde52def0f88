use bank::Kind;

/// Which decoder of a board: its kind, and its number among those of its kind, from 0 in the order of fitting.
#[derive(Clone, Copy)]
pub struct DecoderName {
    pub kind: Kind,
    pub number: usize,
}
