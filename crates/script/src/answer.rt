use crate::taken::Taken;
use state::{BasicState, ExtendedState, MobileState};

/// What a decoder holds while it has power, by its kind.
#[derive(Clone, Copy)]
pub enum DecoderState {
    Mobile(MobileState),
    Basic(BasicState),
    Extended(ExtendedState),
}

/// What came of a call that was not refused.
#[derive(Clone, Copy)]
pub enum Answer {
    Taken(Taken),
    /// The variable is set.
    Set,
    State(DecoderState),
    Variable(u8),
    Function(bool),
    BinaryState(bool),
}
