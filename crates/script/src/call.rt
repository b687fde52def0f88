use crate::name::DecoderName;

/// What is asked of one decoder.
#[derive(Clone, Copy)]
pub enum Request {
    /// Puts a byte into a variable, 1 to 1024.
    Set { variable: u16, value: u8 },
    /// All of its volatile part.
    State,
    /// A variable, 1 to 1024.
    Variable(u16),
    /// A function of a mobile decoder: 0, which is FL, to 68.
    Function(u16),
    /// A binary state of a mobile decoder, 1 to 2047.
    BinaryState(u16),
}

/// A call of a running board.
#[derive(Clone, Copy)]
pub enum Call<'a> {
    /// Takes a block from the receiver.
    Take(&'a [u8]),
    /// Asks one decoder.
    Ask(DecoderName, Request),
}
