use thiserror::Error;

/// The layer that a refusal comes from.
#[derive(Clone, Copy, PartialEq, Eq, Debug)]
pub enum Layer {
    Packet,
    Block,
    Board,
    Memory,
}

/// Why a packet, a block or a call is refused, each with its number.
#[derive(Clone, Copy, PartialEq, Eq, Debug, Error)]
pub enum Refusal {
    /// A packet has fewer than 3 or more than 6 bytes.
    #[error("packet length not 3 to 6")]
    PacketLength = 1,
    /// The XOR of a packet's bytes is not zero.
    #[error("wrong error byte")]
    ErrorByte = 2,
    /// A packet begins with one of E8 to FC.
    #[error("reserved address")]
    ReservedAddress = 3,
    /// A packet begins with FD or FE.
    #[error("advanced packet format")]
    AdvancedFormat = 4,
    /// A packet begins with FF and is not FF 00 FF.
    #[error("idle in another form")]
    IdleForm = 5,
    /// A long address stands without an instruction.
    #[error("long address without instruction")]
    NoInstruction = 6,
    /// No instruction has this form, or a later byte of it has a reserved value.
    #[error("reserved instruction or value")]
    ReservedInstruction = 7,
    /// An instruction has too few or too many bytes.
    #[error("instruction too short or too long")]
    InstructionLength = 8,
    /// The second byte of an accessory packet is no accessory head.
    #[error("no accessory head")]
    AccessoryHead = 9,
    /// A block is empty or has more than 512 bytes.
    #[error("block length not 1 to 512")]
    BlockLength = 10,
    /// A record's kind is none that there is.
    #[error("unknown record kind")]
    UnknownKind = 11,
    /// The block ends before the record's packet does.
    #[error("record cut off")]
    BodyCutOff = 12,
    /// A byte that is not zero follows fill.
    #[error("byte after fill not zero")]
    NonzeroFill = 13,
    /// A decoder cannot have this address.
    #[error("address cannot be fitted")]
    FittedAddress = 14,
    /// The board or the kind's bank holds no more decoders.
    #[error("bank or board full")]
    BankFull = 15,
    /// The memory has too few cells left for a decoder.
    #[error("too few cells left")]
    TooFewCells = 16,
    /// A lent bank or memory is shorter than what was fitted.
    #[error("bank or memory shorter than fitted")]
    LentTooShort = 17,
    /// The board has no such decoder.
    #[error("no such decoder")]
    NoSuchDecoder = 18,
    /// A number is out of the range that it names things from.
    #[error("number out of range")]
    NumberOutOfRange = 19,
    /// A field cannot be written, or the instruction is not for its target.
    #[error("field out of range")]
    FieldOutOfRange = 20,
    /// The place is too short for what is to be put there.
    #[error("place too short")]
    PlaceTooShort = 21,
    /// A cell, or a strip of cells, lies beyond the memory's count.
    #[error("cell out of range")]
    CellOutOfRange = 22,
}
