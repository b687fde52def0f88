use packet::CvNumber;

/// What a long-form instruction says of a variable.
#[derive(Clone, Copy)]
pub enum Change {
    Byte(u8),
    Bit { bit: u8, on: bool },
}

/// A long-form instruction: it verifies a variable, or writes it.
// `writes` is a flag and no enum with the change in it: both kinds carry the same, and who reads it asks for one yes or no.
#[derive(Clone, Copy)]
pub struct Access {
    pub cv: CvNumber,
    pub writes: bool,
    pub change: Change,
}

/// A long-form instruction, and the variable that it names as it stands.
#[derive(Clone, Copy)]
pub(crate) struct Accessed {
    pub access: Access,
    pub value: u8,
    pub read_only: bool,
}

/// What an instruction does to the variables.
#[derive(Clone, Copy)]
pub enum Effect {
    /// One variable gets a value.
    Put { cv: CvNumber, value: u8 },
    /// Variables 19, 29, 31 and 32 get their defaults.
    HardReset,
}
