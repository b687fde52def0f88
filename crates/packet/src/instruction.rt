use crate::cv::CvNumber;

/// The functions that one instruction switches.
#[derive(Clone, Copy, PartialEq, Eq, Debug)]
pub enum FunctionGroup {
    /// F1 to F4 in bits 0 to 3 and FL, which is F0, in bit 4.
    F0ToF4,
    F5ToF8,
    F9ToF12,
    F13ToF20,
    F21ToF28,
    F29ToF36,
    F37ToF44,
    F45ToF52,
    F53ToF60,
    F61ToF68,
}

/// What a packet asks.
// Zero for none or for all stays a number: each variant is one form of the format, and is written back to its own
// bytes.
#[derive(Clone, Copy, PartialEq, Eq, Debug)]
pub enum Instruction {
    /// Nothing: all that an idle packet holds.
    NoOperation,
    Reset,
    HardReset,
    /// Listen to the long address or to the short one.
    AdvancedAddressing { on: bool },
    AcknowledgmentRequest,
    /// Take a consist address of seven bits; zero is none.
    Consist { reversed: bool, address: u8 },
    /// Speed in 14 or 28 steps: bit 4, then bits 3 to 0.
    Speed { forward: bool, code: u8 },
    /// Speed in 126 steps, seven bits.
    Speed126 { forward: bool, code: u8 },
    /// Switch each function of a group by its bit.
    Functions { group: FunctionGroup, bits: u8 },
    /// Switch a binary state of seven bits; zero is all of these.
    BinaryStateShort { on: bool, number: u8 },
    /// Switch a binary state of fifteen bits; zero is all of these.
    BinaryStateLong { on: bool, number: u16 },
    /// Write configuration variable 23.
    AccelerationAdjustment { value: u8 },
    /// Write configuration variable 24.
    DecelerationAdjustment { value: u8 },
    VerifyByte { cv: CvNumber, value: u8 },
    WriteByte { cv: CvNumber, value: u8 },
    VerifyBit { cv: CvNumber, bit: u8, value: bool },
    WriteBit { cv: CvNumber, bit: u8, value: bool },
    /// Switch one of the eight outputs of a basic accessory decoder.
    Output { output: u8, on: bool },
    /// Show one of the 32 aspects of an extended accessory decoder.
    Aspect { aspect: u8 },
}
