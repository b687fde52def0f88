ghost use Rattle.std.specs.Prelude.{◌<◌, ◌≤◌};

/// The number of a configuration variable, as people write it: 1 to 1024.
#[derive(Clone, Copy, PartialEq, Eq, Debug)]
pub struct CvNumber {
    pub(crate) number: u16,
    ghost least: { 1 ≤ number },
    ghost most: { number ≤ 1024 },
}

/// The variables that the format or the decoders name.
impl CvNumber {
    pub const SHORT_ADDRESS: CvNumber = CvNumber { number: 1 };
    /// 192 and the upper bits of the long address.
    pub const LONG_ADDRESS_HIGH: CvNumber = CvNumber { number: 17 };

    pub const LONG_ADDRESS_LOW: CvNumber = CvNumber { number: 18 };

    pub const CONSIST_ADDRESS: CvNumber = CvNumber { number: 19 };

    pub const ACCELERATION_ADJUSTMENT: CvNumber = CvNumber { number: 23 };

    pub const DECELERATION_ADJUSTMENT: CvNumber = CvNumber { number: 24 };

    pub const CONFIGURATION: CvNumber = CvNumber { number: 29 };

    pub const INDEX_HIGH: CvNumber = CvNumber { number: 31 };

    pub const INDEX_LOW: CvNumber = CvNumber { number: 32 };

    pub const ACCESSORY_CONFIGURATION: CvNumber = CvNumber { number: 541 };
}

/// The ten bits by which a packet names a configuration variable.
#[derive(Clone, Copy, PartialEq, Eq, Debug)]
pub struct WireAddress {
    pub(crate) address: u16,
    ghost bound: { address < 1024 },
}
