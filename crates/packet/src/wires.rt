ghost use Rattle.std.specs.Prelude.{◌≡◌, [], ◌∷◌};
ghost use Rattle.packet.specs.Wires.{number_in, if_number, number_of, wire_of, wire_at, wire_bytes};

use crate::cv::{CvNumber, WireAddress};

// `new` and `get` are those of std's `NonZeroU16`. Beside them `TryFrom<u16>` and `From<CvNumber>` would say the same
// once more,
// and need an error that says no more than `None`.
impl CvNumber {
    /// The variable of that number, if there is one.
    pub fn new(number: u16) -> Option<CvNumber>
        ensures { number_in result ≡ if_number number }
    {
        match number {
            1..=1024 => Some(CvNumber { number }),
            _ => None,
        }
    }

    /// The number, 1 to 1024.
    pub fn get(self) -> u16
        ensures { result ≡ self.number }
    {
        self.number
    }
}

/// The address by which packets name the variable: its number less one.
impl From<CvNumber> for WireAddress {
    ghost from_gives = { λ cv wire. wire ≡ wire_of cv };

    fn from(cv: CvNumber) -> WireAddress {
        WireAddress {
            address: cv.number - 1,
        }
    }
}

/// The variable at the address: the number is one more.
impl From<WireAddress> for CvNumber {
    ghost from_gives = { λ wire cv. cv ≡ number_of wire };

    fn from(wire: WireAddress) -> CvNumber {
        CvNumber {
            number: wire.address + 1,
        }
    }
}

impl WireAddress {
    /// The address of which `first` has the upper two bits and `second` the lower eight.
    pub fn from_bytes(first: u8, second: u8) -> WireAddress
        ensures { result ≡ wire_at first second }
    {
        WireAddress {
            address: u16::from_be_bytes([first % 4, second]),
        }
    }

    /// The upper two bits and the lower eight.
    pub fn to_bytes(self) -> [u8; 2]
        ensures { result ≡ (wire_bytes self).0 ∷ (wire_bytes self).1 ∷ [] }
    {
        self.address.to_be_bytes()
    }
}
