ghost use Rattle.std.specs.Prelude.{◌≡◌};
ghost use Rattle.decoder.specs.Hearing.{own_address, consist_of, mobile_role, in_consist, by_accessory};

use crate::role::{Address, Role};
use crate::view::MobileView;
use packet::Target;
use state::has_bit;

/// The own address of a mobile decoder, by its variables 29, 1, 17 and 18.
pub fn own_address(config: u8, short: u8, high: u8, low: u8) -> Option<Address>
    ensures { result ≡ own_address config short high low }
{
    if has_bit(config, 5) {
        match high {
            192..=231 => Some(Address::Long(u16::from_be_bytes([high - 192, low]))),
            _ => None,
        }
    } else {
        match short {
            1..=127 => Some(Address::Short(short)),
            _ => None,
        }
    }
}

impl MobileView {
    /// The address of its consist, if it is in one.
    fn consist_address(&self) -> Option<u8>
        ensures { result ≡ consist_of self.now }
    {
        match self.consist % 128 {
            0 => None,
            address => Some(address),
        }
    }

    /// By which address a packet to `target` is heard, if it is heard.
    pub fn role(&self, target: Target) -> Option<Role>
        ensures { result ≡ mobile_role self.now target }
    {
        match target {
            Target::Broadcast => Some(Role::Everyone),
            Target::Short { address } if self.own == Some(Address::Short(address)) => Some(
                Role::Own,
            ),
            Target::Short { address } if self.consist_address() == Some(address) => Some(
                Role::Consist,
            ),
            Target::Long { address } if self.own == Some(Address::Long(address)) => Some(Role::Own),
            _ => None,
        }
    }

    /// Whether a consist address stands that is not the own address.
    pub(crate) fn in_consist(&self) -> bool
        ensures { result ≡ in_consist self.now }
    {
        self.consist_address()
            .is_some_and(|address| self.own != Some(Address::Short(address)))
    }
}

/// By which of its addresses an accessory decoder hears a packet: its own, or that of all of its kind.
pub(crate) fn by_accessory(own: u16, all: u16, address: u16) -> Option<Role>
    ensures { result ≡ by_accessory own all address }
{
    if address == own {
        Some(Role::Own)
    } else if address == all {
        Some(Role::Everyone)
    } else {
        None
    }
}
