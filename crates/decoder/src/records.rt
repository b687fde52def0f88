ghost use Rattle.std.specs.Prelude.{◌≡◌};
ghost use Rattle.decoder.specs.Fresh.{fresh_mobile, fresh_accessory};

use crate::shown::Shown;
use state::{AccessoryState, MobileState};

/// A mobile decoder. Its address is in its variables.
#[derive(Clone, Copy)]
pub struct Mobile {
    pub state: MobileState,
}

/// An accessory decoder at its address. What it shows says of which kind it is.
#[derive(Clone, Copy)]
pub struct Accessory<S> {
    pub address: u16,
    pub state: AccessoryState<S>,
}

/// A basic accessory decoder.
pub type Basic = Accessory<[bool; 8]>;

/// An extended accessory decoder.
pub type Extended = Accessory<u8>;

impl Mobile {
    /// As the power comes up.
    pub fn new() -> Mobile
        ensures { result ≡ fresh_mobile }
    {
        Mobile {
            state: MobileState::new(),
        }
    }
}

impl<S: Shown> Accessory<S> {
    /// As the power comes up.
    pub fn new(address: u16) -> Accessory<S>
        ensures { result ≡ fresh_accessory S.Shown.kind address }
    {
        Accessory {
            address,
            state: S::start(),
        }
    }
}
