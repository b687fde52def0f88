ghost use Rattle.std.specs.Prelude.{◌≡◌};
ghost use Rattle.state.specs.Starting.{mobile_start, basic_start, extended_start};

use crate::functions::Functions;
use crate::speed::Speed;
use crate::states::BinaryStates;
use crate::volatile::{AccessoryState, BasicState, ExtendedState, MobileState};

// No `Default`: a mobile decoder begins forward.
impl MobileState {
    /// As the power comes up.
    pub fn new() -> MobileState
        ensures { result ≡ mobile_start }
    {
        MobileState {
            forward: true,
            speed: Speed::Stop,
            functions: Functions { on: [false; 69] },
            states: BinaryStates { bits: [0u8; 256] },
            waiting: None,
            reply: None,
        }
    }
}

// One `new` over `Default` would promise that what is shown is a default, and not which outputs and which aspect
// these are.

impl BasicState {
    /// As the power comes up.
    pub fn new() -> BasicState
        ensures { result ≡ basic_start }
    {
        AccessoryState {
            shown: [false; 8],
            waiting: None,
            reply: None,
        }
    }
}

impl ExtendedState {
    /// As the power comes up.
    pub fn new() -> ExtendedState
        ensures { result ≡ extended_start }
    {
        AccessoryState {
            shown: 0,
            waiting: None,
            reply: None,
        }
    }
}
