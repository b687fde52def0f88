ghost use Rattle.std.specs.Prelude.{◌≡◌};
ghost use Rattle.decoder.specs.Accessories.{AccessoryKind, basic_kind, extended_kind};

use crate::hearing::by_accessory;
use crate::role::Role;
use packet::{Instruction, Target};
use state::{AccessoryState, BasicState, ExtendedState};

/// What an accessory decoder shows, and with it what its kind starts with, hears and obeys.
pub trait Shown: Copy {
    // What makes the kind.
    ghost kind: { AccessoryKind Self };

    /// As the power comes up.
    fn start() -> AccessoryState<Self>
        ensures { result ≡ kind.start };

    /// By which address a decoder of the address `own` hears a packet to `target`, if it hears it.
    fn role(own: u16, target: Target) -> Option<Role>
        ensures { result ≡ kind.role own target };

    /// What is shown after an instruction, if it is one of the kind's own.
    fn after(self, instruction: Instruction) -> Option<Self>
        ensures { result ≡ kind.after self instruction };
}

impl Shown for [bool; 8] {
    ghost kind = { basic_kind };

    fn start() -> BasicState {
        BasicState::new()
    }

    fn role(own: u16, target: Target) -> Option<Role> {
        match target {
            Target::Basic { address } => by_accessory(own, 511, address),
            _ => None,
        }
    }

    fn after(mut self, instruction: Instruction) -> Option<[bool; 8]> {
        match instruction {
            Instruction::Output { output, on } => {
                self[usize::from(output % 8)] = on;
                Some(self)
            }
            _ => None,
        }
    }
}

impl Shown for u8 {
    ghost kind = { extended_kind };

    fn start() -> ExtendedState {
        ExtendedState::new()
    }

    fn role(own: u16, target: Target) -> Option<Role> {
        match target {
            Target::Extended { address } => by_accessory(own, 2047, address),
            _ => None,
        }
    }

    fn after(self, instruction: Instruction) -> Option<u8> {
        match instruction {
            Instruction::Aspect { aspect } => Some(aspect),
            _ => None,
        }
    }
}
