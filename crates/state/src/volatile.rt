use crate::functions::Functions;
use crate::speed::Speed;
use crate::states::BinaryStates;
use crate::waiting::WaitingWrite;

/// What a decoder answered last.
#[derive(Clone, Copy, PartialEq, Eq, Debug)]
pub enum Reply {
    Acknowledgment,
    /// The value of the variable that was verified.
    Value(u8),
}

// What waits and the reply are no struct of their own: each has its own rule, and a setting ends the wait alone.

/// What a mobile decoder holds while it has power.
#[derive(Clone, Copy)]
pub struct MobileState {
    pub forward: bool,
    pub speed: Speed,
    pub functions: Functions,
    pub states: BinaryStates,
    pub waiting: Option<WaitingWrite>,
    pub reply: Option<Reply>,
}

/// What an accessory decoder holds while it has power. What it shows, outputs or an aspect, says of which kind it is.
// Tried: two types, and a trait that reaches what waits and the reply in each. It proves, and is 95 lines longer.
#[derive(Clone, Copy)]
pub struct AccessoryState<S> {
    pub shown: S,
    pub waiting: Option<WaitingWrite>,
    pub reply: Option<Reply>,
}

/// A basic accessory decoder shows eight outputs, in an array, as there is no heap.
pub type BasicState = AccessoryState<[bool; 8]>;

/// An extended accessory decoder shows an aspect.
pub type ExtendedState = AccessoryState<u8>;
