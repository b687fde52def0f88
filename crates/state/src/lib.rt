//! What a decoder holds while it has power: speed, functions, binary states, outputs, aspect, a waiting write and the
//! latest reply.

#![tactic(auto)]

mod bits;
pub mod functions;
mod groups;
mod numbers;
mod packing;
pub mod scale;
pub mod speed;
mod speeds;
mod starting;
pub mod states;
pub mod step;
pub mod volatile;
pub mod waiting;

pub use crate::bits::{has_bit, with_bit};
pub use crate::functions::Functions;
pub use crate::scale::Scale;
pub use crate::speed::Speed;
pub use crate::states::BinaryStates;
pub use crate::step::Step;
pub use crate::volatile::{AccessoryState, BasicState, ExtendedState, MobileState, Reply};
pub use crate::waiting::WaitingWrite;
