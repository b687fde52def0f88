//! Decoders of any kind at their variables in any memory: what one hears, delivery to all of a kind, power-up,
//! settings and the variables of a new one.
//!
//! These are the inner calls of a board. The decoder in slot `s` owns the cells `1024 * s` to `1024 * s + 1023`.

#![tactic(auto)]

mod accessory;
mod applying;
mod counting;
mod delivery;
mod fitting;
pub mod kind;
pub mod listener;
mod mobile;
mod powering;
mod setting;
mod slots;
pub mod variables;
mod views;
pub mod window;

pub use crate::counting::{count_of, is_enough, slot_of};
pub use crate::delivery::deliver;
pub use crate::fitting::{fit_accessory_variables, fit_mobile_variables};
pub use crate::kind::Kind;
pub use crate::listener::Listener;
pub use crate::powering::power_up;
pub use crate::setting::{set_variable, variable};
pub use crate::variables::Variables;
pub use crate::views::View;
pub use crate::window::Window;
