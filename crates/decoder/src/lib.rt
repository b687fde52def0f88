//! What decoders do at the packets that they hear: the rules, without any memory.

#![tactic(auto)]

mod access;
mod accessory;
pub mod effect;
pub mod heard;
mod hearing;
mod laws;
mod mobile;
pub mod records;
mod replies;
pub mod role;
pub mod shown;
pub mod view;

pub use crate::access::{access_of, barred};
pub use crate::effect::{Access, Change, Effect};
pub use crate::heard::Heard;
pub use crate::hearing::own_address;
pub use crate::laws::{examples_hold, rules_keep, variables_persist};
pub use crate::records::{Accessory, Basic, Extended, Mobile};
pub use crate::role::{Address, Role};
pub use crate::shown::Shown;
pub use crate::view::{AccessoryView, MobileView, NamedVariable};
