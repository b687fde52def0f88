//! Targets, instructions and packets in words, for people, bytes and switches as they are printed, and the version.

#![tactic(auto)]

mod instructions;
pub mod lists;
mod switches;
mod targets;
mod version;
pub mod wrapper;

pub use crate::lists::{Hex, NumbersOn};
pub use crate::switches::{direction, switched};
pub use crate::version::VERSION;
pub use crate::wrapper::InWords;
