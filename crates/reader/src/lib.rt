//! Reads a packet: from its bytes to its target and instruction, or to the first cause for which it is refused.

#![tactic(auto)]

mod accessory;
mod laws;
mod lengths;
mod mobile;
mod reading;
mod variables;

pub use crate::laws::examples_read;
pub use crate::reading::read;
