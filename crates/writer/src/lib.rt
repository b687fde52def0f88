//! Writes a packet: from a target and an instruction to its bytes, or to the refusal.

#![tactic(auto)]

mod body;
mod bytes;
mod head;
mod writing;

pub use crate::writing::write;
