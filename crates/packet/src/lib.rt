//! What a DCC packet says: its target, its instruction, and the numbers of configuration variables.

#![tactic(auto)]

pub mod cv;
mod error_byte;
mod groups;
pub mod instruction;
pub mod packet;
pub mod target;
mod wires;

pub use crate::cv::{CvNumber, WireAddress};
pub use crate::error_byte::parity;
pub use crate::instruction::{FunctionGroup, Instruction};
pub use crate::packet::Packet;
pub use crate::target::Target;
