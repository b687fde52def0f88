//! What happens to all decoders of a board at their slots: a block, a setting, a reading. Every call is lent the
//! banks and the memory.

#![tactic(auto)]

mod asking;
pub mod banks;
mod counting;
mod lending;
mod sending;
mod setting;
mod taking;

pub use crate::banks::{Banks, BanksMut};
