//! Why a call was refused: every cause with its number, its layer and its name, and where it stands.

#![tactic(auto)]

mod fault;
mod naming;
pub mod refusal;

pub use crate::fault::Fault;
pub use crate::refusal::{Layer, Refusal};
