//! A board of up to 32 decoders: fitting them, starting, and then taking blocks, setting variables and reading.
//!
//! What is fitted is all that a board holds. The banks of records and the memory are lent with each call.

#![tactic(auto)]

pub mod boards;
mod fitting;
mod laws;
mod performing;
mod running;
mod runs;

pub use crate::boards::{Fitting, Running};
pub use crate::laws::strips_kept;
pub use crate::runs::run;
