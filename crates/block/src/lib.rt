//! Blocks of records: which packets and power-ups a block carries, where they stand in it, and where it is at fault.

#![tactic(auto)]

mod laws;
mod limit;
mod packets;
pub mod records;
pub mod summary;
mod surveying;
pub mod walk;

pub use crate::laws::blocks_agree;
pub use crate::packets::packet_at;
pub use crate::records::{Carried, Record};
pub use crate::summary::Survey;
pub use crate::surveying::survey;
pub use crate::walk::Walk;
