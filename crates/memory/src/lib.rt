//! Memories: a fixed count of byte cells that are read and written one by one, over bytes, over words or over a part
//! of another memory.

#![tactic(auto)]

pub mod bytes;
mod laws;
pub mod memory;
pub mod slices;
pub mod strip;
pub mod words;

pub use crate::bytes::ByteMemory;
pub use crate::laws::cells_lie;
pub use crate::memory::Memory;
pub use crate::slices::{Place, SliceMemory};
pub use crate::strip::Strip;
pub use crate::words::WordMemory;
