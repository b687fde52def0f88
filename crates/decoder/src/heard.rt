use crate::role::Role;
use packet::Instruction;
use state::WaitingWrite;

/// A packet that a decoder hears: by which address, its bytes, and what it asks.
#[derive(Clone, Copy)]
pub struct Heard {
    pub role: Role,
    pub packet: WaitingWrite,
    pub instruction: Instruction,
}
