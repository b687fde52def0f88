use crate::instruction::Instruction;
use crate::target::Target;

/// What a packet's bytes say.
#[derive(Clone, Copy, PartialEq, Eq, Debug)]
pub struct Packet {
    pub target: Target,
    pub instruction: Instruction,
}
