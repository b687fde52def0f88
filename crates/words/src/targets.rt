ghost use Rattle.std.specs.Prelude.{Some};
ghost use Rattle.words.specs.Packets.{packet_text};
ghost use Rattle.words.specs.Targets.{target_text};

use crate::wrapper::InWords;
use packet::{Packet, Target};
use std::fmt;

impl fmt::Display for InWords<Target> {
    ghost output = { λ words. Some (target_text words.0) };

    fn fmt<W: fmt::Write>(&self, f: &mut fmt::Formatter<W>) -> fmt::Result {
        match self.0 {
            Target::Idle => write!(f, "idle"),
            Target::Broadcast => write!(f, "all mobiles"),
            Target::Short { address } => write!(f, "short {address}"),
            Target::Long { address } => write!(f, "long {address}"),
            Target::Basic { address: 511 } => write!(f, "all basic"),
            Target::Basic { address } => write!(f, "basic {address}"),
            Target::Extended { address: 2047 } => write!(f, "all extended"),
            Target::Extended { address } => write!(f, "extended {address}"),
        }
    }
}

impl fmt::Display for InWords<Packet> {
    ghost output = { λ words. Some (packet_text words.0) };

    fn fmt<W: fmt::Write>(&self, f: &mut fmt::Formatter<W>) -> fmt::Result {
        let target = InWords(self.0.target);
        let instruction = InWords(self.0.instruction);
        write!(f, "{target}: {instruction}")
    }
}
