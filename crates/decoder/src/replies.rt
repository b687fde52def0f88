ghost use Rattle.std.specs.Prelude.{◌≡◌};
ghost use Rattle.decoder.specs.Replies.{answer_of, reply_after};

use crate::effect::{Accessed, Change};
use crate::heard::Heard;
use crate::role::Role;
use state::{Reply, has_bit};

/// A verify of a byte tells the variable, all else is acknowledged.
fn answer_of(accessed: Option<Accessed>) -> Reply
    ensures { result ≡ answer_of accessed }
{
    match accessed {
        Some(Accessed { access, value, .. })
            if !access.writes && matches!(access.change, Change::Byte(_)) => Reply::Value(value),
        _ => Reply::Acknowledgment,
    }
}

impl Heard {
    /// The reply: none unless it came to the own address, replies were enabled before it, and it acted.
    pub(crate) fn reply(self, config: u8, accessed: Option<Accessed>, acted: bool) -> Option<Reply>
        ensures { result ≡ reply_after config accessed self.role acted }
    {
        match self.role {
            Role::Own if has_bit(config, 3) && acted => Some(answer_of(accessed)),
            _ => None,
        }
    }
}
