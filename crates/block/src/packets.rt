ghost use Rattle.std.specs.Prelude.{◌≡◌};
ghost use Rattle.block.specs.Handing.{handed_out};

use crate::records::Record;
use crate::walk::Walk;
use fault::{Fault, Refusal};

/// The packet that `n` others stand before, as the very part of the block that holds it.
///
/// It counts the packets that the block carries, those before its fill or its first fault, and tells no fault of the
/// block but that of its length.
pub fn packet_at<'a>(block: &'a [u8], n: usize) -> Result<&'a [u8], Fault>
    ensures { result ≡ handed_out block.entry n }
{
    Walk::new(block)?
        .filter_map(|item| match item.ok()?.record {
            Record::Packet(packet) => Some(packet),
            Record::PowerUp | Record::Fill => None,
        })
        .nth(n)
        .ok_or(Refusal::NumberOutOfRange.into())
}
