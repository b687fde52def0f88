ghost use Rattle.std.specs.Prelude.{◌≡◌};
ghost use Rattle.block.specs.Contents.{first_nonzero_from, record_at, found, Within};

use fault::{Fault, Refusal};

/// What a record is. A packet is the very part of the block that holds its bytes.
#[derive(Clone, Copy, Debug)]
pub enum Record<'a> {
    /// The end of the records: only zero bytes follow.
    Fill,
    /// The power came up.
    PowerUp,
    /// A packet's bytes, 3 to 6 of them.
    Packet(&'a [u8]),
}

/// A record where it stands in its block.
#[derive(Clone, Copy, Debug)]
pub struct Carried<'a> {
    /// Where its kind byte stands.
    pub offset: usize,
    pub record: Record<'a>,
    /// Where the next record begins; after fill, the block's length.
    pub next: usize,
}

/// Where the first byte that is not zero stands, from `offset` on.
#[tactic(auto, using(crate::proofs::Fills::nonzero_end))]
fn first_nonzero(block: &[u8], offset: usize) -> Option<usize>
    ensures { result ≡ first_nonzero_from block.now offset }
{
    let rest = block.get(offset..)?;
    rest.iter().position(|byte| *byte != 0).map(|k| offset + k)
}

/// The record that begins at `offset`, or none where `offset` is at the block's end or past it.
///
/// It refuses an unknown kind, a body that is cut off, and a byte after fill that is not zero.
/// It does not look at the block's length: a walk has refused a block that is too long.
pub(crate) fn record_at<'a>(block: &'a [u8], offset: usize) -> Result<Option<Carried<'a>>, Fault>
    ensures is { found result ≡ record_at block.now offset }
    ensures within { Within block.entry offset result }
{
    let Some(&kind) = block.get(offset) else {
        return Ok(None);
    };
    let (record, next) = match kind {
        0x00 => match first_nonzero(block, offset + 1) {
            Some(at) => return Err(Refusal::NonzeroFill.at(at)),
            None => (Record::Fill, block.len()),
        },
        0x10 => (Record::PowerUp, offset + 1),
        0x03..=0x06 => {
            let next = offset + 1 + usize::from(kind);
            if block.len() < next {
                return Err(Refusal::BodyCutOff.at(offset));
            }
            (Record::Packet(&block[offset + 1..next]), next)
        }
        _ => return Err(Refusal::UnknownKind.at(offset)),
    };
    Ok(Some(Carried {
        offset,
        record,
        next,
    }))
}
