use crate::trouble::{Cut, Trouble};
use std::alloc::Global;

/// The blocks of a capture, in the order in which they were handed over.
#[derive(Drop)]
pub struct Capture<'a> {
    pub blocks: Vec<&'a [u8]>,
}

fn cut_off(heap: Global, path: &str, cut: Cut) -> Result<Trouble, Trouble> {
    let path = String::from_str(heap, path)?;
    Ok(Trouble::CutOff { path, cut })
}

/// Divides bytes into blocks. Each has its length before it in two bytes, the high one first.
fn divide<'a>(heap: Global, path: &str, bytes: &'a [u8]) -> Result<Vec<&'a [u8]>, Trouble> {
    let mut blocks = Vec::new(heap);
    let mut rest = bytes;
    while let [high, low, tail @ ..] = rest {
        let length = usize::from(u16::from_be_bytes([*high, *low]));
        let (block, after) = tail
            .split_at_checked(length)
            .try_ok_or_else(|| cut_off(heap, path, Cut::WithinBlock))?;
        blocks.push(block)?;
        rest = after;
    }
    if rest.is_empty() {
        Ok(blocks)
    } else {
        Err(cut_off(heap, path, Cut::WithinLength)?)
    }
}

impl<'a> Capture<'a> {
    /// The capture that a file holds, by its bytes.
    pub(crate) fn new(heap: Global, path: &str, bytes: &'a [u8]) -> Result<Capture<'a>, Trouble> {
        let blocks = divide(heap, path, bytes)?;
        Ok(Capture { blocks })
    }
}
