ghost use Rattle.std.specs.Prelude.{◌-◌, length};
ghost use Rattle.block.specs.Walking.{walked, stands_at, Begins, Advances, GivesAll};
ghost use Rattle.std.specs.Iterator.{at_most};

use crate::limit::check_length;
use crate::records::{Carried, record_at};
use fault::Fault;

/// Goes through a block record by record.
///
/// Its items are the records in order, fill too where only zero bytes follow it. Where the block is at fault, that
/// fault is the last item.
#[derive(Drop)]
pub struct Walk<'a> {
    block: &'a [u8],
    offset: usize,
}

impl<'a> Walk<'a> {
    /// Begins at the front of a block, and refuses one that is empty or has more than 512 bytes.
    pub fn new(block: &'a [u8]) -> Result<Walk<'a>, Fault>
        ensures begins { Begins block.entry result }
        ensures gives { GivesAll block.entry result }
    {
        check_length(block)?;
        Ok(Walk { block, offset: 0 })
    }
}

impl<'a> Iterator for Walk<'a> {
    type Item = Result<Carried<'a>, Fault>;

    ghost next_gives = { Advances };

    ghost remaining = { λ s. at_most (length (walked s) - stands_at s) };

    fn next(&mut self) -> Option<Result<Carried<'a>, Fault>> {
        let item = record_at(self.block, self.offset).transpose()?;
        self.offset = match item {
            Ok(carried) => carried.next,
            Err(_) => self.block.len(),
        };
        Some(item)
    }
}
