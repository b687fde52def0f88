use crate::line::Lent;
use decoder::{Basic, Extended, Mobile};
use roster::{Banks, BanksMut};
use std::alloc::{AllocError, Global};

/// How many decoders a board takes, and so how many records each bank has.
pub(crate) const RECORDS: usize = 32;

/// How many cells the decoders of a full board own.
pub(crate) const CELLS: usize = 32768;

/// A record of each kind for each decoder that a board takes, as at power-up.
#[derive(Drop)]
pub struct Records {
    mobiles: Vec<Mobile>,
    basics: Vec<Basic>,
    extendeds: Vec<Extended>,
}

impl Records {
    pub(crate) fn new(heap: Global) -> Result<Records, AllocError> {
        Ok(Records {
            mobiles: vec![in heap; Mobile::new(); RECORDS]?,
            basics: vec![in heap; Basic::new(0); RECORDS]?,
            extendeds: vec![in heap; Extended::new(0); RECORDS]?,
        })
    }

    /// All of them.
    pub(crate) fn banks(&mut self) -> BanksMut<'_> {
        BanksMut {
            mobiles: self.mobiles.as_mut_slice(),
            basics: self.basics.as_mut_slice(),
            extendeds: self.extendeds.as_mut_slice(),
        }
    }

    /// The first of each bank, as many as are lent.
    pub(crate) fn lend(&mut self, lent: Lent) -> BanksMut<'_> {
        let mobiles = lent.mobiles.min(self.mobiles.len());
        let basics = lent.basics.min(self.basics.len());
        let extendeds = lent.extendeds.min(self.extendeds.len());
        BanksMut {
            mobiles: &mut self.mobiles[..mobiles],
            basics: &mut self.basics[..basics],
            extendeds: &mut self.extendeds[..extendeds],
        }
    }
}
