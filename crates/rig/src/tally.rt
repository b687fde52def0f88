use block::survey;
use fault::Fault;
use script::Taken;
use std::fmt;

/// What came of the blocks of a capture.
#[derive(Clone, Copy, Default)]
pub struct Tally {
    heard: usize,
    unheard: usize,
    refused: usize,
    refused_blocks: usize,
    faults: usize,
    fill: usize,
}

/// Whether a block that has no fault ends in fill.
fn ends_in_fill(block: &[u8]) -> bool {
    match block {
        // A record has at most 7 bytes, and none begins with 0.
        [.., 0, 0, 0, 0, 0, 0, 0] => true,
        // A packet's last byte may be 0, too.
        [.., 0] => survey(block).is_ok_and(|summary| summary.end < block.len()),
        _ => false,
    }
}

impl Tally {
    fn add_packets(&mut self, taken: Taken) {
        self.heard = self.heard.saturating_add(taken.heard);
        self.unheard = self.unheard.saturating_add(taken.unheard);
        self.refused = self.refused.saturating_add(taken.refused);
    }

    /// Counts a block and what came of it.
    pub(crate) fn add(&mut self, block: &[u8], res: Result<Taken, Fault>) {
        match res {
            Ok(taken) => {
                self.add_packets(taken);
                if taken.fault.is_some() {
                    self.faults = self.faults.saturating_add(1);
                } else if ends_in_fill(block) {
                    self.fill = self.fill.saturating_add(1);
                }
            }
            Err(_) => self.refused_blocks = self.refused_blocks.saturating_add(1),
        }
    }
}

impl fmt::Display for Tally {
    fn fmt<W: fmt::Write>(&self, f: &mut fmt::Formatter<W>) -> fmt::Result {
        let Tally {
            heard,
            unheard,
            refused,
            refused_blocks,
            faults,
            fill,
        } = *self;
        write!(f, "heard {heard} unheard {unheard} refused {refused}")?;
        write!(
            f,
            " blocks-refused {refused_blocks} faults {faults} fill {fill}"
        )
    }
}
