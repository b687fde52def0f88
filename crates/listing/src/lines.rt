use block::{Carried, Record};
use reader::read;
use words::{Hex, InWords};

/// What was listed so far.
#[derive(Clone, Copy, Default)]
pub struct Tally {
    accepted: usize,
    refused: usize,
    power_ups: usize,
    fill: usize,
}

impl Tally {
    /// Prints one record and counts it.
    pub(crate) fn show(&mut self, rt: &HostRuntime, carried: Carried<'_>) -> anyhow::Result<()> {
        let offset = carried.offset;
        match carried.record {
            Record::Fill => {
                self.fill = carried.next.saturating_sub(offset);
                println!(rt; "{offset:>3}  {:<17}  fill to the end of the block", "00")?;
            }
            Record::PowerUp => {
                self.power_ups = self.power_ups.saturating_add(1);
                println!(rt; "{offset:>3}  {:<17}  power-up", "10")?;
            }
            Record::Packet(bytes) => self.show_packet(rt, offset, bytes)?,
        }
        Ok(())
    }

    fn show_packet(&mut self, rt: &HostRuntime, offset: usize, bytes: &[u8]) -> anyhow::Result<()> {
        let text = Hex(bytes).to_string(rt.alloc())?;
        match read(bytes) {
            Ok(packet) => {
                self.accepted = self.accepted.saturating_add(1);
                let words = InWords(packet);
                println!(rt; "{offset:>3}  {text:<17}  {words}")?;
            }
            Err(fault) => {
                self.refused = self.refused.saturating_add(1);
                let refusal = fault.refusal;
                let number = refusal.number();
                println!(rt; "{offset:>3}  {text:<17}  refused {number} {refusal}")?;
            }
        }
        Ok(())
    }

    /// Prints how many of each there were.
    pub(crate) fn close(self, rt: &HostRuntime) -> anyhow::Result<()> {
        let accepted = self.accepted;
        let refused = self.refused;
        let packets = accepted.saturating_add(refused);
        let power_ups = self.power_ups;
        let fill = self.fill;
        println!(rt;
            "packets {packets}, accepted {accepted}, refused {refused}, power-ups {power_ups}, fill {fill}"
        )?;
        Ok(())
    }
}
