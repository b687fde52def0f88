ghost use Rattle.std.specs.Prelude.{◌≡◌};
ghost use Rattle.state.specs.Packing.{packed, matches};

use crate::waiting::WaitingWrite;

impl WaitingWrite {
    /// A copy of a packet, of which at most six bytes are kept.
    // No `From`, which would promise all of the packet.
    pub fn new(packet: &[u8]) -> WaitingWrite
        ensures { result ≡ packed packet.now }
    {
        let length = packet.len().min(6);
        let mut bytes = [0; 6];
        bytes[0..length].copy_from_slice(&packet[0..length]);
        WaitingWrite { bytes, length }
    }

    /// Whether this very packet waits.
    pub fn repeats(self, waiting: Option<WaitingWrite>) -> bool
        ensures { result ≡ matches waiting self }
    {
        waiting == Some(self)
    }
}
