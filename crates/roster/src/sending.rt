ghost use Rattle.std.specs.Prelude.{◌≡◌, true, map, Ok};
ghost use Rattle.format.specs.Reading.{packet_read};
ghost use Rattle.block.specs.Contents.Thing.{power_up, packet as packet_of};
ghost use Rattle.script.specs.Boards.{is_lent, decoders, Rest};
ghost use Rattle.script.specs.Calls.{met, sent, some_hears};
ghost use Rattle.roster.specs.Held.{held, SameLenders};

use crate::banks::BanksMut;
use bank::{Kind, deliver, power_up};
use fault::Refusal;
use memory::Memory;
use packet::{Packet, Target};
use reader::read;

impl BanksMut<'_> {
    /// Sends a packet to every decoder, and answers whether some decoder heard it.
    #[tactic(auto, using(crate::proofs::Sendings::refused_met))]
    pub(crate) fn send<M: Memory>(
        &mut self,
        kinds: &[Kind],
        memory: &mut M,
        packet: &[u8],
    ) -> Result<bool, Refusal>
        requires { is_lent kinds.now (held M.Memory self.old memory.old) ≡ true }
        ensures answer { result ≡ sent (decoders kinds.now (held M.Memory self.old memory.old)) packet.now }
        ensures after { decoders kinds.now (held M.Memory self.new memory.new) ≡ map (met (packet_of packet.now)) (decoders kinds.now (held M.Memory self.old memory.old)) }
        ensures rest { Rest kinds.now (held M.Memory self.old memory.old) (held M.Memory self.new memory.new) }
        ensures lenders { SameLenders M.Memory self.old memory.old self.new memory.new }
    {
        match read(packet) {
            Ok(told) => Ok(self.send_told(kinds, memory, packet, told)),
            Err(fault) => Err(fault.refusal),
        }
    }

    fn send_told<M: Memory>(
        &mut self,
        kinds: &[Kind],
        memory: &mut M,
        packet: &[u8],
        told: Packet,
    ) -> bool
        requires lent { is_lent kinds.now (held M.Memory self.old memory.old) ≡ true }
        requires told { packet_read packet.now ≡ Ok told }
        ensures answer { result ≡ some_hears (decoders kinds.now (held M.Memory self.old memory.old)) packet.now }
        ensures after { decoders kinds.now (held M.Memory self.new memory.new) ≡ map (met (packet_of packet.now)) (decoders kinds.now (held M.Memory self.old memory.old)) }
        ensures rest { Rest kinds.now (held M.Memory self.old memory.old) (held M.Memory self.new memory.new) }
        ensures lenders { SameLenders M.Memory self.old memory.old self.new memory.new }
    {
        // Only decoders of the kind that the target names can hear it: the other banks are not asked.
        match told.target {
            Target::Idle => false,
            Target::Broadcast | Target::Short { .. } | Target::Long { .. } => {
                deliver(self.mobiles, Kind::Mobile, kinds, memory, packet, told).unwrap() > 0
            }
            Target::Basic { .. } => {
                deliver(self.basics, Kind::Basic, kinds, memory, packet, told).unwrap() > 0
            }
            Target::Extended { .. } => {
                deliver(self.extendeds, Kind::Extended, kinds, memory, packet, told).unwrap() > 0
            }
        }
    }

    /// The power comes up for every decoder.
    pub(crate) fn power_up_all<M: Memory>(&mut self, kinds: &[Kind], memory: &M)
        requires { is_lent kinds.now (held M.Memory self.old memory.now) ≡ true }
        ensures after { decoders kinds.now (held M.Memory self.new memory.now) ≡ map (met power_up) (decoders kinds.now (held M.Memory self.old memory.now)) }
        ensures rest { Rest kinds.now (held M.Memory self.old memory.now) (held M.Memory self.new memory.now) }
        ensures lenders { SameLenders M.Memory self.old memory.now self.new memory.now }
    {
        power_up(self.mobiles, Kind::Mobile, kinds).unwrap();
        power_up(self.basics, Kind::Basic, kinds).unwrap();
        power_up(self.extendeds, Kind::Extended, kinds).unwrap();
    }
}
