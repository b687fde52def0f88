ghost use Rattle.std.specs.Prelude.{◌≡◌, ◌≤◌};
ghost use Rattle.std.specs.Option.{option_map};
ghost use Rattle.std.specs.Result.{result_err, result_map_both};
ghost use Rattle.fault.specs.Places.{nowhere};
ghost use Rattle.format.specs.Reading.{told as told_of, long as long_of, idle as idle_of, by_address, addressed as addressed_of, packet_read};
ghost use Rattle.format.specs.Laws.{WrittenBack, AllAccepted};
ghost use Rattle.format.specs.Refusing.{first_cause, causes};

use crate::accessory::accessory;
use crate::mobile::mobile;
use fault::{Fault, Refusal};
use packet::{Instruction, Packet, Target, parity};

/// A target with the instruction that comes after it.
pub(crate) fn told(target: Target, asked: Result<Instruction, Refusal>) -> Result<Packet, Refusal>
    ensures { result ≡ told_of target asked }
{
    asked.map(|instruction| Packet {
        target,
        instruction,
    })
}

#[tactic(auto, unfolding(format::specs::Reading::long))]
fn long(first: u8, rest: &[u8]) -> Result<Packet, Refusal>
    requires { 0xc0 ≤ first }
    ensures { result ≡ long_of first rest.now }
{
    match rest {
        [] => Err(Refusal::NoInstruction),
        [second, rest @ ..] => {
            let address = u16::from_be_bytes([first - 0xc0, *second]);
            told(Target::Long { address }, mobile(rest))
        }
    }
}

fn idle(rest: &[u8]) -> Result<Packet, Refusal>
    ensures { result ≡ idle_of rest.now }
{
    match rest {
        [0x00] => Ok(Packet {
            target: Target::Idle,
            instruction: Instruction::NoOperation,
        }),
        _ => Err(Refusal::IdleForm),
    }
}

fn by_address(first: u8, rest: &[u8]) -> Result<Packet, Refusal>
    ensures { result ≡ by_address first rest.now }
{
    match first {
        0x00 => told(Target::Broadcast, mobile(rest)),
        0x01..=0x7f => told(Target::Short { address: first }, mobile(rest)),
        0x80..=0xbf => accessory(first, rest),
        0xc0..=0xe7 => long(first, rest),
        0xe8..=0xfc => Err(Refusal::ReservedAddress),
        0xfd | 0xfe => Err(Refusal::AdvancedFormat),
        0xff => idle(rest),
    }
}

#[tactic(auto, unfolding(format::specs::Reading::addressed))]
fn addressed(bytes: &[u8]) -> Result<Packet, Refusal>
    ensures { result ≡ addressed_of bytes.now }
{
    match bytes {
        [] => Err(Refusal::PacketLength),
        [first, rest @ ..] => by_address(*first, rest),
    }
}

fn decode(packet: &[u8]) -> Result<Packet, Refusal>
    ensures { result ≡ packet_read packet.now }
{
    if !(3..=6).contains(&packet.len()) {
        return Err(Refusal::PacketLength);
    }
    if parity(packet) != 0 {
        return Err(Refusal::ErrorByte);
    }
    addressed(&packet[..packet.len() - 1])
}

/// What a packet says, or the first cause for which it is refused, with the offset 0. What it accepts is exactly what
/// `write` writes.
pub fn read(packet: &[u8]) -> Result<Packet, Fault>
    ensures value { result ≡ result_map_both (λ p. p) nowhere (packet_read packet.now) }
    ensures written_back { WrittenBack packet.now result }
    ensures all_accepted { AllAccepted packet.now result }
    ensures refused { result_err result ≡ option_map nowhere (first_cause (causes packet.now)) }
{
    decode(packet).map_err(Fault::from)
}
