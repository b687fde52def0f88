ghost use Rattle.std.specs.Prelude.{◌≡◌, ◌+◌, ◌≤◌, ◌++◌, length, drop, Ok};
ghost use Rattle.std.specs.Result.{result_map_both};
ghost use Rattle.fault.specs.Places.{nowhere};
ghost use Rattle.packet.specs.Parity.{sealed};
ghost use Rattle.format.specs.Laws.{ReadsBack, Unwritten};
ghost use Rattle.format.specs.Writing.{encoded, answer, after};

use crate::body::body;
use crate::bytes::Bytes;
use crate::head::head;
use fault::{Fault, Refusal};
use packet::{Packet, parity};

/// Puts both parts and the error byte at the front of the place.
fn put(head: &[u8], body: &[u8], place: &mut [u8])
    requires { length head.now + length body.now + 1 ≤ length place.old }
    ensures { place.new ≡ sealed (head.now ++ body.now) ++ drop (length head.now + length body.now + 1) place.old }
{
    let (front, rest) = place.split_at_mut(head.len());
    front.copy_from_slice(head);
    let (middle, rest) = rest.split_at_mut(body.len());
    middle.copy_from_slice(body);
    rest[0] = parity(head) ^ parity(body);
}

/// Both parts and the error byte, if the place has room.
// `answered` and `placed` stay two clauses, as the answer and the place are two things that a caller looks up.
fn place_parts(head: &Bytes, body: &Bytes, place: &mut [u8]) -> Result<usize, Refusal>
    ensures answered { result ≡ answer (Ok (sealed (head.now.items ++ body.now.items))) place.old }
    ensures placed { place.new ≡ after (Ok (sealed (head.now.items ++ body.now.items))) place.old }
{
    let total = head.len() + body.len() + 1;
    if place.len() < total {
        return Err(Refusal::PlaceTooShort);
    }
    put(head, body, place);
    Ok(total)
}

#[tactic(auto, unfolding(format::specs::Writing::encoded))]
fn encode(packet: Packet, place: &mut [u8]) -> Result<usize, Refusal>
    ensures answered { result ≡ answer (encoded packet.target packet.instruction) place.old }
    ensures placed { place.new ≡ after (encoded packet.target packet.instruction) place.old }
{
    let head = head(packet)?;
    let body = body(packet)?;
    place_parts(&head, &body, place)
}

/// Puts the packet at the front of the place and answers its length; the rest of the place stays. A refusal leaves all
/// of it, and has the offset 0. What is written reads as itself.
pub fn write(packet: Packet, place: &mut [u8]) -> Result<usize, Fault>
    ensures answered { result ≡ result_map_both (λ n. n) nowhere
        (answer (encoded packet.target packet.instruction) place.old) }
    ensures placed { place.new ≡ after (encoded packet.target packet.instruction) place.old }
    ensures reads_back { ReadsBack packet.target packet.instruction result place.new }
    ensures refused { Unwritten packet.target packet.instruction place.old result }
{
    encode(packet, place).map_err(Fault::from)
}
