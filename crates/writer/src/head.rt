ghost use Rattle.std.specs.Prelude.{◌≡◌};
ghost use Rattle.format.specs.Writing.{form_of, output_bits, head_of};
ghost use Rattle.writer.specs.Contents.{listed};

use crate::body::flag;
use crate::bytes::{Bytes, bytes};
use fault::Refusal;
use packet::{Instruction, Packet, Target};

/// The low four bits of a basic head: the output that is set, or zero.
fn output_bits(instruction: Instruction) -> u8
    ensures { result ≡ output_bits (form_of instruction) }
{
    match instruction {
        Instruction::Output { output, on } => flag(on, 8) + output % 8,
        _ => 0,
    }
}

pub(crate) fn head(packet: Packet) -> Result<Bytes, Refusal>
    ensures { listed result ≡ head_of packet.target (form_of packet.instruction) }
{
    match packet.target {
        Target::Idle => Ok(bytes([0xff, 0x00])),
        Target::Broadcast => Ok(bytes([0x00])),
        Target::Short { address } if (1..128).contains(&address) => Ok(bytes([address])),
        Target::Long { address } if address < 10240 => {
            let [high, low] = address.to_be_bytes();
            Ok(bytes([0xc0 + high, low]))
        }
        Target::Basic { address } if address < 512 => Ok(bytes([
            0x80 + (address % 64) as u8,
            0x80 + 16 * (7 - address / 64) as u8 + output_bits(packet.instruction),
        ])),
        Target::Extended { address } if address < 2048 => Ok(bytes([
            0x80 + (address / 4 % 64) as u8,
            16 * (7 - address / 256) as u8 + 2 * (address % 4) as u8 + 1,
        ])),
        _ => Err(Refusal::FieldOutOfRange),
    }
}
