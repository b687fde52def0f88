//! Reading what a program is given.

#![tactic(auto)]

ghost use Rattle.std.specs.Prelude.{◌<◌, ◌≤◌, length, take, IfOk, OnErr, SomeIndex};
ghost use Rattle.std.specs.Io.KnownBytes.{Consumes, IsAtEnd};

use std::io;
use std::io::Read;

/// Fills the place from the input, and answers how many bytes there were; what finds no room is not read.
///
/// Where a read fails, what was read before it stands at the front of the place. What stands behind the bytes that were
/// read is left open, since `Read::read` leaves it open.
pub fn read_up_to<R: Read>(input: &mut R, place: &mut [u8]) -> io::Result<usize>
    ensures room { IfOk result (λ n. n ≤ length place.new) }
    ensures bytes { IfOk result (λ n. Consumes (R.Read.remaining input.old) (R.Read.remaining input.new) (take n place.new)) }
    ensures end { IfOk result (λ n. n < length place.new → IsAtEnd (R.Read.remaining input.new)) }
    ensures failed { OnErr result (SomeIndex place.new (λ n.
        Consumes (R.Read.remaining input.old) (R.Read.remaining input.new) (take n place.new))) }
{
    // No `read_to_end`: the place is lent, there is no heap, and an input may have no end.
    let mut count = 0;
    while count < place.len() {
        let more = input.read(&mut place[count..])?;
        if more == 0 {
            break;
        }
        count += more;
    }
    Ok(count)
}
