//! Hosts that keep the chip, and lend it to a board anew for each call: what the chip holds afterwards.

#![tactic(auto)]

ghost use Rattle.std.specs.Prelude.{◌≡◌};
ghost use Rattle.script.specs.Decoders.{variable_in};
ghost use Rattle.script.specs.Calls.{answer_of};
ghost use Rattle.board.specs.Slots.{running_kinds};
ghost use Rattle.hosts.specs.Chips.{on_chip, on_strip, SetOne};

use board::Running;
use fault::Fault;
use memory::{ByteMemory, Strip};
use roster::BanksMut;
use script::DecoderName;

/// Sets a variable and reads it, over a memory for each.
pub fn set_and_read(
    board: &Running,
    banks: &mut BanksMut<'_>,
    chip: &mut [u8],
    decoder: DecoderName,
    variable: u16,
    value: u8,
) -> Result<u8, Fault>
    ensures set { SetOne (running_kinds board.now) (on_chip banks.old chip.old) (on_chip banks.new chip.new)
        decoder variable value }
    ensures answer { result
        ≡ answer_of (running_kinds board.now) (on_chip banks.new chip.new)
        decoder (variable_in variable) }
{
    let mut memory = ByteMemory::new(chip);
    let _ = board.set(banks, &mut memory, decoder, variable, value);
    let mut again = ByteMemory::new(chip);
    board.variable(banks.shared(), &mut again, decoder, variable)
}

/// The same over a strip of the chip, which stands on the chip's own bytes after both calls.
pub fn set_and_read_on_strip(
    board: &Running,
    banks: &mut BanksMut<'_>,
    strip: &mut Strip<ByteMemory<'_>>,
    decoder: DecoderName,
    variable: u16,
    value: u8,
) -> Result<u8, Fault>
    ensures set { SetOne (running_kinds board.now)
        (on_strip banks.old strip.old.below.places.now strip.old.first strip.old.count)
        (on_strip banks.new strip.new.below.places.now strip.new.first strip.new.count)
        decoder variable value }
    ensures answer { result
        ≡ answer_of (running_kinds board.now)
        (on_strip banks.new strip.new.below.places.now strip.new.first strip.new.count)
        decoder (variable_in variable) }
    ensures lender { strip.new.below.places.ghost_name ≡ strip.old.below.places.ghost_name }
{
    let _ = board.set(banks, strip, decoder, variable, value);
    board.variable(banks.shared(), strip, decoder, variable)
}
