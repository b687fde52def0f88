ghost use Rattle.decoder.specs.Fitted.{blank, mobile_defaults, mobile_variables};
ghost use Rattle.bank.specs.Opened.{Became, Fits};

use crate::window::{Window, has_window};
use decoder::Address;
use fault::{Fault, Refusal};
use memory::Memory;
use packet::CvNumber;

// Two functions, which the board brings together: a mobile decoder's variables hang on its address, those of an
// accessory decoder on nothing, and what a fitting of any kind is only the crates above know.

/// Gives a new mobile decoder its variables, all of them: the defaults, and its address.
///
/// An inner call of the board. Refused, and nothing changes, where the memory has not the slot's
/// window.
pub fn fit_mobile_variables<M: Memory>(
    memory: &mut M,
    slot: usize,
    address: Address,
) -> Result<(), Fault>
    ensures { Fits M.Memory memory.old memory.new slot (mobile_variables address) result }
{
    if !has_window(memory, slot) {
        return Err(Refusal::TooFewCells.into());
    }
    Window::new(memory, slot).put_mobile(address);
    Ok(())
}

/// Gives a new accessory decoder its variables, all of them zero.
///
/// An inner call of the board. Refused, and nothing changes, where the memory has not the slot's
/// window.
pub fn fit_accessory_variables<M: Memory>(memory: &mut M, slot: usize) -> Result<(), Fault>
    ensures { Fits M.Memory memory.old memory.new slot blank result }
{
    if !has_window(memory, slot) {
        return Err(Refusal::TooFewCells.into());
    }
    Window::new(memory, slot).clear();
    Ok(())
}

impl<M: Memory> Window<'_, M> {
    /// Puts the defaults of a mobile decoder, and its address over them.
    #[tactic(auto, unfolding(decoder::specs::Fitted::mobile_variables))]
    fn put_mobile(&mut self, address: Address)
        ensures { Became self.old self.new (mobile_variables address) }
    {
        self.put_defaults();
        match address {
            Address::Short(address) => self.put(CvNumber::SHORT_ADDRESS, address),
            Address::Long(address) => {
                // No address above 10239 is fitted, whose high byte would go round.
                let [high, low] = address.to_be_bytes();
                self.put(CvNumber::LONG_ADDRESS_HIGH, high.wrapping_add(192));
                self.put(CvNumber::LONG_ADDRESS_LOW, low);
                // Bit 5 says that the long address counts.
                self.put(CvNumber::CONFIGURATION, 34);
            }
        }
    }

    /// Puts the defaults of a mobile decoder, and 0 into every other variable.
    #[tactic(auto, unfolding(decoder::specs::Fitted::mobile_defaults))]
    fn put_defaults(&mut self)
        ensures { Became self.old self.new mobile_defaults }
    {
        self.clear();
        self.put(CvNumber::SHORT_ADDRESS, 3);
        self.put(CvNumber::LONG_ADDRESS_HIGH, 192);
        self.put(CvNumber::CONFIGURATION, 2);
        self.put(CvNumber::INDEX_HIGH, 16);
    }

    /// Puts 0 into every variable, whatever the window held before.
    #[tactic(auto, using(crate::proofs::Clearing::clear_all))]
    fn clear(&mut self)
        ensures { Became self.old self.new blank }
    {
        for number in 1..=1024 {
            let cv = CvNumber::new(number).unwrap();
            self.put(cv, 0);
        }
    }
}
