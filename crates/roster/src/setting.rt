ghost use Rattle.std.specs.Prelude.{◌≡◌};
ghost use Rattle.script.specs.declared.call.Request.TheVariants.{Set};
ghost use Rattle.script.specs.Decoders.{lives, changed, if_variable, events_of};
ghost use Rattle.script.specs.Boards.{decoders, Rest};
ghost use Rattle.script.specs.Calls.{answer_of, after_by, OnRefusal};
ghost use Rattle.roster.specs.Held.{held, SameLenders};

use crate::banks::BanksMut;
use bank::Kind;
use fault::{Fault, Refusal};
use memory::Memory;
use packet::CvNumber;
use script::DecoderName;

impl BanksMut<'_> {
    /// Puts a byte into one variable of one decoder, whose waiting write is then forgotten.
    pub fn set_variable<M: Memory>(
        &mut self,
        kinds: &[Kind],
        memory: &mut M,
        decoder: DecoderName,
        variable: u16,
        value: u8,
    ) -> Result<(), Fault>
        ensures answer { result ≡ answer_of kinds.now (held M.Memory self.old memory.old) decoder (λ _. if_variable variable tt) }
        ensures after { decoders kinds.now (held M.Memory self.new memory.new) ≡ after_by kinds.now (held M.Memory self.old memory.old) (changed (λ d. lives d (events_of (Set variable value))) decoder.kind decoder.number) }
        ensures rest { Rest kinds.now (held M.Memory self.old memory.old) (held M.Memory self.new memory.new) }
        ensures refused { OnRefusal result (held M.Memory self.new memory.new ≡ held M.Memory self.old memory.old) }
        ensures lenders { SameLenders M.Memory self.old memory.old self.new memory.new }
    {
        let slot = self.shared().locate(kinds, memory, decoder)?;
        let cv = CvNumber::new(variable).ok_or(Refusal::NumberOutOfRange)?;
        let DecoderName { kind, number } = decoder;
        match kind {
            Kind::Mobile => bank::set_variable(self.mobiles, number, memory, slot, cv, value),
            Kind::Basic => bank::set_variable(self.basics, number, memory, slot, cv, value),
            Kind::Extended => bank::set_variable(self.extendeds, number, memory, slot, cv, value),
        }
    }
}
