ghost use Rattle.std.specs.Prelude.{◌≡◌, Ok};
ghost use Rattle.script.specs.Decoders.{state_of, variable_in, function_in, binary_state_in};
ghost use Rattle.script.specs.Calls.{answer_of, place_after};
ghost use Rattle.roster.specs.Held.{seen};
ghost use Rattle.roster.specs.Mobiles.{MobileFound};

use crate::banks::Banks;
use bank::Kind;
use decoder::Mobile;
use fault::{Fault, Refusal};
use memory::Memory;
use packet::CvNumber;
use script::{DecoderName, DecoderState};

impl<'a> Banks<'a> {
    /// Copies all of a decoder's volatile part to the place.
    // The caller lends the place: a state has hundreds of bytes, and there is no heap to put another one into.
    pub fn state<M: Memory>(
        self,
        kinds: &[Kind],
        memory: &M,
        decoder: DecoderName,
        place: &mut DecoderState,
    ) -> Result<(), Fault>
        ensures answer { result ≡ answer_of kinds.now (seen M.Memory self.entry memory.now) decoder (λ _. Ok tt) }
        ensures placed { place.new ≡ place_after place.old (answer_of kinds.now (seen M.Memory self.entry memory.now) decoder (λ d. Ok (state_of d))) }
    {
        self.locate(kinds, memory, decoder)?;
        let DecoderName { kind, number } = decoder;
        *place = match kind {
            Kind::Mobile => DecoderState::Mobile(self.mobiles[number].state),
            Kind::Basic => DecoderState::Basic(self.basics[number].state),
            Kind::Extended => DecoderState::Extended(self.extendeds[number].state),
        };
        Ok(())
    }

    /// One variable of a decoder, 1 to 1024.
    pub fn variable<M: Memory>(
        self,
        kinds: &[Kind],
        memory: &mut M,
        decoder: DecoderName,
        number: u16,
    ) -> Result<u8, Fault>
        ensures answer { result ≡ answer_of kinds.now (seen M.Memory self.entry memory.old) decoder (variable_in number) }
        ensures same { seen M.Memory self.entry memory.new ≡ seen M.Memory self.entry memory.old }
        ensures lenders { M.Memory.lenders memory.new ≡ M.Memory.lenders memory.old }
    {
        let slot = self.locate(kinds, memory, decoder)?;
        let cv = CvNumber::new(number).ok_or(Refusal::NumberOutOfRange)?;
        bank::variable(memory, slot, cv)
    }

    // Two calls and not one over what is read: each contract has its own numbers, and a caller sees at the call which
    // it asks.

    /// Whether a function of a mobile decoder is on: 0, which is FL, to 68.
    pub fn function<M: Memory>(
        self,
        kinds: &[Kind],
        memory: &M,
        decoder: DecoderName,
        number: u16,
    ) -> Result<bool, Fault>
        ensures { result ≡ answer_of kinds.now (seen M.Memory self.entry memory.now) decoder (function_in number) }
    {
        let mobile = self.mobile(kinds, memory, decoder)?;
        let functions = &mobile.state.functions;
        functions
            .numbered(number)
            .ok_or(Refusal::NumberOutOfRange.into())
    }

    /// Whether a binary state of a mobile decoder is on, 1 to 2047.
    pub fn binary_state<M: Memory>(
        self,
        kinds: &[Kind],
        memory: &M,
        decoder: DecoderName,
        number: u16,
    ) -> Result<bool, Fault>
        ensures { result ≡ answer_of kinds.now (seen M.Memory self.entry memory.now) decoder (binary_state_in number) }
    {
        let mobile = self.mobile(kinds, memory, decoder)?;
        let states = &mobile.state.states;
        states.get(number).ok_or(Refusal::NumberOutOfRange.into())
    }

    /// A mobile decoder; those of other kinds have neither functions nor binary states.
    fn mobile<M: Memory>(
        self,
        kinds: &[Kind],
        memory: &M,
        decoder: DecoderName,
    ) -> Result<&'a Mobile, Fault>
        ensures { MobileFound kinds.now (seen M.Memory self.entry memory.now) decoder result }
    {
        self.locate(kinds, memory, decoder)?;
        match decoder.kind {
            Kind::Mobile => Ok(&self.mobiles[decoder.number]),
            Kind::Basic | Kind::Extended => Err(Refusal::NoSuchDecoder.into()),
        }
    }
}
