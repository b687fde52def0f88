ghost use Rattle.std.specs.Prelude.{◌≡◌};
ghost use Rattle.script.specs.declared.call.Call.TheVariants as calls;
ghost use Rattle.script.specs.Boards.{decoders, Rest};
ghost use Rattle.script.specs.Calls.{answer_to, after_call, answer_by, after_by, OnRefusal};
ghost use Rattle.roster.specs.Held.{held, SameLenders};
ghost use Rattle.board.specs.Slots.{running_kinds};

use crate::boards::Running;
use fault::Fault;
use memory::Memory;
use roster::BanksMut;
use script::{Answer, Call, DecoderName, DecoderState, Request};
use state::ExtendedState;

impl Running {
    /// Makes one call of a script.
    pub fn perform<M: Memory>(
        &self,
        banks: &mut BanksMut<'_>,
        memory: &mut M,
        call: &Call<'_>,
    ) -> Result<Answer, Fault>
        ensures answer { result ≡ answer_by (running_kinds self.now) (held M.Memory banks.old memory.old) (λ ds. answer_to ds call.now) }
        ensures after { decoders (running_kinds self.now) (held M.Memory banks.new memory.new) ≡ after_by (running_kinds self.now) (held M.Memory banks.old memory.old) (λ ds. after_call ds call.now) }
        ensures rest { Rest (running_kinds self.now) (held M.Memory banks.old memory.old) (held M.Memory banks.new memory.new) }
        ensures refused { OnRefusal result (held M.Memory banks.new memory.new ≡ held M.Memory banks.old memory.old) }
        ensures lenders { SameLenders M.Memory banks.old memory.old banks.new memory.new }
    {
        match call {
            Call::Take(block) => Ok(Answer::Taken(self.take(banks, memory, block)?)),
            Call::Ask(decoder, request) => self.ask(banks, memory, *decoder, *request),
        }
    }

    fn ask<M: Memory>(
        &self,
        banks: &mut BanksMut<'_>,
        memory: &mut M,
        decoder: DecoderName,
        request: Request,
    ) -> Result<Answer, Fault>
        ensures answer { result ≡ answer_by (running_kinds self.now) (held M.Memory banks.old memory.old) (λ ds. answer_to ds (calls.Ask decoder request)) }
        ensures after { decoders (running_kinds self.now) (held M.Memory banks.new memory.new) ≡ after_by (running_kinds self.now) (held M.Memory banks.old memory.old) (λ ds. after_call ds (calls.Ask decoder request)) }
        ensures rest { Rest (running_kinds self.now) (held M.Memory banks.old memory.old) (held M.Memory banks.new memory.new) }
        ensures refused { OnRefusal result (held M.Memory banks.new memory.new ≡ held M.Memory banks.old memory.old) }
        ensures lenders { SameLenders M.Memory banks.old memory.old banks.new memory.new }
    {
        match request {
            Request::Set { variable, value } => {
                self.set(banks, memory, decoder, variable, value)?;
                Ok(Answer::Set)
            }
            Request::State => {
                // A place to copy to. What stands in it before is never answered.
                let mut place = DecoderState::Extended(ExtendedState::new());
                self.state(banks.shared(), memory, decoder, &mut place)?;
                Ok(Answer::State(place))
            }
            Request::Variable(number) => {
                let value = self.variable(banks.shared(), memory, decoder, number)?;
                Ok(Answer::Variable(value))
            }
            Request::Function(number) => {
                let on = self.function(banks.shared(), memory, decoder, number)?;
                Ok(Answer::Function(on))
            }
            Request::BinaryState(number) => {
                let on = self.binary_state(banks.shared(), memory, decoder, number)?;
                Ok(Answer::BinaryState(on))
            }
        }
    }
}
