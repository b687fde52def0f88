ghost use Rattle.std.specs.Prelude.{◌≡◌, Ok};
ghost use Rattle.script.specs.declared.call.Request.TheVariants.{Set};
ghost use Rattle.script.specs.Decoders.{lives, changed, if_variable, events_of, state_of, variable_in, function_in, binary_state_in};
ghost use Rattle.script.specs.Boards.{decoders, Rest};
ghost use Rattle.script.specs.Calls.{taking, given, after_records, place_after, answer_by, answer_of, after_by, OnRefusal};
ghost use Rattle.roster.specs.Held.{seen, held, SameLenders};
ghost use Rattle.board.specs.Slots.{running_kinds};

use crate::boards::Running;
use bank::Kind;
use fault::Fault;
use memory::Memory;
use roster::{Banks, BanksMut};
use script::{DecoderName, DecoderState, Taken};

// The calls of the banks once more: those take any list of kinds, and these have the board's own, which nobody can
// lend wrongly.
impl Running {
    /// The kinds of the fitted decoders, in the order of fitting.
    // As that of `Fitting`: two types, so that nothing is fitted to a board that runs, and a trait would keep both
    // bodies.
    pub fn kinds(&self) -> &[Kind]
        ensures { result.now ≡ running_kinds self.now }
    {
        self.kinds.as_slice()
    }

    /// Takes a block: each record that it carries acts on the decoders, in order.
    ///
    /// Refused, and nothing acts, where too little is lent (17) or the block is empty or has more than 512 bytes (10).
    pub fn take<M: Memory>(
        &self,
        banks: &mut BanksMut<'_>,
        memory: &mut M,
        block: &[u8],
    ) -> Result<Taken, Fault>
        ensures answer { result ≡ answer_by (running_kinds self.now) (held M.Memory banks.old memory.old) (λ ds. taking ds block.now) }
        ensures after { decoders (running_kinds self.now) (held M.Memory banks.new memory.new) ≡ after_by (running_kinds self.now) (held M.Memory banks.old memory.old) (λ ds. after_records ds (given block.now)) }
        ensures rest { Rest (running_kinds self.now) (held M.Memory banks.old memory.old) (held M.Memory banks.new memory.new) }
        ensures refused { OnRefusal result (held M.Memory banks.new memory.new ≡ held M.Memory banks.old memory.old) }
        ensures lenders { SameLenders M.Memory banks.old memory.old banks.new memory.new }
    {
        banks.take(self.kinds(), memory, block)
    }

    /// Puts a byte into one variable, 1 to 1024, of one decoder, whose waiting write is then forgotten.
    ///
    /// Refused where too little is lent (17), there is no such decoder (18) or no such variable (19).
    pub fn set<M: Memory>(
        &self,
        banks: &mut BanksMut<'_>,
        memory: &mut M,
        decoder: DecoderName,
        variable: u16,
        value: u8,
    ) -> Result<(), Fault>
        ensures answer { result ≡ answer_of (running_kinds self.now) (held M.Memory banks.old memory.old) decoder (λ _. if_variable variable tt) }
        ensures after { decoders (running_kinds self.now) (held M.Memory banks.new memory.new) ≡ after_by (running_kinds self.now) (held M.Memory banks.old memory.old) (changed (λ d. lives d (events_of (Set variable value))) decoder.kind decoder.number) }
        ensures rest { Rest (running_kinds self.now) (held M.Memory banks.old memory.old) (held M.Memory banks.new memory.new) }
        ensures refused { OnRefusal result (held M.Memory banks.new memory.new ≡ held M.Memory banks.old memory.old) }
        ensures lenders { SameLenders M.Memory banks.old memory.old banks.new memory.new }
    {
        banks.set_variable(self.kinds(), memory, decoder, variable, value)
    }

    /// Copies all of a decoder's volatile part to the place. A refusal (17, 18) leaves the place as it was.
    // The caller lends the place, for the reason that `Banks::state` gives.
    pub fn state<M: Memory>(
        &self,
        banks: Banks<'_>,
        memory: &M,
        decoder: DecoderName,
        place: &mut DecoderState,
    ) -> Result<(), Fault>
        ensures answer { result ≡ answer_of (running_kinds self.now) (seen M.Memory banks.entry memory.now) decoder (λ _. Ok tt) }
        ensures placed { place.new ≡ place_after place.old (answer_of (running_kinds self.now) (seen M.Memory banks.entry memory.now) decoder (λ d. Ok (state_of d))) }
    {
        banks.state(self.kinds(), memory, decoder, place)
    }

    /// One variable of a decoder, 1 to 1024. No cell changes.
    pub fn variable<M: Memory>(
        &self,
        banks: Banks<'_>,
        memory: &mut M,
        decoder: DecoderName,
        number: u16,
    ) -> Result<u8, Fault>
        ensures answer { result ≡ answer_of (running_kinds self.now) (seen M.Memory banks.entry memory.old) decoder (variable_in number) }
        ensures same { seen M.Memory banks.entry memory.new ≡ seen M.Memory banks.entry memory.old }
        ensures lenders { M.Memory.lenders memory.new ≡ M.Memory.lenders memory.old }
    {
        banks.variable(self.kinds(), memory, decoder, number)
    }

    /// Whether a function of a mobile decoder is on: 0, which is FL, to 68. Another kind is refused with 18.
    pub fn function<M: Memory>(
        &self,
        banks: Banks<'_>,
        memory: &M,
        decoder: DecoderName,
        number: u16,
    ) -> Result<bool, Fault>
        ensures { result ≡ answer_of (running_kinds self.now) (seen M.Memory banks.entry memory.now) decoder (function_in number) }
    {
        banks.function(self.kinds(), memory, decoder, number)
    }

    /// Whether a binary state of a mobile decoder is on, 1 to 2047. Another kind is refused with 18.
    pub fn binary_state<M: Memory>(
        &self,
        banks: Banks<'_>,
        memory: &M,
        decoder: DecoderName,
        number: u16,
    ) -> Result<bool, Fault>
        ensures { result ≡ answer_of (running_kinds self.now) (seen M.Memory banks.entry memory.now) decoder (binary_state_in number) }
    {
        banks.binary_state(self.kinds(), memory, decoder, number)
    }
}
