ghost use Rattle.std.specs.Prelude.{◌≡◌, Ok};
ghost use Rattle.script.specs.Boards.{is_lent};
ghost use Rattle.script.specs.Calls.{when_lent};
ghost use Rattle.roster.specs.Held.{seen, Located};

use crate::banks::{Banks, BanksMut};
use bank::{Kind, is_enough, slot_of};
use fault::{Fault, Refusal};
use memory::Memory;
use script::DecoderName;

impl BanksMut<'_> {
    /// The same banks, to be read.
    pub fn shared(&self) -> Banks<'_>
        ensures mobiles { result.mobiles.now ≡ self.now.mobiles.now }
        ensures basics { result.basics.now ≡ self.now.basics.now }
        ensures extendeds { result.extendeds.now ≡ self.now.extendeds.now }
    {
        Banks {
            mobiles: self.mobiles,
            basics: self.basics,
            extendeds: self.extendeds,
        }
    }
}

impl Banks<'_> {
    /// Whether there is a record and a window for each decoder that was fitted.
    fn is_lent<M: Memory>(self, kinds: &[Kind], memory: &M) -> bool
        ensures { result ≡ is_lent kinds.now (seen M.Memory self.entry memory.now) }
    {
        is_enough(self.mobiles, Kind::Mobile, kinds, memory)
            && is_enough(self.basics, Kind::Basic, kinds, memory)
            && is_enough(self.extendeds, Kind::Extended, kinds, memory)
    }

    /// Refuses where too little is lent.
    // That enough is lent stays a `requires` of the few functions behind `take` and behind a run: a struct with that fact
    // would hold the kinds, the banks and the memory by reference, and each method would have to say of all three that
    // they stay.
    pub(crate) fn check<M: Memory>(self, kinds: &[Kind], memory: &M) -> Result<(), Fault>
        ensures { result ≡ when_lent (is_lent kinds.now (seen M.Memory self.entry memory.now)) (Ok tt) }
    {
        if self.is_lent(kinds, memory) {
            Ok(())
        } else {
            Err(Refusal::LentTooShort.into())
        }
    }

    /// The slot of a decoder, refused where too little is lent or there is no such decoder.
    #[tactic(auto, using(crate::proofs::Askings::short_of, crate::proofs::Askings::located, crate::proofs::Askings::enough_of))]
    pub(crate) fn locate<M: Memory>(
        self,
        kinds: &[Kind],
        memory: &M,
        decoder: DecoderName,
    ) -> Result<usize, Fault>
        ensures { Located kinds.now (seen M.Memory self.entry memory.now) decoder result }
    {
        self.check(kinds, memory)?;
        slot_of(decoder.kind, decoder.number, kinds).ok_or(Refusal::NoSuchDecoder.into())
    }
}
