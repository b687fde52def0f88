ghost use Rattle.std.specs.Prelude.{◌≡◌, ◌+◌, ◌^◌, ◌<◌, true, map};
ghost use Rattle.block.specs.Contents.{thing_in};
ghost use Rattle.script.specs.Boards.{is_lent, decoders, Rest};
ghost use Rattle.script.specs.Calls.{met, counted, taking, given, after_records, answer_by, after_by, OnRefusal};
ghost use Rattle.roster.specs.Held.{held, SameLenders};

use crate::banks::BanksMut;
use crate::counting::note;
use bank::Kind;
use block::{Carried, Record, Walk};
use fault::Fault;
use memory::Memory;
use script::Taken;

impl BanksMut<'_> {
    /// Takes a block: each record that it carries acts on the decoders, in order.
    ///
    /// Refused, and nothing acts, where too little is lent or the block is empty or has more than 512 bytes.
    // `rest`, `refused` and `lenders` stay apart: that nothing else changed is for the reader, that the lenders are
    // the same is
    // for the check of a struct of references, and one record of both would hide the first behind the second.
    pub fn take<M: Memory>(
        &mut self,
        kinds: &[Kind],
        memory: &mut M,
        block: &[u8],
    ) -> Result<Taken, Fault>
        ensures answer { result ≡ answer_by kinds.now (held M.Memory self.old memory.old) (λ ds. taking ds block.now) }
        ensures after { decoders kinds.now (held M.Memory self.new memory.new) ≡ after_by kinds.now (held M.Memory self.old memory.old) (λ ds. after_records ds (given block.now)) }
        ensures rest { Rest kinds.now (held M.Memory self.old memory.old) (held M.Memory self.new memory.new) }
        ensures refused { OnRefusal result (held M.Memory self.new memory.new ≡ held M.Memory self.old memory.old) }
        ensures lenders { SameLenders M.Memory self.old memory.old self.new memory.new }
    {
        self.shared().check(kinds, memory)?;
        self.take_records(kinds, memory, block)
    }

    fn take_records<M: Memory>(
        &mut self,
        kinds: &[Kind],
        memory: &mut M,
        block: &[u8],
    ) -> Result<Taken, Fault>
        requires { is_lent kinds.now (held M.Memory self.old memory.old) ≡ true }
        ensures answer { result ≡ taking (decoders kinds.now (held M.Memory self.old memory.old)) block.now }
        ensures after { decoders kinds.now (held M.Memory self.new memory.new) ≡ after_records (decoders kinds.now (held M.Memory self.old memory.old)) (given block.now) }
        ensures rest { Rest kinds.now (held M.Memory self.old memory.old) (held M.Memory self.new memory.new) }
        ensures refused { OnRefusal result (held M.Memory self.new memory.new ≡ held M.Memory self.old memory.old) }
        ensures lenders { SameLenders M.Memory self.old memory.old self.new memory.new }
    {
        let mut taken = Taken::default();
        for item in Walk::new(block)? {
            match item {
                Ok(carried) => self.take_record(kinds, memory, &carried, &mut taken),
                Err(fault) => {
                    taken.fault = Some(fault);
                    return Ok(taken);
                }
            }
        }
        Ok(taken)
    }

    #[tactic(auto, using(crate::proofs::Sendings::fill_met))]
    fn take_record<M: Memory>(
        &mut self,
        kinds: &[Kind],
        memory: &mut M,
        carried: &Carried<'_>,
        taken: &mut Taken,
    )
        requires lent { is_lent kinds.now (held M.Memory self.old memory.old) ≡ true }
        requires few { taken.old.heard + taken.old.unheard + taken.old.refused < 2 ^ 32 }
        ensures counted { taken.new ≡ counted taken.old (decoders kinds.now (held M.Memory self.old memory.old)) carried.now.offset (thing_in carried.now.«record») }
        ensures after { decoders kinds.now (held M.Memory self.new memory.new) ≡ map (met (thing_in carried.now.«record»)) (decoders kinds.now (held M.Memory self.old memory.old)) }
        ensures rest { Rest kinds.now (held M.Memory self.old memory.old) (held M.Memory self.new memory.new) }
        ensures lenders { SameLenders M.Memory self.old memory.old self.new memory.new }
    {
        match carried.record {
            Record::Fill => {}
            Record::PowerUp => self.power_up_all(kinds, memory),
            Record::Packet(packet) => {
                let outcome = self.send(kinds, memory, packet);
                note(taken, carried.offset, outcome);
            }
        }
    }
}
