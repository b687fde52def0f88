ghost use Rattle.std.specs.Prelude.{◌≡◌, [], length};
ghost use Rattle.decoder.specs.Fitted.{mobile_fitted, basic_fitted, extended_fitted};
ghost use Rattle.bank.specs.declared.kind.Kind.TheVariants as kind;
ghost use Rattle.script.specs.declared.fit.Fit.TheVariants as fits;
ghost use Rattle.script.specs.Decoders.{variables_of};
ghost use Rattle.script.specs.Fittings.{fit_kind, fitted, is_address, fitting_in, fitting};
ghost use Rattle.bank.specs.Opened.{Fits};
ghost use Rattle.roster.specs.Held.{held, SameLenders};
ghost use Rattle.board.specs.Joins.{Joins};
ghost use Rattle.board.specs.Slots.{fitting_kinds, running_kinds, admitted, Added};

use crate::boards::{Fitting, Running};
use arrayvec::ArrayVec;
use bank::{Kind, count_of, fit_accessory_variables, fit_mobile_variables};
use decoder::{Address, Basic, Extended, Mobile};
use fault::{Fault, Refusal};
use memory::Memory;
use roster::BanksMut;
use script::Fit;

/// Whether a decoder can have the address. No broadcast is one.
fn is_address(fit: Fit) -> bool
    ensures { result ≡ is_address fit }
{
    match fit {
        Fit::Mobile(Address::Short(address)) => address >= 1 && address <= 127,
        Fit::Mobile(Address::Long(address)) => address <= 10239,
        Fit::Basic(address) => address <= 510,
        Fit::Extended(address) => address <= 2046,
    }
}

/// Gives a new decoder its variables.
fn fit_variables<M: Memory>(memory: &mut M, slot: usize, fit: Fit) -> Result<(), Fault>
    ensures { Fits M.Memory memory.old memory.new slot (variables_of (fitted fit)) result }
{
    match fit {
        Fit::Mobile(address) => fit_mobile_variables(memory, slot, address),
        Fit::Basic(_) | Fit::Extended(_) => fit_accessory_variables(memory, slot),
    }
}

impl Fitting {
    /// A board without decoders.
    pub fn new() -> Fitting
        ensures { fitting_kinds result ≡ [] }
    {
        Fitting {
            kinds: ArrayVec::new(),
        }
    }

    /// The kinds of the fitted decoders, in the order of fitting.
    pub fn kinds(&self) -> &[Kind]
        ensures { result.now ≡ fitting_kinds self.now }
    {
        self.kinds.as_slice()
    }

    /// From here on the board runs.
    pub fn start(self) -> Running
        ensures { running_kinds result ≡ fitting_kinds self }
    {
        let Fitting { kinds } = self;
        Running { kinds }
    }

    /// The number of one decoder more, where its address and the places on the board and in its bank allow it.
    fn admit(&self, fit: Fit, places: usize) -> Result<usize, Fault>
        ensures { result ≡ admitted places (fitting_kinds self.now) fit }
    {
        if !is_address(fit) {
            return Err(Refusal::FittedAddress.into());
        }
        let number = count_of(fit.kind(), self.kinds());
        if self.kinds.len() < 32 && number < places {
            Ok(number)
        } else {
            Err(Refusal::BankFull.into())
        }
    }

    /// Fits a decoder of any kind with this record, and answers its number.
    fn join<T: Drop, M: Memory>(
        &mut self,
        fit: Fit,
        new: T,
        bank: &mut [T],
        memory: &mut M,
    ) -> Result<usize, Fault>
        ensures answer { result ≡ fitting_in (length bank.old) (length (M.Memory.cells memory.old)) (fitting_kinds self.old) fit }
        ensures added { Added (fit_kind fit) (record { rec = new; vars = variables_of (fitted fit) }) (fitting_kinds self.old) bank.old (M.Memory.cells memory.old) (fitting_kinds self.new) bank.new (M.Memory.cells memory.new) result }
        ensures outside { M.Memory.outside memory.new ≡ M.Memory.outside memory.old }
        ensures lenders { M.Memory.lenders memory.new ≡ M.Memory.lenders memory.old }
    {
        let number = self.admit(fit, bank.len())?;
        fit_variables(memory, self.kinds.len(), fit)?;
        bank[number] = new;
        self.kinds.push(fit.kind());
        Ok(number)
    }

    // The three below share `join`; each takes its kind's own address and bank, and promises its kind's own decoder.
    // `outside` is no part of `Added`, which compares lists of records and of cells.

    /// Fits a mobile decoder at a short or a long address, and answers its number.
    pub fn fit_mobile<M: Memory>(
        &mut self,
        mobiles: &mut [Mobile],
        memory: &mut M,
        address: Address,
    ) -> Result<usize, Fault>
        ensures answer { result ≡ fitting_in (length mobiles.old) (length (M.Memory.cells memory.old)) (fitting_kinds self.old) (fits.Mobile address) }
        ensures added { Added kind.Mobile (mobile_fitted address) (fitting_kinds self.old) mobiles.old (M.Memory.cells memory.old) (fitting_kinds self.new) mobiles.new (M.Memory.cells memory.new) result }
        ensures outside { M.Memory.outside memory.new ≡ M.Memory.outside memory.old }
        ensures lenders { M.Memory.lenders memory.new ≡ M.Memory.lenders memory.old }
    {
        self.join(Fit::Mobile(address), Mobile::new(), mobiles, memory)
    }

    /// Fits a basic accessory decoder, and answers its number.
    pub fn fit_basic<M: Memory>(
        &mut self,
        basics: &mut [Basic],
        memory: &mut M,
        address: u16,
    ) -> Result<usize, Fault>
        ensures answer { result ≡ fitting_in (length basics.old) (length (M.Memory.cells memory.old)) (fitting_kinds self.old) (fits.Basic address) }
        ensures added { Added kind.Basic (basic_fitted address) (fitting_kinds self.old) basics.old (M.Memory.cells memory.old) (fitting_kinds self.new) basics.new (M.Memory.cells memory.new) result }
        ensures outside { M.Memory.outside memory.new ≡ M.Memory.outside memory.old }
        ensures lenders { M.Memory.lenders memory.new ≡ M.Memory.lenders memory.old }
    {
        self.join(Fit::Basic(address), Basic::new(address), basics, memory)
    }

    /// Fits an extended accessory decoder, and answers its number.
    pub fn fit_extended<M: Memory>(
        &mut self,
        extendeds: &mut [Extended],
        memory: &mut M,
        address: u16,
    ) -> Result<usize, Fault>
        ensures answer { result ≡ fitting_in (length extendeds.old) (length (M.Memory.cells memory.old)) (fitting_kinds self.old) (fits.Extended address) }
        ensures added { Added kind.Extended (extended_fitted address) (fitting_kinds self.old) extendeds.old (M.Memory.cells memory.old) (fitting_kinds self.new) extendeds.new (M.Memory.cells memory.new) result }
        ensures outside { M.Memory.outside memory.new ≡ M.Memory.outside memory.old }
        ensures lenders { M.Memory.lenders memory.new ≡ M.Memory.lenders memory.old }
    {
        self.join(
            Fit::Extended(address),
            Extended::new(address),
            extendeds,
            memory,
        )
    }

    /// Fits a decoder of any kind, and answers its number.
    pub fn fit<M: Memory>(
        &mut self,
        banks: &mut BanksMut<'_>,
        memory: &mut M,
        fit: Fit,
    ) -> Result<usize, Fault>
        ensures answer { result ≡ fitting (held M.Memory banks.old memory.old) (fitting_kinds self.old) fit }
        ensures joins { Joins fit (fitting_kinds self.old) (held M.Memory banks.old memory.old) (fitting_kinds self.new) (held M.Memory banks.new memory.new) result }
        ensures lenders { SameLenders M.Memory banks.old memory.old banks.new memory.new }
    {
        match fit {
            Fit::Mobile(address) => self.fit_mobile(banks.mobiles, memory, address),
            Fit::Basic(address) => self.fit_basic(banks.basics, memory, address),
            Fit::Extended(address) => self.fit_extended(banks.extendeds, memory, address),
        }
    }
}
