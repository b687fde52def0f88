ghost use Rattle.std.specs.Prelude.{◌≡◌};
ghost use Rattle.fault.specs.Causes.{row};
ghost use Rattle.fault.specs.Places.{fault_at};

use crate::fault::Fault;
use crate::refusal::{Layer, Refusal};
use std::fmt;

impl Refusal {
    /// The number by which people and programs tell the refusals apart.
    pub fn number(self) -> u8
        ensures { result ≡ (row self).0 }
    {
        self as u8
    }

    /// The refusal, standing at a byte of a block or at a cell of a memory.
    pub fn at(self, offset: usize) -> Fault
        ensures { result ≡ fault_at self offset }
    {
        Fault {
            refusal: self,
            offset,
        }
    }

    /// The layer that the refusal comes from.
    pub fn layer(self) -> Layer
        ensures { result ≡ (row self).1 }
    {
        match self {
            Refusal::BlockLength
            | Refusal::UnknownKind
            | Refusal::BodyCutOff
            | Refusal::NonzeroFill => Layer::Block,
            Refusal::FittedAddress
            | Refusal::BankFull
            | Refusal::TooFewCells
            | Refusal::LentTooShort
            | Refusal::NoSuchDecoder
            | Refusal::NumberOutOfRange => Layer::Board,
            Refusal::CellOutOfRange => Layer::Memory,
            _ => Layer::Packet,
        }
    }
}

impl fmt::Display for Layer {
    ghost use Rattle.std.specs.Prelude.{Some};
    ghost use Rattle.fault.specs.Causes.{layer_name};

    ghost output = { λ layer. Some (layer_name layer) };

    fn fmt<W: fmt::Write>(&self, f: &mut fmt::Formatter<W>) -> fmt::Result {
        f.write_str(match self {
            Layer::Packet => "packet",
            Layer::Block => "block",
            Layer::Board => "board",
            Layer::Memory => "memory",
        })
    }
}
