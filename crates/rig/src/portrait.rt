use crate::digest::Digest;
use crate::fittings::Fitted;
use crate::trouble::Trouble;
use bank::Kind;
use board::Running;
use memory::Memory;
use roster::Banks;
use script::{DecoderName, DecoderState};
use state::{ExtendedState, MobileState, Reply, Speed, WaitingWrite};
use std::alloc::Global;
use std::fmt;

/// What a decoder is compared in.
#[derive(Clone, Copy)]
pub enum Field {
    Kind,
    Address,
    Direction,
    Speed,
    Functions,
    States,
    Outputs,
    Aspect,
    Waiting,
    Reply,
    Variables,
}

impl fmt::Display for Field {
    fn fmt<W: fmt::Write>(&self, f: &mut fmt::Formatter<W>) -> fmt::Result {
        f.write_str(match self {
            Field::Kind => "kind",
            Field::Address => "address",
            Field::Direction => "direction",
            Field::Speed => "speed",
            Field::Functions => "functions",
            Field::States => "states",
            Field::Outputs => "outputs",
            Field::Aspect => "aspect",
            Field::Waiting => "waiting",
            Field::Reply => "reply",
            Field::Variables => "variables",
        })
    }
}

/// A field of a decoder in bytes.
#[derive(Drop)]
struct Part {
    field: Field,
    bytes: Vec<u8>,
}

/// All that a decoder is, field by field.
#[derive(Drop)]
pub struct Portrait {
    pub fitted: Fitted,
    parts: Vec<Part>,
}

fn speed_bytes(speed: Speed) -> [u8; 2] {
    match speed {
        Speed::Stop => [0, 0],
        Speed::EmergencyStop => [1, 0],
        Speed::Running(step) => [step.scale().steps(), step.number()],
    }
}

fn reply_bytes(reply: Option<Reply>) -> [u8; 2] {
    match reply {
        None => [0, 0],
        Some(Reply::Acknowledgment) => [1, 0],
        Some(Reply::Value(value)) => [2, value],
    }
}

/// The length and the six bytes, of which those behind the packet are zero.
fn waiting_bytes(waiting: &Option<WaitingWrite>) -> [u8; 7] {
    let mut bytes = [0; 7];
    if let Some(write) = waiting {
        bytes[0] = write.length.min(6) as u8;
        bytes[1..7].copy_from_slice(&write.bytes);
    }
    bytes
}

/// The address that an accessory decoder was fitted with.
fn fitted_address(banks: Banks<'_>, name: DecoderName) -> Option<u16> {
    match name.kind {
        Kind::Mobile => None,
        Kind::Basic => Some(banks.basics.get(name.number)?.address),
        Kind::Extended => Some(banks.extendeds.get(name.number)?.address),
    }
}

impl Portrait {
    fn add(&mut self, heap: Global, field: Field, bytes: &[u8]) -> Result<(), Trouble> {
        let bytes = Vec::from_slice(heap, bytes)?;
        self.parts.push(Part { field, bytes })?;
        Ok(())
    }

    fn add_switches(&mut self, heap: Global, field: Field, on: &[bool]) -> Result<(), Trouble> {
        let bytes = on.iter().map(|switch| u8::from(*switch)).collect(heap)?;
        self.parts.push(Part { field, bytes })?;
        Ok(())
    }

    /// What every kind of decoder has.
    fn add_common(
        &mut self,
        heap: Global,
        waiting: &Option<WaitingWrite>,
        reply: Option<Reply>,
    ) -> Result<(), Trouble> {
        self.add(heap, Field::Waiting, &waiting_bytes(waiting))?;
        self.add(heap, Field::Reply, &reply_bytes(reply))
    }

    fn add_mobile(&mut self, heap: Global, state: &MobileState) -> Result<(), Trouble> {
        self.add(heap, Field::Direction, &[u8::from(state.forward)])?;
        self.add(heap, Field::Speed, &speed_bytes(state.speed))?;
        self.add_switches(heap, Field::Functions, &state.functions.on)?;
        self.add(heap, Field::States, &state.states.bits)?;
        self.add_common(heap, &state.waiting, state.reply)
    }

    fn add_state(&mut self, heap: Global, state: &DecoderState) -> Result<(), Trouble> {
        match state {
            DecoderState::Mobile(state) => self.add_mobile(heap, state),
            DecoderState::Basic(state) => {
                self.add_switches(heap, Field::Outputs, &state.shown)?;
                self.add_common(heap, &state.waiting, state.reply)
            }
            DecoderState::Extended(state) => {
                self.add(heap, Field::Aspect, &[state.shown])?;
                self.add_common(heap, &state.waiting, state.reply)
            }
        }
    }

    /// Takes the portrait of a decoder of a running board.
    pub(crate) fn new<M: Memory>(
        heap: Global,
        board: &Running,
        banks: Banks<'_>,
        memory: &mut M,
        fitted: Fitted,
    ) -> Result<Portrait, Trouble> {
        let name = fitted.name;
        let mut portrait = Portrait {
            fitted,
            parts: Vec::new(heap),
        };
        portrait.add(heap, Field::Kind, &[name.kind as u8])?;
        if let Some(address) = fitted_address(banks, name) {
            portrait.add(heap, Field::Address, &address.to_be_bytes())?;
        }
        let mut state = DecoderState::Extended(ExtendedState::new());
        board.state(banks, memory, name, &mut state)?;
        portrait.add_state(heap, &state)?;
        let bytes = variables(heap, board, banks, memory, name)?;
        portrait.parts.push(Part {
            field: Field::Variables,
            bytes,
        })?;
        Ok(portrait)
    }

    /// The first field in which two decoders differ.
    pub(crate) fn difference(&self, other: &Portrait) -> Option<Field> {
        self.parts
            .iter()
            .zip(other.parts.iter())
            .find(|(one, two)| one.bytes.as_slice() != two.bytes.as_slice())
            .map(|(one, _)| one.field)
    }

    pub(crate) fn add_to(&self, digest: &mut Digest) {
        for part in self.parts.iter() {
            digest.add(part.bytes.as_slice());
        }
    }
}

fn variables<M: Memory>(
    heap: Global,
    board: &Running,
    banks: Banks<'_>,
    memory: &mut M,
    name: DecoderName,
) -> Result<Vec<u8>, Trouble> {
    (1..=1024u16)
        .map(|number| Ok(board.variable(banks, memory, name, number)?))
        .try_collect(heap)
}
