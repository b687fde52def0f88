use script::DecoderState;
use state::{BinaryStates, MobileState, Reply, Speed, WaitingWrite, has_bit};
use std::fmt;
use words::{Hex, NumbersOn, direction};

/// The volatile part of a decoder as people read it.
#[derive(Clone, Copy)]
pub struct InWords<'a>(pub &'a DecoderState);

/// The binary states by their numbers. There is none of number 0.
fn all_states(states: &BinaryStates) -> [bool; 2048] {
    let mut all = [false; 2048];
    // Most bytes have no state that is on: these are passed over.
    for (eight, byte) in all.chunks_exact_mut(8).zip(states.bits) {
        if byte != 0 {
            for (bit, on) in (0u8..8).zip(eight.iter_mut()) {
                *on = has_bit(byte, bit);
            }
        }
    }
    all[0] = false;
    all
}

fn speed<W: fmt::Write>(speed: Speed, f: &mut fmt::Formatter<W>) -> fmt::Result {
    match speed {
        Speed::Stop => write!(f, "stop"),
        Speed::EmergencyStop => write!(f, "emergency stop"),
        Speed::Running(step) => {
            let number = step.number();
            let scale = step.scale().steps();
            write!(f, "step {number} of {scale}")
        }
    }
}

/// What every kind of decoder has.
fn common<W: fmt::Write>(
    waiting: &Option<WaitingWrite>,
    reply: Option<Reply>,
    f: &mut fmt::Formatter<W>,
) -> fmt::Result {
    write!(f, " waiting ")?;
    match waiting {
        Some(write) => {
            let packet = Hex(&write.bytes[..write.length.min(6)]);
            write!(f, "{packet}")?;
        }
        None => write!(f, "none")?,
    }
    match reply {
        None => write!(f, " reply none"),
        Some(Reply::Acknowledgment) => write!(f, " reply acknowledgment"),
        Some(Reply::Value(value)) => write!(f, " reply value {value}"),
    }
}

fn mobile<W: fmt::Write>(state: &MobileState, f: &mut fmt::Formatter<W>) -> fmt::Result {
    let direction = direction(state.forward);
    write!(f, "mobile {direction} ")?;
    speed(state.speed, f)?;
    let functions = NumbersOn::new(&state.functions.on, "none");
    let states = all_states(&state.states);
    let states = NumbersOn::new(&states, "none");
    write!(f, " functions {functions} states {states}")?;
    common(&state.waiting, state.reply, f)
}

impl fmt::Display for InWords<'_> {
    fn fmt<W: fmt::Write>(&self, f: &mut fmt::Formatter<W>) -> fmt::Result {
        match self.0 {
            DecoderState::Mobile(state) => mobile(state, f),
            DecoderState::Basic(state) => {
                let outputs = NumbersOn::new(&state.shown, "none");
                write!(f, "basic outputs {outputs}")?;
                common(&state.waiting, state.reply, f)
            }
            DecoderState::Extended(state) => {
                let aspect = state.shown;
                write!(f, "extended aspect {aspect}")?;
                common(&state.waiting, state.reply, f)
            }
        }
    }
}
