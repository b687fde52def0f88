use fault::Fault;
use script::{Answer, DecoderState, Taken};
use state::{MobileState, Speed};
use std::fmt;
use words::NumbersOn;

/// What came of a block and the states of the decoders. It prints the states first; a refused block tells its number
/// alone.
#[derive(Clone, Copy)]
pub struct Shown<'a>(pub &'a [Result<Answer, Fault>]);

fn mobile<W: fmt::Write>(state: &MobileState, f: &mut fmt::Formatter<W>) -> fmt::Result {
    let direction = if state.forward { "f" } else { "r" };
    write!(f, "mobile 3 {direction} ")?;
    match state.speed {
        Speed::Stop => write!(f, "stop")?,
        Speed::EmergencyStop => write!(f, "halt")?,
        Speed::Running(step) => write!(f, "{}/{}", step.number(), step.scale().steps())?,
    }
    let on = NumbersOn::new(&state.functions.on, "-");
    writeln!(f, " on {on}")
}

fn decoder<W: fmt::Write>(state: &DecoderState, f: &mut fmt::Formatter<W>) -> fmt::Result {
    match state {
        DecoderState::Mobile(state) => mobile(state, f),
        DecoderState::Basic(state) => {
            let on = NumbersOn::new(&state.shown, "-");
            writeln!(f, "basic 1 on {on}")
        }
        DecoderState::Extended(state) => {
            let aspect = state.shown;
            writeln!(f, "extended 1 aspect {aspect}")
        }
    }
}

/// The counts, and the block fault, if there is one.
fn counts<W: fmt::Write>(taken: &Taken, f: &mut fmt::Formatter<W>) -> fmt::Result {
    let Taken {
        heard,
        unheard,
        refused,
        ..
    } = *taken;
    writeln!(f, "heard {heard} unheard {unheard} refused {refused}")?;
    if let Some(Fault { refusal, offset }) = taken.fault {
        let number = refusal.number();
        writeln!(f, "fault {number} {offset}")?;
    }
    Ok(())
}

impl fmt::Display for Shown<'_> {
    fn fmt<W: fmt::Write>(&self, f: &mut fmt::Formatter<W>) -> fmt::Result {
        let Shown(answers) = *self;
        match answers {
            [Ok(Answer::Taken(taken)), decoders @ ..] => {
                for answer in decoders {
                    if let Ok(Answer::State(state)) = answer {
                        decoder(state, f)?;
                    }
                }
                counts(taken, f)
            }
            [Err(fault), ..] => {
                let number = fault.refusal.number();
                writeln!(f, "refused {number}")
            }
            _ => Ok(()),
        }
    }
}
