use crate::faults::Told;
use crate::line::Lent;
use crate::names::Named;
use crate::states::InWords;
use fault::Fault;
use script::{Answer, DecoderName, Request, Taken};
use std::fmt;
use thiserror::Error;
use words::switched;

/// What a line of a script did. It prints as the line's answer.
#[derive(Clone, Copy)]
pub enum Outcome {
    NewBoard,
    Lent(Lent),
    Fitted(DecoderName),
    Started,
    /// A call of the running board, and what it was asked, if it was asked of one decoder.
    Answered(Option<Request>, Answer),
}

/// Why a line did nothing. It prints as the line's answer, too.
#[derive(Clone, Copy, Debug, Error)]
pub enum NotPerformed {
    #[error("refused {}", Told(*.0))]
    Refused(#[from] Fault),
    /// The call is one of a running board.
    #[error("not now: start first")]
    StartFirst,
    /// The call is one of a board that is being fitted.
    #[error("not now: begin a new board")]
    BeginNewBoard,
}

fn lent<W: fmt::Write>(lent: Lent, f: &mut fmt::Formatter<W>) -> fmt::Result {
    let Lent {
        mobiles,
        basics,
        extendeds,
        cells,
    } = lent;
    write!(f, "lent {mobiles} {basics} {extendeds} {cells}")
}

fn taken<W: fmt::Write>(taken: Taken, f: &mut fmt::Formatter<W>) -> fmt::Result {
    let heard = taken.heard;
    let unheard = taken.unheard;
    let refused = taken.refused;
    write!(f, "taken heard {heard} unheard {unheard} refused {refused}")?;
    if let Some(refusal) = taken.refusal {
        let first = Told(refusal);
        write!(f, " first {first}")?;
    }
    if let Some(fault) = taken.fault {
        let fault = Told(fault);
        write!(f, " fault {fault}")?;
    }
    Ok(())
}

/// The number that was asked for, where one was.
fn asked<W: fmt::Write>(request: Request, f: &mut fmt::Formatter<W>) -> fmt::Result {
    match request {
        Request::Set { .. } | Request::State => Ok(()),
        Request::Variable(number) => write!(f, "variable {number} = "),
        Request::Function(number) => write!(f, "function {number} "),
        Request::BinaryState(number) => write!(f, "binary state {number} "),
    }
}

fn answered<W: fmt::Write>(answer: &Answer, f: &mut fmt::Formatter<W>) -> fmt::Result {
    match answer {
        Answer::Taken(packets) => taken(*packets, f),
        Answer::Set => write!(f, "set"),
        Answer::State(state) => {
            let words = InWords(state);
            write!(f, "{words}")
        }
        Answer::Variable(value) => write!(f, "{value}"),
        Answer::Function(on) | Answer::BinaryState(on) => f.write_str(switched(*on)),
    }
}

impl fmt::Display for Outcome {
    fn fmt<W: fmt::Write>(&self, f: &mut fmt::Formatter<W>) -> fmt::Result {
        match self {
            Outcome::NewBoard => write!(f, "new board"),
            Outcome::Lent(much) => lent(*much, f),
            Outcome::Fitted(name) => {
                let name = Named(*name);
                write!(f, "fitted {name}")
            }
            Outcome::Started => write!(f, "started"),
            Outcome::Answered(request, answer) => {
                if let Some(request) = request {
                    asked(*request, f)?;
                }
                answered(answer, f)
            }
        }
    }
}
