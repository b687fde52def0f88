ghost use Rattle.std.specs.Prelude.{◌≡◌, not, ◌&&◌};

use crate::capture::Capture;
use crate::events::own_events;
use crate::fittings::Fitted;
use crate::names::Named;
use crate::play::Played;
use crate::progress::Task;
use crate::trouble::Trouble;
use script::{DecoderName, Fit};
use std::fmt;
use std::process::ExitCode;

/// How a decoder compares after two captures.
#[derive(Clone, Copy)]
struct Verdict {
    name: DecoderName,
    /// Its own events are the same list in both.
    same_events: bool,
    /// It ended the same.
    same_end: bool,
}

fn likeness(same: bool) -> &'static str {
    if same { "alike" } else { "unlike" }
}

impl Verdict {
    /// What others were told made a difference to it.
    fn breaks_isolation(self) -> bool
        ensures { result ≡ (self.same_events && not self.same_end) }
    {
        self.same_events && !self.same_end
    }
}

impl fmt::Display for Verdict {
    fn fmt<W: fmt::Write>(&self, f: &mut fmt::Formatter<W>) -> fmt::Result {
        let name = Named(self.name);
        let events = likeness(self.same_events);
        let ended = likeness(self.same_end);
        write!(f, "{name} events {events} ended {ended}")?;
        if self.breaks_isolation() {
            write!(f, " ISOLATION BROKEN")?;
        }
        Ok(())
    }
}

fn has_same_events(
    rt: &HostRuntime,
    task: Task,
    fit: Fit,
    capture: &Capture<'_>,
    other: &Capture<'_>,
) -> Result<bool, Trouble> {
    let first = own_events(rt, task, fit, capture)?;
    let second = own_events(rt, task, fit, other)?;
    Ok(first.as_slice() == second.as_slice())
}

/// Prints for each decoder whether its events and its end were alike after two captures. Isolation that is broken is
/// a failure.
pub(crate) fn compare_ends(
    rt: &HostRuntime,
    capture: &Capture<'_>,
    other_capture: &Capture<'_>,
    one: &Played,
    other: &Played,
) -> Result<ExitCode, Trouble> {
    let mut status = ExitCode::SUCCESS;
    let decoders = one.portraits.len();
    let pairs = one.portraits.iter().zip(other.portraits.iter());
    for (decoder, (first, second)) in (1..).zip(pairs) {
        let Fitted { name, fit } = first.fitted;
        let task = Task::FindEvents { decoder, decoders };
        let verdict = Verdict {
            name,
            same_events: has_same_events(rt, task, fit, capture, other_capture)?,
            same_end: first.difference(second).is_none(),
        };
        println!(rt; "{verdict}")?;
        if verdict.breaks_isolation() {
            status = ExitCode::FAILURE;
        }
    }
    Ok(status)
}
