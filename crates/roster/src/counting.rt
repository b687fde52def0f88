ghost use Rattle.std.specs.Prelude.{◌≡◌, ◌+◌, ◌^◌, ◌<◌};
ghost use Rattle.script.specs.Calls.{noted};

use fault::Refusal;
use script::Taken;

/// Counts one packet more, whose kind byte stands at the offset, by what came of it.
pub(crate) fn note(taken: &mut Taken, offset: usize, outcome: Result<bool, Refusal>)
    requires { taken.old.heard + taken.old.unheard + taken.old.refused < 2 ^ 32 }
    ensures { taken.new ≡ noted taken.old offset outcome }
{
    match outcome {
        Ok(true) => taken.heard += 1,
        Ok(false) => taken.unheard += 1,
        Err(refusal) => {
            taken.refused += 1;
            taken.refusal.get_or_insert(refusal.at(offset));
        }
    }
}
