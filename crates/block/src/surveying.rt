ghost use Rattle.std.specs.Prelude.{◌≡◌};
ghost use Rattle.block.specs.Summing.{surveyed};
ghost use Rattle.block.specs.Tiling.{SurveyTiles, SurveyEnds, FillIsNothing};

use crate::records::Record;
use crate::summary::Survey;
use crate::walk::Walk;
use fault::Fault;

/// Counts what a block carries, and says where that ends and why.
#[tactic(auto, using(crate::proofs::Tilings::fill_carries_none))]
pub fn survey(block: &[u8]) -> Result<Survey, Fault>
    ensures is { result ≡ surveyed block.now }
    ensures tiles { SurveyTiles block.now result }
    ensures ends { SurveyEnds block.now result }
    ensures nothing { FillIsNothing block.now result }
{
    let mut survey = Survey::default();
    // One loop for all four fields: a chain for each would go through the block four times, and a `fold` would need this very
    // `match`, and not end at fill.
    for item in Walk::new(block)? {
        match item {
            Ok(carried) => match carried.record {
                Record::Fill => break,
                Record::PowerUp => {
                    survey.power_ups += 1;
                    survey.end = carried.next;
                }
                Record::Packet(_) => {
                    survey.packets += 1;
                    survey.end = carried.next;
                }
            },
            Err(fault) => {
                survey.fault = Some(fault);
                break;
            }
        }
    }
    Ok(survey)
}
