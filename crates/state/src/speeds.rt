ghost use Rattle.std.specs.Prelude.{◌≡◌};
ghost use Rattle.state.specs.Scales.{number_at, code_of};
ghost use Rattle.state.specs.Speeds.{step_at, speed_at};

use crate::scale::Scale;
use crate::speed::Speed;
use crate::step::Step;

fn number_at(scale: Scale, code: u8) -> u8
    ensures { result ≡ number_at scale code }
{
    match scale {
        Scale::Fourteen => (code % 16).saturating_sub(1),
        Scale::TwentyEight => 2 * (code % 16).saturating_sub(2) + code / 16 % 2 + 1,
        Scale::OneTwentySix => (code % 128).saturating_sub(1),
    }
}

/// The bits of a code that tell the speed: all seven in 126 steps, else four.
fn code_of(scale: Scale, code: u8) -> u8
    ensures { result ≡ code_of scale code }
{
    match scale {
        Scale::Fourteen | Scale::TwentyEight => code % 16,
        Scale::OneTwentySix => code % 128,
    }
}

impl Step {
    fn at(scale: Scale, code: u8) -> Step
        ensures { result ≡ step_at scale code }
    {
        Step {
            number: number_at(scale, code),
            scale,
        }
    }

    /// The step, at most that of its scale.
    pub fn number(self) -> u8
        ensures { result ≡ self.number }
    {
        self.number
    }

    pub fn scale(self) -> Scale
        ensures { result ≡ self.scale }
    {
        self.scale
    }
}

impl Speed {
    /// What a code asks for in a scale.
    pub fn at(scale: Scale, code: u8) -> Speed
        ensures { result ≡ speed_at scale code }
    {
        match code_of(scale, code) {
            0 => Speed::Stop,
            1 => Speed::EmergencyStop,
            _ => Speed::Running(Step::at(scale, code)),
        }
    }
}
