ghost use Rattle.std.specs.Prelude.{◌≡◌};
ghost use Rattle.state.specs.Scales.{top};

/// How many steps a speed is told in.
#[derive(Clone, Copy, PartialEq, Eq, Debug)]
pub enum Scale {
    Fourteen,
    TwentyEight,
    OneTwentySix,
}

impl Scale {
    /// The number of its steps, which is its highest step.
    pub fn steps(self) -> u8
        ensures { result ≡ top self }
    {
        match self {
            Scale::Fourteen => 14,
            Scale::TwentyEight => 28,
            Scale::OneTwentySix => 126,
        }
    }
}
