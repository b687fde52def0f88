ghost use Rattle.std.specs.Prelude.{◌≡◌};
ghost use Rattle.script.specs.Fittings.{fit_kind};

use crate::fit::Fit;
use bank::Kind;

impl Fit {
    /// The kind of the decoder.
    pub fn kind(self) -> Kind
        ensures { result ≡ fit_kind self }
    {
        match self {
            Fit::Mobile(_) => Kind::Mobile,
            Fit::Basic(_) => Kind::Basic,
            Fit::Extended(_) => Kind::Extended,
        }
    }
}
