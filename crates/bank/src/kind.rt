use std::fmt;

/// A kind of decoders. Those of one kind have a bank of their own.
#[derive(Clone, Copy, PartialEq, Eq, Debug, Default)]
pub enum Kind {
    /// Also what the spare places of a list of kinds hold.
    #[default]
    Mobile,
    Basic,
    Extended,
}

impl fmt::Display for Kind {
    ghost use Rattle.std.specs.Prelude.{Some};
    ghost use Rattle.bank.specs.Kinds.{kind_name};

    ghost output = { λ kind. Some (kind_name kind) };

    fn fmt<W: fmt::Write>(&self, f: &mut fmt::Formatter<W>) -> fmt::Result {
        f.write_str(match self {
            Kind::Mobile => "mobile",
            Kind::Basic => "basic",
            Kind::Extended => "extended",
        })
    }
}
