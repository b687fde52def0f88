ghost use Rattle.std.specs.Prelude.{◌≡◌, Some};
ghost use Rattle.words.specs.Lists.{hex_text, numbers_on, numbers_text};

use std::fmt;

/// Bytes in hexadecimal, with a blank between two.
#[derive(Clone, Copy)]
pub struct Hex<'a>(pub &'a [u8]);

/// The numbers of the switches that are on, from 0 and rising, with commas between.
#[derive(Clone, Copy)]
pub struct NumbersOn<'a> {
    pub switches: &'a [bool],
    /// What is said where none is on.
    pub none: &'a str,
}

impl<'a> NumbersOn<'a> {
    pub fn new(switches: &'a [bool], none: &'a str) -> NumbersOn<'a>
        ensures switches { result.switches.now ≡ switches.now }
        ensures none { result.none.now ≡ none.now }
    {
        NumbersOn { switches, none }
    }
}

impl fmt::Display for Hex<'_> {
    ghost output = { λ hex. Some (hex_text hex.0.now) };

    fn fmt<W: fmt::Write>(&self, f: &mut fmt::Formatter<W>) -> fmt::Result {
        let [first, rest @ ..] = self.0 else {
            return Ok(());
        };
        let first = *first;
        write!(f, "{first:02X}")?;
        for &byte in rest {
            write!(f, " {byte:02X}")?;
        }
        Ok(())
    }
}

impl fmt::Display for NumbersOn<'_> {
    ghost output = { λ on. Some (numbers_text on.none.now (numbers_on on.switches.now)) };

    fn fmt<W: fmt::Write>(&self, f: &mut fmt::Formatter<W>) -> fmt::Result {
        let mut separator = "";
        for (number, on) in self.switches.iter().enumerate() {
            if *on {
                write!(f, "{separator}{number}")?;
                separator = ",";
            }
        }
        if separator.is_empty() {
            f.write_str(self.none)?;
        }
        Ok(())
    }
}
