use script::DecoderName;
use std::fmt;

/// A decoder's name as people read it: its kind and its number.
// Not `Display` of `DecoderName`, which in a library crate would owe a contract on its text.
#[derive(Clone, Copy)]
pub struct Named(pub DecoderName);

impl fmt::Display for Named {
    fn fmt<W: fmt::Write>(&self, f: &mut fmt::Formatter<W>) -> fmt::Result {
        let DecoderName { kind, number } = self.0;
        write!(f, "{kind} {number}")
    }
}
