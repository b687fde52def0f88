use fault::Fault;
use std::fmt;

/// A fault as its number, layer, offset and name.
#[derive(Clone, Copy)]
pub struct Told(pub Fault);

impl fmt::Display for Told {
    fn fmt<W: fmt::Write>(&self, f: &mut fmt::Formatter<W>) -> fmt::Result {
        let Fault { refusal, offset } = self.0;
        let number = refusal.number();
        let layer = refusal.layer();
        write!(f, "{number} {layer} {offset} {refusal}")
    }
}
