use decoder::Address;

/// A decoder to be fitted, by its kind and its address.
#[derive(Clone, Copy)]
pub enum Fit {
    Mobile(Address),
    Basic(u16),
    Extended(u16),
}
