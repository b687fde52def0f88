/// By which address a decoder hears a packet.
#[derive(Clone, Copy, PartialEq, Eq, Debug)]
pub enum Role {
    /// By the broadcast to its kind.
    Everyone,
    /// By its own address.
    Own,
    /// By the address of its consist.
    Consist,
}

/// An address of a mobile decoder.
#[derive(Clone, Copy, PartialEq, Eq, Debug)]
pub enum Address {
    Short(u8),
    Long(u16),
}
