use crate::role::Address;

/// The variable that a long-form instruction names, as it stands.
#[derive(Clone, Copy)]
pub struct NamedVariable {
    pub value: u8,
    /// Whether packets never write it.
    pub read_only: bool,
}

/// What decides among the variables of a mobile decoder.
#[derive(Clone, Copy)]
pub struct MobileView {
    /// Its own address, if it has one.
    pub own: Option<Address>,
    /// Variable 19: the consist address, and in bit 7 whether it runs reversed there.
    pub consist: u8,
    /// The reply variable, 29, which also says which address is its own and in what steps it takes speed.
    pub config: u8,
    /// The variable that the instruction names, if it names one.
    pub named: Option<NamedVariable>,
}

/// What decides among the variables of an accessory decoder.
#[derive(Clone, Copy)]
pub struct AccessoryView {
    /// The reply variable, 541.
    pub config: u8,
    /// The variable that the instruction names, if it names one.
    pub named: Option<NamedVariable>,
}
