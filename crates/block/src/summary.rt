use fault::Fault;

/// What a block carries.
#[derive(Clone, Copy, PartialEq, Eq, Debug, Default)]
pub struct Survey {
    /// How many packets the block carries.
    pub packets: usize,
    /// How many power-ups it carries.
    pub power_ups: usize,
    /// Where the carried records end: at fill, at the record that is at fault, or at the block's end.
    pub end: usize,
    /// The block fault, if there is one.
    pub fault: Option<Fault>,
}
