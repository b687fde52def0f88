use fault::Fault;

/// What came of the packets of a block.
#[derive(Clone, Copy, Default)]
pub struct Taken {
    /// How many packets some decoder heard.
    pub heard: usize,
    /// How many packets no decoder heard.
    pub unheard: usize,
    /// How many packets were refused.
    pub refused: usize,
    /// The first packet that was refused, at its kind byte.
    pub refusal: Option<Fault>,
    /// The block fault, if there is one.
    pub fault: Option<Fault>,
}
