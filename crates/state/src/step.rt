ghost use Rattle.std.specs.Prelude.{◌≤◌};
ghost use Rattle.state.specs.Scales.{top};

use crate::scale::Scale;

/// A step of a scale, which it cannot pass.
#[derive(Clone, Copy, PartialEq, Eq, Debug)]
pub struct Step {
    pub(crate) number: u8,
    pub(crate) scale: Scale,
    ghost within: { number ≤ top scale },
}
