use crate::step::Step;

/// How fast a mobile decoder is told to go.
#[derive(Clone, Copy, PartialEq, Eq, Debug)]
pub enum Speed {
    Stop,
    EmergencyStop,
    Running(Step),
}
