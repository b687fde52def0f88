//! What is asked of a board and what it answers, and what a whole run of such calls comes to.

#![tactic(auto)]

mod answer;
mod call;
pub mod fit;
mod kinds;
mod laws;
mod name;
mod taken;

pub use crate::answer::{Answer, DecoderState};
pub use crate::call::{Call, Request};
pub use crate::fit::Fit;
pub use crate::laws::{
    counts_add_up, fittings_answered, lendings_answered, records_met, requests_answered,
};
pub use crate::name::DecoderName;
pub use crate::taken::Taken;
