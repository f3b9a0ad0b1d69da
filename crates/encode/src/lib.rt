// The encoder, and the round trips of encoder and decoder.
#![tactic(auto)]

mod encoder;
mod places;
mod refusals;

pub use encoder::{encode, reencode};
pub use refusals::EncodeRefusal;
