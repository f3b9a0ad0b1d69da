// One part of the ST7 family, as a record of 8 bytes describes it, and the memory map that it has.
#![tactic(auto)]

pub mod description;
pub mod fault;
mod fields;
mod map;
mod read;

pub use description::Description;
pub use fault::DescriptionRefusal;
