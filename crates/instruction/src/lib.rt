// Instructions of the ST7 as values: modes, operands, and the lengths and cycles that they have.
#![tactic(auto)]

pub mod instruction;
pub mod mode;
pub mod prebyte;
mod rows;

pub use instruction::{Instruction, Operand};
pub use mode::{Index, Mode};
pub use operation::Operation;
pub use prebyte::Prebyte;
