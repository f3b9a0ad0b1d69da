// The instruction set of the ST7: its op-code map, the decoder, and relative offsets.
#![tactic(auto)]

pub mod decoder;
pub mod fault;
pub mod opcode;
pub mod relative;

pub use decoder::{Decoded, decode};
pub use fault::DecodeFault;
pub use instruction::{Index, Instruction, Mode, Operand, Operation, Prebyte};
pub use opcode::allows;
pub use relative::relative_target;
