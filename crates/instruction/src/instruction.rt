// Instructions as values.
ghost use Rattle.std.specs.Prelude.{◌≡◌, ◌+◌, ◌<◌};
ghost use Rattle.instruction.specs.Modes.{mode_of};
ghost use Rattle.instruction.specs.Rows.{with_prebyte, prebyte_of, cycles_of, length_of};

use crate::mode::{Index, Mode};
use crate::prebyte::Prebyte;
use operation::Operation;

// An operand with its numbers. A short address, an offset from an index register and the address of a pointer are
// bytes; a relative offset is signed; a bit is 0 to 7.
#[derive(Clone, Copy, PartialEq, Eq, Debug)]
pub enum Operand {
    Inherent,
    Accumulator,
    IndexRegister,
    Immediate(u8),
    Short(u8),
    Long(u16),
    Indexed,
    ShortIndexed(u8),
    LongIndexed(u16),
    Relative(i8),
    Bit { bit: u8, address: u8 },
    BitRelative { bit: u8, address: u8, offset: i8 },
    ShortPointer(u8),
    LongPointer(u8),
    ShortPointerIndexed(u8),
    LongPointerIndexed(u8),
    RelativePointer(u8),
    BitPointer { bit: u8, pointer: u8 },
    BitPointerRelative { bit: u8, pointer: u8, offset: i8 },
}

// An operation with its index register and its operand. Not every such value is an instruction of the ST7: the encoder
// tells which are.
#[derive(Clone, Copy, PartialEq, Eq, Debug)]
pub struct Instruction {
    pub operation: Operation,
    pub index: Index,
    pub operand: Operand,
}

impl Operand {
    pub fn mode(self) -> Mode
        ensures { result ≡ mode_of self }
    {
        match self {
            Operand::Inherent => Mode::Inherent,
            Operand::Accumulator => Mode::Accumulator,
            Operand::IndexRegister => Mode::IndexRegister,
            Operand::Immediate(_) => Mode::Immediate,
            Operand::Short(_) => Mode::Short,
            Operand::Long(_) => Mode::Long,
            Operand::Indexed => Mode::Indexed,
            Operand::ShortIndexed(_) => Mode::ShortIndexed,
            Operand::LongIndexed(_) => Mode::LongIndexed,
            Operand::Relative(_) => Mode::Relative,
            Operand::Bit { .. } => Mode::Bit,
            Operand::BitRelative { .. } => Mode::BitRelative,
            Operand::ShortPointer(_) => Mode::ShortPointer,
            Operand::LongPointer(_) => Mode::LongPointer,
            Operand::ShortPointerIndexed(_) => Mode::ShortPointerIndexed,
            Operand::LongPointerIndexed(_) => Mode::LongPointerIndexed,
            Operand::RelativePointer(_) => Mode::RelativePointer,
            Operand::BitPointer { .. } => Mode::BitPointer,
            Operand::BitPointerRelative { .. } => Mode::BitPointerRelative,
        }
    }
}

// A number of a row with what the prebyte adds to it; where the row has none, and 0 stands for it, there is nothing to add to.
fn with_prebyte(own: u8, added: u8) -> u8
    requires { own + added < 256 }
    ensures { result ≡ with_prebyte own added }
{
    match own {
        0 => 0,
        own => own + added,
    }
}

impl Instruction {
    // The prebyte that stands before the opcode, if one does. The pointer is asked first: in that order the compiler makes fewer
    // tests of the cycles that follow from it.
    pub fn prebyte(self) -> Option<Prebyte>
        ensures { result ≡ prebyte_of self }
    {
        match (self.operand.mode().is_indirect(), self.index) {
            (false, Index::X) => None,
            (false, Index::Y) => Some(Prebyte::Y),
            (true, Index::Y) => Some(Prebyte::PointerY),
            (true, Index::X) => Some(Prebyte::Pointer),
        }
    }

    // The cycles that the instruction takes; 0 where its operation has no such mode.
    #[tactic(auto, using(crate::proofs::Few::few_cycles), unfolding(crate::specs::Rows::cycles_of))]
    pub fn cycles(self) -> u8
        ensures { result ≡ cycles_of self }
    {
        let own = self.operand.mode().direct().cycles(self.operation);
        with_prebyte(own, self.prebyte().map_or(0, Prebyte::cycles))
    }

    // The bytes that the instruction has; 0 where its operation has no such mode.
    #[tactic(auto, using(crate::proofs::Few::few_bytes), unfolding(crate::specs::Rows::length_of))]
    pub fn length(self) -> u8
        ensures { result ≡ length_of self }
    {
        let own = self.operand.mode().length(self.operation);
        with_prebyte(own, u8::from(self.prebyte().is_some()))
    }
}
