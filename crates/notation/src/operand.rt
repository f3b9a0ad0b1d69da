// One operand as text.
ghost use Rattle.std.specs.Prelude.{◌≡◌, Some};
ghost use Rattle.isa.specs.Relative.{relative_target};
ghost use Rattle.notation.specs.Texts.{operand_text};

use crate::Operands;
use crate::register::Register;
use instruction::{Instruction, Operand};
use isa::relative_target;
use numerals::{Hex2, Hex4};
use std::fmt;

// The operand of an instruction, without the registers that its operation names.
#[derive(Clone, Copy)]
pub struct OperandNotation(pub Operands);

impl OperandNotation {
    // The address that a relative offset leads to.
    fn target(self, offset: i8) -> Hex4
        ensures { result.0 ≡ relative_target self.0.next offset }
    {
        Hex4(relative_target(self.0.next, offset))
    }
}

impl fmt::Display for OperandNotation {
    ghost output = { λ x. Some (operand_text x.0.instruction.index x.0.next x.0.instruction.operand) };

    fn fmt<W: fmt::Write>(&self, f: &mut fmt::Formatter<W>) -> fmt::Result {
        let Instruction { index, operand, .. } = self.0.instruction;
        let index = Register::Index.name(index);
        match operand {
            Operand::Inherent => Ok(()),
            Operand::Accumulator => write!(f, "A"),
            Operand::IndexRegister => write!(f, "{index}"),
            Operand::Immediate(b) => write!(f, "#${}", Hex2(b)),
            Operand::Short(a) => write!(f, "${}", Hex2(a)),
            Operand::Long(a) => write!(f, "${}", Hex4(a)),
            Operand::Indexed => write!(f, "({index})"),
            Operand::ShortIndexed(o) => write!(f, "(${},{index})", Hex2(o)),
            Operand::LongIndexed(o) => write!(f, "(${},{index})", Hex4(o)),
            Operand::Relative(o) => write!(f, "${}", self.target(o)),
            Operand::Bit { bit, address } => write!(f, "${},#{bit}", Hex2(address)),
            Operand::BitRelative {
                bit,
                address,
                offset,
            } => write!(f, "${},#{bit},${}", Hex2(address), self.target(offset)),
            Operand::ShortPointer(p) | Operand::RelativePointer(p) => write!(f, "[${}]", Hex2(p)),
            Operand::LongPointer(p) => write!(f, "[${}.w]", Hex2(p)),
            Operand::ShortPointerIndexed(p) => write!(f, "([${}],{index})", Hex2(p)),
            Operand::LongPointerIndexed(p) => write!(f, "([${}.w],{index})", Hex2(p)),
            Operand::BitPointer { bit, pointer } => write!(f, "[${}],#{bit}", Hex2(pointer)),
            Operand::BitPointerRelative {
                bit,
                pointer,
                offset,
            } => write!(f, "[${}],#{bit},${}", Hex2(pointer), self.target(offset)),
        }
    }
}
