// Instructions as an assembler writes them.
#![tactic(auto)]

ghost use Rattle.std.specs.Prelude.{◌≡◌, Some};
ghost use Rattle.notation.specs.Texts.{is_empty, operands_text, operands_of, statement_text};

use crate::operand::OperandNotation;
use crate::shape::Shape;
use instruction::{Instruction, Operand};
use std::fmt;

mod operand;
mod register;
mod shape;

// The operands of an instruction; `next` is the address after the whole instruction.
#[derive(Clone, Copy)]
pub struct Operands {
    pub instruction: Instruction,
    pub next: u16,
}

impl Operands {
    // Whether nothing stands behind the mnemonic.
    #[tactic(auto, unfolding(crate::specs::Texts::operands_text))]
    fn is_empty(self) -> bool
        ensures { result ≡ is_empty (operands_text self) }
    {
        matches!(Shape::from(self.instruction.operation), Shape::OperandAlone)
            && matches!(self.instruction.operand, Operand::Inherent)
    }
}

impl fmt::Display for Operands {
    ghost output = { λ x. Some (operands_text x) };

    #[tactic(auto, unfolding(crate::specs::Texts::operands_text))]
    fn fmt<W: fmt::Write>(&self, f: &mut fmt::Formatter<W>) -> fmt::Result {
        let index = self.instruction.index;
        let operand = OperandNotation(*self);
        match Shape::from(self.instruction.operation) {
            Shape::OperandAlone => write!(f, "{operand}"),
            Shape::RegisterFirst(r) => write!(f, "{},{operand}", r.name(index)),
            Shape::RegisterLast(r) => write!(f, "{operand},{}", r.name(index)),
            Shape::OneRegister(r) => write!(f, "{}", r.name(index)),
            Shape::TwoRegisters(to, from) => write!(f, "{},{}", to.name(index), from.name(index)),
        }
    }
}

// An instruction and the address at which it stands.
#[derive(Clone, Copy)]
pub struct Statement {
    pub instruction: Instruction,
    pub address: u16,
}

// The operands of an instruction at an address.
impl From<Statement> for Operands {
    ghost from_gives = { λ statement operands. operands ≡ operands_of statement };

    fn from(statement: Statement) -> Operands {
        let instruction = statement.instruction;
        let length = u16::from(instruction.length());
        Operands {
            instruction,
            next: statement.address.wrapping_add(length),
        }
    }
}

impl fmt::Display for Statement {
    ghost output = { λ x. Some (statement_text x) };

    #[tactic(auto, unfolding(crate::specs::Texts::statement_text))]
    fn fmt<W: fmt::Write>(&self, f: &mut fmt::Formatter<W>) -> fmt::Result {
        let mnemonic = self.instruction.operation.mnemonic();
        let operands = Operands::from(*self);
        if operands.is_empty() {
            write!(f, "{mnemonic}")
        } else {
            write!(f, "{mnemonic} {operands}")
        }
    }
}
