// Which operands stand behind a mnemonic.
ghost use Rattle.std.specs.Prelude.{◌≡◌};
ghost use Rattle.notation.specs.Shapes.{shape_of};

use crate::register::Register;
use instruction::Operation;

// The registers that an operation names beside its operand, and where they stand.
#[derive(Clone, Copy)]
pub enum Shape {
    OperandAlone,
    RegisterFirst(Register),
    RegisterLast(Register),
    OneRegister(Register),
    TwoRegisters(Register, Register),
}

// The shape of an operation's operands.
impl From<Operation> for Shape {
    ghost from_gives = { λ operation shape. shape ≡ shape_of operation };

    fn from(operation: Operation) -> Shape {
        match operation {
            Operation::Sub
            | Operation::Cp
            | Operation::Sbc
            | Operation::And
            | Operation::Bcp
            | Operation::Ld
            | Operation::Xor
            | Operation::Adc
            | Operation::Or
            | Operation::Add => Shape::RegisterFirst(Register::A),
            Operation::CpIndex | Operation::LdIndex => Shape::RegisterFirst(Register::Index),
            Operation::St => Shape::RegisterLast(Register::A),
            Operation::StIndex => Shape::RegisterLast(Register::Index),
            Operation::PopA | Operation::PushA => Shape::OneRegister(Register::A),
            Operation::PopIndex | Operation::PushIndex => Shape::OneRegister(Register::Index),
            Operation::PopCc | Operation::PushCc => Shape::OneRegister(Register::Cc),
            Operation::LdIndexFromOther => Shape::TwoRegisters(
                Register::Index,
                Register::OtherIndex,
            ),
            Operation::LdSFromIndex => Shape::TwoRegisters(Register::S, Register::Index),
            Operation::LdSFromA => Shape::TwoRegisters(Register::S, Register::A),
            Operation::LdIndexFromS => Shape::TwoRegisters(Register::Index, Register::S),
            Operation::LdIndexFromA | Operation::Mul => Shape::TwoRegisters(
                Register::Index,
                Register::A,
            ),
            Operation::LdAFromS => Shape::TwoRegisters(Register::A, Register::S),
            Operation::LdAFromIndex => Shape::TwoRegisters(Register::A, Register::Index),
            _ => Shape::OperandAlone,
        }
    }
}
