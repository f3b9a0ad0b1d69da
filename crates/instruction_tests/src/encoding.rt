// Which bytes an instruction has.
use crate::printing::prints;
use encode::{EncodeRefusal, encode, reencode};
use isa::{Index, Instruction, Operand, Operation};
use refusal::Line;
use std::process::Abort;
use std::test::Fail;

fn value(operation: Operation, index: Index, operand: Operand) -> Instruction {
    Instruction {
        operation,
        index,
        operand,
    }
}

#[test]
fn only_the_front_changes(rt: HostRuntime) {
    let mut out = [0xEE; 6];
    let instruction = value(Operation::St, Index::Y, Operand::LongIndexed(0x1234));
    assert_eq!(rt; encode(&instruction, &mut out), Ok(4));
    assert_eq!(rt; out, [0x90, 0xD7, 0x12, 0x34, 0xEE, 0xEE]);
}

#[test]
fn negative_offset(rt: HostRuntime) {
    let mut out = [0; 2];
    let instruction = value(Operation::Jra, Index::X, Operand::Relative(-2));
    assert_eq!(rt; encode(&instruction, &mut out), Ok(2));
    assert_eq!(rt; out, [0x20, 0xFE]);
}

fn no_instruction(rt: &impl Abort, instruction: Instruction) {
    let mut out = [0xEE; 4];
    assert_eq!(rt;
        encode(&instruction, &mut out),
        Err(EncodeRefusal::NoInstruction)
    );
    assert_eq!(rt; out, [0xEE, 0xEE, 0xEE, 0xEE]);
    // also where the buffer is too short
    assert_eq!(rt;
        encode(&instruction, &mut out[0..0]),
        Err(EncodeRefusal::NoInstruction)
    );
}

#[test]
fn no_instructions(rt: HostRuntime) {
    no_instruction(&rt, value(Operation::Clr, Index::X, Operand::Long(0x1234)));
    no_instruction(&rt, value(Operation::Jra, Index::X, Operand::Immediate(1)));
    no_instruction(&rt, value(Operation::Nop, Index::Y, Operand::Inherent));
    no_instruction(&rt, value(Operation::Ld, Index::Y, Operand::Short(0x10)));
    let bit = 8;
    let address = 0x12;
    no_instruction(
        &rt,
        value(Operation::Bset, Index::X, Operand::Bit { bit, address }),
    );
}

#[test]
fn short_buffers(rt: HostRuntime) {
    let instruction = value(Operation::Jp, Index::X, Operand::Long(0xC000));
    let mut out = [0xEE; 3];
    assert_eq!(rt;
        encode(&instruction, &mut out[0..2]),
        Err(EncodeRefusal::ShortBuffer)
    );
    assert_eq!(rt; out, [0xEE, 0xEE, 0xEE]);
    assert_eq!(rt; encode(&instruction, &mut out), Ok(3));
    assert_eq!(rt; out, [0xCC, 0xC0, 0x00]);
}

#[test]
fn lines(rt: HostRuntime) -> Result<(), Fail> {
    prints(&rt, &Line::from(&EncodeRefusal::NoInstruction), "NO 10")?;
    prints(&rt, &Line::from(&EncodeRefusal::ShortBuffer), "NO 11")
}

#[test]
fn again(rt: HostRuntime) {
    let mut out = [0; 4];
    assert_eq!(rt; reencode(&[0x92, 0x0F, 0x12, 0xFE, 0x9D], &mut out), Ok(4));
    assert_eq!(rt; out, [0x92, 0x0F, 0x12, 0xFE]);
    assert_eq!(rt; reencode(&[0x9D, 0x12], &mut out), Ok(1));
    assert_eq!(rt; out, [0x9D, 0x0F, 0x12, 0xFE]);
}
