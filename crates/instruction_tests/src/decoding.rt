// What bytes are.
use crate::printing::prints;
use isa::{Index, Instruction, Operand, Operation, decode, relative_target};
use refusal::Line;
use std::process::Abort;
use std::test::Fail;

fn is(
    rt: &impl Abort,
    bytes: &[u8],
    length: usize,
    cycles: u8,
    expected: Instruction,
) -> Result<(), Fail> {
    let decoded = decode(bytes)?;
    assert_eq!(rt; decoded.length, length);
    assert_eq!(rt; decoded.instruction.cycles(), cycles);
    assert_eq!(rt; decoded.instruction, expected);
    Ok(())
}

fn refused(rt: &(impl Abort + AllocGlobal), bytes: &[u8], line: &str) -> Result<(), Fail> {
    let fault = decode(bytes).expect_err(rt, "an instruction");
    prints(rt, &Line::from(&fault), line)
}

#[test]
fn worked_examples(rt: HostRuntime) -> Result<(), Fail> {
    let immediate = Instruction {
        operation: Operation::Ld,
        index: Index::X,
        operand: Operand::Immediate(0xF8),
    };
    is(&rt, &[0xA6, 0xF8], 2, 2, immediate)?;
    let pointer = Instruction {
        operation: Operation::Ld,
        index: Index::X,
        operand: Operand::LongPointerIndexed(0x89),
    };
    is(&rt, &[0x92, 0xD6, 0x89], 3, 7, pointer)?;
    let short = Instruction {
        operation: Operation::LdIndex,
        index: Index::Y,
        operand: Operand::Short(0x10),
    };
    is(&rt, &[0x90, 0xBE, 0x10], 3, 4, short)
}

#[test]
fn pointer_comes_before_offset(rt: HostRuntime) -> Result<(), Fail> {
    let expected = Instruction {
        operation: Operation::Btjf,
        index: Index::X,
        operand: Operand::BitPointerRelative {
            bit: 7,
            pointer: 0x12,
            offset: -2,
        },
    };
    is(&rt, &[0x92, 0x0F, 0x12, 0xFE], 4, 7, expected)
}

#[test]
fn test_by_index_takes_four_cycles(rt: HostRuntime) -> Result<(), Fail> {
    let expected = Instruction {
        operation: Operation::Tnz,
        index: Index::X,
        operand: Operand::Indexed,
    };
    is(&rt, &[0x7D], 1, 4, expected)
}

#[test]
fn void_codes(rt: HostRuntime) -> Result<(), Fail> {
    refused(&rt, &[0x31], "NO 01 code 31")?;
    refused(&rt, &[0x90, 0x4F], "NO 01 code 90 4F")?;
    refused(&rt, &[0x91, 0xB6], "NO 01 code 91 B6")?;
    refused(&rt, &[0x90, 0x90], "NO 01 code 90 90")?;
    refused(&rt, &[0x92, 0x92, 0x00], "NO 01 code 92 92")?;
    refused(&rt, &[0x92, 0xF6], "NO 01 code 92 F6")
}

#[test]
fn missing_bytes(rt: HostRuntime) -> Result<(), Fail> {
    refused(&rt, &[], "NO 02")?;
    refused(&rt, &[0x90], "NO 02")?;
    refused(&rt, &[0xC6, 0x12], "NO 02")?;
    refused(&rt, &[0x92, 0x00, 0x12], "NO 02")
}

#[test]
fn targets(rt: HostRuntime) {
    assert_eq!(rt; relative_target(0xC4A9, 0x17), 0xC4C0);
    assert_eq!(rt; relative_target(0xC4C2, -2), 0xC4C0);
    assert_eq!(rt; relative_target(0x0010, -128), 0xFF90);
    assert_eq!(rt; relative_target(0xFFF0, 127), 0x006F);
}
