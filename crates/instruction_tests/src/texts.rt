// How instructions are written.
use crate::printing::prints;
use isa::decode;
use notation::Statement;
use std::process::Abort;
use std::test::Fail;

fn written(
    rt: &(impl Abort + AllocGlobal),
    address: u16,
    bytes: &[u8],
    text: &str,
) -> Result<(), Fail> {
    let instruction = decode(bytes)?.instruction;
    let statement = Statement {
        instruction,
        address,
    };
    prints(rt, &statement, text)
}

#[test]
fn statements(rt: HostRuntime) -> Result<(), Fail> {
    written(&rt, 0xC000, &[0x9D], "NOP")?;
    written(&rt, 0xC000, &[0x92, 0xD6, 0x89], "LD A,([$89.w],X)")?;
    written(&rt, 0xC000, &[0x90, 0xD7, 0x12, 0x34], "LD ($1234,Y),A")?;
    written(&rt, 0xC000, &[0x90, 0x93], "LD Y,X")?;
    written(&rt, 0xC000, &[0x17, 0x80], "BRES $80,#3")?;
    written(&rt, 0xC000, &[0x86], "POP CC")
}

#[test]
fn targets(rt: HostRuntime) -> Result<(), Fail> {
    written(&rt, 0xC4A7, &[0x27, 0x17], "JREQ $C4C0")?;
    written(&rt, 0xFFC1, &[0xAD, 0x02], "CALLR $FFC5")?;
    written(
        &rt,
        0xC000,
        &[0x92, 0x00, 0x12, 0x34],
        "BTJT [$12],#0,$C038",
    )?;
    // the address after the instruction is taken modulo 65,536
    written(&rt, 0xFFFE, &[0x20, 0xFE], "JRA $FFFE")
}
