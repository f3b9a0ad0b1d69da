// What the programs print.
use memory_map::Report;
use refusal::{Detail, Line, Place, VoidCode};
use std::fmt;
use std::process::Abort;
use std::test::Fail;

fn prints(
    rt: &(impl Abort + AllocGlobal),
    value: &impl fmt::Display,
    text: &str,
) -> Result<(), Fail> {
    let said = value.to_string(rt.alloc())?;
    assert_eq!(rt; said.as_str(), text);
    Ok(())
}

fn line(number: u8, detail: Detail) -> Line {
    Line { number, detail }
}

#[test]
fn refusals(rt: HostRuntime) -> Result<(), Fail> {
    let place = Place {
        address: 0xFFC5,
        entry: 0xFFC0,
    };
    let void = VoidCode {
        prebyte: Some(0x90),
        opcode: 0x4F,
    };
    let plain = VoidCode {
        prebyte: None,
        opcode: 0x0A,
    };
    prints(&rt, &line(5, Detail::Nothing), "NO 05")?;
    prints(&rt, &line(4, Detail::Offset(2)), "NO 04 at 2")?;
    prints(&rt, &line(9, Detail::Index(4095)), "NO 09 at 4095")?;
    prints(&rt, &line(1, Detail::Void(void)), "NO 01 code 90 4F")?;
    prints(&rt, &line(1, Detail::Void(plain)), "NO 01 code 0A")?;
    prints(&rt, &line(27, Detail::At(place)), "NO 27 at FFC5 in FFC0")?;
    prints(
        &rt,
        &line(20, Detail::VoidAt(void, place)),
        "NO 20 at FFC5 in FFC0",
    )
}

// What st7device prints of a record.
fn report(bytes: &[u8]) -> Report {
    Report::from(bytes)
}

#[test]
fn refused_records(rt: HostRuntime) -> Result<(), Fail> {
    prints(&rt, &report(&[]), "NO 04 at 0\n")?;
    prints(&rt, &report(&[0xC0, 0x00]), "NO 04 at 2\n")?;
    prints(
        &rt,
        &report(&[0xC0, 0x00, 0x00, 0xFF, 0x01, 0x3F]),
        "NO 04 at 4\n",
    )?;
    prints(
        &rt,
        &report(&[0xC0, 0x00, 0x00, 0xFF, 0x00, 0xFF, 0x09, 0x00]),
        "NO 04 at 6\n",
    )?;
    prints(
        &rt,
        &report(&[0xC0, 0x00, 0x00, 0xFF, 0x00, 0xFF, 0x08]),
        "NO 04 at 7\n",
    )?;
    prints(
        &rt,
        &report(&[0xC0, 0x00, 0x00, 0xFF, 0x00, 0xFF, 0x08, 0x00, 0x00]),
        "NO 04 at 8\n",
    )
}

#[test]
fn no_sources(rt: HostRuntime) -> Result<(), Fail> {
    let map =
        "0000-007F  peripheral window\n0080-00FF  RAM\n0100-BFFF  unmapped\nC000-FFFF  image\n00C0-00FF  stack\n     0040  stack levels\nC000-FFDF  code region\n     4000  image length\n     FFFE  reset vector\n     FFFC  TRAP vector\n";
    prints(
        &rt,
        &report(&[0xC0, 0x00, 0x00, 0xFF, 0x00, 0xFF, 0x00, 0x00]),
        map,
    )
}
