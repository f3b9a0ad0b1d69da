// The answers of a description, at each boundary of its map.
use device::Description;
use region::{Region, Span, Vector};
use std::test::Fail;

const RECORD: [u8; 8] = [0xC1, 0x80, 0x02, 0x45, 0x01, 0x7F, 0x03, 0x00];

#[test]
fn fields(rt: HostRuntime) -> Result<(), Fail> {
    let d = Description::try_from(&RECORD[..])?;
    assert_eq!(rt; d.code_start(), 0xC180);
    assert_eq!(rt; d.ram_end(), 0x0245);
    assert_eq!(rt; d.stack_top(), 0x017F);
    assert_eq!(rt; d.levels(), 64);
    assert_eq!(rt; d.sources(), 3);
    assert_eq!(rt; d.image_length(), 0x3E80);
    Ok(())
}

#[test]
fn regions(rt: HostRuntime) -> Result<(), Fail> {
    let d = Description::try_from(&RECORD[..])?;
    assert_eq!(rt; d.region(0x0000), Region::Window);
    assert_eq!(rt; d.region(0x007F), Region::Window);
    assert_eq!(rt; d.region(0x0080), Region::Ram);
    assert_eq!(rt; d.region(0x0245), Region::Ram);
    assert_eq!(rt; d.region(0x0246), Region::Unmapped);
    assert_eq!(rt; d.region(0xC17F), Region::Unmapped);
    assert_eq!(rt; d.region(0xC180), Region::Image);
    assert_eq!(rt; d.region(0xFFFF), Region::Image);
    Ok(())
}

#[test]
fn spans(rt: HostRuntime) -> Result<(), Fail> {
    let d = Description::try_from(&RECORD[..])?;
    assert_eq!(rt;
        d.span(Region::Window),
        Span {
            first: 0x0000,
            last: 0x007F,
        }
    );
    assert_eq!(rt;
        d.span(Region::Ram),
        Span {
            first: 0x0080,
            last: 0x0245,
        }
    );
    assert_eq!(rt;
        d.span(Region::Unmapped),
        Span {
            first: 0x0246,
            last: 0xC17F,
        }
    );
    assert_eq!(rt;
        d.span(Region::Image),
        Span {
            first: 0xC180,
            last: 0xFFFF,
        }
    );
    assert_eq!(rt;
        d.stack(),
        Span {
            first: 0x0140,
            last: 0x017F,
        }
    );
    assert_eq!(rt;
        d.code_region(),
        Span {
            first: 0xC180,
            last: 0xFFDF,
        }
    );
    Ok(())
}

#[test]
fn inside(rt: HostRuntime) -> Result<(), Fail> {
    let d = Description::try_from(&RECORD[..])?;
    assert!(rt; !d.in_stack(0x013F) && d.in_stack(0x0140));
    assert!(rt; d.in_stack(0x017F) && !d.in_stack(0x0180));
    assert!(rt; !d.in_code_region(0xC17F) && d.in_code_region(0xC180));
    assert!(rt; d.in_code_region(0xFFDF) && !d.in_code_region(0xFFE0));
    Ok(())
}

#[test]
fn vectors(rt: HostRuntime) -> Result<(), Fail> {
    let d = Description::try_from(&RECORD[..])?;
    assert_eq!(rt; Vector::Reset.address(), 0xFFFE);
    assert_eq!(rt; Vector::Trap.address(), 0xFFFC);
    assert_eq!(rt; Vector::Source(0).address(), 0xFFFA);
    assert_eq!(rt; Vector::Source(7).address(), 0xFFEC);
    assert!(rt; d.has_vector(Vector::Reset) && d.has_vector(Vector::Trap));
    assert!(rt; d.has_vector(Vector::Source(2)) && !d.has_vector(Vector::Source(3)));
    Ok(())
}
