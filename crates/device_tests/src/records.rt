// Records at the limits of each field and one past them, and of every length up to 9.
use device::Description;
use refusal::{Detail, Line};
use std::process::Abort;

// The line of the refusal of a record, if it is refused.
fn refusal(bytes: &[u8]) -> Option<Line> {
    Description::try_from(bytes)
        .err()
        .map(|refusal| Line::from(&refusal))
}

fn fault_at(offset: u8) -> Option<Line> {
    Some(Line {
        number: 4,
        detail: Detail::Offset(offset),
    })
}

// The bytes of a record, of its fields: code start, RAM end, stack top, number of sources, and the last byte.
fn record(code_start: u16, ram_end: u16, stack_top: u16, sources: u8, last: u8) -> [u8; 8] {
    let [c1, c0] = code_start.to_be_bytes();
    let [r1, r0] = ram_end.to_be_bytes();
    let [t1, t0] = stack_top.to_be_bytes();
    [c1, c0, r1, r0, t1, t0, sources, last]
}

fn taken(rt: &impl Abort, record: [u8; 8]) {
    assert_eq!(rt; refusal(&record), None);
}

fn at_fault(rt: &impl Abort, record: [u8; 8], offset: u8) {
    assert_eq!(rt; refusal(&record), fault_at(offset));
}

#[test]
fn code_start(rt: HostRuntime) {
    at_fault(&rt, record(0xBFFF, 0x01FF, 0x017F, 1, 0), 0);
    taken(&rt, record(0xC000, 0x01FF, 0x017F, 1, 0));
    taken(&rt, record(0xFFC0, 0x01FF, 0x017F, 1, 0));
    at_fault(&rt, record(0xFFC1, 0x01FF, 0x017F, 1, 0), 0);
    // low byte first
    at_fault(&rt, record(0x00C0, 0x01FF, 0x017F, 1, 0), 0);
}

#[test]
fn ram_end(rt: HostRuntime) {
    at_fault(&rt, record(0xFFC0, 0x00FE, 0x00BF, 1, 0), 2);
    taken(&rt, record(0xFFC0, 0x00FF, 0x00BF, 1, 0));
    taken(&rt, record(0xFFC0, 0x07FF, 0x017F, 1, 0));
    at_fault(&rt, record(0xFFC0, 0x0800, 0x017F, 1, 0), 2);
}

#[test]
fn stack_top(rt: HostRuntime) {
    // below RAM, and the lowest that lies in it
    at_fault(&rt, record(0xFFC0, 0x01FF, 0x007F, 1, 0), 4);
    taken(&rt, record(0xFFC0, 0x01FF, 0x00BF, 1, 0));
    // the six low bits
    at_fault(&rt, record(0xFFC0, 0x01FF, 0x017E, 1, 0), 4);
    at_fault(&rt, record(0xFFC0, 0x01FF, 0x0180, 1, 0), 4);
    at_fault(&rt, record(0xFFC0, 0x01FF, 0x015F, 1, 0), 4);
    // at the end of RAM, and past it
    taken(&rt, record(0xFFC0, 0x01FF, 0x01FF, 1, 0));
    taken(&rt, record(0xFFC0, 0x023F, 0x023F, 1, 0));
    at_fault(&rt, record(0xFFC0, 0x023E, 0x023F, 1, 0), 4);
}

#[test]
fn sources_and_last_byte(rt: HostRuntime) {
    taken(&rt, record(0xFFC0, 0x01FF, 0x017F, 0, 0));
    taken(&rt, record(0xFFC0, 0x01FF, 0x017F, 8, 0));
    at_fault(&rt, record(0xFFC0, 0x01FF, 0x017F, 9, 0), 6);
    at_fault(&rt, record(0xFFC0, 0x01FF, 0x017F, 255, 0), 6);
    at_fault(&rt, record(0xFFC0, 0x01FF, 0x017F, 1, 1), 7);
    at_fault(&rt, record(0xFFC0, 0x01FF, 0x017F, 1, 255), 7);
}

// The first of several faults is told.
#[test]
fn first_fault(rt: HostRuntime) {
    at_fault(&rt, record(0x0000, 0x0000, 0x0000, 9, 1), 0);
    at_fault(&rt, record(0xC000, 0x0000, 0x0000, 9, 1), 2);
    at_fault(&rt, record(0xC000, 0x00FF, 0x0000, 9, 1), 4);
    at_fault(&rt, record(0xC000, 0x00FF, 0x00FF, 9, 1), 6);
    at_fault(&rt, record(0xC000, 0x00FF, 0x00FF, 8, 1), 7);
}

const GOOD: [u8; 9] = [0xFF, 0xC0, 0x01, 0xFF, 0x01, 0x7F, 0x01, 0x00, 0x00];

// The front of a lawful record is at fault where it ends, and a longer one after its last field.
#[test]
fn lengths(rt: HostRuntime) {
    for (length, offset) in [
        (0, 0),
        (1, 0),
        (2, 2),
        (3, 2),
        (4, 4),
        (5, 4),
        (6, 6),
        (7, 7),
        (9, 8),
    ] {
        assert!(rt; length <= 9);
        assert_eq!(rt; refusal(&GOOD[0..length]), fault_at(offset));
    }
    assert_eq!(rt; refusal(&GOOD[0..8]), None);
}

// A fault in a longer or shorter record is told before its length.
#[test]
fn fault_before_length(rt: HostRuntime) {
    let long = [0xFF, 0xC0, 0x01, 0xFF, 0x01, 0x7F, 0x01, 0x01, 0x00];
    assert_eq!(rt; refusal(&long), fault_at(7));
    assert_eq!(rt; refusal(&[0xBF, 0xFF, 0x01]), fault_at(0));
    assert_eq!(rt;
        refusal(&[0xFF, 0xC0, 0x01, 0xFF, 0x01, 0x7F, 0x09]),
        fault_at(6)
    );
}
