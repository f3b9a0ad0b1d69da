// One row.
ghost use Rattle.std.specs.Prelude.{◌<◌};

use encode::encode;
use isa::{Instruction, decode};
use notation::{Operands, Statement};
use std::alloc::Global;
use std::fmt;

// Where the rows' instructions stand.
const ADDRESS: u16 = 0xC000;

// What the library says of an instruction: the bytes that it is encoded as, its text, its length and its cycles.
#[derive(Clone, Copy)]
struct Row<'a> {
    bytes: &'a [u8],
    instruction: Instruction,
}

impl<'a> fmt::Display for Row<'a> {
    fn fmt<W: fmt::Write>(&self, f: &mut fmt::Formatter<W>) -> fmt::Result {
        let Row { bytes, instruction } = *self;
        if let [first, rest @ ..] = bytes {
            write!(f, "{first:02X}")?;
            for byte in rest {
                write!(f, " {byte:02X}")?;
            }
        }
        let operands = Operands::from(Statement {
            instruction,
            address: ADDRESS,
        });
        write!(
            f,
            "|{}|{operands}|{}|{}",
            instruction.operation.mnemonic(),
            instruction.length(),
            instruction.cycles(),
        )
    }
}

// A hexadecimal digit, and 0 for any other character. By hand, since the library's `to_digit` reads small letters too: a row
// that has them is wrong.
fn digit(character: u8) -> u8
    ensures { result < 16 }
{
    match character {
        b'0'..=b'9' => character - b'0',
        b'A'..=b'F' => character - b'A' + 10,
        _ => 0,
    }
}

// The bytes in front of a row's first bar, with zeros up to four: the decoder is given four bytes, and takes those that it needs.
fn bytes_of(row: &[u8]) -> [u8; 4] {
    let mut bytes = [0; 4];
    for (byte, code) in bytes.iter_mut().zip(row.chunks(3)) {
        if let [high, low, ..] = *code {
            *byte = digit(high) * 16 + digit(low);
        }
        if !code.ends_with(b" ") {
            break;
        }
    }
    bytes
}

// The instruction that a row's bytes are.
fn instruction(row: &[u8]) -> Option<Instruction> {
    Some(decode(&bytes_of(row)).ok()?.instruction)
}

// Whether the library says the same as the row.
pub(crate) fn is_right(heap: Global, row: &[u8]) -> anyhow::Result<bool> {
    let Some(instruction) = instruction(row) else {
        return Ok(false);
    };
    let mut out = [0; 4];
    let Ok(length) = encode(&instruction, &mut out) else {
        return Ok(false);
    };
    let bytes = &out[..length];
    let said = format!(in heap; "{}", Row { bytes, instruction })?;
    Ok(said.as_bytes() == row)
}

// The mnemonic of the instruction that a row's bytes are.
pub(crate) fn mnemonic(row: &[u8]) -> Option<&'static str> {
    instruction(row).map(|i| i.operation.mnemonic())
}
