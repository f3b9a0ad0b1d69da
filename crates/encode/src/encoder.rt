// The encoder.
ghost use Rattle.std.specs.Prelude.{◌≡◌, ℕ, ◌≤◌, List, ◌∷◌, ◌++◌, length, take};
ghost use Rattle.instruction.specs.Modes.{mode_of, operand_bytes};
ghost use Rattle.instruction.specs.Rows.{prebyte_of};
ghost use Rattle.isa.specs.Decode.{decode_of};
ghost use Rattle.encode.specs.Buffer.{answer, buffer, length_taken, copied};
ghost use Rattle.encode.specs.Encode.{tail_of, prefix, encode_of};
ghost use Rattle.encode.specs.Laws.{Signed, ReadsBack, WritesBack};

use crate::places::opcode;
use crate::refusals::EncodeRefusal;
use isa::{DecodeFault, Instruction, Operand, allows, decode};
use std::marker::Model;

// The bytes of an instruction: the first `length` of four, and clauses see these alone.
#[derive(Drop)]
struct Code {
    bytes: [u8; 4],
    length: usize,
}

impl Model for Code {
    ghost Value = { List ℕ };

    ghost view = { λ code. take code.length code.bytes };

    ghost invariant = { λ code. code.length ≤ 4 };
}

// The bytes that follow the opcode, with zeros up to two. That a relative offset is a signed byte is known where it is taken
// out of the operand, and the second clause says it.
fn tail(operand: Operand) -> [u8; 2]
    ensures value { take (operand_bytes (mode_of operand)) result ≡ tail_of operand }
    ensures signed { Signed operand }
{
    match operand {
        Operand::Inherent | Operand::Accumulator | Operand::IndexRegister | Operand::Indexed => [
            0, 0,
        ],
        Operand::Immediate(byte)
        | Operand::Short(byte)
        | Operand::ShortIndexed(byte)
        | Operand::ShortPointer(byte)
        | Operand::LongPointer(byte)
        | Operand::ShortPointerIndexed(byte)
        | Operand::LongPointerIndexed(byte)
        | Operand::RelativePointer(byte)
        | Operand::Bit { address: byte, .. }
        | Operand::BitPointer { pointer: byte, .. } => [byte, 0],
        Operand::Long(word) | Operand::LongIndexed(word) => word.to_be_bytes(),
        Operand::Relative(offset) => [offset.cast_unsigned(), 0],
        Operand::BitRelative {
            address,
            offset,
            ..
        } => [address, offset.cast_unsigned()],
        Operand::BitPointerRelative {
            pointer,
            offset,
            ..
        } => [pointer, offset.cast_unsigned()],
    }
}

// Prebyte, opcode and operand of an instruction.
#[tactic(auto, using(crate::proofs::Writing::behind_two))]
fn join(instruction: Instruction, opcode: u8) -> Code
    ensures value { result ≡ prefix (prebyte_of instruction) ++ (opcode ∷ tail_of instruction.operand) }
    ensures signed { Signed instruction.operand }
{
    let [a, b] = tail(instruction.operand);
    let count = instruction.operand.mode().operand_bytes();
    match instruction.prebyte() {
        None => Code {
            bytes: [opcode, a, b, 0],
            length: 1 + count,
        },
        Some(prebyte) => Code {
            bytes: [u8::from(prebyte), opcode, a, b],
            length: 2 + count,
        },
    }
}

// The bytes of an instruction, if it is one of the ST7.
#[tactic(auto, using(crate::proofs::Reading::reads_back), unfolding(crate::specs::Encode::encode_of))]
fn code_for(instruction: Instruction) -> Option<Code>
    ensures value { result ≡ encode_of instruction }
    ensures reads_back { ReadsBack instruction }
{
    let opcode = opcode(instruction)?;
    let mode = instruction.operand.mode().direct();
    if !allows(instruction.index, instruction.operation, mode) {
        return None;
    }
    Some(join(instruction, opcode))
}

// Writes the bytes of an instruction into the front of the buffer, and answers how many there are. Decoded, they are the
// instruction again, whatever follows them.
pub fn encode(instruction: &Instruction, out: &mut [u8]) -> Result<usize, EncodeRefusal>
    ensures answers { result ≡ answer (length out.old) (encode_of instruction.now) }
    ensures leaves { out.new ≡ buffer out.old (encode_of instruction.now) }
    ensures reads_back { ReadsBack instruction.now }
{
    let code = code_for(*instruction).ok_or(EncodeRefusal::NoInstruction)?;
    if out.len() < code.length {
        return Err(EncodeRefusal::ShortBuffer);
    }
    out[..code.length].copy_from_slice(&code.bytes[..code.length]);
    Ok(code.length)
}

// Decodes the instruction at the start of the bytes and encodes it again, into the front of the buffer: these are the same
// bytes. Answers how many there are.
#[tactic(auto, using(crate::proofs::Again::copied_is, crate::proofs::Back::writes_back))]
pub fn reencode(bytes: &[u8], out: &mut [u8; 4]) -> Result<usize, DecodeFault>
    ensures answers { result ≡ length_taken (decode_of bytes.now) }
    ensures leaves { out.new ≡ copied bytes.now out.old (decode_of bytes.now) }
    ensures writes_back { WritesBack bytes.now }
{
    let decoded = decode(bytes)?;
    // never refused: what was decoded is an instruction, and has four bytes at most
    let _ = encode(&decoded.instruction, out);
    Ok(decoded.length)
}
