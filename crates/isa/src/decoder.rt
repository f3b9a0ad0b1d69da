// The decoder.
ghost use Rattle.std.specs.Prelude.{◌≡◌, ◌<◌, slice_index};
ghost use Rattle.isa.specs.Laws.{Sized, Timed};
ghost use Rattle.isa.specs.Decode.{operand_of, completed, decode_of};

use crate::fault::DecodeFault;
use crate::opcode::{Form, form_behind};
use instruction::{Instruction, Mode, Operand, Prebyte};
use refusal::VoidCode;

// An instruction, and how many bytes it has: the number is known where it was decoded, and the rows are not asked again.
#[derive(Clone, Copy, PartialEq, Eq, Debug)]
pub struct Decoded {
    pub instruction: Instruction,
    pub length: usize,
}

// The byte at a place, and 0 past the end: only a mode without that byte asks there, and does not look at it.
fn byte(bytes: &[u8], i: usize) -> u8
    ensures { result ≡ slice_index bytes.now i }
{
    bytes.get(i).copied().unwrap_or(0)
}

// The operand of an opcode that the bytes `a` and `b` follow.
fn operand(mode: Mode, opcode: u8, a: u8, b: u8) -> Operand
    ensures { result ≡ operand_of mode opcode a b }
{
    let bit = opcode % 16 / 2;
    let word = u16::from_be_bytes([a, b]);
    match mode {
        Mode::Inherent => Operand::Inherent,
        Mode::Accumulator => Operand::Accumulator,
        Mode::IndexRegister => Operand::IndexRegister,
        Mode::Immediate => Operand::Immediate(a),
        Mode::Short => Operand::Short(a),
        Mode::Long => Operand::Long(word),
        Mode::Indexed => Operand::Indexed,
        Mode::ShortIndexed => Operand::ShortIndexed(a),
        Mode::LongIndexed => Operand::LongIndexed(word),
        Mode::Relative => Operand::Relative(a.cast_signed()),
        Mode::Bit => Operand::Bit { bit, address: a },
        Mode::BitRelative => Operand::BitRelative {
            bit,
            address: a,
            offset: b.cast_signed(),
        },
        Mode::ShortPointer => Operand::ShortPointer(a),
        Mode::LongPointer => Operand::LongPointer(a),
        Mode::ShortPointerIndexed => Operand::ShortPointerIndexed(a),
        Mode::LongPointerIndexed => Operand::LongPointerIndexed(a),
        Mode::RelativePointer => Operand::RelativePointer(a),
        Mode::BitPointer => Operand::BitPointer { bit, pointer: a },
        Mode::BitPointerRelative => Operand::BitPointerRelative {
            bit,
            pointer: a,
            offset: b.cast_signed(),
        },
    }
}

// The opcode stands at the place `at`, and stands for `form`.
fn complete(bytes: &[u8], at: usize, opcode: u8, form: Form) -> Result<Decoded, DecodeFault>
    requires { at < 2 }
    ensures { result ≡ completed bytes.now at opcode form }
{
    let length = at + 1 + form.mode.operand_bytes();
    if bytes.len() < length {
        return Err(DecodeFault::Outside);
    }
    let operand = operand(form.mode, opcode, byte(bytes, at + 1), byte(bytes, at + 2));
    let instruction = Instruction {
        operation: form.operation,
        index: form.index,
        operand,
    };
    Ok(Decoded {
        instruction,
        length,
    })
}

// The instruction at the start of the bytes.
#[tactic(auto, using(crate::proofs::Decoding::found_is, crate::proofs::Laws::sized), unfolding(crate::specs::Decode::decode_of))]
pub fn decode(bytes: &[u8]) -> Result<Decoded, DecodeFault>
    ensures value { result ≡ decode_of bytes.now }
    ensures sized { Sized bytes.now result }
    ensures timed { Timed result }
{
    let prebyte = bytes.first().and_then(|first| Prebyte::from_byte(*first));
    let at = usize::from(prebyte.is_some());
    let opcode = *bytes.get(at).ok_or(DecodeFault::Outside)?;
    let void = VoidCode {
        prebyte: prebyte.map(u8::from),
        opcode,
    };
    let form = form_behind(prebyte, opcode).ok_or(DecodeFault::Void(void))?;
    complete(bytes, at, opcode, form)
}
