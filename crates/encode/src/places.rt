// Where an operation stands in the op-code map.
ghost use Rattle.std.specs.Prelude.{◌≡◌};
ghost use Rattle.encode.specs.Places.{place_of, InRow};
ghost use Rattle.encode.specs.Encode.{opcode_of};

use isa::{Instruction, Operand, Operation};

// The rows of the op-code map that an operation stands in, one for each of its modes, and its place in them.
#[derive(Clone, Copy)]
pub enum Place {
    // an operand in memory, or an immediate one: a column
    Accesses(u8),
    // an operand in memory: a column
    Stores(u8),
    // one operand that is changed or tested: a column
    Changes(u8),
    // no operand: the one opcode
    Single(u8),
    // a relative offset: the one opcode
    Jump(u8),
    // a bit: the opcode of bit 0
    BitWrite(u8),
    // a bit, and a relative offset: the opcode of bit 0
    BitJump(u8),
}

// The place of each operation: its opcodes all fit a byte. It stays a look-up where it is not inlined: merged with the match
// on the operand it becomes jumps that depend on both, and encoding takes a tenth to a quarter longer.
#[inline(never)]
fn place_of(operation: Operation) -> Place
    ensures value { result ≡ place_of operation }
    ensures fits { InRow result }
{
    match operation {
        Operation::Sub => Place::Accesses(0x00),
        Operation::Cp => Place::Accesses(0x01),
        Operation::Sbc => Place::Accesses(0x02),
        Operation::CpIndex => Place::Accesses(0x03),
        Operation::And => Place::Accesses(0x04),
        Operation::Bcp => Place::Accesses(0x05),
        Operation::Ld => Place::Accesses(0x06),
        Operation::St => Place::Stores(0x07),
        Operation::Xor => Place::Accesses(0x08),
        Operation::Adc => Place::Accesses(0x09),
        Operation::Or => Place::Accesses(0x0A),
        Operation::Add => Place::Accesses(0x0B),
        Operation::Jp => Place::Stores(0x0C),
        Operation::Call => Place::Stores(0x0D),
        Operation::LdIndex => Place::Accesses(0x0E),
        Operation::StIndex => Place::Stores(0x0F),
        Operation::Callr => Place::Jump(0xAD),
        Operation::Neg => Place::Changes(0x00),
        Operation::Cpl => Place::Changes(0x03),
        Operation::Srl => Place::Changes(0x04),
        Operation::Rrc => Place::Changes(0x06),
        Operation::Sra => Place::Changes(0x07),
        Operation::Sll => Place::Changes(0x08),
        Operation::Rlc => Place::Changes(0x09),
        Operation::Dec => Place::Changes(0x0A),
        Operation::Inc => Place::Changes(0x0C),
        Operation::Tnz => Place::Changes(0x0D),
        Operation::Swap => Place::Changes(0x0E),
        Operation::Clr => Place::Changes(0x0F),
        Operation::Mul => Place::Single(0x42),
        Operation::Jra => Place::Jump(0x20),
        Operation::Jrf => Place::Jump(0x21),
        Operation::Jrugt => Place::Jump(0x22),
        Operation::Jrule => Place::Jump(0x23),
        Operation::Jrnc => Place::Jump(0x24),
        Operation::Jrc => Place::Jump(0x25),
        Operation::Jrne => Place::Jump(0x26),
        Operation::Jreq => Place::Jump(0x27),
        Operation::Jrnh => Place::Jump(0x28),
        Operation::Jrh => Place::Jump(0x29),
        Operation::Jrpl => Place::Jump(0x2A),
        Operation::Jrmi => Place::Jump(0x2B),
        Operation::Jrnm => Place::Jump(0x2C),
        Operation::Jrm => Place::Jump(0x2D),
        Operation::Jril => Place::Jump(0x2E),
        Operation::Jrih => Place::Jump(0x2F),
        Operation::Btjt => Place::BitJump(0x00),
        Operation::Btjf => Place::BitJump(0x01),
        Operation::Bset => Place::BitWrite(0x10),
        Operation::Bres => Place::BitWrite(0x11),
        Operation::Iret => Place::Single(0x80),
        Operation::Ret => Place::Single(0x81),
        Operation::Trap => Place::Single(0x83),
        Operation::PopA => Place::Single(0x84),
        Operation::PopIndex => Place::Single(0x85),
        Operation::PopCc => Place::Single(0x86),
        Operation::PushA => Place::Single(0x88),
        Operation::PushIndex => Place::Single(0x89),
        Operation::PushCc => Place::Single(0x8A),
        Operation::Halt => Place::Single(0x8E),
        Operation::Wfi => Place::Single(0x8F),
        Operation::LdIndexFromOther => Place::Single(0x93),
        Operation::LdSFromIndex => Place::Single(0x94),
        Operation::LdSFromA => Place::Single(0x95),
        Operation::LdIndexFromS => Place::Single(0x96),
        Operation::LdIndexFromA => Place::Single(0x97),
        Operation::Rcf => Place::Single(0x98),
        Operation::Scf => Place::Single(0x99),
        Operation::Rim => Place::Single(0x9A),
        Operation::Sim => Place::Single(0x9B),
        Operation::Rsp => Place::Single(0x9C),
        Operation::Nop => Place::Single(0x9D),
        Operation::LdAFromS => Place::Single(0x9E),
        Operation::LdAFromIndex => Place::Single(0x9F),
    }
}

// The opcode of an instruction, if its operation has such a mode and its bit is 0 to 7. Not inlined, for the same reason.
#[inline(never)]
pub(crate) fn opcode(instruction: Instruction) -> Option<u8>
    ensures { result ≡ opcode_of instruction }
{
    Some(
        match (place_of(instruction.operation), instruction.operand) {
            (Place::Accesses(c), Operand::Immediate(_)) => 0xA0 + c,
            (Place::Accesses(c) | Place::Stores(c), Operand::Short(_) | Operand::ShortPointer(_)) =>
                0xB0 + c,
            (Place::Accesses(c) | Place::Stores(c), Operand::Long(_) | Operand::LongPointer(_)) =>
                0xC0 + c,
            (
                Place::Accesses(c) | Place::Stores(c),
                Operand::LongIndexed(_) | Operand::LongPointerIndexed(_),
            ) => 0xD0 + c,
            (
                Place::Accesses(c) | Place::Stores(c),
                Operand::ShortIndexed(_) | Operand::ShortPointerIndexed(_),
            ) => 0xE0 + c,
            (Place::Accesses(c) | Place::Stores(c), Operand::Indexed) => 0xF0 + c,
            (Place::Changes(c), Operand::Short(_) | Operand::ShortPointer(_)) => 0x30 + c,
            (Place::Changes(c), Operand::Accumulator) => 0x40 + c,
            (Place::Changes(c), Operand::IndexRegister) => 0x50 + c,
            (Place::Changes(c), Operand::ShortIndexed(_) | Operand::ShortPointerIndexed(_)) => 0x60
                + c,
            (Place::Changes(c), Operand::Indexed) => 0x70 + c,
            (Place::Single(opcode), Operand::Inherent) => opcode,
            (Place::Jump(opcode), Operand::Relative(_) | Operand::RelativePointer(_)) => opcode,
            (Place::BitWrite(first), Operand::Bit { bit, .. } | Operand::BitPointer { bit, .. })
                if bit < 8 => first + 2 * bit,
            (
                Place::BitJump(first),
                Operand::BitRelative { bit, .. } | Operand::BitPointerRelative { bit, .. },
            ) if bit < 8 => first + 2 * bit,
            _ => return None,
        },
    )
}
