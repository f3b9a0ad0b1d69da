// Prebytes: bytes that stand before an opcode and change what it stands for.
ghost use Rattle.std.specs.Prelude.{◌≡◌};
ghost use Rattle.instruction.specs.Prebytes.{byte_of, prebyte_at, index_of, has_pointer, cycles_added};

use crate::mode::Index;

// Without a prebyte the index register is X, and the operand itself stands behind the opcode.
#[derive(Clone, Copy, PartialEq, Eq, Debug)]
pub enum Prebyte {
    // $90: Y in the place of X
    Y,
    // $91: Y in the place of X, and a pointer in the place of the operand
    PointerY,
    // $92: a pointer in the place of the operand
    Pointer,
}

impl From<Prebyte> for u8 {
    ghost from_gives = { λ prebyte byte. byte ≡ byte_of prebyte };

    fn from(prebyte: Prebyte) -> u8 {
        match prebyte {
            Prebyte::Y => 0x90,
            Prebyte::PointerY => 0x91,
            Prebyte::Pointer => 0x92,
        }
    }
}

impl Prebyte {
    // The prebyte that a byte is. Any other byte is an opcode, and no refusal: so an `Option`, and no `TryFrom`.
    pub fn from_byte(byte: u8) -> Option<Prebyte>
        ensures { result ≡ prebyte_at byte }
    {
        match byte {
            0x90 => Some(Prebyte::Y),
            0x91 => Some(Prebyte::PointerY),
            0x92 => Some(Prebyte::Pointer),
            _ => None,
        }
    }

    // The index register behind it.
    pub fn index(self) -> Index
        ensures { result ≡ index_of self }
    {
        match self {
            Prebyte::Y | Prebyte::PointerY => Index::Y,
            Prebyte::Pointer => Index::X,
        }
    }

    // Whether a pointer stands in the place of the operand behind it.
    pub fn is_indirect(self) -> bool
        ensures { result ≡ has_pointer self }
    {
        match self {
            Prebyte::Y => false,
            Prebyte::PointerY | Prebyte::Pointer => true,
        }
    }

    // The cycles that it adds.
    pub fn cycles(self) -> u8
        ensures { result ≡ cycles_added self }
    {
        match self {
            Prebyte::Y => 1,
            Prebyte::PointerY | Prebyte::Pointer => 2,
        }
    }
}
