// Addressing modes and index registers.
ghost use Rattle.std.specs.Prelude.{◌≡◌};
ghost use Rattle.instruction.specs.Indexes.{is_indexed};
ghost use Rattle.instruction.specs.Modes.{indirect_of, direct_of, is_indirect, operand_bytes};

// How an instruction's operand is found. In the last seven a pointer in memory stands in for the operand's address or
// offset: they are the indirect modes.
#[derive(Clone, Copy, PartialEq, Eq, Debug)]
pub enum Mode {
    Inherent,
    Accumulator,
    IndexRegister,
    Immediate,
    Short,
    Long,
    Indexed,
    ShortIndexed,
    LongIndexed,
    Relative,
    Bit,
    BitRelative,
    ShortPointer,
    LongPointer,
    ShortPointerIndexed,
    LongPointerIndexed,
    RelativePointer,
    BitPointer,
    BitPointerRelative,
}

// The index register that an instruction names.
#[derive(Clone, Copy, PartialEq, Eq, Debug)]
pub enum Index {
    X,
    Y,
}

impl Mode {
    // The mode in which a pointer stands in for this one's operand.
    pub fn indirect(self) -> Option<Mode>
        ensures { result ≡ indirect_of self }
    {
        match self {
            Mode::Short => Some(Mode::ShortPointer),
            Mode::Long => Some(Mode::LongPointer),
            Mode::ShortIndexed => Some(Mode::ShortPointerIndexed),
            Mode::LongIndexed => Some(Mode::LongPointerIndexed),
            Mode::Relative => Some(Mode::RelativePointer),
            Mode::Bit => Some(Mode::BitPointer),
            Mode::BitRelative => Some(Mode::BitPointerRelative),
            _ => None,
        }
    }

    // The mode whose operand a pointer stands in for; a mode without a pointer is its own.
    pub fn direct(self) -> Mode
        ensures { result ≡ direct_of self }
    {
        match self {
            Mode::ShortPointer => Mode::Short,
            Mode::LongPointer => Mode::Long,
            Mode::ShortPointerIndexed => Mode::ShortIndexed,
            Mode::LongPointerIndexed => Mode::LongIndexed,
            Mode::RelativePointer => Mode::Relative,
            Mode::BitPointer => Mode::Bit,
            Mode::BitPointerRelative => Mode::BitRelative,
            other => other,
        }
    }

    // Whether a pointer stands in for the operand.
    pub fn is_indirect(self) -> bool
        ensures { result ≡ is_indirect self }
    {
        matches!(
            self,
            Mode::ShortPointer
                | Mode::LongPointer
                | Mode::ShortPointerIndexed
                | Mode::LongPointerIndexed
                | Mode::RelativePointer
                | Mode::BitPointer
                | Mode::BitPointerRelative
        )
    }

    // Whether the operand is found by an index register, or in one.
    pub fn is_indexed(self) -> bool
        ensures { result ≡ is_indexed self }
    {
        matches!(
            self,
            Mode::LongPointerIndexed
                | Mode::ShortPointerIndexed
                | Mode::LongIndexed
                | Mode::ShortIndexed
                | Mode::Indexed
                | Mode::IndexRegister
        )
    }

    // How many bytes follow the opcode.
    pub fn operand_bytes(self) -> usize
        ensures { result ≡ operand_bytes self }
    {
        match self {
            Mode::Inherent | Mode::Accumulator | Mode::IndexRegister | Mode::Indexed => 0,
            Mode::Long | Mode::LongIndexed | Mode::BitRelative | Mode::BitPointerRelative => 2,
            _ => 1,
        }
    }
}
