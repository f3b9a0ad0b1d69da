// Lengths and cycles as constant rows: a row for each operation, a column for each mode, in the order of the two enums. A
// number is that of the opcode without a prebyte, and 0, no `None`, stands where the operation has no such mode: so a row is
// read at a glance beside others, and whoever has decoded an instruction, which has a mode of its operation, asks for no
// `Option`. Two tables, and no row of both: an indirect mode has a length of its own, and takes the cycles of its direct mode.
ghost use Rattle.std.specs.Prelude.{◌≡◌};
ghost use Rattle.instruction.specs.Order.{mode_number};
ghost use Rattle.instruction.specs.Rows.{row_length, row_cycles};

use crate::mode::Mode;
use operation::Operation;

// The modes, and those that have cycles of their own: all without a pointer.
const MODES: usize = 19;

const DIRECT: usize = 12;

const READING: [u8; DIRECT] = [0, 0, 0, 2, 3, 4, 3, 4, 5, 0, 0, 0];

const STORING: [u8; DIRECT] = [0, 0, 0, 0, 4, 5, 4, 5, 6, 0, 0, 0];

const JUMPING: [u8; DIRECT] = [0, 0, 0, 0, 2, 3, 2, 3, 4, 0, 0, 0];

const CALLING: [u8; DIRECT] = [0, 0, 0, 0, 5, 6, 5, 6, 7, 0, 0, 0];

const CHANGING: [u8; DIRECT] = [0, 3, 3, 0, 5, 0, 5, 6, 0, 0, 0, 0];

const TESTING: [u8; DIRECT] = [0, 3, 3, 0, 4, 0, 4, 5, 0, 0, 0, 0];

// A constant's value calls no function, so each number of cycles has a row of its own.
const INHERENT_2: [u8; DIRECT] = [2, 0, 0, 0, 0, 0, 0, 0, 0, 0, 0, 0];

const INHERENT_3: [u8; DIRECT] = [3, 0, 0, 0, 0, 0, 0, 0, 0, 0, 0, 0];

const INHERENT_4: [u8; DIRECT] = [4, 0, 0, 0, 0, 0, 0, 0, 0, 0, 0, 0];

const INHERENT_6: [u8; DIRECT] = [6, 0, 0, 0, 0, 0, 0, 0, 0, 0, 0, 0];

const INHERENT_9: [u8; DIRECT] = [9, 0, 0, 0, 0, 0, 0, 0, 0, 0, 0, 0];

const INHERENT_10: [u8; DIRECT] = [10, 0, 0, 0, 0, 0, 0, 0, 0, 0, 0, 0];

const INHERENT_11: [u8; DIRECT] = [11, 0, 0, 0, 0, 0, 0, 0, 0, 0, 0, 0];

const RELATIVE_3: [u8; DIRECT] = [0, 0, 0, 0, 0, 0, 0, 0, 0, 3, 0, 0];

const RELATIVE_6: [u8; DIRECT] = [0, 0, 0, 0, 0, 0, 0, 0, 0, 6, 0, 0];

const BIT: [u8; DIRECT] = [0, 0, 0, 0, 0, 0, 0, 0, 0, 0, 5, 0];

const BIT_RELATIVE: [u8; DIRECT] = [0, 0, 0, 0, 0, 0, 0, 0, 0, 0, 0, 5];

static CYCLES: [[u8; DIRECT]; Operation::COUNT] = [
    READING, // Sub
    READING, // Cp
    READING, // Sbc
    READING, // CpIndex
    READING, // And
    READING, // Bcp
    READING, // Ld
    STORING, // St
    READING, // Xor
    READING, // Adc
    READING, // Or
    READING, // Add
    JUMPING, // Jp
    CALLING, // Call
    READING, // LdIndex
    STORING, // StIndex
    RELATIVE_6, // Callr
    CHANGING, // Neg
    CHANGING, // Cpl
    CHANGING, // Srl
    CHANGING, // Rrc
    CHANGING, // Sra
    CHANGING, // Sll
    CHANGING, // Rlc
    CHANGING, // Dec
    CHANGING, // Inc
    TESTING, // Tnz
    CHANGING, // Swap
    CHANGING, // Clr
    INHERENT_11, // Mul
    RELATIVE_3, // Jra
    RELATIVE_3, // Jrf
    RELATIVE_3, // Jrugt
    RELATIVE_3, // Jrule
    RELATIVE_3, // Jrnc
    RELATIVE_3, // Jrc
    RELATIVE_3, // Jrne
    RELATIVE_3, // Jreq
    RELATIVE_3, // Jrnh
    RELATIVE_3, // Jrh
    RELATIVE_3, // Jrpl
    RELATIVE_3, // Jrmi
    RELATIVE_3, // Jrnm
    RELATIVE_3, // Jrm
    RELATIVE_3, // Jril
    RELATIVE_3, // Jrih
    BIT_RELATIVE, // Btjt
    BIT_RELATIVE, // Btjf
    BIT, // Bset
    BIT, // Bres
    INHERENT_9, // Iret
    INHERENT_6, // Ret
    INHERENT_10, // Trap
    INHERENT_4, // PopA
    INHERENT_4, // PopIndex
    INHERENT_4, // PopCc
    INHERENT_3, // PushA
    INHERENT_3, // PushIndex
    INHERENT_3, // PushCc
    INHERENT_2, // Halt
    INHERENT_2, // Wfi
    INHERENT_2, // LdIndexFromOther
    INHERENT_2, // LdSFromIndex
    INHERENT_2, // LdSFromA
    INHERENT_2, // LdIndexFromS
    INHERENT_2, // LdIndexFromA
    INHERENT_2, // Rcf
    INHERENT_2, // Scf
    INHERENT_2, // Rim
    INHERENT_2, // Sim
    INHERENT_2, // Rsp
    INHERENT_2, // Nop
    INHERENT_2, // LdAFromS
    INHERENT_2, // LdAFromIndex
];

const READING_LENGTHS: [u8; MODES] = [0, 0, 0, 2, 2, 3, 1, 2, 3, 0, 0, 0, 2, 2, 2, 2, 0, 0, 0];

const STORING_LENGTHS: [u8; MODES] = [0, 0, 0, 0, 2, 3, 1, 2, 3, 0, 0, 0, 2, 2, 2, 2, 0, 0, 0];

const CHANGING_LENGTHS: [u8; MODES] = [0, 1, 1, 0, 2, 0, 1, 2, 0, 0, 0, 0, 2, 0, 2, 0, 0, 0, 0];

const INHERENT_LENGTHS: [u8; MODES] = [1, 0, 0, 0, 0, 0, 0, 0, 0, 0, 0, 0, 0, 0, 0, 0, 0, 0, 0];

const RELATIVE_LENGTHS: [u8; MODES] = [0, 0, 0, 0, 0, 0, 0, 0, 0, 2, 0, 0, 0, 0, 0, 0, 2, 0, 0];

const BIT_LENGTHS: [u8; MODES] = [0, 0, 0, 0, 0, 0, 0, 0, 0, 0, 2, 0, 0, 0, 0, 0, 0, 2, 0];

const BIT_RELATIVE_LENGTHS: [u8; MODES] = [0, 0, 0, 0, 0, 0, 0, 0, 0, 0, 0, 3, 0, 0, 0, 0, 0, 0, 3];

static LENGTHS: [[u8; MODES]; Operation::COUNT] = [
    READING_LENGTHS, // Sub
    READING_LENGTHS, // Cp
    READING_LENGTHS, // Sbc
    READING_LENGTHS, // CpIndex
    READING_LENGTHS, // And
    READING_LENGTHS, // Bcp
    READING_LENGTHS, // Ld
    STORING_LENGTHS, // St
    READING_LENGTHS, // Xor
    READING_LENGTHS, // Adc
    READING_LENGTHS, // Or
    READING_LENGTHS, // Add
    STORING_LENGTHS, // Jp
    STORING_LENGTHS, // Call
    READING_LENGTHS, // LdIndex
    STORING_LENGTHS, // StIndex
    RELATIVE_LENGTHS, // Callr
    CHANGING_LENGTHS, // Neg
    CHANGING_LENGTHS, // Cpl
    CHANGING_LENGTHS, // Srl
    CHANGING_LENGTHS, // Rrc
    CHANGING_LENGTHS, // Sra
    CHANGING_LENGTHS, // Sll
    CHANGING_LENGTHS, // Rlc
    CHANGING_LENGTHS, // Dec
    CHANGING_LENGTHS, // Inc
    CHANGING_LENGTHS, // Tnz
    CHANGING_LENGTHS, // Swap
    CHANGING_LENGTHS, // Clr
    INHERENT_LENGTHS, // Mul
    RELATIVE_LENGTHS, // Jra
    RELATIVE_LENGTHS, // Jrf
    RELATIVE_LENGTHS, // Jrugt
    RELATIVE_LENGTHS, // Jrule
    RELATIVE_LENGTHS, // Jrnc
    RELATIVE_LENGTHS, // Jrc
    RELATIVE_LENGTHS, // Jrne
    RELATIVE_LENGTHS, // Jreq
    RELATIVE_LENGTHS, // Jrnh
    RELATIVE_LENGTHS, // Jrh
    RELATIVE_LENGTHS, // Jrpl
    RELATIVE_LENGTHS, // Jrmi
    RELATIVE_LENGTHS, // Jrnm
    RELATIVE_LENGTHS, // Jrm
    RELATIVE_LENGTHS, // Jril
    RELATIVE_LENGTHS, // Jrih
    BIT_RELATIVE_LENGTHS, // Btjt
    BIT_RELATIVE_LENGTHS, // Btjf
    BIT_LENGTHS, // Bset
    BIT_LENGTHS, // Bres
    INHERENT_LENGTHS, // Iret
    INHERENT_LENGTHS, // Ret
    INHERENT_LENGTHS, // Trap
    INHERENT_LENGTHS, // PopA
    INHERENT_LENGTHS, // PopIndex
    INHERENT_LENGTHS, // PopCc
    INHERENT_LENGTHS, // PushA
    INHERENT_LENGTHS, // PushIndex
    INHERENT_LENGTHS, // PushCc
    INHERENT_LENGTHS, // Halt
    INHERENT_LENGTHS, // Wfi
    INHERENT_LENGTHS, // LdIndexFromOther
    INHERENT_LENGTHS, // LdSFromIndex
    INHERENT_LENGTHS, // LdSFromA
    INHERENT_LENGTHS, // LdIndexFromS
    INHERENT_LENGTHS, // LdIndexFromA
    INHERENT_LENGTHS, // Rcf
    INHERENT_LENGTHS, // Scf
    INHERENT_LENGTHS, // Rim
    INHERENT_LENGTHS, // Sim
    INHERENT_LENGTHS, // Rsp
    INHERENT_LENGTHS, // Nop
    INHERENT_LENGTHS, // LdAFromS
    INHERENT_LENGTHS, // LdAFromIndex
];

impl Mode {
    fn column(self) -> usize
        ensures { result ≡ mode_number self }
    {
        // a mode is a number by `as` alone
        self as usize
    }

    // The cycles of an operation in a direct mode, where no prebyte stands; 0 in an indirect one: its direct mode has them.
    pub fn cycles(self, operation: Operation) -> u8
        ensures { result ≡ row_cycles operation self }
    {
        CYCLES[operation.number()]
            .get(self.column())
            .copied()
            .unwrap_or(0)
    }

    // The bytes of an operation's opcode and operand in the mode.
    pub fn length(self, operation: Operation) -> u8
        ensures { result ≡ row_length operation self }
    {
        LENGTHS[operation.number()][self.column()]
    }
}
