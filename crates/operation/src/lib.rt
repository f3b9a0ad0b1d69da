// The operations of the ST7.
#![tactic(auto)]

ghost use Rattle.std.specs.Prelude.{◌≡◌};
ghost use Rattle.operation.specs.Indexes.{uses_index};
ghost use Rattle.operation.specs.Mnemonics.{mnemonic_text};
ghost use Rattle.operation.specs.Order.{operation_number};

// What an instruction does. Names are those of the mnemonics; where one mnemonic works on several registers, the
// register is part of the name, and `Index` stands for X, or for Y behind a prebyte that puts Y for X.
#[derive(Clone, Copy, PartialEq, Eq, Debug)]
pub enum Operation {
    Sub,
    Cp,
    Sbc,
    CpIndex,
    And,
    Bcp,
    Ld,
    St,
    Xor,
    Adc,
    Or,
    Add,
    Jp,
    Call,
    LdIndex,
    StIndex,
    Callr,
    Neg,
    Cpl,
    Srl,
    Rrc,
    Sra,
    Sll,
    Rlc,
    Dec,
    Inc,
    Tnz,
    Swap,
    Clr,
    Mul,
    Jra,
    Jrf,
    Jrugt,
    Jrule,
    Jrnc,
    Jrc,
    Jrne,
    Jreq,
    Jrnh,
    Jrh,
    Jrpl,
    Jrmi,
    Jrnm,
    Jrm,
    Jril,
    Jrih,
    Btjt,
    Btjf,
    Bset,
    Bres,
    Iret,
    Ret,
    Trap,
    PopA,
    PopIndex,
    PopCc,
    PushA,
    PushIndex,
    PushCc,
    Halt,
    Wfi,
    LdIndexFromOther,
    LdSFromIndex,
    LdSFromA,
    LdIndexFromS,
    LdIndexFromA,
    Rcf,
    Scf,
    Rim,
    Sim,
    Rsp,
    Nop,
    LdAFromS,
    LdAFromIndex,
}

impl Operation {
    // How many there are.
    pub const COUNT: usize = 74;

    // Its place in the order of all operations.
    pub fn number(self) -> usize
        ensures { result ≡ operation_number self }
    {
        // an operation is a number by `as` alone
        self as usize
    }

    // Whether it works on an index register itself.
    pub fn uses_index(self) -> bool
        ensures { result ≡ uses_index self }
    {
        matches!(
            self,
            Operation::CpIndex
                | Operation::LdIndex
                | Operation::StIndex
                | Operation::Mul
                | Operation::PopIndex
                | Operation::PushIndex
                | Operation::LdIndexFromOther
                | Operation::LdSFromIndex
                | Operation::LdIndexFromS
                | Operation::LdIndexFromA
                | Operation::LdAFromIndex
        )
    }

    // The operation's name in an assembler's text. Where several are in use for one code, this one is used: JRA (also JRT), JRC
    // (JRULT), JRNC (JRUGE), SLL (SLA).
    pub fn mnemonic(self) -> &'static str
        ensures { result.now ≡ mnemonic_text self }
    {
        match self {
            Operation::Sub => "SUB",
            Operation::Cp => "CP",
            Operation::Sbc => "SBC",
            Operation::CpIndex => "CP",
            Operation::And => "AND",
            Operation::Bcp => "BCP",
            Operation::Ld => "LD",
            Operation::St => "LD",
            Operation::Xor => "XOR",
            Operation::Adc => "ADC",
            Operation::Or => "OR",
            Operation::Add => "ADD",
            Operation::Jp => "JP",
            Operation::Call => "CALL",
            Operation::LdIndex => "LD",
            Operation::StIndex => "LD",
            Operation::Callr => "CALLR",
            Operation::Neg => "NEG",
            Operation::Cpl => "CPL",
            Operation::Srl => "SRL",
            Operation::Rrc => "RRC",
            Operation::Sra => "SRA",
            Operation::Sll => "SLL",
            Operation::Rlc => "RLC",
            Operation::Dec => "DEC",
            Operation::Inc => "INC",
            Operation::Tnz => "TNZ",
            Operation::Swap => "SWAP",
            Operation::Clr => "CLR",
            Operation::Mul => "MUL",
            Operation::Jra => "JRA",
            Operation::Jrf => "JRF",
            Operation::Jrugt => "JRUGT",
            Operation::Jrule => "JRULE",
            Operation::Jrnc => "JRNC",
            Operation::Jrc => "JRC",
            Operation::Jrne => "JRNE",
            Operation::Jreq => "JREQ",
            Operation::Jrnh => "JRNH",
            Operation::Jrh => "JRH",
            Operation::Jrpl => "JRPL",
            Operation::Jrmi => "JRMI",
            Operation::Jrnm => "JRNM",
            Operation::Jrm => "JRM",
            Operation::Jril => "JRIL",
            Operation::Jrih => "JRIH",
            Operation::Btjt => "BTJT",
            Operation::Btjf => "BTJF",
            Operation::Bset => "BSET",
            Operation::Bres => "BRES",
            Operation::Iret => "IRET",
            Operation::Ret => "RET",
            Operation::Trap => "TRAP",
            Operation::PopA => "POP",
            Operation::PopIndex => "POP",
            Operation::PopCc => "POP",
            Operation::PushA => "PUSH",
            Operation::PushIndex => "PUSH",
            Operation::PushCc => "PUSH",
            Operation::Halt => "HALT",
            Operation::Wfi => "WFI",
            Operation::LdIndexFromOther => "LD",
            Operation::LdSFromIndex => "LD",
            Operation::LdSFromA => "LD",
            Operation::LdIndexFromS => "LD",
            Operation::LdIndexFromA => "LD",
            Operation::Rcf => "RCF",
            Operation::Scf => "SCF",
            Operation::Rim => "RIM",
            Operation::Sim => "SIM",
            Operation::Rsp => "RSP",
            Operation::Nop => "NOP",
            Operation::LdAFromS => "LD",
            Operation::LdAFromIndex => "LD",
        }
    }
}
