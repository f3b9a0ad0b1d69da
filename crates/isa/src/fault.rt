// Why bytes are no instruction.
ghost use Rattle.std.specs.Prelude.{Some};
ghost use Rattle.isa.specs.Faults.{fault_number, fault_detail, fault_text};

use refusal::{Detail, Numbered, VoidCode};
use std::error::Error;
use std::fmt;

#[derive(Clone, Copy, PartialEq, Eq, Debug)]
pub enum DecodeFault {
    // no instruction has this code
    Void(VoidCode),
    // a byte that is needed lies past the slice
    Outside,
}

impl Numbered for DecodeFault {
    ghost numbered = { fault_number };

    ghost detailed = { fault_detail };

    fn number(&self) -> u8 {
        match *self {
            DecodeFault::Void(_) => 1,
            DecodeFault::Outside => 2,
        }
    }

    fn detail(&self) -> Detail {
        match *self {
            DecodeFault::Void(code) => Detail::Void(code),
            DecodeFault::Outside => Detail::Nothing,
        }
    }
}

impl fmt::Display for DecodeFault {
    ghost output = { λ x. Some (fault_text x) };

    fn fmt<W: fmt::Write>(&self, f: &mut fmt::Formatter<W>) -> fmt::Result {
        match *self {
            DecodeFault::Void(code) => write!(f, "void code {code}"),
            DecodeFault::Outside => write!(f, "byte missing"),
        }
    }
}

impl Error for DecodeFault {}
