// Why a value is not encoded.
ghost use Rattle.std.specs.Prelude.{Some};
ghost use Rattle.encode.specs.Refusals.{refusal_number, refusal_detail, refusal_text};

use refusal::{Detail, Numbered};
use std::error::Error;
use std::fmt;

#[derive(Clone, Copy, PartialEq, Eq, Debug)]
pub enum EncodeRefusal {
    // the value is no instruction of the ST7
    NoInstruction,
    // the buffer is shorter than the instruction's bytes
    ShortBuffer,
}

impl Numbered for EncodeRefusal {
    ghost numbered = { refusal_number };

    ghost detailed = { refusal_detail };

    fn number(&self) -> u8 {
        match *self {
            EncodeRefusal::NoInstruction => 10,
            EncodeRefusal::ShortBuffer => 11,
        }
    }

    fn detail(&self) -> Detail {
        Detail::Nothing
    }
}

impl fmt::Display for EncodeRefusal {
    ghost output = { λ x. Some (refusal_text x) };

    fn fmt<W: fmt::Write>(&self, f: &mut fmt::Formatter<W>) -> fmt::Result {
        match *self {
            EncodeRefusal::NoInstruction => write!(f, "no instruction"),
            EncodeRefusal::ShortBuffer => write!(f, "buffer too short"),
        }
    }
}

impl Error for EncodeRefusal {}
