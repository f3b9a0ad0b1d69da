// Why a record is no description.
ghost use Rattle.std.specs.Prelude.{◌≡◌, Some};
ghost use Rattle.device.specs.Refusals.{number_of, detail_of};
ghost use Rattle.device.specs.Texts.{reason_text};

use refusal::{Detail, Numbered};
use std::error::Error;
use std::fmt;

// The first field of the record that is at fault.
#[derive(Clone, Copy, PartialEq, Eq, Debug)]
pub enum DescriptionRefusal {
    CodeStart,
    RamEnd,
    StackTop,
    Sources,
    LastByte,
    // the record goes on after its last field
    Length,
}

impl DescriptionRefusal {
    // What is wrong with the record.
    #[tactic(auto, unfolding(crate::specs::Texts::reason_text))]
    pub fn reason(self) -> &'static str
        ensures { result.now ≡ reason_text self }
    {
        match self {
            DescriptionRefusal::CodeStart => "code start missing, or not from C000 to FFC0",
            DescriptionRefusal::RamEnd => "RAM end missing, or not from 00FF to 07FF",
            DescriptionRefusal::StackTop =>
                "stack top missing, with a low bit that is 0, or its stack not in RAM",
            DescriptionRefusal::Sources => "number of sources missing, or above 8",
            DescriptionRefusal::LastByte => "last byte missing, or not 0",
            DescriptionRefusal::Length => "more than 8 bytes",
        }
    }
}

impl Numbered for DescriptionRefusal {
    ghost numbered = { number_of };

    ghost detailed = { detail_of };

    fn number(&self) -> u8 {
        4
    }

    fn detail(&self) -> Detail {
        Detail::Offset(match *self {
            DescriptionRefusal::CodeStart => 0,
            DescriptionRefusal::RamEnd => 2,
            DescriptionRefusal::StackTop => 4,
            DescriptionRefusal::Sources => 6,
            DescriptionRefusal::LastByte => 7,
            DescriptionRefusal::Length => 8,
        })
    }
}

impl fmt::Display for DescriptionRefusal {
    ghost output = { λ x. Some (reason_text x) };

    fn fmt<W: fmt::Write>(&self, f: &mut fmt::Formatter<W>) -> fmt::Result {
        write!(f, "{}", self.reason())
    }
}

impl Error for DescriptionRefusal {}
