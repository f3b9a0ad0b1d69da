// The numbered answers: what a call says where it is refused or stops, and the line that programs print of it.
#![tactic(auto)]

ghost use Rattle.std.specs.Prelude.{◌≡◌, ℕ, Some};
ghost use Rattle.refusal.specs.declared.Detail.{Detail};
ghost use Rattle.refusal.specs.Lines.{place_text, code_text, detail_text, line_text};

use numerals::{Dec2, Hex2, Hex4};
use std::fmt;

// A code that is no instruction: the opcode, with the prebyte before it if there was one. Both are bytes, told as they were read.
#[derive(Clone, Copy, PartialEq, Eq, Debug)]
pub struct VoidCode {
    pub prebyte: Option<u8>,
    pub opcode: u8,
}

// Where an image has a fault: its address, and the entry of the routine that has it.
#[derive(Clone, Copy, PartialEq, Eq, Debug)]
pub struct Place {
    pub address: u16,
    pub entry: u16,
}

// What goes with a number, as plain numbers. `Nothing` is a case among the others, and no `None` around them: so one `Display` writes every detail.
#[derive(Clone, Copy, PartialEq, Eq, Debug)]
pub enum Detail {
    Nothing,
    // where a record's field begins
    Offset(u8),
    // which record of a script
    Index(u16),
    Void(VoidCode),
    At(Place),
    VoidAt(VoidCode, Place),
}

// A refusal, by its number and its detail. Contracts speak of these two. The cases are enums; the number is the plain one that
// programs print.
pub trait Numbered {
    ghost numbered: { Self → ℕ };

    ghost detailed: { Self → Detail };

    fn number(&self) -> u8
        ensures { result ≡ numbered self.now };

    fn detail(&self) -> Detail
        ensures { result ≡ detailed self.now };
}

// The line of a refusal, as `NO 04 at 2`, without its end.
#[derive(Clone, Copy, PartialEq, Eq, Debug)]
pub struct Line {
    pub number: u8,
    pub detail: Detail,
}

impl<E: Numbered> From<&E> for Line {
    ghost from_gives = { λ refusal line. (line.number ≡ E.Numbered.numbered refusal.now) × (line.detail ≡ E.Numbered.detailed refusal.now) };

    fn from(refusal: &E) -> Line {
        Line {
            number: refusal.number(),
            detail: refusal.detail(),
        }
    }
}

impl fmt::Display for VoidCode {
    ghost output = { λ c. Some (code_text c) };

    fn fmt<W: fmt::Write>(&self, f: &mut fmt::Formatter<W>) -> fmt::Result {
        let opcode = Hex2(self.opcode);
        match self.prebyte {
            Some(p) => write!(f, "{} {opcode}", Hex2(p)),
            None => write!(f, "{opcode}"),
        }
    }
}

impl fmt::Display for Place {
    ghost output = { λ p. Some (place_text p) };

    fn fmt<W: fmt::Write>(&self, f: &mut fmt::Formatter<W>) -> fmt::Result {
        write!(f, "{} in {}", Hex4(self.address), Hex4(self.entry))
    }
}

impl fmt::Display for Detail {
    ghost output = { λ d. Some (detail_text d) };

    fn fmt<W: fmt::Write>(&self, f: &mut fmt::Formatter<W>) -> fmt::Result {
        match *self {
            Detail::Nothing => Ok(()),
            Detail::Offset(offset) => write!(f, " at {offset}"),
            Detail::Index(index) => write!(f, " at {index}"),
            Detail::Void(code) => write!(f, " code {code}"),
            Detail::At(place) | Detail::VoidAt(_, place) => write!(f, " at {place}"),
        }
    }
}

#[tactic(auto, unfolding(crate::specs::Lines::line_text))]
impl fmt::Display for Line {
    ghost output = { λ l. Some (line_text l.number l.detail) };

    fn fmt<W: fmt::Write>(&self, f: &mut fmt::Formatter<W>) -> fmt::Result {
        let number = Dec2(self.number);
        let detail = self.detail;
        write!(f, "NO {number}{detail}")
    }
}
