// The regions of the address space, spans of addresses, and vectors.
#![tactic(auto)]

ghost use Rattle.std.specs.Prelude.{◌≡◌, Some};
ghost use Rattle.region.specs.Spans.{within, vector_address};
ghost use Rattle.region.specs.Texts.{region_text, span_text, vector_text};

use numerals::Hex4;
use std::fmt;

#[derive(Clone, Copy, PartialEq, Eq, Debug)]
pub enum Region {
    Window,
    Ram,
    Unmapped,
    Image,
}

impl Region {
    #[tactic(auto, unfolding(crate::specs::Texts::region_text))]
    pub fn name(self) -> &'static str
        ensures { result.now ≡ region_text self }
    {
        match self {
            Region::Window => "peripheral window",
            Region::Ram => "RAM",
            Region::Unmapped => "unmapped",
            Region::Image => "image",
        }
    }
}

impl fmt::Display for Region {
    ghost output = { λ x. Some (region_text x) };

    fn fmt<W: fmt::Write>(&self, f: &mut fmt::Formatter<W>) -> fmt::Result {
        write!(f, "{}", self.name())
    }
}

// Addresses from the first to the last.
#[derive(Clone, Copy, PartialEq, Eq, Debug)]
pub struct Span {
    pub first: u16,
    pub last: u16,
}

impl Span {
    pub fn contains(self, at: u16) -> bool
        ensures { result ≡ within self at }
    {
        (self.first..=self.last).contains(&at)
    }
}

#[tactic(auto, unfolding(crate::specs::Texts::span_text))]
impl fmt::Display for Span {
    ghost output = { λ x. Some (span_text x) };

    fn fmt<W: fmt::Write>(&self, f: &mut fmt::Formatter<W>) -> fmt::Result {
        write!(f, "{}-{}", Hex4(self.first), Hex4(self.last))
    }
}

// A word of the image that says where control goes: on a reset, a TRAP, or an interrupt of a source.
#[derive(Clone, Copy, PartialEq, Eq, Debug)]
pub enum Vector {
    Reset,
    Trap,
    Source(u8),
}

impl Vector {
    pub fn address(self) -> u16
        ensures { result ≡ vector_address self }
    {
        match self {
            Vector::Reset => 0xFFFE,
            Vector::Trap => 0xFFFC,
            Vector::Source(k) => 0xFFFA - 2 * u16::from(k),
        }
    }
}

#[tactic(auto, unfolding(crate::specs::Texts::vector_text))]
impl fmt::Display for Vector {
    ghost output = { λ x. Some (vector_text x) };

    fn fmt<W: fmt::Write>(&self, f: &mut fmt::Formatter<W>) -> fmt::Result {
        match *self {
            Vector::Reset => write!(f, "reset"),
            Vector::Trap => write!(f, "TRAP"),
            Vector::Source(k) => write!(f, "source {k}"),
        }
    }
}
