// The lines of a memory map, each with its end.
// Three types: their texts differ in what stands before and behind the label; a generic one would need both as parameters.
ghost use Rattle.std.specs.Prelude.{Some};
ghost use Rattle.memory_map.specs.Maps.{span_line, number_line, vector_line, source_lines};

use numerals::Hex4;
use region::{Span, Vector};
use std::fmt;

// Addresses, and what lies there.
#[derive(Clone, Copy)]
pub struct SpanLine<'a> {
    pub span: Span,
    pub label: &'a str,
}

#[tactic(auto, unfolding(crate::specs::Maps::span_line))]
impl fmt::Display for SpanLine<'_> {
    ghost output = { λ x. Some (span_line x.span x.label.now) };

    fn fmt<W: fmt::Write>(&self, f: &mut fmt::Formatter<W>) -> fmt::Result {
        write!(f, "{}  {}\n", self.span, self.label)
    }
}

// One number, and what it is.
#[derive(Clone, Copy)]
pub struct NumberLine<'a> {
    pub number: u16,
    pub label: &'a str,
}

#[tactic(auto, unfolding(crate::specs::Maps::number_line))]
impl fmt::Display for NumberLine<'_> {
    ghost output = { λ x. Some (number_line x.number x.label.now) };

    fn fmt<W: fmt::Write>(&self, f: &mut fmt::Formatter<W>) -> fmt::Result {
        write!(f, "     {}  {}\n", Hex4(self.number), self.label)
    }
}

// A vector's address, and whose it is.
#[derive(Clone, Copy)]
pub struct VectorLine(pub Vector);

#[tactic(auto, unfolding(crate::specs::Maps::vector_line))]
impl fmt::Display for VectorLine {
    ghost output = { λ x. Some (vector_line x.0) };

    fn fmt<W: fmt::Write>(&self, f: &mut fmt::Formatter<W>) -> fmt::Result {
        write!(f, "     {}  {} vector\n", Hex4(self.0.address()), self.0)
    }
}

// The vectors of the sources below a number, the lowest first.
#[derive(Clone, Copy)]
pub struct SourceLines(pub u8);

impl fmt::Display for SourceLines {
    ghost output = { λ x. Some (source_lines x.0) };

    fn fmt<W: fmt::Write>(&self, f: &mut fmt::Formatter<W>) -> fmt::Result {
        for k in 0..self.0 {
            write!(f, "{}", VectorLine(Vector::Source(k)))?;
        }
        Ok(())
    }
}
