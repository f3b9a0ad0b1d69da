// The memory map of a part, as lines of text.
#![tactic(auto)]

ghost use Rattle.std.specs.Prelude.{◌≡◌, Some};
ghost use Rattle.memory_map.specs.Maps.{region_lines, part_lines, map_text};
ghost use Rattle.device.specs.Map.{region_span};
ghost use Rattle.region.specs.Texts.{region_text};
ghost use Rattle.device.specs.Record.{Read};
ghost use Rattle.memory_map.specs.Reports.{report_text};

use crate::lines::{NumberLine, SourceLines, SpanLine, VectorLine};
use device::{Description, DescriptionRefusal};
use refusal::Line;
use region::{Region, Vector};
use std::fmt;

mod lines;

// The four regions, in the order of their addresses.
#[derive(Clone, Copy)]
struct RegionLines(Description);

impl RegionLines {
    fn line(&self, region: Region) -> SpanLine<'static>
        ensures span { result.span ≡ region_span self.now.0 region }
        ensures label { result.label.now ≡ region_text region }
    {
        SpanLine {
            span: self.0.span(region),
            label: region.name(),
        }
    }
}

#[tactic(auto, unfolding(crate::specs::Maps::region_lines))]
impl fmt::Display for RegionLines {
    ghost output = { λ x. Some (region_lines x.0) };

    fn fmt<W: fmt::Write>(&self, f: &mut fmt::Formatter<W>) -> fmt::Result {
        let window = self.line(Region::Window);
        let ram = self.line(Region::Ram);
        let unmapped = self.line(Region::Unmapped);
        let image = self.line(Region::Image);
        write!(f, "{window}{ram}{unmapped}{image}")
    }
}

// The stack, how many bytes it has, the code region, and how many bytes an image has.
#[derive(Clone, Copy)]
struct PartLines(Description);

#[tactic(auto, unfolding(crate::specs::Maps::part_lines))]
impl fmt::Display for PartLines {
    ghost output = { λ x. Some (part_lines x.0) };

    fn fmt<W: fmt::Write>(&self, f: &mut fmt::Formatter<W>) -> fmt::Result {
        let stack = SpanLine {
            span: self.0.stack(),
            label: "stack",
        };
        let levels = NumberLine {
            number: self.0.levels(),
            label: "stack levels",
        };
        let code = SpanLine {
            span: self.0.code_region(),
            label: "code region",
        };
        let length = NumberLine {
            // by `as`, and not `try_from`: a u16 holds the length of every image, so there is nothing to refuse
            number: self.0.image_length() as u16,
            label: "image length",
        };
        write!(f, "{stack}{levels}{code}{length}")
    }
}

// Everything that a description says of addresses, a line each.
#[derive(Clone, Copy)]
pub struct MemoryMap(pub Description);

#[tactic(auto, unfolding(crate::specs::Maps::map_text))]
impl fmt::Display for MemoryMap {
    ghost output = { λ x. Some (map_text x.0) };

    fn fmt<W: fmt::Write>(&self, f: &mut fmt::Formatter<W>) -> fmt::Result {
        let regions = RegionLines(self.0);
        let parts = PartLines(self.0);
        let reset = VectorLine(Vector::Reset);
        let trap = VectorLine(Vector::Trap);
        let sources = SourceLines(self.0.sources());
        write!(f, "{regions}{parts}{reset}{trap}{sources}")
    }
}

// What is printed of a record: the map of the description in it, or the line of its refusal.
#[derive(Clone, Copy)]
pub struct Report(pub Result<Description, DescriptionRefusal>);

impl From<&[u8]> for Report {
    ghost from_gives = { λ bytes report. Read bytes.now report.0 };

    fn from(bytes: &[u8]) -> Report {
        Report(Description::try_from(bytes))
    }
}

impl fmt::Display for Report {
    ghost output = { λ x. Some (report_text x.0) };

    fn fmt<W: fmt::Write>(&self, f: &mut fmt::Formatter<W>) -> fmt::Result {
        match self.0 {
            Ok(description) => write!(f, "{}", MemoryMap(description)),
            Err(refusal) => write!(f, "{}\n", Line::from(&refusal)),
        }
    }
}
