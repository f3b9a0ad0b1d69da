// The memory map that a description stands for.
ghost use Rattle.std.specs.Prelude.{◌≡◌, IsTrue};
ghost use Rattle.region.specs.Spans.{within, Inside};
ghost use Rattle.region.specs.declared.Region.TheVariants.{Image};
ghost use Rattle.device.specs.Map.{region_span, region_of, Partition, code_span, stack_span, image_length, has_vector, StackFits, VectorFits};

use crate::description::Description;
use region::{Region, Span, Vector};

impl Description {
    // The region that an address lies in: one of four, which share no address and leave none out.
    pub fn region(&self, at: u16) -> Region
        ensures value { result ≡ region_of self.now at }
        ensures partition { Partition self.now }
    {
        if at < 0x0080 {
            Region::Window
        } else if at <= self.ram_end {
            Region::Ram
        } else if self.code_start <= at {
            Region::Image
        } else {
            Region::Unmapped
        }
    }

    // The addresses of a region.
    pub fn span(&self, region: Region) -> Span
        ensures { result ≡ region_span self.now region }
    {
        let (first, last) = match region {
            Region::Window => (0x0000, 0x007F),
            Region::Ram => (0x0080, self.ram_end),
            Region::Unmapped => (self.ram_end + 1, self.code_start - 1),
            Region::Image => (self.code_start, 0xFFFF),
        };
        Span { first, last }
    }

    // Where instructions may stand.
    pub fn code_region(&self) -> Span
        ensures value { result ≡ code_span self.now }
        ensures fits { Inside result (region_span self.now Image) }
    {
        Span {
            first: self.code_start,
            last: 0xFFDF,
        }
    }

    pub fn in_code_region(&self, at: u16) -> bool
        ensures { result ≡ within (code_span self.now) at }
    {
        self.code_region().contains(at)
    }

    pub fn stack(&self) -> Span
        ensures value { result ≡ stack_span self.now }
        ensures fits { StackFits self.now result }
    {
        Span {
            first: self.stack_top - (self.levels - 1),
            last: self.stack_top,
        }
    }

    pub fn in_stack(&self, at: u16) -> bool
        ensures { result ≡ within (stack_span self.now) at }
    {
        self.stack().contains(at)
    }

    // How many bytes an image of this part has.
    pub fn image_length(&self) -> usize
        ensures { result ≡ image_length self.now }
    {
        65536 - usize::from(self.code_start)
    }

    pub fn has_vector(&self, vector: Vector) -> bool
        ensures value { result ≡ has_vector self.now vector }
        ensures fits { IsTrue result → VectorFits self.now vector }
    {
        match vector {
            Vector::Reset | Vector::Trap => true,
            Vector::Source(k) => k < self.sources,
        }
    }
}
