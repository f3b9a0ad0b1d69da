// Relative offsets.
ghost use Rattle.std.specs.Prelude.{◌≡◌};
ghost use Rattle.isa.specs.Relative.{relative_target};

// The address that a relative offset leads to; `next` is the address after the whole instruction.
#[tactic(auto, unfolding(crate::specs::Relative::relative_target))]
pub fn relative_target(next: u16, offset: i8) -> u16
    ensures { result ≡ relative_target next offset }
{
    next.wrapping_add_signed(i16::from(offset))
}
