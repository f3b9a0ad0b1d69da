// Items of a listing.
ghost use Rattle.std.specs.Prelude.{◌≡◌};
ghost use Rattle.listing.specs.Pieces.{piece_of};

use isa::Instruction;

// What stands at an address: an instruction, or a byte that starts none. Two cases, and no `Option` of an instruction beside
// address and bytes: whoever reads a listing asks which of the two stands there.
#[derive(Clone, Copy, PartialEq, Eq, Debug)]
pub enum Item<'a> {
    Instruction {
        address: u16,
        bytes: &'a [u8],
        instruction: Instruction,
    },
    Stray {
        address: u16,
        bytes: &'a [u8],
    },
}

impl<'a> Item<'a> {
    pub fn address(self) -> u16
        ensures { result ≡ (piece_of self.entry).address }
    {
        match self {
            Item::Instruction { address, .. } | Item::Stray { address, .. } => address,
        }
    }

    pub fn bytes(self) -> &'a [u8]
        ensures { result.now ≡ (piece_of self.entry).bytes }
    {
        match self {
            Item::Instruction { bytes, .. } | Item::Stray { bytes, .. } => bytes,
        }
    }
}
