// Registers by their names.
ghost use Rattle.std.specs.Prelude.{◌≡◌};
ghost use Rattle.notation.specs.Texts.{register_text};

use instruction::Index;

// A register that an instruction names. `Index` is the instruction's index register, and `OtherIndex` the other one.
#[derive(Clone, Copy)]
pub enum Register {
    A,
    Index,
    OtherIndex,
    S,
    Cc,
}

impl Register {
    // Its name in an instruction that has this index register.
    pub fn name(self, index: Index) -> &'static str
        ensures { result.now ≡ register_text self index }
    {
        match (self, index) {
            (Register::A, _) => "A",
            (Register::S, _) => "S",
            (Register::Cc, _) => "CC",
            (Register::Index, Index::X) => "X",
            (Register::Index, Index::Y) => "Y",
            (Register::OtherIndex, Index::X) => "Y",
            (Register::OtherIndex, Index::Y) => "X",
        }
    }
}
