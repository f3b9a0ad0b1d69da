ghost use Rattle.device.specs.Record.{Read};

use crate::description::Description;
use crate::fault::DescriptionRefusal;
use crate::fields::{self, byte, word};

// The description in a record of 8 bytes: code start, RAM end and stack top as words, high byte
// first, the number of sources, and a zero byte.
#[tactic(auto, using(crate::proofs::Faults::too_long))]
impl TryFrom<&[u8]> for Description {
    type Error = DescriptionRefusal;

    ghost try_from_gives = { λ bytes read. Read bytes.now read };

    fn try_from(bytes: &[u8]) -> Result<Description, DescriptionRefusal> {
        let code_start = word(bytes, 0, 0xC000, 0xFFC0).ok_or(DescriptionRefusal::CodeStart)?;
        let ram_end = word(bytes, 2, 0x00FF, 0x07FF).ok_or(DescriptionRefusal::RamEnd)?;
        let stack_top = fields::stack_top(bytes, ram_end).ok_or(DescriptionRefusal::StackTop)?;
        let sources = byte(bytes, 6, 8).ok_or(DescriptionRefusal::Sources)?;
        byte(bytes, 7, 0).ok_or(DescriptionRefusal::LastByte)?;
        if bytes.len() > Description::LENGTH {
            return Err(DescriptionRefusal::Length);
        }
        Ok(Description {
            code_start,
            ram_end,
            stack_top,
            levels: fields::levels(bytes),
            sources,
        })
    }
}
