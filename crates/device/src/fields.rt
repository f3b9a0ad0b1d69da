// The fields of a record, each taken only where it is wholly there and within its limits.
ghost use Rattle.std.specs.Prelude.{◌≡◌, ◌+◌, ◌≤◌, length};
ghost use Rattle.device.specs.Record.{byte_at, word_at, levels_of, Taken, ByteUpTo, WordWithin, GoodStackTop};

// The word at an offset, high byte first.
fn word_at(bytes: &[u8], offset: usize) -> Option<u16>
    ensures { Taken (offset + 2 ≤ length bytes.now) (word_at bytes.now offset) result }
{
    Some(u16::from_be_bytes(*bytes.get(offset..)?.first_chunk()?))
}

// The word at an offset, from one value to another.
pub(crate) fn word(bytes: &[u8], offset: usize, low: u16, high: u16) -> Option<u16>
    ensures { Taken (WordWithin bytes.now offset low high) (word_at bytes.now offset) result }
{
    word_at(bytes, offset).filter(|word| (low..=high).contains(word))
}

// The byte at an offset, up to a value.
pub(crate) fn byte(bytes: &[u8], offset: usize, most: u8) -> Option<u8>
    ensures { Taken (ByteUpTo bytes.now offset most) (byte_at bytes.now offset) result }
{
    bytes.get(offset).copied().filter(|byte| *byte <= most)
}

// How many bytes the stack has: 64 in every part so far, so the record is not asked.
pub(crate) fn levels(bytes: &[u8]) -> u16
    ensures { result ≡ levels_of bytes.now }
{
    64
}

// The stack top: its low bits are all 1, and the stack that it ends lies in RAM.
pub(crate) fn stack_top(bytes: &[u8], ram_end: u16) -> Option<u16>
    requires { ram_end ≡ word_at bytes.now 2 }
    ensures { Taken (GoodStackTop bytes.now) (word_at bytes.now 4) result }
{
    let below = levels(bytes) - 1;
    word(bytes, 4, 0x0080 + below, ram_end).filter(|top| *top % (below + 1) == below)
}
