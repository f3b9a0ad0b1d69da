// The items of a part of an image, one after another.
ghost use Rattle.std.specs.Prelude.{◌+◌, ◌≤◌, length};

// Bytes that are still to be read, and the address of the first. Whoever holds them knows that no address passes $FFFF.
#[derive(Clone, Copy)]
pub struct Items<'a> {
    pub(crate) start: usize,
    pub(crate) bytes: &'a [u8],
    ghost within: { start + length bytes.now ≤ 65536 },
}
