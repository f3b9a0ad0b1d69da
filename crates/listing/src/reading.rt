// A part is read item by item.
ghost use Rattle.std.specs.Prelude.{◌≡◌, ◌+◌, ◌≤◌, length, take, drop};
ghost use Rattle.listing.specs.Pieces.{Made, Next, to_come, Joins};
ghost use Rattle.std.specs.Iterator.{at_most};

use crate::item::Item;
use crate::items::Items;
use isa::decode;

impl<'a> Items<'a> {
    // The items of the bytes from an address on, and the bytes that lie past $FFFF, which have no address.
    pub fn new(address: u16, bytes: &'a [u8]) -> (Items<'a>, &'a [u8])
        ensures made { Made address bytes.now result.0 result.1.now }
        ensures joins { Joins result.0 }
    {
        let start = usize::from(address);
        let room = 65536 - start;
        let (part, past) = bytes.split_at(bytes.len().min(room));
        (Items { start, bytes: part }, past)
    }
}

impl<'a> Iterator for Items<'a> {
    type Item = Item<'a>;

    ghost next_gives = { Next };

    ghost remaining = { λ s. at_most (to_come s) };

    fn next(&mut self) -> Option<Item<'a>> {
        if self.bytes.is_empty() {
            return None;
        }
        // by `as`, and not `try_from`: a byte stands there, so no bit is lost and there is nothing to refuse
        let address = self.start as u16;
        match decode(self.bytes) {
            Ok(decoded) => {
                let bytes = self.cut(decoded.length);
                Some(Item::Instruction {
                    address,
                    bytes,
                    instruction: decoded.instruction,
                })
            }
            Err(_) => {
                let bytes = self.cut(1);
                Some(Item::Stray { address, bytes })
            }
        }
    }
}

impl<'a> Items<'a> {
    // Takes bytes off the front.
    fn cut(&mut self, count: usize) -> &'a [u8]
        requires { count ≤ length self.old.bytes.now }
        ensures front { result.now ≡ take count self.old.bytes.now }
        ensures rest { self.new.bytes.now ≡ drop count self.old.bytes.now }
        ensures start { self.new.start ≡ self.old.start + count }
    {
        let (front, rest) = self.bytes.split_at(count);
        *self = Items {
            start: self.start + count,
            bytes: rest,
        };
        front
    }
}
