// A part of an image as items.
use isa::{Index, Instruction, Operand, Operation};
use listing::{Item, Items};

const CLR_A: Instruction = Instruction {
    operation: Operation::Clr,
    index: Index::X,
    operand: Operand::Accumulator,
};

const LD_POINTER: Instruction = Instruction {
    operation: Operation::Ld,
    index: Index::X,
    operand: Operand::LongPointerIndexed(0x89),
};

const NOP: Instruction = Instruction {
    operation: Operation::Nop,
    index: Index::X,
    operand: Operand::Inherent,
};

fn stray(address: u16, bytes: &[u8]) -> Option<Item<'_>> {
    Some(Item::Stray { address, bytes })
}

fn instruction(address: u16, bytes: &[u8], instruction: Instruction) -> Option<Item<'_>> {
    Some(Item::Instruction {
        address,
        bytes,
        instruction,
    })
}

#[test]
fn strays_and_instructions(rt: HostRuntime) {
    let bytes = [0x90, 0x4F, 0x92, 0xD6, 0x89, 0xA6];
    let (mut items, past) = Items::new(0xC000, &bytes);
    assert!(rt; past.is_empty());
    assert_eq!(rt; items.next(), stray(0xC000, &[0x90]));
    assert_eq!(rt; items.next(), instruction(0xC001, &[0x4F], CLR_A));
    assert_eq!(rt;
        items.next(),
        instruction(0xC002, &[0x92, 0xD6, 0x89], LD_POINTER)
    );
    // its operand byte lies past the part
    assert_eq!(rt; items.next(), stray(0xC005, &[0xA6]));
    assert_eq!(rt; items.next(), None);
}

#[test]
fn last_addresses(rt: HostRuntime) {
    let bytes = [0x9D, 0xA6, 0x12, 0x9D];
    let (mut items, past) = Items::new(0xFFFE, &bytes);
    assert_eq!(rt; past, [0x12, 0x9D].as_slice());
    assert_eq!(rt; items.next(), instruction(0xFFFE, &[0x9D], NOP));
    assert_eq!(rt; items.next(), stray(0xFFFF, &[0xA6]));
    assert_eq!(rt; items.next(), None);
}
