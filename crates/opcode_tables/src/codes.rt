// All codes, without a prebyte and behind each of the three.
use isa::{DecodeFault, Prebyte, decode};

#[derive(Clone, Copy, Default)]
struct Codes {
    instructions: u32,
    void: u32,
    other: u32,
}

impl Codes {
    // Counts a code: an instruction; void, and told so with this prebyte and this opcode; or something else.
    fn count(&mut self, prebyte: Option<Prebyte>, opcode: u8) {
        let prebyte = prebyte.map(u8::from);
        let answer = match prebyte {
            Some(p) => decode(&[p, opcode, 0, 0]),
            None => decode(&[opcode, 0, 0]),
        };
        match answer {
            Ok(_) => self.instructions = self.instructions.saturating_add(1),
            Err(DecodeFault::Void(code)) if code.prebyte == prebyte && code.opcode == opcode =>
                self.void = self.void.saturating_add(1),
            Err(_) => self.other = self.other.saturating_add(1),
        }
    }

    fn all(prebyte: Option<Prebyte>) -> Codes {
        let mut codes = Codes::default();
        for opcode in 0..=255 {
            codes.count(prebyte, opcode);
        }
        codes
    }
}

pub(crate) fn print_codes(rt: &HostRuntime) -> anyhow::Result<()> {
    let plain = Codes::all(None);
    println!(rt;
        "no prebyte: {} instructions, {} void, {} prebytes",
        plain.instructions, plain.void, plain.other,
    )?;
    let mut total = plain.instructions;
    for prebyte in [Prebyte::Y, Prebyte::PointerY, Prebyte::Pointer] {
        let codes = Codes::all(Some(prebyte));
        println!(rt;
            "behind {:02X}: {} instructions, {} void",
            u8::from(prebyte),
            codes.instructions,
            codes.void
        )?;
        total = total.saturating_add(codes.instructions);
    }
    println!(rt; "{total} instructions")?;
    Ok(())
}
