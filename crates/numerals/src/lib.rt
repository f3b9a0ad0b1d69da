// Numbers as the programs print them: hexadecimal in capitals, of a fixed width, and two-digit decimals.
#![tactic(auto)]

ghost use Rattle.std.specs.Prelude.{◌≡◌, ◌<◌, Some};
ghost use Rattle.numerals.specs.Numerals.{hex_digit, hex2, hex4, dec2};

use std::fmt;

// Three types, and no format such as `{:04X}` at each place of a proved text: there each text would need a line that takes the
// number out, so that the proofs know how large it can be, and the name of the lemma that says what the format writes.

// A byte as two hexadecimal digits.
#[derive(Clone, Copy)]
pub struct Hex2(pub u8);

// A word as four hexadecimal digits.
#[derive(Clone, Copy)]
pub struct Hex4(pub u16);

// A number in decimal, of two digits at the least.
#[derive(Clone, Copy)]
pub struct Dec2(pub u8);

// One hexadecimal digit.
fn digit(d: u8) -> char
    requires { d < 16 }
    ensures { result ≡ hex_digit d }
{
    if d < 10 {
        (b'0' + d) as char
    } else {
        (b'A' - 10 + d) as char
    }
}

// By digits, and not by `{:02X}`: that was tried, and takes two to three times as long.
#[tactic(auto, using(std::proofs::lemmas::Str::Ascii::encode_ascii), unfolding(crate::specs::Numerals::hex2))]
impl fmt::Display for Hex2 {
    ghost output = { λ h. Some (hex2 h.0) };

    fn fmt<W: fmt::Write>(&self, f: &mut fmt::Formatter<W>) -> fmt::Result {
        let high = digit(self.0 / 16);
        let low = digit(self.0 % 16);
        write!(f, "{high}{low}")
    }
}

#[tactic(auto, using(crate::proofs::Texts::word_text))]
impl fmt::Display for Hex4 {
    ghost output = { λ h. Some (hex4 h.0) };

    fn fmt<W: fmt::Write>(&self, f: &mut fmt::Formatter<W>) -> fmt::Result {
        let n = self.0;
        write!(f, "{n:04X}")
    }
}

// By the number of digits, and not by `{:02}`: that was tried, and takes up to two and a half times as long.
#[tactic(auto, unfolding(crate::specs::Numerals::dec2))]
impl fmt::Display for Dec2 {
    ghost output = { λ d. Some (dec2 d.0) };

    fn fmt<W: fmt::Write>(&self, f: &mut fmt::Formatter<W>) -> fmt::Result {
        let n = self.0;
        if n < 10 {
            write!(f, "0{n}")
        } else {
            write!(f, "{n}")
        }
    }
}
