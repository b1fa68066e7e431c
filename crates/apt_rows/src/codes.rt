//! The bytes of a tape's characters, by their holes.
ghost use Rattle.std.specs.Prelude.{◌<◌, IfSome};

/// How the characters of a text become bytes.
#[derive(Clone, Copy)]
pub enum Code {
    /// As they are.
    Plain,
    /// RS-358: ASCII, with even parity in track 8.
    Rs358,
    /// RS-244.
    Rs244,
}

/// The characters of RS-244, each with its byte.
const RS244: [(u8, u8); 26] = [
    (b'0', 0x20),
    (b'1', 0x01),
    (b'2', 0x02),
    (b'3', 0x13),
    (b'4', 0x04),
    (b'5', 0x15),
    (b'6', 0x16),
    (b'7', 0x07),
    (b'8', 0x08),
    (b'9', 0x19),
    (b'F', 0x76),
    (b'G', 0x67),
    (b'I', 0x79),
    (b'J', 0x51),
    (b'M', 0x54),
    (b'N', 0x45),
    (b'R', 0x49),
    (b'S', 0x32),
    (b'T', 0x23),
    (b'X', 0x37),
    (b'Y', 0x38),
    (b'Z', 0x29),
    (b'+', 0x70),
    (b'-', 0x40),
    (b'\n', 0x80),
    (b'%', 0x0b),
];

/// The byte of a character.
pub fn byte_of(code: Code, character: u8) -> Option<u8> {
    match code {
        Code::Plain => Some(character),
        Code::Rs358 if character.count_ones() % 2 == 0 => Some(character),
        Code::Rs358 => Some(character | 0x80),
        Code::Rs244 => rs244(character),
    }
}

fn rs244(character: u8) -> Option<u8> {
    for (known, byte) in RS244 {
        if known == character {
            return Some(byte);
        }
    }
    None
}

/// The byte of two hexadecimal digits.
pub fn hex_byte(high: u8, low: u8) -> Option<u8> {
    Some(hex_digit(high)? * 16 + hex_digit(low)?)
}

fn hex_digit(digit: u8) -> Option<u8>
    ensures { IfSome result (λ value. value < 16) }
{
    match digit {
        b'0'..=b'9' => Some(digit - b'0'),
        b'a'..=b'f' => Some(digit - b'a' + 10),
        _ => None,
    }
}
