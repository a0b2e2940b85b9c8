//! How often bytes occur in texts.
ghost use Rattle.std.specs.Prelude.{◌<◌};

/// How often this byte occurs, as a rank: most texts have more of those with a greater one.
pub(super) fn frequency(byte: u8) -> u8
    ensures { result < 10 }
{
    match byte {
        b' ' | b'e' => 9,
        b't' | b'a' | b'o' | b'i' | b'n' => 8,
        b's' | b'r' | b'h' | b'l' | b'd' => 7,
        b'c' | b'u' | b'm' | b'f' | b'p' | b'g' | b'\n' | b',' | b'.' | b'0' | b'1' => 6,
        b'y' | b'w' | b'b' | b'v' | b'2'..=b'9' | b'-' | b'/' | b':' | b'"' | b'=' => 5,
        b'k' | b'A'..=b'Z' | b'_' | b'\'' | b'(' | b')' => 4,
        b'x' | b'j' | b'q' | b'z' => 3,
        0x80..=0xBF => 6,
        0xC0..=0xFF => 8,
        _ => 2,
    }
}
