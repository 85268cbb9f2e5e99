// Names as `list` shows them, taken back to their bytes.
use arrayvec::ArrayVec;

// One byte more than the longest name has.
const TOO_MANY: usize = 31;

// The value of a hexadecimal digit.
pub fn hex_digit(c: u8) -> Option<u8> {
    match c {
        b'0'..=b'9' => Some(c - b'0'),
        b'A'..=b'F' => Some(c - b'A' + 10),
        b'a'..=b'f' => Some(c - b'a' + 10),
        _ => None,
    }
}

// The byte of two hexadecimal digits.
fn hex_byte(high: u8, low: u8) -> Option<u8> {
    Some(hex_digit(high)? % 16 * 16 + hex_digit(low)? % 16)
}

// The byte with which a name as `list` shows it begins, and what stands behind it.
fn first_letter(shown: &[u8]) -> Option<(u8, &[u8])> {
    match shown {
        [] => None,
        [b'\\', b'\\', behind @ ..] => Some((b'\\', behind)),
        [b'\\', b'x', high, low, behind @ ..] => match hex_byte(*high, *low) {
            Some(byte) => Some((byte, behind)),
            None => Some((b'\\', &shown[1..])),
        },
        [byte, behind @ ..] => Some((*byte, behind)),
    }
}

// The bytes of a name, or of one that is longer than any name.
pub type Name = ArrayVec<u8, 31>;

// The name that is shown so; of one that is longer than any name the first 31 bytes.
pub fn unescape(shown: &[u8]) -> Name {
    let mut name = Name::new();
    let mut rest = shown;
    for _ in 0..TOO_MANY {
        let Some((byte, behind)) = first_letter(rest) else {
            break;
        };
        let _ = name.try_push(byte);
        rest = behind;
    }
    name
}
