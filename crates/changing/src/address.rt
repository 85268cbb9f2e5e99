// A load address: a number up to 65535, in decimal, or in hexadecimal behind $ or 0x.
use arguments::letters::hex_digit;

// The number that the digits say in a base; where there is none, or it is over 16 bits, it is none.
fn number_in(digits: &[u8], base: u16) -> Option<u16> {
    if digits.is_empty() {
        return None;
    }
    let mut number: u16 = 0;
    for c in digits {
        let digit = u16::from(hex_digit(*c)?);
        if base <= digit {
            return None;
        }
        number = number.checked_mul(base)?.checked_add(digit)?;
    }
    Some(number)
}

// The address that a word says.
pub fn address_of(word: &[u8]) -> Option<u16> {
    match word {
        [b'$', digits @ ..] => number_in(digits, 16),
        [b'0', b'x' | b'X', digits @ ..] => number_in(digits, 16),
        _ => number_in(word, 10),
    }
}
