// The form of a recorded script and of its answers. A line is a letter, six hexadecimal digits and bytes in hexadecimal; a number or place PPPPPP has its high digits
// first. There is one input, of which a front is in use. What a step asks is said by the program that answers it; the other steps are:
//     = title              printed as it is
//     # comment            passed over, as is an empty line
//     N NNNNNN VV          NNNNNN bytes are in use, each of them VV
//     P PPPPPP VV..        put these bytes, 64 at most, at place PPPPPP
//     F PPPPPP NN NN VV    put NNNN times VV, high byte first, at place PPPPPP
//     U PPPPPP VV          put VV, VV + 1, VV + 2 and so on at 256 bytes from place PPPPPP on
// All is proved to end and never to trap, and no more than that.
#![tactic(auto)]

ghost use Rattle.std.specs.Iterator.{at_most};
ghost use Rattle.std.specs.Prelude.{◌<◌};

use lists::{byte_at, fill_at, part, word_at};
use outcome::Refusal;
use trial::{
    STDIN_FILENO, hex, number, place, poke, print, print_decimals, print_hex, print_number,
    put_ramp,
};

// Bytes of the six digits.
pub fn digits_of(line: &[u8]) -> [u8; 3] {
    [
        hex(byte_at(line, 2), byte_at(line, 3)),
        hex(byte_at(line, 4), byte_at(line, 5)),
        hex(byte_at(line, 6), byte_at(line, 7)),
    ]
}

// The number of the six digits.
pub fn place_of(line: &[u8]) -> usize
    ensures { result < 16777216 }
{
    let digits = digits_of(line);
    place(digits[0], digits[1], digits[2])
}

// How many bytes stand behind the six digits.
pub fn count(line: &[u8]) -> usize {
    if line.len() < 11 {
        return 0;
    }
    (line.len() - 8) / 3
}

// Byte k of them.
fn byte_of(line: &[u8], k: u8) -> u8 {
    let at = 3 * number(0, k);
    hex(byte_at(line, 9 + at), byte_at(line, 10 + at))
}

// Puts byte k, where there is one.
fn put_byte(bytes: &mut [u8], at: usize, line: &[u8], k: u8)
    requires { at < 16777216 }
{
    if number(0, k) < count(line) {
        poke(bytes, at + number(0, k), byte_of(line, k));
    }
}

// Puts these bytes, 64 at most, at a place below 16 Mi.
fn put(bytes: &mut [u8], at: usize, line: &[u8]) {
    let start = at % 16777216;
    for k in 0..64u8 {
        put_byte(bytes, start, line, k);
    }
}

// The bytes behind the six digits.
pub fn bytes_of(line: &[u8]) -> [u8; 64] {
    let mut bytes = [0u8; 64];
    put(&mut bytes, 0, line);
    bytes
}

// The step asks, and lays nothing.
pub fn asks(line: &[u8]) -> bool {
    let command = byte_at(line, 0);
    match command {
        b'N' | b'P' | b'F' | b'U' | b'=' | b'#' | 0 => false,
        _ => true,
    }
}

fn fill(input: &mut [u8], line: &[u8]) {
    let n = number(byte_of(line, 0), byte_of(line, 1));
    fill_at(input, place_of(line), n, byte_of(line, 2));
}

fn title(line: &[u8]) {
    print(line);
    print(b"\n");
}

// The steps that lay the input, and the titles: how many bytes are in use afterwards, `used` being those before.
pub fn lay(line: &[u8], input: &mut [u8], used: usize) -> usize {
    let command = byte_at(line, 0);
    match command {
        b'N' => {
            fill_at(input, 0, place_of(line), byte_of(line, 0));
            return place_of(line);
        },
        b'P' => put(input, place_of(line), line),
        b'F' => fill(input, line),
        b'U' => put_ramp(input, place_of(line), byte_of(line, 0)),
        b'=' => title(line),
        _ => {},
    }
    used
}

// The end of the line that starts at a place.
fn line_end(script: &[u8], at: usize) -> usize {
    for i in at..script.len() {
        if script[i] == b'\n' {
            return i;
        }
    }
    script.len()
}

// The line from a place to its end.
fn line_from(script: &[u8], at: usize, end: usize) -> &[u8] {
    if at < end {
        return part(script, at, end - at);
    }
    &script[0..0]
}

// Where the next line starts.
fn behind(script: &[u8], end: usize) -> usize {
    if end < script.len() {
        return end + 1;
    }
    script.len()
}

// The lines of a script that are still to come, 10,000 at most; that there are more is told.
#[derive(Drop)]
pub struct Lines<'a> {
    script: &'a [u8],
    at: usize,
    left: u32,
}

impl<'a> Iterator for Lines<'a> {
    type Item = &'a [u8];

    ghost remaining = { λ s. at_most s.left };

    fn next(&mut self) -> Option<&'a [u8]> {
        if self.left == 0 {
            print(b"too many lines\n");
            return None;
        }
        if self.script.len() <= self.at {
            return None;
        }
        self.left -= 1;
        let script = self.script;
        let at = self.at;
        let end = line_end(script, at);
        self.at = behind(script, end);
        Some(line_from(script, at, end))
    }
}

// Those of the script on standard input, read into `space`, which has 65,536 bytes: one more than a script may have.
pub fn script_lines<'a>(space: &'a mut [u8]) -> Lines<'a> {
    let n = io::read_full(STDIN_FILENO, space);
    let mut length = n as usize;
    if 65536 <= n {
        print(b"too long a script\n");
        length = 0;
    }
    Lines {
        script: part(space, 0, length),
        at: 0,
        left: 10000,
    }
}

// The number of an answer's refusal, 0 for none.
pub fn number_of<T>(answer: &Result<T, Refusal>) -> u64 {
    match answer {
        Ok(_) => 0,
        Err(refusal) => u8::from(*refusal) as u64,
    }
}

fn added(a: u32, b: u32) -> u32
    ensures { result < 65521 }
{
    (a % 65521 + b % 65521) % 65521
}

fn joined(high: u32, low: u32) -> u64 {
    65536 * (high as u64) + low as u64
}

// Adler's sum of 32 bits.
fn adler(bytes: &[u8]) -> u64 {
    let mut a: u32 = 1;
    let mut b: u32 = 0;
    for byte in bytes {
        a = added(a, *byte as u32);
        b = added(b, a);
    }
    joined(b, a)
}

// Up to 512 bytes themselves, and of more their sum.
pub fn content(bytes: &[u8]) {
    print_number(b", length", bytes.len() as u64);
    if bytes.len() <= 512 {
        print(b", bytes");
        print_hex(bytes);
        return;
    }
    print_number(b", sum", adler(bytes));
}

// The number of an answer, and what was handed over.
pub fn answer_line(answer: Result<usize, Refusal>, space: &[u8]) {
    print_number(b"  number", number_of(&answer));
    if let Ok(length) = answer {
        content(part(space, 0, length));
    }
    print(b"\n");
}

// The name shown in an entry of 37 bytes.
pub fn name_of(entry: &[u8]) -> &[u8] {
    part(entry, 5, byte_at(entry, 4) as usize)
}

fn entry_line(entry: &[u8]) {
    if entry.len() < 37 {
        return;
    }
    print(b"entry");
    print_decimals(part(entry, 0, 2));
    print_number(b" type", byte_at(entry, 2) as u64);
    print_number(b" locked", byte_at(entry, 3) as u64);
    print_number(b" sectors", word_at(entry, 35) as u64);
    print(b" name");
    print_hex(name_of(entry));
    print(b"\n");
}

// The entries of a catalog, 37 bytes each, 1,000 at most.
pub fn entry_lines(entries: &[u8]) {
    for i in 0..1000u16 {
        entry_line(part(entries, 37 * i as usize, 37));
    }
}
