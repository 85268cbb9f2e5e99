// What the trial programs share: the steps of a script, numbers made of bytes, pokes, and what is printed.
// It is proved to end and never to trap, and beyond that only the ranges that the programs need.
#![tactic(auto)]

ghost use Rattle.std.specs.Prelude.{◌<◌};
ghost use Rattle.std.specs.Iterator.{at_most};

use lists::{byte_at, part};
use outcome::Refusal;

// Standard input and standard output, by their descriptors.
pub const STDIN_FILENO: i32 = 0;

pub const STDOUT_FILENO: i32 = 1;

fn digit(c: u8) -> u8
    ensures { result < 16 }
{
    if c < 58 {
        c % 48 % 16
    } else {
        (c % 16 + 9) % 16
    }
}

// The byte that two hexadecimal digits write.
pub fn hex(high: u8, low: u8) -> u8 {
    16 * digit(high) + digit(low)
}

// The six bytes of a line.
fn bytes_of(line: &[u8; 18]) -> [u8; 6] {
    [
        hex(line[0], line[1]),
        hex(line[3], line[4]),
        hex(line[6], line[7]),
        hex(line[9], line[10]),
        hex(line[12], line[13]),
        hex(line[15], line[16]),
    ]
}

// The next step of the script on standard input, a line of six bytes in hexadecimal; none where no whole line is left. A line that is cut short is told.
pub fn next_step() -> Option<[u8; 6]> {
    let mut line = [0u8; 18];
    let n = io::read_full(STDIN_FILENO, &mut line);
    if n == 18 {
        return Some(bytes_of(&line));
    }
    if 0 < n {
        print(b"a line is cut short\n");
    }
    None
}

// The steps of the script that are still to come, 100,000 at most.
#[derive(Drop)]
pub struct Steps {
    left: u32,
}

// The steps of the script on standard input.
pub fn script_steps() -> Steps {
    Steps { left: 100000 }
}

impl Iterator for Steps {
    type Item = [u8; 6];

    ghost remaining = { λ s. at_most s.left };

    fn next(&mut self) -> Option<[u8; 6]> {
        if self.left == 0 {
            return None;
        }
        self.left -= 1;
        next_step()
    }
}

fn wide(x: u8) -> usize
    ensures { result < 256 }
{
    x as usize
}

// A number of two bytes.
pub fn number(high: u8, low: u8) -> usize
    ensures { result < 65536 }
{
    256 * wide(high) + wide(low)
}

// A number of three bytes.
pub fn place(high: u8, middle: u8, low: u8) -> usize
    ensures { result < 16777216 }
{
    65536 * wide(high) + number(middle, low)
}

// Where a byte of a sector is on a disk of 16 sectors a track.
pub fn place_16(track: u8, sector: u8, byte: u8) -> usize
    ensures { result < 2000000 }
{
    4096 * wide(track) + number(sector, byte)
}

// Puts v at a place, where there is one.
pub fn poke(bytes: &mut [u8], at: usize, v: u8) {
    if at < bytes.len() {
        bytes[at] = v;
    }
}

// Puts first, first + 1, first + 2 and so on at 256 places from `at` on, which is below 32 Mi.
pub fn put_ramp(bytes: &mut [u8], at: usize, first: u8) {
    let start = at % 33554432;
    for i in 0..256u16 {
        poke(bytes, start + i as usize, ((first as u16 + i) % 256) as u8);
    }
}

// An array of v alone. What is in it is not promised here, so that lending it costs its callers no proof.
pub fn filled<T: Copy, const N: usize>(v: T) -> [T; N] {
    [v; N]
}

// A flat disk of zeros.
pub fn disk() -> [u8; 143360] {
    filled(0)
}

// As many bytes 55h, to see what a call leaves.
pub fn disk_of_55() -> [u8; 143360] {
    filled(0x55)
}

// Space for a small answer, each byte 55h.
pub fn space() -> [u8; 4096] {
    filled(0x55)
}

// Whether each byte is 55h.
pub fn untouched(bytes: &[u8]) -> bool {
    bytes.iter().all(|b| *b == 0x55)
}

// One byte more in a sum that depends on the order.
fn summed(sum: u64, n: u8) -> u64
    ensures { result < 65521 }
{
    (sum % 65521 * 31 + n as u64) % 65521
}

// Such a sum of all bytes.
pub fn sum_of(bytes: &[u8]) -> u64 {
    let mut sum: u64 = 0;
    for b in bytes {
        sum = summed(sum, *b);
    }
    sum
}

pub fn print(text: &[u8]) {
    io::write_all(STDOUT_FILENO, text);
}

// Text, a space and a number.
pub fn print_number(text: &[u8], n: u64) {
    print(text);
    print(b" ");
    io::print_decimal(STDOUT_FILENO, n);
}

pub fn print_line(text: &[u8], n: u64) {
    print_number(text, n);
    print(b"\n");
}

// Bytes as decimal numbers, a space before each.
pub fn print_decimals(bytes: &[u8]) {
    for b in bytes {
        print_number(b"", *b as u64);
    }
}

fn digit_of(n: u8) -> u8 {
    if n < 10 {
        return 48 + n % 10;
    }
    55 + n % 16
}

// Bytes in hexadecimal, with capitals and a space before each.
pub fn print_hex(bytes: &[u8]) {
    for b in bytes {
        print(&[32, digit_of(*b / 16), digit_of(*b % 16)]);
    }
}

// Text, the number of a refusal, 0 for none, and its word.
pub fn refusal_line<T>(text: &[u8], answer: &Result<T, Refusal>) {
    match answer {
        Ok(_) => print_number(text, 0),
        Err(refusal) => {
            print_number(text, u8::from(*refusal) as u64);
            print(b", ");
            print(refusal.word().as_bytes());
        },
    }
    print(b"\n");
}

// Shows the refusal of an answer: what it gives, `none` under a refusal.
pub fn shown<T: Copy>(text: &[u8], answer: Result<T, Refusal>, none: T) -> T {
    refusal_line(text, &answer);
    answer.unwrap_or(none)
}

// How many were handed over: none under a refusal.
pub fn length_of(answer: Result<usize, Refusal>) -> usize {
    answer.unwrap_or(0)
}

// The refusal and the length of an answer.
pub fn handed_line(text: &[u8], answer: Result<usize, Refusal>) {
    let length = shown(text, answer, 0);
    print_line(b"  length", length as u64);
}

// The first byte of what was handed over, and its sum.
pub fn bytes_line(answer: Result<usize, Refusal>, bytes: &[u8]) {
    let written = part(bytes, 0, length_of(answer));
    print_number(b"  first byte", byte_at(written, 0) as u64);
    print_line(b", sum", sum_of(written));
}

// Tells what was handed over, and answers its bytes, which are to be shown next; none where nothing changed, which is told.
pub fn handed<'a>(
    text: &[u8],
    answer: Result<usize, Refusal>,
    space: &'a [u8],
) -> Option<&'a [u8]> {
    handed_line(text, answer);
    if untouched(space) {
        print(b"  nothing changed\n");
        return None;
    }
    print(b"  bytes");
    Some(part(space, 0, length_of(answer)))
}

// Ends the line of the bytes, and shows the byte behind all of them.
pub fn behind(answer: Result<usize, Refusal>, space: &[u8]) {
    print(b"\n");
    print_line(b"  behind", byte_at(space, length_of(answer)) as u64);
}
