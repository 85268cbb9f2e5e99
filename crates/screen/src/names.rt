// Names and paths: as they are shown, and as they are cut, which are the 30 name bytes.
ghost use Rattle.std.specs.Prelude.{◌≤◌};

use crate::{STDOUT_FILENO, number, text};
use lists::byte_at;

// How many name bytes an entry has.
const NAME_BYTES: usize = 30;

// The byte is one that a terminal may act on, or the backslash. Above `top` it is taken for one.
fn is_odd(b: u8, top: u8) -> bool {
    (b < 32) | (b == b'\\') | (b == 127) | (top < b)
}

fn shown_byte(fd: i32, b: u8, top: u8) {
    if b == b'\\' {
        text(fd, b"\\\\");
    } else if is_odd(b, top) {
        text(fd, b"\\x");
        io::print_hex(fd, u64::from(b), 2);
    } else {
        text(fd, &[b]);
    }
}

fn shown(fd: i32, s: &[u8], top: u8) {
    if !s.iter().any(|b| is_odd(*b, top)) {
        text(fd, s);
        return;
    }
    for b in s {
        shown_byte(fd, *b, top);
    }
}

// A file's name: every byte that is no plain character as \xHH, and a backslash doubled.
pub fn name(fd: i32, s: &[u8]) {
    shown(fd, s, 126);
}

// A path: the same, but bytes above 7Fh stay, which are letters in most of the world.
pub fn path(fd: i32, s: &[u8]) {
    if s.is_empty() {
        text(fd, b"''");
    }
    shown(fd, s, 255);
}

// The name of what is read, where `-` is standard input.
pub fn input(fd: i32, s: &[u8]) {
    match s {
        b"-" => text(fd, b"standard input"),
        _ => path(fd, s),
    }
}

// A shown name as the catalog has it.
pub fn shown_name(fd: i32, n: catalog::Name) {
    let letters = n.letters;
    name(fd, lists::part(&letters, 0, n.length as usize));
}

// The two show alike: letter by letter, since both have 30 bytes, and the letter of a byte is the byte without its high bit, since none is 80h.
fn show_alike(a: &[u8], b: &[u8]) -> bool {
    (0..NAME_BYTES).all(|k| byte_at(a, k) % 128 == byte_at(b, k) % 128)
}

// They show alike, and are cut differently.
pub fn is_twin(a: &[u8], b: &[u8]) -> bool {
    show_alike(a, b) && a != b
}

// How many bytes at the end are the last one.
fn last_run(raw: &[u8], last: u8) -> usize
    ensures { result ≤ 30 }
{
    raw.iter()
        .rev()
        .take(NAME_BYTES)
        .take_while(|b| **b == last)
        .count()
}

const DIGITS: [u8; 16] = *b"0123456789ABCDEF";

// A byte in hexadecimal, with capitals as the papers have it.
fn hex(fd: i32, b: u8) {
    text(fd, &[DIGITS[(b / 16) as usize], DIGITS[(b % 16) as usize]]);
}

// A further row under an entry.
fn row(fd: i32) {
    text(fd, b"\n                                    ");
}

// The first n bytes in hexadecimal; a row has 15 of them.
fn front(fd: i32, raw: &[u8], n: usize) {
    for (k, b) in raw.iter().take(n).enumerate() {
        if k == 15 {
            row(fd);
        } else if 0 < k {
            text(fd, b" ");
        }
        hex(fd, *b);
    }
}

// What stands between n bytes and the run behind them: the run begins a row where it would not fit.
fn behind(fd: i32, n: usize) {
    match n {
        12..=15 | 27.. => row(fd),
        _ => text(fd, b", "),
    }
}

// The 30 bytes in hexadecimal: those before the last run of equal ones, and how many these are.
pub fn cut(fd: i32, raw: &[u8]) {
    let last = byte_at(raw, NAME_BYTES - 1);
    let run = last_run(raw, last);
    if run < 2 {
        front(fd, raw, NAME_BYTES);
        return;
    }
    if run < NAME_BYTES {
        front(fd, raw, NAME_BYTES - run);
        behind(fd, NAME_BYTES - run);
    }
    number(fd, run as u64);
    text(fd, b" of ");
    hex(fd, last);
}

// Its own rows under an entry.
pub fn line(raw: &[u8]) {
    text(STDOUT_FILENO, b"                                raw ");
    cut(STDOUT_FILENO, raw);
    text(STDOUT_FILENO, b"\n");
}
