// What the program writes, to a descriptor: text, numbers, locations and refusals here, names in `names`, JSON in `json`. How a command ends. `seen` has the sectors that its walks met, `space` what is lent to the library.
#![tactic(auto)]

pub mod json;
pub mod names;
pub mod seen;
pub mod space;

ghost use Rattle.std.specs.Prelude.{◌≡◌};
ghost use Rattle.screen.specs.declared.Failure.TheVariants.{OutOfMemory};

use disk::{Place, Sector, Track, sector_start};
use outcome::Refusal;
use std::alloc::{AllocError, AllocFailed};
use std::fmt;
use std::fmt::Write;
use std::io::{Error, ErrorKind};

// Standard input, standard output and standard error, by their descriptors.
pub const STDIN_FILENO: i32 = 0;

pub const STDOUT_FILENO: i32 = 1;

pub const STDERR_FILENO: i32 = 2;

// Why a command does not end well. What is wrong was said before, but where memory is short.
#[derive(Clone, Copy, Debug, PartialEq, Eq)]
pub enum Failure {
    // a disk, stream, archive or plan is refused, a disk is not clean, or there is no space for a save
    Refused,
    // bad usage, or a file that cannot be read or written
    Trouble,
    // the system gives no more memory
    OutOfMemory,
}

impl From<AllocError> for Failure {
    ghost from_gives = { λ _ e. e ≡ OutOfMemory };

    fn from(_: AllocError) -> Failure {
        Failure::OutOfMemory
    }
}

impl<T: Drop> From<AllocFailed<T>> for Failure {
    ghost from_gives = { λ _ e. e ≡ OutOfMemory };

    fn from(_: AllocFailed<T>) -> Failure {
        Failure::from(AllocError)
    }
}

pub fn text(fd: i32, s: &[u8]) {
    io::write_all(fd, s);
}

pub fn say(s: &[u8]) {
    text(STDOUT_FILENO, s);
}

pub fn tell(s: &[u8]) {
    text(STDERR_FILENO, s);
}

// What an error says.
#[derive(Drop)]
struct Reason {
    letters: [u8; 128],
    length: usize,
}

impl Write for Reason {
    fn write_str(&mut self, s: &str) -> fmt::Result {
        lists::copy_at(s.as_bytes(), &mut self.letters, self.length);
        self.length = self.length.saturating_add(s.len());
        Ok(())
    }
}

// The system's reason of an error: behind it stands the reason's number.
fn system_reason(said: &[u8]) -> &[u8] {
    let number = b" (os error ";
    let length = said.windows(11).position(|part| part == number.as_slice());
    lists::part(said, 0, length.unwrap_or(said.len()))
}

// The end of a line that says what could not be done: the system's reason.
pub fn fail(e: Error) {
    let mut reason = Reason {
        letters: [0; 128],
        length: 0,
    };
    let _ = write!(reason, "{e}");
    tell(b": ");
    tell(system_reason(lists::part(&reason.letters, 0, reason.length)));
    tell(b"\n");
}

// Says that standard output cannot be written to; nothing where nobody reads it.
fn not_written(e: Error) -> Failure {
    if let ErrorKind::BrokenPipe = e.kind() {
        return Failure::Trouble;
    }
    tell(b"linefiles: cannot write to standard output");
    fail(e);
    Failure::Trouble
}

// The end of what a command prints. Where it cannot be written, this is said.
pub fn finish(rt: &HostRuntime, s: &[u8]) -> Result<(), Failure> {
    rt.write_all(s).map_err(|e| not_written(e))
}

pub fn number(fd: i32, n: u64) {
    io::print_decimal(fd, n);
}

// Text, then a number.
pub fn text_number(fd: i32, s: &[u8], n: u64) {
    text(fd, s);
    number(fd, n);
}

// At most 40 spaces.
pub fn spaces(fd: i32, n: usize) {
    text(fd, lists::part(&[b' '; 40], 0, n));
}

// A number at the right edge of a column.
pub fn right(fd: i32, n: u64, width: usize) {
    let mut digits = [0u8; 20];
    let k = io::decimal(n, &mut digits);
    spaces(fd, width.saturating_sub(k));
    text(fd, &digits[..k]);
}

// How many digits a byte has.
fn digits_of(n: u8) -> usize {
    match n {
        0..=9 => 1,
        10..=99 => 2,
        _ => 3,
    }
}

pub fn vtoc() -> Place {
    Place {
        track: Track(17),
        sector: Sector(0),
    }
}

// The sector's number on a disk of `per` sectors a track.
pub fn sector_number(per: u8, p: Place) -> usize {
    sector_start(per, p) / 256
}

pub fn place(fd: i32, p: Place) {
    number(fd, u64::from(p.track.0));
    text(fd, b"/");
    number(fd, u64::from(p.sector.0));
}

// Text, then a location.
pub fn text_place(fd: i32, s: &[u8], p: Place) {
    text(fd, s);
    place(fd, p);
}

// A location at the left edge of a column of 9.
pub fn place_column(fd: i32, p: Place) {
    place(fd, p);
    let width = digits_of(p.track.0).saturating_add(digits_of(p.sector.0));
    spaces(fd, 8usize.saturating_sub(width));
}

// A number of things: one, or any other number of them.
pub fn count(fd: i32, n: u64, one: &[u8], many: &[u8]) {
    number(fd, n);
    text(fd, b" ");
    text(fd, if n == 1 { one } else { many });
}

// The letters of a type: the Rust's.
pub fn kind_letters(kind: u8) -> &'static str {
    match kind {
        0 => "T",
        1 => "I",
        2 => "A",
        4 => "B",
        8 => "S",
        10 => "R",
        20 => "AT",
        40 => "BT",
        _ => "U",
    }
}

// Lock, type and sector count of an entry, under the heads of `heads`.
pub fn entry_columns(fd: i32, locked: bool, kind: u8, sectors: u16) {
    if locked {
        text(fd, b"  *    ");
    } else {
        text(fd, b"       ");
    }
    let letters = kind_letters(kind).as_bytes();
    text(fd, letters);
    right(
        fd,
        u64::from(sectors),
        12usize.saturating_sub(letters.len()),
    );
}

// The number of bytes, under its head; - where there are none to hand over, or none are known.
pub fn bytes_column(fd: i32, bytes: Option<u64>) {
    match bytes {
        Some(n) => right(fd, n, 9),
        None => text(fd, b"        -"),
    }
}

pub fn heads(fd: i32) {
    text(fd, b"  lock type sectors    bytes  name\n");
}

// The front of a refusal: the paper's number and word. What is told of it stands on lines of its own.
pub fn refusal(fd: i32, why: Refusal) {
    text_number(fd, b"refused: ", u64::from(u8::from(why)));
    text(fd, b" ");
    text(fd, why.word().as_bytes());
}

// Only a Binary hands over bytes.
pub const BINARY: u8 = 4;

// What a command reads, and its length.
pub fn input(fd: i32, from: &[u8], what: &[u8], size: u64) {
    names::input(fd, from);
    text(fd, b": ");
    text(fd, what);
    text_number(fd, b" of ", size);
    text(fd, b" bytes");
}
