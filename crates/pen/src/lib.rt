// A picture as text, names and paths as they are written in it, and the colours of files. What is drawn goes into any writer of text; what that does not take is left
// out.
#![tactic(auto)]

ghost use Rattle.std.specs.Prelude.{◌≡◌, ◌++◌};

pub mod colours;

use arrayvec::ArrayString;
use lists::{byte_at, part};
use std::fmt;

// A picture as far as it is drawn, in room for the longest of a disk. What does not fit is left out.
#[derive(Drop)]
pub struct Picture {
    text: ArrayString<1048576>,
}

impl Picture {
    // With nothing drawn.
    pub fn new() -> Picture {
        Picture {
            text: ArrayString::new(),
        }
    }

    pub fn push_str(&mut self, s: &str) {
        let _ = self.text.try_push_str(s);
    }

    // What `write!` calls.
    pub fn write_fmt<D: fmt::Display + Drop>(&mut self, value: D) {
        let _ = fmt::Write::write_fmt(&mut self.text, value);
    }

    pub fn as_bytes(&self) -> &[u8] {
        self.text.as_str().as_bytes()
    }
}

impl fmt::Write for Picture {
    // The text stands behind what was drawn.
    ghost write_str_gives = { λ s bytes t. t.text.bytes ≡ s.text.bytes ++ bytes };

    fn write_str(&mut self, s: &str) -> fmt::Result {
        fmt::Write::write_str(&mut self.text, s)
    }
}

// A piece of a name or a path: a character, or a byte that is shown by its number.
#[derive(Clone, Copy, Debug, PartialEq, Eq)]
enum Piece {
    Character(char),
    Byte(u8),
}

impl Piece {
    // How many columns it takes.
    fn columns(self) -> usize {
        match self {
            Piece::Byte(_) => 4,
            Piece::Character('\\') => 2,
            Piece::Character(c) if 2 < c.len_utf8() => 2,
            Piece::Character(_) => 1,
        }
    }

    // How many bytes it stands for.
    fn bytes(self) -> usize {
        match self {
            Piece::Byte(_) => 1,
            Piece::Character(c) => c.len_utf8(),
        }
    }
}

// As XML has it.
impl fmt::Display for Piece {
    fn fmt<W: fmt::Write>(&self, f: &mut fmt::Formatter<W>) -> fmt::Result {
        match *self {
            Piece::Byte(b) => write!(f, "\\x{b:02x}"),
            Piece::Character('"') => write!(f, "&quot;"),
            Piece::Character('&') => write!(f, "&amp;"),
            Piece::Character('<') => write!(f, "&lt;"),
            Piece::Character('>') => write!(f, "&gt;"),
            Piece::Character('\\') => write!(f, "\\\\"),
            Piece::Character(c) => write!(f, "{c}"),
        }
    }
}

// The character is one that a terminal may act on, or that XML does not take.
fn is_odd(c: char) -> bool {
    (c < ' ') | (c == '\x7f') | (c == '\u{fffe}') | (c == '\u{ffff}')
}

// The piece with which s begins.
fn first_piece(s: &[u8]) -> Option<Piece> {
    let chunk = part(s, 0, 4).utf8_chunks().next()?;
    match chunk.valid().chars().next() {
        Some(c) if !is_odd(c) => Some(Piece::Character(c)),
        _ => Some(Piece::Byte(byte_at(s, 0))),
    }
}

// What stands behind it.
fn behind(s: &[u8], piece: Piece) -> &[u8] {
    part(s, piece.bytes(), s.len())
}

// A name or a path in at most so many columns, and `...` where it has more. No piece takes less than a byte.
pub fn shown<W: fmt::Write>(out: &mut W, s: &[u8], most: usize) {
    let mut wide: usize = 0;
    let mut rest = s;
    for _ in 0..s.len() {
        let Some(piece) = first_piece(rest) else {
            return;
        };
        wide = wide.saturating_add(piece.columns());
        if most < wide {
            let _ = out.write_str("...");
            return;
        }
        let _ = write!(out, "{piece}");
        rest = behind(rest, piece);
    }
}

// How many columns it takes.
fn width(s: &[u8]) -> usize {
    let mut wide: usize = 0;
    let mut rest = s;
    for _ in 0..s.len() {
        let Some(piece) = first_piece(rest) else {
            break;
        };
        wide = wide.saturating_add(piece.columns());
        rest = behind(rest, piece);
    }
    wide
}

// The end that takes at most so many columns.
fn end_of(s: &[u8], most: usize) -> &[u8] {
    let mut wide = width(s);
    let mut rest = s;
    for _ in 0..s.len() {
        if wide <= most {
            break;
        }
        let Some(piece) = first_piece(rest) else {
            break;
        };
        wide = wide.saturating_sub(piece.columns());
        rest = behind(rest, piece);
    }
    rest
}

// A path by its end, in 80 columns and `...` before it where it has more.
pub fn shown_end<W: fmt::Write>(out: &mut W, s: &[u8]) {
    let end = end_of(s, 80);
    if end.len() < s.len() {
        let _ = out.write_str("...");
    }
    shown(out, end, 80);
}
