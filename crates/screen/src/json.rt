// Pieces of a JSON object, on standard output: strings, numbers, and what stands between them. The keys are written where their values are.
use crate::{STDOUT_FILENO, kind_letters, number, say, text_number};
use disk::Place;
use outcome::Refusal;

fn letter(b: u8) {
    match b {
        b'"' | b'\\' => say(&[b'\\', b]),
        0..=31 | 127 => {
            say(b"\\u00");
            io::print_hex(STDOUT_FILENO, u64::from(b), 2);
        },
        _ => say(&[b]),
    }
}

// A string. Of a name all bytes are below 80h; a path is text in UTF-8, as far as it is. A byte that is none of UTF-8 is shown as U+FFFD.
pub fn string(s: &[u8]) {
    say(b"\"");
    for chunk in s.utf8_chunks() {
        for b in chunk.valid().as_bytes() {
            letter(*b);
        }
        for _ in chunk.invalid() {
            say(b"\\ufffd");
        }
    }
    say(b"\"");
}

// A name as the catalog shows it.
pub fn shown_name(n: catalog::Name) {
    let letters = n.letters;
    string(lists::part(&letters, 0, n.length as usize));
}

// The bytes in hexadecimal, as a string.
pub fn hex(s: &[u8]) {
    say(b"\"");
    for b in s {
        io::print_hex(STDOUT_FILENO, u64::from(*b), 2);
    }
    say(b"\"");
}

pub fn boolean(yes: bool) {
    if yes {
        say(b"true");
    } else {
        say(b"false");
    }
}

// The letters of a type, as a string.
pub fn kind(code: u8) {
    say(b"\"");
    say(kind_letters(code).as_bytes());
    say(b"\"");
}

// A number, or null where it is not known.
pub fn known(n: Option<u64>) {
    match n {
        Some(n) => number(STDOUT_FILENO, n),
        None => say(b"null"),
    }
}

// What stands before element k of an array: a comma behind the one before, and a new line.
pub fn element(k: u64) {
    if 0 < k {
        say(b",");
    }
    say(b"\n    ");
}

// The front of an object that has a location: it is open.
pub fn place(p: Place) {
    text_number(STDOUT_FILENO, b"{\"track\": ", u64::from(p.track.0));
    text_number(STDOUT_FILENO, b", \"sector\": ", u64::from(p.sector.0));
}

// A refusal; null for none.
pub fn refusal(why: Option<Refusal>) {
    say(b",\n  \"refusal\": ");
    match why {
        Some(why) => {
            text_number(STDOUT_FILENO, b"{\"number\": ", u64::from(u8::from(why)));
            say(b", \"word\": \"");
            say(why.word().as_bytes());
            say(b"\"}");
        },
        None => say(b"null"),
    }
}
