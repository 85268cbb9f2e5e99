// The sectors of a disk as a picture in letters: what each serves, by the chains and by the VTOC's map.
#![tactic(auto)]

use disk::{Place, Sector, Track, sectors_of};
use holders::is_free;
use screen::{STDOUT_FILENO, right, say};
use uses::{Holder, Uses, uses_of};

const TRACKS: u8 = 35;

// The letter of a sector, by what it serves.
fn held_letter(uses: &Uses, p: Place) -> u8 {
    let sector = uses.at(p);
    if sector.is_shared() {
        return b'X';
    }
    match sector.first() {
        Some(Holder::Vtoc) => b'V',
        Some(Holder::Page) => b'C',
        Some(Holder::List(_)) => b'L',
        Some(Holder::Data(_)) => b'D',
        None => b'#',
    }
}

// The letter of a sector: a small one, or a dot, where the VTOC's map calls it free.
fn letter(disk: &[u8], per: u8, uses: &Uses, track: u8, sector: u8) -> u8 {
    let p = Place {
        track: Track(track),
        sector: Sector(sector),
    };
    match held_letter(uses, p) {
        held if !is_free(disk, per, p) => held,
        b'#' => b'.',
        held => held.to_ascii_lowercase(),
    }
}

// The letters of a track.
fn letters(disk: &[u8], per: u8, uses: &Uses, track: u8) -> [u8; 16] {
    let mut letters = [0u8; 16];
    for (sector, place) in (0..per).zip(letters.iter_mut()) {
        *place = letter(disk, per, uses, track, sector);
    }
    letters
}

fn rows(disk: &[u8], per: u8, uses: &Uses) {
    for track in 0..TRACKS {
        right(STDOUT_FILENO, u64::from(track), 6);
        say(b"   ");
        let row = letters(disk, per, uses, track);
        say(lists::part(&row, 0, per as usize));
        say(b"\n");
    }
}

// How many sectors have such a letter.
fn count_letters<F: Fn(u8) -> bool>(disk: &[u8], per: u8, uses: &Uses, wanted: F) -> u64
    requires { F.IsAlwaysCallable wanted }
{
    let mut n: u64 = 0;
    for track in 0..TRACKS {
        for sector in 0..per {
            if wanted(letter(disk, per, uses, track, sector)) {
                n = n.saturating_add(1);
            }
        }
    }
    n
}

fn legend(disk: &[u8], per: u8, uses: &Uses, wanted: u8, what: &[u8]) {
    let n = count_letters(disk, per, uses, |c| c == wanted);
    right(STDOUT_FILENO, n, 6);
    say(b"   ");
    say(&[wanted]);
    say(b"   ");
    say(what);
    say(b"\n");
}

fn legends(disk: &[u8], per: u8, uses: &Uses) {
    legend(disk, per, uses, b'V', b"VTOC");
    legend(disk, per, uses, b'C', b"catalog page");
    legend(disk, per, uses, b'L', b"track/sector list");
    legend(disk, per, uses, b'D', b"data");
    legend(
        disk,
        per,
        uses,
        b'X',
        b"more than one of these, or one twice",
    );
    legend(disk, per, uses, b'.', b"free");
    legend(
        disk,
        per,
        uses,
        b'#',
        b"used in the map, in no chain: DOS itself, or lost",
    );
    let small = count_letters(disk, per, uses, |c| c.is_ascii_lowercase());
    right(STDOUT_FILENO, small, 6);
    say(b"       small letters: in a chain, free in the map");
}

fn head(per: u8) {
    say(b"\n track   sector\n         ");
    say(lists::part(b"0123456789ABCDEF", 0, per as usize));
    say(b"\n");
}

// Draws the map of a disk that is not refused.
pub fn draw(disk: &[u8]) {
    let per = sectors_of(disk);
    let uses = uses_of(disk);
    head(per);
    rows(disk, per, &uses);
    say(b"\n");
    legends(disk, per, &uses);
}
