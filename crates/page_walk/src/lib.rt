// The catalog's pages, followed once more for people: each is shown on standard output, as text or as JSON, or the place where a refusal is met is told on
// standard error.
// The library has judged the disk before; here nothing is decided.
#![tactic(auto)]

use catalog::{
    entry_start, first_page, last_page, parse_file_entry, plain_page, raw_name, valid_file,
};
use disk::{Place, link_of, on_disk, sectors_of};
use lists::byte_at;
use outcome::Refusal;
use screen::names::shown_name;
use screen::seen::Seen;
use screen::{
    STDERR_FILENO, STDOUT_FILENO, count, json, names, place, place_column, say, tell, text_number,
    text_place, vtoc,
};

// What links are followed for: to show what they lead to, as lines or as objects of JSON, or to tell the place where a refusal is met.
#[derive(Clone, Copy, Debug, PartialEq, Eq)]
pub enum Aim {
    Lines,
    Objects,
    Place(Refusal),
}

// Where a page or list ends its chain: its link, if that holds something.
pub fn last_link(disk: &[u8], per: u8, p: Place) {
    let q = link_of(disk, per, p);
    if (q.track.0 != 0) | (q.sector.0 != 0) {
        text_place(STDOUT_FILENO, b" (link ", q);
        say(b")");
    }
    say(b"\n");
}

// The entry from x on is in use.
pub fn is_live(disk: &[u8], x: usize) -> bool {
    valid_file(byte_at(disk, x))
}

fn live_entries(disk: &[u8], per: u8, p: Place) -> u64 {
    let live = (0..7u8).filter(|i| is_live(disk, entry_start(per, p, *i)));
    live.count() as u64
}

fn page_line(disk: &[u8], per: u8, p: Place) {
    say(b"  page ");
    place_column(STDOUT_FILENO, p);
    count(
        STDOUT_FILENO,
        live_entries(disk, per, p),
        b"entry",
        b"entries",
    );
    if last_page(disk, per, p) {
        say(b", no next page");
        last_link(disk, per, p);
        return;
    }
    text_place(STDOUT_FILENO, b" -> page ", link_of(disk, per, p));
    say(b"\n");
}

// The link of a page or list as it stands, and the end of its object of JSON.
pub fn link_object(disk: &[u8], per: u8, p: Place) {
    say(b", \"link\": ");
    json::place(link_of(disk, per, p));
    say(b"}}");
}

// The same as JSON. k pages stand before it.
fn page_object(disk: &[u8], per: u8, p: Place, k: u16) {
    json::element(u64::from(k));
    json::place(p);
    text_number(
        STDOUT_FILENO,
        b", \"entries\": ",
        live_entries(disk, per, p),
    );
    link_object(disk, per, p);
}

// The entry from x on is in use, and 80h stands in its name.
fn is_bad(disk: &[u8], x: usize) -> bool {
    is_live(disk, x) & raw_name(disk, x).contains(&0x80)
}

// The first live entry of a page whose name holds 80h.
fn bad_entry(disk: &[u8], per: u8, p: Place) -> u8 {
    let bad = (0..7u8).find(|i| is_bad(disk, entry_start(per, p, *i)));
    bad.unwrap_or(6)
}

// Whether a page can be read.
fn readable(disk: &[u8], per: u8, p: Place, seen: &Seen) -> Result<(), Refusal> {
    if !on_disk(per, p) {
        return Err(Refusal::OffDisc);
    }
    if seen.has(per, p) {
        return Err(Refusal::Ring);
    }
    if !plain_page(disk, per, p) {
        return Err(Refusal::BadLetter);
    }
    Ok(())
}

// What a link leads to, where that cannot be followed.
pub fn bad_link(why: Refusal, what: &[u8], to: Place) {
    if why == Refusal::Ring {
        tell(b" leads back to ");
        tell(what);
        place(STDERR_FILENO, to);
        return;
    }
    text_place(STDERR_FILENO, b" leads to ", to);
}

// The place where the walk along the pages stops. `from` is the VTOC if no page was read.
fn page_stop(disk: &[u8], per: u8, why: Refusal, pages: u16, from: Place, to: Place) {
    if why == Refusal::BadLetter {
        let i = bad_entry(disk, per, to);
        text_place(STDERR_FILENO, b"\n  catalog page ", to);
        text_number(STDERR_FILENO, b", entry ", u64::from(i).saturating_add(1));
        tell(b": ");
        let e = parse_file_entry(disk, entry_start(per, to, i));
        shown_name(STDERR_FILENO, e.name);
        return;
    }
    if pages == 0 {
        tell(b"\n  VTOC 17/0");
    } else {
        text_place(STDERR_FILENO, b"\n  catalog page ", from);
    }
    bad_link(why, b"page ", to);
}

// Shows a page that can be read, or tells the place of the refusal that is met here, as the aim has it.
fn at_page(
    disk: &[u8],
    per: u8,
    aim: Aim,
    read: Result<(), Refusal>,
    pages: u16,
    from: Place,
    to: Place,
) {
    match (aim, read) {
        (Aim::Lines, Ok(())) => page_line(disk, per, to),
        (Aim::Objects, Ok(())) => page_object(disk, per, to, pages),
        (Aim::Place(wanted), Err(why)) if wanted == why => {
            page_stop(disk, per, why, pages, from, to);
        },
        _ => {},
    }
}

// Follows the pages of a disk that has a VTOC, up to the first refusal.
pub fn follow_pages(disk: &[u8], aim: Aim) -> Result<(), Refusal> {
    let per = sectors_of(disk);
    let mut seen = Seen::none();
    let mut from = vtoc();
    let mut p = first_page(disk, per);
    for k in 0..561u16 {
        let read = readable(disk, per, p, &seen);
        at_page(disk, per, aim, read, k, from, p);
        read?;
        if last_page(disk, per, p) {
            return Ok(());
        }
        seen.add(per, p);
        from = p;
        p = link_of(disk, per, p);
    }
    Err(Refusal::Ring)
}

fn twin_on_page(disk: &[u8], per: u8, p: Place, raw: &[u8]) -> bool {
    let mut entries = (0..7u8).map(|i| entry_start(per, p, i));
    entries.any(|x| is_live(disk, x) & names::is_twin(raw, raw_name(disk, x)))
}

// A file of the disk, whose pages were followed before, has a name that shows as this one does and is cut differently.
pub fn twin_on_disk(disk: &[u8], raw: &[u8]) -> bool {
    let per = sectors_of(disk);
    let mut p = first_page(disk, per);
    for _ in 0..560u16 {
        if twin_on_page(disk, per, p, raw) {
            return true;
        }
        if last_page(disk, per, p) {
            return false;
        }
        p = link_of(disk, per, p);
    }
    false
}
