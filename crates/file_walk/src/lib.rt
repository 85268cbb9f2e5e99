// The files of a disk and the lists of each, followed once more for people: each is shown on standard output, as text or as JSON, or the place where a refusal
// is met is told on standard error. The library has judged the disk before; here nothing is decided.
#![tactic(auto)]

use catalog::{FileEntry, entry_start, first_page, last_page, parse_file_entry, raw_name};
use disk::{Place, link_of, on_disk, sectors_of};
use files::{MAX_PAIRS, PAIR_BYTES, last_list, parse_track_sector_pair};
use outcome::Refusal;
use page_walk::{Aim, bad_link, follow_pages, is_live, last_link, link_object, twin_on_disk};
use screen::names::shown_name;
use screen::seen::Seen;
use screen::space::file_space;
use screen::{
    BINARY, Failure, STDERR_FILENO, STDOUT_FILENO, bytes_column, entry_columns, json, names,
    place_column, refusal, right, say, tell, text_number, text_place, vtoc,
};

// What the walk is for. `raw` asks for all names as they are cut; `fetch` says that each file may be fetched.
#[derive(Clone, Copy)]
pub struct Purpose {
    pub aim: Aim,
    pub raw: bool,
    pub fetch: bool,
}

// How far the walk over the entries has come: how many there were, and the next entry's block in the archive.
#[derive(Clone, Copy)]
struct Step {
    entries: u64,
    block: u64,
}

// How many pairs the list has.
fn pairs_in(disk: &[u8], p: Place) -> u64 {
    let mut space = [0u8; PAIR_BYTES];
    match files::track_sector_pairs(disk, p.track, p.sector, &mut space) {
        Ok(length) => (length / 2) as u64,
        Err(_) => 0,
    }
}

fn list_line(disk: &[u8], per: u8, p: Place) {
    say(b"                                list ");
    place_column(STDOUT_FILENO, p);
    let n = pairs_in(disk, p);
    right(STDOUT_FILENO, n, 3);
    if n == 1 {
        say(b" pair");
    } else {
        say(b" pairs");
    }
    if last_list(disk, per, p) {
        say(b", no next list");
        last_link(disk, per, p);
        return;
    }
    text_place(STDOUT_FILENO, b" -> list ", link_of(disk, per, p));
    say(b"\n");
}

// The same as JSON. k lists stand before it.
fn list_object(disk: &[u8], per: u8, p: Place, k: u16) {
    json::element(u64::from(k));
    say(b"  ");
    json::place(p);
    text_number(STDOUT_FILENO, b", \"pairs\": ", pairs_in(disk, p));
    link_object(disk, per, p);
}

// Whether a list can be reached by a link.
fn reachable(per: u8, p: Place, seen: &Seen) -> Result<(), Refusal> {
    if !on_disk(per, p) {
        return Err(Refusal::OffDisc);
    }
    if seen.has(per, p) {
        return Err(Refusal::Ring);
    }
    Ok(())
}

// The first pair of a list that is not on the disk.
fn bad_pair(disk: &[u8], per: u8, p: Place) -> Option<u8> {
    for i in 0..MAX_PAIRS {
        let q = parse_track_sector_pair(disk, per, p, i);
        if q.track.0 == 0 {
            return None;
        }
        if !on_disk(per, q) {
            return Some(i);
        }
    }
    None
}

// The walk along the lists of one entry, before which `entries` were followed.
#[derive(Clone, Copy)]
struct ListWalk<'a> {
    disk: &'a [u8],
    per: u8,
    aim: Aim,
    entries: u64,
    entry: FileEntry,
}

impl<'a> ListWalk<'a> {
    // The entry in which a refusal is met.
    fn tell_entry(&self) {
        text_number(STDERR_FILENO, b"\n  file ", self.entries.saturating_add(1));
        tell(b" ");
        shown_name(STDERR_FILENO, self.entry.name);
        tell(b": ");
    }

    // The place where the walk stops at a list. `lists` of them were read before.
    fn list_stop(&self, why: Refusal, lists: u16, from: Place, to: Place) {
        self.tell_entry();
        if lists == 0 {
            tell(b"the entry");
        } else {
            text_place(STDERR_FILENO, b"list ", from);
        }
        bad_link(why, b"list ", to);
    }

    // Shows a list that is reached, or tells the place of the refusal that is met here, as the aim has it.
    fn at_list(&self, reached: Result<(), Refusal>, lists: u16, from: Place, to: Place) {
        match (self.aim, reached) {
            (Aim::Lines, Ok(())) => list_line(self.disk, self.per, to),
            (Aim::Objects, Ok(())) => list_object(self.disk, self.per, to, lists),
            (Aim::Place(wanted), Err(why)) if wanted == why => {
                self.list_stop(why, lists, from, to);
            },
            _ => {},
        }
    }

    // Refuses the link of a list that has a track and sector 0, and tells its place, as the aim has it.
    fn check_link(&self, p: Place) -> Result<(), Refusal> {
        let q = link_of(self.disk, self.per, p);
        if (q.track.0 == 0) | (q.sector.0 != 0) {
            return Ok(());
        }
        if self.aim == Aim::Place(Refusal::CutLink) {
            self.tell_entry();
            text_place(STDERR_FILENO, b"list ", p);
            text_place(STDERR_FILENO, b" leads to ", q);
        }
        Err(Refusal::CutLink)
    }

    // Follows the lists, up to the first refusal.
    fn follow_lists(&self) -> Result<(), Refusal> {
        let mut seen = Seen::none();
        let mut p = self.entry.list;
        let mut from = p;
        for k in 0..561u16 {
            let reached = reachable(self.per, p, &seen);
            self.at_list(reached, k, from, p);
            reached?;
            if last_list(self.disk, self.per, p) {
                return Ok(());
            }
            self.check_link(p)?;
            seen.add(self.per, p);
            from = p;
            p = link_of(self.disk, self.per, p);
        }
        Err(Refusal::Ring)
    }

    // Refuses a list with a pair that is not on the disk, and tells its place, as the aim has it.
    fn check_pairs(&self, p: Place) -> Result<(), Refusal> {
        let Some(i) = bad_pair(self.disk, self.per, p) else {
            return Ok(());
        };
        if self.aim == Aim::Place(Refusal::OffDisc) {
            self.tell_entry();
            text_number(STDERR_FILENO, b"pair ", u64::from(i).saturating_add(1));
            text_place(STDERR_FILENO, b" of list ", p);
            text_place(
                STDERR_FILENO,
                b" is ",
                parse_track_sector_pair(self.disk, self.per, p, i),
            );
        }
        Err(Refusal::OffDisc)
    }

    // Looks at the pairs of the lists, which were followed.
    fn follow_pairs(&self) -> Result<(), Refusal> {
        let mut p = self.entry.list;
        for _ in 0..560u16 {
            self.check_pairs(p)?;
            if last_list(self.disk, self.per, p) {
                return Ok(());
            }
            p = link_of(self.disk, self.per, p);
        }
        Ok(())
    }

    fn follow(&self) -> Result<(), Refusal> {
        self.follow_lists()?;
        self.follow_pairs()
    }
}

// How many bytes an entry has, as far as that is known: as the archive has them; where there is no archive, as the file is handed over, if it may be fetched. Only
// a Binary hands over bytes.
fn bytes_of(
    disk: &[u8],
    fetch: bool,
    found: Option<reader::Entry>,
    entries: u64,
    e: FileEntry,
) -> Option<u64> {
    if e.file_type != BINARY {
        return None;
    }
    if let Some(found) = found {
        return Some(u64::from(found.size));
    }
    if !fetch {
        return None;
    }
    let mut out = file_space();
    match files::file(disk, entries, &mut out) {
        Ok(length) => Some(length as u64),
        Err(_) => Some(0),
    }
}

fn entry_line(e: FileEntry, bytes: Option<u64>) {
    entry_columns(STDOUT_FILENO, e.locked != 0, e.file_type, e.count);
    bytes_column(STDOUT_FILENO, bytes);
    say(b"  ");
    shown_name(STDOUT_FILENO, e.name);
    say(b"\n");
}

// The same as JSON, its array of lists open. k entries stand before it.
fn entry_object(k: u64, e: FileEntry, bytes: Option<u64>, name: &[u8]) {
    json::element(k);
    say(b"{\"name\": ");
    json::shown_name(e.name);
    say(b", \"raw_name\": ");
    json::hex(name);
    say(b", \"type\": ");
    json::kind(e.file_type);
    say(b", \"locked\": ");
    json::boolean(e.locked != 0);
    text_number(STDOUT_FILENO, b", \"sectors\": ", u64::from(e.count));
    say(b", \"bytes\": ");
    json::known(bytes);
    say(b", \"lists\": [");
}

// The name as it is cut, where `raw` asks for all names or another name shows alike.
fn cut_line(disk: &[u8], raw: bool, name: &[u8]) {
    if raw || twin_on_disk(disk, name) {
        names::line(name);
    }
}

// Shows an entry, if the aim is to show.
fn show_entry(
    disk: &[u8],
    to_do: Purpose,
    found: Option<reader::Entry>,
    k: u64,
    e: FileEntry,
    name: &[u8],
) {
    match to_do.aim {
        Aim::Lines => {
            entry_line(e, bytes_of(disk, to_do.fetch, found, k, e));
            cut_line(disk, to_do.raw, name);
        },
        Aim::Objects => entry_object(k, e, bytes_of(disk, to_do.fetch, found, k, e), name),
        Aim::Place(_) => {},
    }
}

// Follows the entry from x on, if it is in use.
fn follow_entry(
    disk: &[u8],
    per: u8,
    to_do: Purpose,
    archive: &[u8],
    x: usize,
    s: &mut Step,
) -> Result<(), Refusal> {
    if !is_live(disk, x) {
        return Ok(());
    }
    let entry = parse_file_entry(disk, x);
    let found = reader::next_entry(archive, s.block);
    show_entry(disk, to_do, found, s.entries, entry, raw_name(disk, x));
    let lists = ListWalk {
        disk,
        per,
        aim: to_do.aim,
        entries: s.entries,
        entry,
    };
    let followed = lists.follow();
    if to_do.aim == Aim::Objects {
        say(b"\n    ]}");
    }
    s.entries = s.entries.saturating_add(1);
    s.block = match found {
        Some(found) => u64::from(found.next),
        None => 0,
    };
    followed
}

// Follows the entries of all pages, which were followed before, up to the first refusal. `archive` is that of the disk, or empty.
pub fn follow_files(disk: &[u8], to_do: Purpose, archive: &[u8]) -> Result<(), Refusal> {
    let per = sectors_of(disk);
    let mut p = first_page(disk, per);
    let mut s = Step {
        entries: 0,
        block: 1,
    };
    for _ in 0..560u16 {
        for i in 0..7u8 {
            follow_entry(disk, per, to_do, archive, entry_start(per, p, i), &mut s)?;
        }
        if last_page(disk, per, p) {
            return Ok(());
        }
        p = link_of(disk, per, p);
    }
    Ok(())
}

// What the VTOC says, where it is none of this disk.
fn tell_table(disk: &[u8], per: u8) {
    let tracks = disk::byte_of(disk, per, vtoc(), 52);
    let sectors = disk::byte_of(disk, per, vtoc(), 53);
    text_number(
        STDERR_FILENO,
        b"\n  the VTOC at 17/0 says ",
        u64::from(tracks),
    );
    text_number(STDERR_FILENO, b" tracks of ", u64::from(sectors));
    tell(b" sectors");
    if (per == 13) & (sectors != 13) {
        tell(b";\n  on a disk of 13 sectors a track it must say 13");
    }
}

// Where on a disk the refusal is met, as far as it has a place.
fn tell_place(disk: &[u8], why: Refusal) {
    if why == Refusal::NoTable {
        tell_table(disk, sectors_of(disk));
        return;
    }
    let aim = Aim::Place(why);
    if follow_pages(disk, aim).is_ok() {
        let to_do = Purpose {
            aim,
            raw: false,
            fetch: false,
        };
        let _ = follow_files(disk, to_do, b"");
    }
}

// Says why a disk is refused.
pub fn refuse(disk: &[u8], why: Refusal) -> Failure {
    refusal(STDERR_FILENO, why);
    tell_place(disk, why);
    tell(b"\n");
    Failure::Refused
}

// Says that the archive of a disk would be too long.
fn refuse_overlong(disk: &[u8]) -> Failure {
    let blocks = match files::survey(disk) {
        Ok(s) => s.archive_blocks,
        Err(_) => 0,
    };
    refusal(STDERR_FILENO, Refusal::Overlong);
    text_number(STDERR_FILENO, b"\n  the archive would have ", blocks);
    tell(b" blocks, and the most is 4096\n");
    Failure::Refused
}

// Says why there is no archive of a disk.
pub fn refuse_archive(disk: &[u8], why: Refusal) -> Failure {
    match why {
        Refusal::Overlong => refuse_overlong(disk),
        _ => refuse(disk, why),
    }
}
