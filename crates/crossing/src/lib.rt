// The sectors of a disk that serve two purposes, and the held ones that the VTOC's map calls free: each with its holders. What is counted in the last line is the
// library's; here nothing is decided.
#![tactic(auto)]

use disk::{Place, Sector, Track, sectors_of};
use holders::{HolderCounts, is_free};
use screen::names::name;
use screen::space::catalog_space;
use screen::{Failure, STDOUT_FILENO, count, finish, place_column, right, say, text_number};
use uses::{Holder, KEPT, SectorUse, Uses, name_of, uses_of};

// A list or a data pair of a file.
fn say_file(what: &[u8], entries: &[u8], file: u32) {
    text_number(STDOUT_FILENO, what, u64::from(file));
    say(b" ");
    name(STDOUT_FILENO, name_of(entries, file));
}

fn say_holder(entries: &[u8], holder: Holder) {
    match holder {
        Holder::Vtoc => say(b"VTOC"),
        Holder::Page => say(b"catalog page"),
        Holder::List(file) => say_file(b"list of file ", entries, file),
        Holder::Data(file) => say_file(b"data of file ", entries, file),
    }
}

// The holders of a sector, each behind the first on a row of its own; and how many there are that are not kept.
fn say_holders(entries: &[u8], sector: SectorUse) {
    for (i, holder) in sector.kept.into_iter().enumerate() {
        if let Some(holder) = holder {
            if 0 < i {
                say(b"\n                   ");
            }
            say_holder(entries, holder);
        }
    }
    if KEPT < sector.held {
        text_number(
            STDOUT_FILENO,
            b"\n                   and ",
            u64::from(sector.held - KEPT),
        );
        say(b" more");
    }
}

// A sector: its place, how many hold it, and its holders.
fn show_sector(entries: &[u8], p: Place, sector: SectorUse) {
    say(b"  ");
    place_column(STDOUT_FILENO, p);
    right(STDOUT_FILENO, u64::from(sector.held), 6);
    say(b"  ");
    say_holders(entries, sector);
    say(b"\n");
}

// What is looked for: sectors with more than one holder, or held ones that the map calls free.
#[derive(Clone, Copy, Debug, PartialEq, Eq)]
enum Crossing {
    Shared,
    Loose,
}

// The sectors of one kind, in order of track and sector.
fn show_sectors(disk: &[u8], uses: &Uses, entries: &[u8], kind: Crossing) {
    say(b"  sector  holders  held by\n");
    let per = sectors_of(disk);
    for track in 0..35u8 {
        for sector in 0..per {
            let p = Place {
                track: Track(track),
                sector: Sector(sector),
            };
            let found = uses.at(p);
            let crossed = match kind {
                Crossing::Shared => found.is_shared(),
                Crossing::Loose => (0 < found.held) & is_free(disk, per, p),
            };
            if crossed {
                show_sector(entries, p, found);
            }
        }
    }
}

fn show_kinds(disk: &[u8], h: HolderCounts, uses: &Uses, entries: &[u8]) {
    if 0 < h.shared {
        say(b"\nSectors with more than one holder\n");
        show_sectors(disk, uses, entries, Crossing::Shared);
    }
    if 0 < h.held_free {
        say(b"\nHeld sectors that the map calls free\n");
        show_sectors(disk, uses, entries, Crossing::Loose);
    }
}

fn last_line(rt: &HostRuntime, h: HolderCounts) -> Result<(), Failure> {
    say(b"\n");
    count(
        STDOUT_FILENO,
        u64::from(h.shared),
        b"sector shared, ",
        b"sectors shared, ",
    );
    count(
        STDOUT_FILENO,
        u64::from(h.held_free),
        b"held sector",
        b"held sectors",
    );
    finish(rt, b" free in the map: not clean\n")?;
    Err(Failure::Refused)
}

// Lists these sectors of a disk that is not refused, whose counts are h: one that is not clean is refused.
pub fn list(rt: &HostRuntime, disk: &[u8], h: HolderCounts) -> Result<(), Failure> {
    if h.clean {
        return finish(
            rt,
            b"\nclean: no sector serves two purposes, and none that is held is free in the map\n",
        );
    }
    let uses = uses_of(disk);
    let mut entries = catalog_space();
    let _ = catalog::parse_catalogs(disk, &mut entries);
    show_kinds(disk, h, &uses, &entries);
    last_line(rt, h)
}
