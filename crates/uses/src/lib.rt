// What each sector of a disk serves, by the chains: how many holders it has, and the first of them. The library has followed the chains before; here nothing is decided.
#![tactic(auto)]

use catalog::{entry_list, entry_start, first_page, last_page, valid_file};
use disk::{Place, link_of, sectors_of};
use files::{MAX_PAIRS, last_list, parse_track_sector_pair};
use lists::byte_at;
use screen::{sector_number, vtoc};

// What holds a sector: the VTOC, a catalog page, a list or a data pair of a file. Files count from 1, the first live entry of the catalog.
#[derive(Clone, Copy, Debug, PartialEq, Eq)]
pub enum Holder {
    Vtoc,
    Page,
    List(u32),
    Data(u32),
}

impl Holder {
    pub fn file(self) -> Option<u32> {
        match self {
            Holder::Vtoc | Holder::Page => None,
            Holder::List(file) | Holder::Data(file) => Some(file),
        }
    }
}

// The holders that are kept of a sector.
pub const KEPT: u32 = 6;

// How many hold a sector, and the first of them.
#[derive(Clone, Copy)]
pub struct SectorUse {
    pub held: u32,
    pub kept: [Option<Holder>; KEPT as usize],
}

impl SectorUse {
    fn none() -> SectorUse {
        SectorUse {
            held: 0,
            kept: [None; KEPT as usize],
        }
    }

    pub fn first(self) -> Option<Holder> {
        self.kept[0]
    }

    // It has more than one holder, or one twice.
    pub fn is_shared(self) -> bool {
        1 < self.held
    }

    fn give(&mut self, holder: Holder) {
        if let Some(kept) = self.kept.get_mut(self.held as usize) {
            *kept = Some(holder);
        }
        self.held = self.held.saturating_add(1);
    }
}

// The uses of all sectors of a disk of `per` sectors a track.
#[derive(Drop)]
pub struct Uses {
    per: u8,
    sectors: [SectorUse; 560],
}

impl Uses {
    pub fn at(&self, p: Place) -> SectorUse {
        match self.sectors.get(sector_number(self.per, p)) {
            Some(sector) => *sector,
            None => SectorUse::none(),
        }
    }

    // Gives a sector a holder more.
    fn give(&mut self, p: Place, holder: Holder) {
        if let Some(sector) = self.sectors.get_mut(sector_number(self.per, p)) {
            sector.give(holder);
        }
    }

    fn give_pairs(&mut self, disk: &[u8], p: Place, file: u32) {
        for i in 0..MAX_PAIRS {
            let q = parse_track_sector_pair(disk, self.per, p, i);
            if q.track.0 == 0 {
                return;
            }
            self.give(q, Holder::Data(file));
        }
    }

    fn give_lists(&mut self, disk: &[u8], first: Place, file: u32) {
        let mut p = first;
        for _ in 0..560u16 {
            self.give(p, Holder::List(file));
            self.give_pairs(disk, p, file);
            if last_list(disk, self.per, p) {
                return;
            }
            p = link_of(disk, self.per, p);
        }
    }

    // Of the entries of a page that are in use: the files so far.
    fn give_entries(&mut self, disk: &[u8], p: Place, before: u32) -> u32 {
        let mut files = before;
        for i in 0..7u8 {
            let x = entry_start(self.per, p, i);
            if valid_file(byte_at(disk, x)) {
                files = files.saturating_add(1);
                self.give_lists(disk, entry_list(disk, x), files);
            }
        }
        files
    }

    fn give_pages(&mut self, disk: &[u8]) {
        let mut p = first_page(disk, self.per);
        let mut files = 0;
        for _ in 0..560u16 {
            self.give(p, Holder::Page);
            files = self.give_entries(disk, p, files);
            if last_page(disk, self.per, p) {
                return;
            }
            p = link_of(disk, self.per, p);
        }
    }
}

// The uses of the sectors of a disk that is not refused.
pub fn uses_of(disk: &[u8]) -> Uses {
    let mut uses = Uses {
        per: sectors_of(disk),
        sectors: [SectorUse::none(); 560],
    };
    uses.give(vtoc(), Holder::Vtoc);
    uses.give_pages(disk);
    uses
}

// The shown name of a file, by its number from 1 on: an entry of the catalog has 37 bytes.
pub fn name_of(entries: &[u8], file: u32) -> &[u8] {
    let Some(before) = file.checked_sub(1) else {
        return b"";
    };
    let entry = lists::part(entries, 37 * before as usize, 37);
    lists::part(entry, 5, byte_at(entry, 4) as usize)
}
