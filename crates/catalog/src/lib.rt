// The catalog: its pages and entries (catalog.rs).
#![tactic(auto)]

ghost use Rattle.std.specs.Prelude.{◌≡◌, cond, ℕ, ◌+◌, ◌*◌, ◌<◌, ◌≤◌, length, take, drop};
ghost use Rattle.lists.specs.Select.{among};
ghost use Rattle.outcome.specs.Outcome.{left_by};
ghost use Rattle.disk.specs.Disk.{per_of, start};
ghost use Rattle.catalog.specs.Catalog.{known_type, kind_of, letter, valid_file, live, entry_from, entries_of, plain_names, last_page, first_page};
ghost use Rattle.catalog.specs.Pages.{plain_entry, walked, pages_counted};
ghost use Rattle.catalog.specs.Listing.{ShownIs, name_of, entry_head, file_entry, bytes37, live_bytes, page_bytes, Wrote, Fronts, Ready, walk_listed, Catalogued};

use disk::{
    Place, Sector, Track, byte_of, chain_budget, link_of, on_disk, readable, sector_start,
    sectors_of,
};
use lists::{byte_at, copy_at, part, put_word, word_at};
use outcome::Refusal;

// The number of pages and of live entries that a catalog has.
#[derive(Clone, Copy, Debug, PartialEq, Eq)]
pub struct Pages {
    pub count: u16,
    pub entries: u16,
}

// A shown name: its letters, zeros behind them, and how many letters it has.
#[derive(Clone, Copy, Debug, PartialEq, Eq)]
pub struct Name {
    pub letters: [u8; 30],
    pub length: u8,
}

// An entry without its name.
#[derive(Clone, Copy, Debug, PartialEq, Eq)]
pub struct EntryHead {
    pub list: Place,
    pub file_type: u8,
    pub locked: u8,
    pub count: u16,
}

// An entry. The type is one of the nine numbers; locked is 0 or 1.
#[derive(Clone, Copy, Debug, PartialEq, Eq)]
pub struct FileEntry {
    pub list: Place,
    pub file_type: u8,
    pub locked: u8,
    pub name: Name,
    pub count: u16,
}

// The answer of the catalog call: how many bytes it handed over, and the number of pages followed.
#[derive(Clone, Copy, Debug, PartialEq, Eq)]
pub struct Listing {
    pub length: usize,
    pub pages: u16,
}

// A list track that an entry in use has.
#[tactic(auto, unfolding(crate::specs::Catalog::valid_file))]
pub fn valid_file(track: u8) -> bool
    ensures { result ≡ valid_file track }
{
    track != 0 && track != 255
}

// One of the eight codes.
fn known_type(code: u8) -> bool
    ensures { result ≡ known_type code }
{
    matches!(code, 0 | 1 | 2 | 4 | 8 | 10 | 20 | 40)
}

// The type of a code: one of the nine numbers.
#[tactic(auto, unfolding(crate::specs::Catalog::kind_of))]
pub fn file_type(code: u8) -> u8
    ensures { result ≡ kind_of code }
{
    if known_type(code) { code } else { 41 }
}

// A name byte as it is shown.
pub fn letter_of(b: u8) -> u8
    ensures { result ≡ letter b }
{
    if 128 < b { b - 128 } else { b }
}

// Where entry i of a page starts.
pub fn entry_start(per: u8, p: Place, i: u8) -> usize
    ensures is { result ≡ start per p + (11 + 35 * i) }
    ensures small { result < 16793600 }
{
    sector_start(per, p) + (11 + 35 * (i as usize))
}

// 80h stands among the bytes of a name. All are looked at: where it is known that they are 30, the loop becomes vector code.
fn bad_among(raw: &[u8]) -> bool
    ensures { result ≡ among 128 raw.now }
{
    let mut bad = false;
    for b in raw {
        bad = bad | (*b == 128);
    }
    bad
}

// 80h stands among the 30 bytes from i on, or among those that there are.
pub fn bad_letter(disk: &[u8], i: usize) -> bool
    ensures { result ≡ among 128 (take 30 (drop i disk.now)) }
{
    let raw = part(disk, i, 30);
    match raw.first_chunk::<30>() {
        Some(name) => bad_among(name),
        None => bad_among(raw),
    }
}

// The entry from x on is not in use, or its name holds no 80h.
#[tactic(auto, unfolding(crate::specs::Pages::plain_entry))]
fn plain_entry(disk: &[u8], x: usize) -> bool
    requires { x < 16793600 }
    ensures { result ≡ plain_entry (entry_from disk.now x) }
{
    !valid_file(byte_at(disk, x)) || !bad_letter(disk, x + 3)
}

// No live name of a page holds 80h.
pub fn plain_page(disk: &[u8], per: u8, p: Place) -> bool
    ensures { result ≡ plain_names (entries_of per disk.now p) }
{
    for i in 0..7u8 {
        if !plain_entry(disk, entry_start(per, p, i)) {
            return false;
        }
    }
    true
}

// 1 for an entry in use, else 0.
fn live_at(disk: &[u8], x: usize) -> u16
    ensures is { result ≡ cond (live (entry_from disk.now x)) 1 0 }
    ensures small { result ≤ 1 }
{
    if valid_file(byte_at(disk, x)) { 1 } else { 0 }
}

// The live entries of a page.
fn live_entries(disk: &[u8], per: u8, p: Place) -> u16
    ensures is { result ≡ length (entries_of per disk.now p) }
    ensures small { result ≤ 7 }
{
    let mut n: u16 = 0;
    for i in 0..7u8 {
        n += live_at(disk, entry_start(per, p, i));
    }
    n
}

// A page whose link has a zero is the last.
#[tactic(auto, unfolding(crate::specs::Catalog::last_page))]
pub fn last_page(disk: &[u8], per: u8, p: Place) -> bool
    ensures { result ≡ last_page per disk.now p }
{
    byte_of(disk, per, p, 1) == 0 || byte_of(disk, per, p, 2) == 0
}

// The pages from `first` on: 3, 4, 6 page by page.
fn count_from(disk: &[u8], per: u8, first: Place) -> Result<Pages, Refusal>
    ensures { result ≡ walked per disk.now first }
{
    let most = chain_budget(per);
    let mut p = first;
    let mut entries: u16 = 0;
    for k in 0..most {
        if !on_disk(per, p) {
            return Err(Refusal::OffDisc);
        }
        if !plain_page(disk, per, p) {
            return Err(Refusal::BadLetter);
        }
        entries += live_entries(disk, per, p);
        if last_page(disk, per, p) {
            return Ok(Pages {
                count: k + 1,
                entries,
            });
        }
        p = link_of(disk, per, p);
    }
    Err(Refusal::Ring)
}

// The first page: its track and sector are bytes 1 and 2 of the table.
pub fn first_page(disk: &[u8], per: u8) -> Place
    ensures { result ≡ first_page per disk.now }
{
    let vtoc = Place {
        track: Track(17),
        sector: Sector(0),
    };
    link_of(disk, per, vtoc)
}

// The pages and live entries of the catalog of a disk of `per` sectors a track; refusals 1, 2, then page by page 3, 4, 6.
#[tactic(auto, unfolding(crate::specs::Pages::pages_counted, crate::specs::Pages::walked, crate::specs::Catalog::pages))]
fn count_pages_of(disk: &[u8], per: u8) -> Result<Pages, Refusal>
    ensures { result ≡ pages_counted per disk.now }
{
    readable(disk, per)?;
    count_from(disk, per, first_page(disk, per))
}

// The same of a flat disk.
pub fn count_pages(disk: &[u8]) -> Result<Pages, Refusal>
    ensures { result ≡ pages_counted (per_of disk.now) disk.now }
{
    count_pages_of(disk, sectors_of(disk))
}

// How many name bytes are looked at: 30, or as many as there are.
fn name_bytes(raw: &[u8]) -> usize
    ensures { result ≡ length (take 30 raw.now) }
{
    30usize.min(raw.len())
}

// How many letters of a name are shown: without the spaces at the end.
fn shown_length(raw: &[u8]) -> usize
    ensures { ShownIs raw.now result }
{
    for n in (0..name_bytes(raw)).rev() {
        if letter_of(raw[n]) != 32 {
            return n + 1;
        }
    }
    0
}

// The name of the first 30 bytes of `raw`, as it is shown.
pub fn filename(raw: &[u8]) -> Name
    ensures { result ≡ name_of (take 30 raw.now) }
{
    let n = shown_length(raw);
    let mut letters = [0u8; 30];
    for k in 0..n {
        letters[k] = letter_of(raw[k]);
    }
    Name {
        letters,
        length: n as u8,
    }
}

// The name bytes of the entry from `at` on, as they stand on the disk: 30, or as many as there are.
pub fn raw_name(disk: &[u8], at: usize) -> &[u8]
    ensures { result.now ≡ (entry_from disk.now at).raw }
{
    if disk.len() <= at {
        return &disk[0..0];
    }
    part(disk, at + 3, 30)
}

// The entry in the 35 bytes of `disk` from `at` on, without its name; past the end stand zeros.
pub fn entry_head(disk: &[u8], at: usize) -> EntryHead
    ensures { result ≡ entry_head (entry_from disk.now at) }
{
    if disk.len() <= at {
        return EntryHead {
            list: Place {
                track: Track(0),
                sector: Sector(0),
            },
            file_type: 0,
            locked: 0,
            count: 0,
        };
    }
    let t = byte_at(disk, at);
    let s = byte_at(disk, at + 1);
    let code = byte_at(disk, at + 2);
    let count = word_at(disk, at + 33);
    EntryHead {
        list: Place {
            track: Track(t),
            sector: Sector(s),
        },
        file_type: file_type(code % 128),
        locked: code / 128,
        count: count,
    }
}

// The same with the name.
pub fn parse_file_entry(disk: &[u8], at: usize) -> FileEntry
    ensures { result ≡ file_entry (entry_from disk.now at) }
{
    let head = entry_head(disk, at);
    let list = head.list;
    let name = filename(raw_name(disk, at));
    FileEntry {
        list: list,
        file_type: head.file_type,
        locked: head.locked,
        name: name,
        count: head.count,
    }
}

// The list of the entry from `at` on.
pub fn entry_list(disk: &[u8], at: usize) -> Place
    ensures { result ≡ (entry_from disk.now at).list }
{
    if disk.len() <= at {
        return Place {
            track: Track(0),
            sector: Sector(0),
        };
    }
    let t = byte_at(disk, at);
    let s = byte_at(disk, at + 1);
    Place {
        track: Track(t),
        sector: Sector(s),
    }
}

// Its type.
pub fn entry_type(disk: &[u8], at: usize) -> u8
    ensures { result ≡ (entry_from disk.now at).kind }
{
    if disk.len() <= at {
        return 0;
    }
    file_type(byte_at(disk, at + 2) % 128)
}

// An entry in 37 bytes.
fn entry_bytes(e: FileEntry) -> [u8; 37]
    ensures { result ≡ bytes37 e }
{
    let list = e.list;
    let name = e.name;
    let letters = name.letters;
    let head = [
        list.track.0,
        list.sector.0,
        e.file_type,
        e.locked,
        name.length,
    ];
    let mut all = [0u8; 37];
    copy_at(&head, &mut all, 0);
    copy_at(&letters, &mut all, 5);
    put_word(&mut all, 35, e.count);
    all
}

// Puts the entry from x on into out at place w, where it is in use; the place behind it.
fn write_entry(disk: &[u8], x: usize, out: &mut [u8], w: usize) -> usize
    requires { w ≤ length out.old }
    ensures { Wrote (live_bytes (entry_from disk.now x)) w out.old out.new result }
{
    if valid_file(byte_at(disk, x)) {
        let bytes = entry_bytes(parse_file_entry(disk, x));
        copy_at(&bytes, out, w);
        return w + 37;
    }
    w
}

// Puts the live entries of a page to the front of out; how many bytes these are.
fn parse_catalog(disk: &[u8], per: u8, p: Place, out: &mut [u8]) -> usize
    requires { length (page_bytes per disk.now p) ≤ length out.old }
    ensures { Fronts (page_bytes per disk.now p) out.old out.new result }
{
    let mut w: usize = 0;
    for i in 0..7u8 {
        w = write_entry(disk, entry_start(per, p, i), out, w);
    }
    w
}

// Puts the live entries of the pages from `first` on into out, where these pages were found and out has the space.
fn write_pages(disk: &[u8], per: u8, first: Place, out: &mut [u8])
    requires { Ready (walk_listed per disk.now first) out.old }
    ensures { out.new ≡ left_by (walk_listed per disk.now first) out.old }
{
    let most = chain_budget(per);
    let mut p = first;
    let mut w: usize = 0;
    for _turn in 0..most {
        w += parse_catalog(disk, per, p, &mut out[w..]);
        if last_page(disk, per, p) {
            return;
        }
        p = link_of(disk, per, p);
    }
}

// The catalog of a disk of `per` sectors a track, 37 bytes an entry, with the number of pages followed; refusals 1, 2, then page by page 3, 4, 6, and 12.
fn catalogs_of(disk: &[u8], per: u8, out: &mut [u8]) -> Result<Listing, Refusal>
    ensures { Catalogued per disk.now out.old out.new result }
{
    let found = count_pages_of(disk, per)?;
    let length = 37 * (found.entries as usize);
    if out.len() < length {
        return Err(Refusal::TrayShort);
    }
    write_pages(disk, per, first_page(disk, per), out);
    Ok(Listing {
        length,
        pages: found.count,
    })
}

// The same of a flat disk.
pub fn parse_catalogs(disk: &[u8], out: &mut [u8]) -> Result<Listing, Refusal>
    ensures { Catalogued (per_of disk.now) disk.now out.old out.new result }
{
    catalogs_of(disk, sectors_of(disk), out)
}
