// The files of a disk: track/sector lists, pairs, file bytes (catalog.rs).
#![tactic(auto)]

ghost use Rattle.std.specs.Prelude.{◌≡◌, ℕ, ◌+◌, ◌-◌, ◌*◌, ◌<◌, ◌≤◌, true, cond, eqb, get_or, take};
ghost use Rattle.outcome.specs.Outcome.{Hands, Gives, left_by};
ghost use Rattle.catalog.specs.Listing.{Ready};
ghost use Rattle.catalog.specs.Catalog.{shown, valid_file, entry_from};
ghost use Rattle.disk.specs.Disk.{per_of, place, byte_of, bytes_of};
ghost use Rattle.files.specs.Contents.{max_pairs, pair_at, pairs_of, whole_link, list_walk, pair_bytes};
ghost use Rattle.lists.specs.Same.{same};
ghost use Rattle.files.specs.Totals.{picked, choice, none_yet, with_link, walk_totals, totals, Within, Joined, Added, Paged, Turned};
ghost use Rattle.files.specs.Survey.{survey, fetched};
ghost use Rattle.files.specs.Copies.{Copied, Roomy, Whole, CopiedAll, Kept, list_bytes, walk_bytes, file_bytes, start_of};
ghost use Rattle.files.specs.Chosen.{walk_places, file_of_number, lists_of_number};
ghost use Rattle.files.specs.Threads.{head_of, end_thread, run_of, followed, size_of};

use catalog::{
    Name, entry_list, entry_start, entry_type, first_page, last_page, parse_file_entry, plain_page,
    valid_file,
};
use disk::{
    Place, Sector, Track, byte_of, chain_budget, link_of, on_disk, readable, sector_start,
    sectors_of, table_of,
};
use lists::{byte_at, copy_at, part, same};
use outcome::Refusal;

// The pairs that a list can have.
pub const MAX_PAIRS: u8 = 122;

// Their bytes: from byte 12 of the list's sector to its last.
pub const PAIR_BYTES: usize = 2 * MAX_PAIRS as usize;

// The pairs of one list: how many, and whether all are on the disk.
#[derive(Clone, Copy, Debug, PartialEq, Eq)]
pub struct PairRun {
    pub count: u8,
    pub good: bool,
}

// A chain of lists: how many lists and pairs, and the first pair.
#[derive(Clone, Copy, Debug, PartialEq, Eq)]
pub struct Thread {
    pub lists: u16,
    pub pairs: u32,
    pub head: Place,
}

// The entry that a pass over the catalog is to choose: the last of a shown name, or one by its number, from 0.
#[derive(Clone, Copy)]
pub enum Wanted<'a> {
    Named(&'a [u8]),
    Numbered(u64),
}

// An entry that was asked for: its first list, its type, and what its lists come to.
#[derive(Clone, Copy, Debug, PartialEq, Eq)]
pub struct Choice {
    pub list: Place,
    pub kind: u8,
    pub thread: Thread,
}

// What a pass over the catalog comes to: the number of entries, of lists, of archive blocks, and the entry asked for.
#[derive(Clone, Copy, Debug, PartialEq, Eq)]
pub struct Totals {
    pub entries: u32,
    pub links: u64,
    pub blocks: u64,
    pub choice: Option<Choice>,
}

// The numbers of a survey.
#[derive(Clone, Copy, Debug, PartialEq, Eq)]
pub struct DiskSurvey {
    pub volume: u8,
    pub entries: u32,
    pub free: u32,
    pub used: u32,
    pub percent_used: u32,
    pub archive_blocks: u64,
    pub links: u64,
}

// How far a copy has come: the place for the next byte, and how many bytes are still to be passed over.
#[derive(Clone, Copy, Debug, PartialEq, Eq)]
pub struct Spot {
    pub at: usize,
    pub skip: usize,
}

fn no_place() -> Place
    ensures { result ≡ place 0 0 }
{
    Place {
        track: Track(0),
        sector: Sector(0),
    }
}

// Pair i of a list.
pub fn parse_track_sector_pair(disk: &[u8], per: u8, p: Place, i: u8) -> Place
    ensures { result ≡ pair_at per disk.now p i }
{
    let t = byte_of(disk, per, p, 12 + 2 * (i as u16));
    let s = byte_of(disk, per, p, 13 + 2 * (i as u16));
    Place {
        track: Track(t),
        sector: Sector(s),
    }
}

// The pairs of a list: up to the first zero track, and at most MAX_PAIRS.
pub fn parse_track_sector_list(disk: &[u8], per: u8, p: Place) -> PairRun
    ensures is { result ≡ run_of per disk.now p }
    ensures few { result.count ≤ max_pairs }
{
    let mut good = true;
    for i in 0..MAX_PAIRS {
        let q = parse_track_sector_pair(disk, per, p, i);
        if q.track.0 == 0 {
            return PairRun { count: i, good };
        }
        good = good & on_disk(per, q);
    }
    PairRun {
        count: MAX_PAIRS,
        good,
    }
}

// The first pair of a list; 0/0 where it has none.
fn first_pair(disk: &[u8], per: u8, p: Place) -> Place
    ensures { result ≡ head_of (pairs_of per disk.now p) }
{
    let q = parse_track_sector_pair(disk, per, p, 0);
    if q.track.0 == 0 {
        return no_place();
    }
    q
}

// The first pair of a chain, of which m pairs were met before the list at p.
fn head_with(disk: &[u8], per: u8, head: Place, m: u32, p: Place) -> Place
    ensures { result ≡ cond (eqb m 0) (head_of (pairs_of per disk.now p)) head }
{
    if m == 0 {
        return first_pair(disk, per, p);
    }
    head
}

// The link of a list ends the chain, or has a sector.
#[tactic(auto, unfolding(crate::specs::Contents::whole_link))]
pub fn whole_link(disk: &[u8], per: u8, p: Place) -> bool
    ensures { result ≡ whole_link per disk.now p }
{
    byte_of(disk, per, p, 1) == 0 || byte_of(disk, per, p, 2) != 0
}

// A list whose link has track zero is the last.
pub fn last_list(disk: &[u8], per: u8, p: Place) -> bool
    ensures { result ≡ eqb (byte_of per disk.now p 1) 0 }
{
    byte_of(disk, per, p, 1) == 0
}

// The end of a chain: 3 where a pair is not on the disk.
fn end_thread(lists: u16, pairs: u32, good: bool, head: Place) -> Result<Thread, Refusal>
    ensures { result ≡ end_thread lists pairs good head }
{
    if !good {
        return Err(Refusal::OffDisc);
    }
    Ok(Thread { lists, pairs, head })
}

// The lists from `first` on: at each link 5, 3, 4, and then 3 for their pairs.
pub fn build_file(disk: &[u8], per: u8, first: Place) -> Result<Thread, Refusal>
    ensures { result ≡ followed per disk.now (list_walk per disk.now first) }
{
    let most = chain_budget(per);
    let mut p = first;
    let mut m: u32 = 0;
    let mut good = true;
    let mut head = no_place();
    for k in 0..most {
        if !on_disk(per, p) {
            return Err(Refusal::OffDisc);
        }
        if !whole_link(disk, per, p) {
            return Err(Refusal::CutLink);
        }
        let run = parse_track_sector_list(disk, per, p);
        head = head_with(disk, per, head, m, p);
        m += run.count as u32;
        good = good & run.good;
        if last_list(disk, per, p) {
            return end_thread(k + 1, m, good, head);
        }
        p = link_of(disk, per, p);
    }
    Err(Refusal::Ring)
}

// How many bytes a file has: of a Binary the stated length where that fits, else all; of other types none.
fn file_size(disk: &[u8], per: u8, kind: u8, t: Thread) -> u32
    ensures is { result ≡ size_of per disk.now kind t }
    ensures small { result ≤ 65538 }
{
    if kind != 4 {
        return 0;
    }
    let head = t.head;
    let low = byte_of(disk, per, head, 2) as u64;
    let high = byte_of(disk, per, head, 3) as u64;
    let stated = low + 256 * high;
    let total = 256 * (t.pairs as u64);
    if 4 + stated <= total {
        return stated as u32;
    }
    total as u32
}

// The name is the shown name.
fn same_name(name: &[u8], shown: Name) -> bool
    ensures { result ≡ same name.now (take shown.length shown.letters) }
{
    let letters = shown.letters;
    let n = shown.length as usize;
    same(name, part(&letters, 0, n))
}

// The name is that of the entry from x on.
pub fn has_name(disk: &[u8], x: usize, name: &[u8]) -> bool
    ensures { result ≡ same name.now (shown (entry_from disk.now x).raw) }
{
    let e = parse_file_entry(disk, x);
    same_name(name, e.name)
}

// The entry from x on, which is number j, is the one asked for.
fn picks(disk: &[u8], x: usize, wanted: Wanted, j: u32) -> bool
    ensures { result ≡ picked wanted.entry j (entry_from disk.now x) }
{
    match wanted {
        Wanted::Named(name) => has_name(disk, x, name),
        Wanted::Numbered(number) => j as u64 == number,
    }
}

// The new choice where it is taken, else the old one.
fn choose(old: Option<Choice>, pick: bool, new: Choice) -> Option<Choice>
    ensures { result ≡ cond pick (Some new) old }
{
    if pick { Some(new) } else { old }
}

// The totals with one entry more, of that first list and type; h is what its lists come to.
fn add_thread(
    disk: &[u8],
    per: u8,
    t: Totals,
    list: Place,
    kind: u8,
    pick: bool,
    h: Thread,
) -> Totals
    requires { Within 100000 t }
    ensures { Joined per disk.now t list kind pick h result }
{
    let size = file_size(disk, per, kind, h) as u64;
    let new = Choice {
        list,
        kind,
        thread: h,
    };
    Totals {
        entries: t.entries + 1,
        links: t.links + h.lists as u64,
        blocks: t.blocks + (1 + (size + 253) / 254),
        choice: choose(t.choice, pick, new),
    }
}

// The totals with the entry from x on, which is in use; 3, 4, 5 for its lists.
fn add_entry(disk: &[u8], per: u8, t: Totals, x: usize, wanted: Wanted) -> Result<Totals, Refusal>
    requires counts { Within 100000 t }
    requires used { valid_file (get_or disk.now x 0) ≡ true }
    ensures { Added per disk.now (picked wanted.entry) t x result }
{
    let list = entry_list(disk, x);
    let kind = entry_type(disk, x);
    let thread = build_file(disk, per, list)?;
    let pick = picks(disk, x, wanted, t.entries);
    Ok(add_thread(disk, per, t, list, kind, pick, thread))
}

// The totals with one page more: a link, and its entries.
fn add_page(
    disk: &[u8],
    per: u8,
    before: Totals,
    p: Place,
    wanted: Wanted,
) -> Result<Totals, Refusal>
    requires { Within 90000 before }
    ensures { Paged per disk.now (picked wanted.entry) before p result }
{
    let mut t = Totals {
        links: before.links + 1,
        ..before
    };
    for i in 0..7u8 {
        let x = entry_start(per, p, i);
        // The totals are moved for an entry in use alone.
        if valid_file(byte_at(disk, x)) {
            t = add_entry(disk, per, t, x, wanted)?;
        }
    }
    Ok(t)
}

// The same, where no page before refused.
fn add_next(
    disk: &[u8],
    per: u8,
    before: Result<Totals, Refusal>,
    p: Place,
    wanted: Wanted,
) -> Result<Totals, Refusal>
    requires { Gives (Within 90000) before }
    ensures { Turned per disk.now (picked wanted.entry) before p result }
{
    add_page(disk, per, before?, p, wanted)
}

// Totals of nothing yet: block 0 alone.
fn none_yet() -> Totals
    ensures { result ≡ none_yet }
{
    Totals {
        entries: 0,
        links: 0,
        blocks: 1,
        choice: None,
    }
}

// The totals of the pages from `first` on. A page's refusal stands before any entry's, so all pages are read also after an entry refused.
fn build_files(disk: &[u8], per: u8, first: Place, wanted: Wanted) -> Result<Totals, Refusal>
    ensures { result ≡ walk_totals per disk.now (picked wanted.entry) first }
{
    let most = chain_budget(per);
    let mut p = first;
    let mut t: Result<Totals, Refusal> = Ok(none_yet());
    for _turn in 0..most {
        if !on_disk(per, p) {
            return Err(Refusal::OffDisc);
        }
        if !plain_page(disk, per, p) {
            return Err(Refusal::BadLetter);
        }
        t = add_next(disk, per, t, p, wanted);
        if last_page(disk, per, p) {
            return t;
        }
        p = link_of(disk, per, p);
    }
    Err(Refusal::Ring)
}

// The totals of a disk of `per` sectors a track, and the entry asked for; refusals 1 to 6 in the flat order.
#[tactic(auto, unfolding(crate::specs::Totals::totals, crate::specs::Totals::walk_totals, catalog::specs::Catalog::pages))]
fn go_through(disk: &[u8], per: u8, wanted: Wanted) -> Result<Totals, Refusal>
    ensures { result ≡ totals per disk.now (picked wanted.entry) }
{
    readable(disk, per)?;
    build_files(disk, per, first_page(disk, per), wanted)
}

// The survey of a disk of `per` sectors a track; refusals 1 to 6.
fn survey_of(disk: &[u8], per: u8) -> Result<DiskSurvey, Refusal>
    ensures { result ≡ survey per disk.now }
{
    let t = go_through(disk, per, Wanted::Numbered(0))?;
    let v = table_of(disk, per)?;
    Ok(DiskSurvey {
        volume: v.diskette_volume_number,
        entries: t.entries,
        free: v.free,
        used: v.used,
        percent_used: v.percent_used,
        archive_blocks: t.blocks,
        links: t.links,
    })
}

// The survey of a flat disk: volume, entries, free, used, percent used, archive blocks, and the links followed; refusals 1 to 6.
pub fn survey(disk: &[u8]) -> Result<DiskSurvey, Refusal>
    ensures { result ≡ survey (per_of disk.now) disk.now }
{
    survey_of(disk, sectors_of(disk))
}

// Copies what is wanted of one sector.
fn copy_sector(disk: &[u8], per: u8, q: Place, out: &mut [u8], size: usize, s: Spot) -> Spot
    requires { Roomy size s out.old }
    ensures { Copied size (bytes_of per disk.now q) s out.old out.new result }
{
    let at = s.at;
    let skip = s.skip;
    let sector = part(disk, sector_start(per, q), 256);
    let piece = part(sector, skip, size - at);
    copy_at(piece, out, at);
    Spot {
        at: at + piece.len(),
        skip: skip.saturating_sub(sector.len()),
    }
}

// Copies what is wanted of the sectors of one list.
fn copy_pairs(disk: &[u8], per: u8, p: Place, out: &mut [u8], size: usize, first: Spot) -> Spot
    requires { Roomy size first out.old }
    ensures { Copied size (list_bytes per disk.now p) first out.old out.new result }
{
    let mut s = first;
    for i in 0..MAX_PAIRS {
        let q = parse_track_sector_pair(disk, per, p, i);
        if q.track.0 == 0 {
            return s;
        }
        s = copy_sector(disk, per, q, out, size, s);
    }
    s
}

// The pairs of the list at p on a disk of `per` sectors a track; refusals 1, 3, 12.
fn pairs_of(disk: &[u8], per: u8, p: Place, out: &mut [u8]) -> Result<usize, Refusal>
    ensures { Hands (pair_bytes per disk.now p) out.old out.new result }
{
    if disk.len() != 256 * (35 * (per as usize)) {
        return Err(Refusal::OffSize);
    }
    if !on_disk(per, p) {
        return Err(Refusal::OffDisc);
    }
    let run = parse_track_sector_list(disk, per, p);
    let size = 2 * (run.count as usize);
    if out.len() < size {
        return Err(Refusal::TrayShort);
    }
    copy_at(part(disk, sector_start(per, p) + 12, size), out, 0);
    Ok(size)
}

// The pairs of the list at a location, two bytes each: track, sector; refusals 1, 3, 12. The pairs are not followed.
pub fn track_sector_pairs(
    disk: &[u8],
    track: Track,
    sector: Sector,
    out: &mut [u8],
) -> Result<usize, Refusal>
    ensures { Hands (pair_bytes (per_of disk.now) disk.now (place track.0 sector.0)) out.old out.new result }
{
    pairs_of(disk, sectors_of(disk), Place { track, sector }, out)
}

// Copies what is wanted of the sectors of all lists from `first` on, where these were followed before; the spot behind it.
fn copy_lists(disk: &[u8], per: u8, first: Place, out: &mut [u8], size: usize, start: Spot) -> Spot
    requires { Roomy size start out.old × Whole (walk_bytes per disk.now first) }
    ensures { CopiedAll size (walk_bytes per disk.now first) start out.old out.new result }
{
    let most = chain_budget(per);
    let mut p = first;
    let mut s = start;
    for _turn in 0..most {
        s = copy_pairs(disk, per, p, out, size, s);
        if last_list(disk, per, p) {
            return s;
        }
        p = link_of(disk, per, p);
    }
    s
}

// Where a file's bytes begin in its joined sectors: behind address and length, where the stated length fits.
fn file_start(disk: &[u8], per: u8, kind: u8, t: Thread) -> usize
    ensures { result ≡ start_of per disk.now kind t }
{
    if kind != 4 {
        return 0;
    }
    let head = t.head;
    let low = byte_of(disk, per, head, 2) as u64;
    let high = byte_of(disk, per, head, 3) as u64;
    if 4 + (low + 256 * high) <= 256 * (t.pairs as u64) {
        return 4;
    }
    0
}

// The bytes of a file by its first list and its type, its lists and pairs having been followed; refusal 12.
fn get_data(disk: &[u8], per: u8, c: Choice, out: &mut [u8]) -> Result<usize, Refusal>
    requires { Kept per disk.now c.list c.thread }
    ensures { Hands (file_bytes per disk.now c.list c.kind) out.old out.new result }
{
    let size = file_size(disk, per, c.kind, c.thread) as usize;
    if out.len() < size {
        return Err(Refusal::TrayShort);
    }
    let skip = file_start(disk, per, c.kind, c.thread);
    copy_lists(disk, per, c.list, out, size, Spot { at: 0, skip });
    Ok(size)
}

// The bytes of an entry of a disk of `per` sectors a track; refusals 1 to 6, 12.
fn file_of(disk: &[u8], per: u8, number: u64, out: &mut [u8]) -> Result<usize, Refusal>
    ensures { Hands (file_of_number per disk.now number) out.old out.new result }
{
    let t = go_through(disk, per, Wanted::Numbered(number))?;
    match t.choice {
        None => Ok(0),
        Some(c) => get_data(disk, per, c, out),
    }
}

// The bytes of entry number `number`, from 0; none past the last. Refusals 1 to 6, 12.
pub fn file(disk: &[u8], number: u64, out: &mut [u8]) -> Result<usize, Refusal>
    ensures { Hands (file_of_number (per_of disk.now) disk.now number) out.old out.new result }
{
    file_of(disk, sectors_of(disk), number, out)
}

// The bytes of the last entry of a name on a disk of `per` sectors a track; refusals 1 to 6, 18, 12.
fn fetch_of(disk: &[u8], per: u8, name: &[u8], out: &mut [u8]) -> Result<usize, Refusal>
    ensures { Hands (fetched per disk.now name.now) out.old out.new result }
{
    let t = go_through(disk, per, Wanted::Named(name))?;
    match t.choice {
        None => Err(Refusal::NotOnRoll),
        Some(c) => get_data(disk, per, c, out),
    }
}

// The bytes of the last entry whose shown name is `name`. Refusals 1 to 6, 18, 12.
pub fn fetch(disk: &[u8], name: &[u8], out: &mut [u8]) -> Result<usize, Refusal>
    ensures { Hands (fetched (per_of disk.now) disk.now name.now) out.old out.new result }
{
    fetch_of(disk, sectors_of(disk), name, out)
}

// Puts the places of the lists from `first` on into out, two bytes each, where these were followed and out has the space.
fn write_lists(disk: &[u8], per: u8, first: Place, out: &mut [u8])
    requires { Ready (walk_places per disk.now first) out.old }
    ensures { out.new ≡ left_by (walk_places per disk.now first) out.old }
{
    let most = chain_budget(per);
    let mut p = first;
    let mut w: usize = 0;
    for _turn in 0..most {
        let pair = [p.track.0, p.sector.0];
        copy_at(&pair, out, w);
        w += 2;
        if last_list(disk, per, p) {
            return;
        }
        p = link_of(disk, per, p);
    }
}

// The places of the lists of an entry, these having been followed; refusal 12.
fn get_lists(disk: &[u8], per: u8, c: Choice, out: &mut [u8]) -> Result<usize, Refusal>
    requires { Kept per disk.now c.list c.thread }
    ensures { Hands (walk_places per disk.now c.list) out.old out.new result }
{
    let size = 2 * (c.thread.lists as usize);
    if out.len() < size {
        return Err(Refusal::TrayShort);
    }
    write_lists(disk, per, c.list, out);
    Ok(size)
}

// The lists of an entry of a disk of `per` sectors a track; refusals 1 to 6, 12.
fn lists_of(disk: &[u8], per: u8, number: u64, out: &mut [u8]) -> Result<usize, Refusal>
    ensures { Hands (lists_of_number per disk.now number) out.old out.new result }
{
    let t = go_through(disk, per, Wanted::Numbered(number))?;
    match t.choice {
        None => Ok(0),
        Some(c) => get_lists(disk, per, c, out),
    }
}

// The track/sector lists of entry number `number`, from 0, two bytes each: track, sector; none past the last. Refusals 1 to 6, 12.
pub fn track_sector_lists(disk: &[u8], number: u64, out: &mut [u8]) -> Result<usize, Refusal>
    ensures { Hands (lists_of_number (per_of disk.now) disk.now number) out.old out.new result }
{
    lists_of(disk, sectors_of(disk), number, out)
}
