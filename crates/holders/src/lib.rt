// The holders of a disk's sectors: Req 06. Not of the Rust.
#![tactic(auto)]

ghost use Rattle.std.specs.Prelude.{◌≡◌, cond, ◌&&◌, ◌*◌, ◌-◌, ◌<◌, ◌≤◌, length, eqb, ltb};
ghost use Rattle.lists.specs.Select.{passing};
ghost use Rattle.outcome.specs.Outcome.{require};
ghost use Rattle.outcome.specs.declared.Refusal.TheVariants.{OffDisc};
ghost use Rattle.disk.specs.Disk.{per_of};
ghost use Rattle.files.specs.Contents.{pairs_of};
ghost use Rattle.holders.specs.Holders.{sectors_from, bit, free, holding};
ghost use Rattle.holders.specs.Tally.{is_held, is_free, is_free_in, Bumped, PairHeld, Paired, ListHeld, Tallied, Extends, with_line, on_page, met_from, all_met, Idle};

use catalog::{entry_list, entry_start, first_page, last_page, plain_page, valid_file};
use disk::{
    Place, Sector, Track, chain_budget, link_of, map_word, on_disk, readable, sector_start,
    sectors_of,
};
use files::{MAX_PAIRS, last_list, parse_track_sector_pair, whole_link};
use lists::{byte_at, part};
use outcome::Refusal;

// The report: sectors held by no one, by exactly one holder, by more than one; held sectors that the map calls free; whether the disk is clean.
#[derive(Clone, Copy, Debug, PartialEq, Eq)]
pub struct HolderCounts {
    pub unheld: u16,
    pub held_once: u16,
    pub shared: u16,
    pub held_free: u16,
    pub clean: bool,
}

// Counts a place: 0, 1, and 2 for more.
fn hold(counts: &mut [u8], per: u8, p: Place)
    ensures { Bumped per p counts.old counts.new }
{
    let k = sector_start(per, p) / 256;
    if counts.len() <= k {
        return;
    }
    let c = counts[k];
    if c < 2 {
        counts[k] = c + 1;
    }
}

// Counts a pair; whether it is on the disk.
fn hold_pair(per: u8, q: Place, counts: &mut [u8]) -> bool
    ensures { PairHeld per q counts.old counts.new result }
{
    hold(counts, per, q);
    on_disk(per, q)
}

// Counts the pairs of a list; whether all are on the disk.
fn hold_pairs(disk: &[u8], per: u8, p: Place, counts: &mut [u8]) -> bool
    ensures { Paired per (pairs_of per disk.now p) counts.old counts.new result }
{
    let mut good = true;
    for i in 0..MAX_PAIRS {
        let q = parse_track_sector_pair(disk, per, p, i);
        if q.track.0 == 0 {
            return good;
        }
        good = good & hold_pair(per, q, counts);
    }
    good
}

// Counts a list and its pairs; whether all of these are on the disk.
fn hold_list(disk: &[u8], per: u8, p: Place, counts: &mut [u8]) -> bool
    ensures { ListHeld per disk.now p counts.old counts.new result }
{
    hold(counts, per, p);
    hold_pairs(disk, per, p, counts)
}

// The end of a chain of lists: 3 where a pair is not on the disk.
fn end_of(good: bool) -> Result<(), Refusal>
    ensures { result ≡ require good OffDisc }
{
    if good { Ok(()) } else { Err(Refusal::OffDisc) }
}

// Counts the lists from `first` on, each with its pairs: at each link 5, 3, 4, and then 3 for the pairs.
fn hold_file(disk: &[u8], per: u8, first: Place, counts: &mut [u8]) -> Result<(), Refusal>
    ensures { Tallied per (sectors_from per disk.now first) counts.old counts.new result }
{
    let most = chain_budget(per);
    let mut p = first;
    let mut good = true;
    for _turn in 0..most {
        if !on_disk(per, p) {
            return Err(Refusal::OffDisc);
        }
        if !whole_link(disk, per, p) {
            return Err(Refusal::CutLink);
        }
        good = good & hold_list(disk, per, p, counts);
        if last_list(disk, per, p) {
            return end_of(good);
        }
        p = link_of(disk, per, p);
    }
    Err(Refusal::Ring)
}

// Counts the sectors of the entry from x on where it is in use; the first refusal stands.
fn hold_entry(
    disk: &[u8],
    per: u8,
    before: Result<(), Refusal>,
    x: usize,
    counts: &mut [u8],
) -> Result<(), Refusal>
    ensures { Extends per (with_line per disk.now x) counts.old counts.new before result }
{
    before?;
    if valid_file(byte_at(disk, x)) {
        return hold_file(disk, per, entry_list(disk, x), counts);
    }
    Ok(())
}

// Counts a page and the sectors of its entries.
fn hold_page(
    disk: &[u8],
    per: u8,
    before: Result<(), Refusal>,
    page: Place,
    counts: &mut [u8],
) -> Result<(), Refusal>
    ensures { Extends per (on_page per disk.now page) counts.old counts.new before result }
{
    hold(counts, per, page);
    let mut r = before;
    for i in 0..7u8 {
        r = hold_entry(disk, per, r, entry_start(per, page, i), counts);
    }
    r
}

// Counts the pages from `first` on and what their entries hold. A page's refusal stands before any entry's, so all pages are read also after an entry refused.
fn hold_pages(disk: &[u8], per: u8, first: Place, counts: &mut [u8]) -> Result<(), Refusal>
    ensures { Tallied per (met_from per disk.now first) counts.old counts.new result }
{
    let most = chain_budget(per);
    let mut p = first;
    let mut r: Result<(), Refusal> = Ok(());
    for _turn in 0..most {
        if !on_disk(per, p) {
            return Err(Refusal::OffDisc);
        }
        if !plain_page(disk, per, p) {
            return Err(Refusal::BadLetter);
        }
        r = hold_page(disk, per, r, p, counts);
        if last_page(disk, per, p) {
            return r;
        }
        p = link_of(disk, per, p);
    }
    Err(Refusal::Ring)
}

// Counts all holders of a disk of `per` sectors a track; refusals 1 to 6 in the flat order.
fn hold_all(disk: &[u8], per: u8, counts: &mut [u8]) -> Result<(), Refusal>
    ensures { Tallied per (all_met per disk.now) counts.old counts.new result }
{
    readable(disk, per)?;
    let vtoc = Place {
        track: Track(17),
        sector: Sector(0),
    };
    hold(counts, per, vtoc);
    hold_pages(disk, per, first_page(disk, per), counts)
}

// 1 for true.
fn one(b: bool) -> u16
    ensures is { result ≡ cond b 1 0 }
    ensures small { result ≤ 1 }
{
    if b { 1 } else { 0 }
}

// How many of the first `total` counts are v.
fn count_held(counts: &[u8], total: usize, v: u8) -> u16
    requires { (total ≤ 560) × (total ≤ length counts.now) }
    ensures { result ≡ passing (is_held counts.now v) total }
{
    let mut n: u16 = 0;
    for k in 0..total {
        n += one(counts[k] == v);
    }
    n
}

// Bit k of a number is one; none is from bit 16 on.
fn has_bit(w: u16, k: u16) -> bool
    ensures { result ≡ eqb (bit k w) 1 }
{
    k < 16 && (w >> k) % 2 == 1
}

// The map bits below sector 0's.
fn low_bits(per: u8) -> u16
    ensures is { result ≡ 16 - per }
    ensures small { result ≤ 16 }
{
    16u16.saturating_sub(per as u16)
}

// The map calls a sector free.
pub fn is_free(disk: &[u8], per: u8, p: Place) -> bool
    ensures { result ≡ free per disk.now p }
{
    has_bit(
        map_word(disk, per, p.track.0),
        p.sector.0 as u16 + low_bits(per),
    )
}

// A count is not 0, and bit k of a map word is one.
fn held_and_free(c: u8, w: u16, k: u16) -> bool
    ensures { result ≡ (ltb 0 c && eqb (bit k w) 1) }
{
    (0 < c) & has_bit(w, k)
}

// Whether no sector of the track that begins with number `from` is held.
fn is_idle(counts: &[u8], from: usize, per: u8) -> bool
    ensures { Idle per counts.now from result }
{
    let track = part(counts, from, per as usize);
    if track.len() < per as usize {
        return false;
    }
    count_held(track, per as usize, 0) == per as u16
}

// How many held sectors of a track the map calls free.
fn free_in_track(disk: &[u8], per: u8, counts: &[u8], t: u8) -> u16
    ensures is { result ≡ passing (is_free_in per disk.now counts.now t) per }
    ensures small { result ≤ 255 }
{
    let first = Place {
        track: Track(t),
        sector: Sector(0),
    };
    let from = sector_start(per, first) / 256;
    if is_idle(counts, from, per) {
        return 0;
    }
    let w = map_word(disk, per, t);
    let low = low_bits(per);
    let mut n: u16 = 0;
    for s in 0..per {
        n += one(held_and_free(byte_at(counts, from + s as usize), w, s as u16 + low));
    }
    n
}

// How many held sectors of the disk it calls free.
fn count_free(disk: &[u8], per: u8, counts: &[u8]) -> u16
    ensures { result ≡ passing (is_free per disk.now counts.now) (35 * per) }
{
    let mut n: u16 = 0;
    for t in 0..35u8 {
        n += free_in_track(disk, per, counts, t);
    }
    n
}

// The report on a disk of `per` sectors a track; refusals 1 to 6.
fn holders_of(disk: &[u8], per: u8) -> Result<HolderCounts, Refusal>
    requires { (0 < per) × (per ≤ 16) }
    ensures { result ≡ holding per disk.now }
{
    let mut counts = [0u8; 560];
    hold_all(disk, per, &mut counts)?;
    let total = 35 * (per as usize);
    let held_once = count_held(&counts, total, 1);
    let shared = count_held(&counts, total, 2);
    let unheld = count_held(&counts, total, 0);
    let held_free = count_free(disk, per, &counts);
    Ok(HolderCounts {
        unheld,
        held_once,
        shared,
        held_free,
        clean: (shared == 0) & (held_free == 0),
    })
}

// The report on a flat disk; refusals 1 to 6.
pub fn holders(disk: &[u8]) -> Result<HolderCounts, Refusal>
    ensures { result ≡ holding (per_of disk.now) disk.now }
{
    holders_of(disk, sectors_of(disk))
}
