// Sectors sought, taken and given back in a copy of the VTOC: Req 09. Not of the Rust.
#![tactic(auto)]

ghost use Rattle.std.specs.Prelude.{◌≡◌, cond, not, ◌&&◌, ◌<◌, ◌%◌, eqb, length};
ghost use Rattle.holders.specs.Holders.{bit};
ghost use Rattle.amend.specs.Search.{with_bit, track_of};
ghost use Rattle.allot.specs.Table.{map_in, open_in, later_at, Marked, Allotted};
ghost use Rattle.allot.specs.Steps.{found_at, MadeBit, Topped, Legged, Sought, Took};

use disk::{Place, Sector, Track, on_disk};
use lists::{byte_at, copy_at};

// What a search comes to: the sector, and the direction in which it moved.
#[derive(Clone, Copy, Debug, PartialEq, Eq)]
struct Found {
    place: Place,
    direction: u8,
}

// Map bytes 0 and 1 of a track.
fn map_of(table: &[u8], t: u8) -> u16
    ensures { result ≡ map_in table.now t }
{
    let high = byte_at(table, 56 + 4 * t as usize) as u16;
    let low = byte_at(table, 57 + 4 * t as usize) as u16;
    256 * high + low
}

// A track's map with bit s made v.
fn with_bit(w: u16, s: u8, v: u16) -> u16
    requires { (s < 16) × (v < 2) }
    ensures { result ≡ with_bit s v w }
{
    let one = 1u16 << s;
    let b = (w >> s) % 2;
    w - one * b + one * v
}

// Makes a sector's bit v in a copy of the table.
fn mark_in(table: &mut [u8], p: Place, v: u16)
    requires { (length table.old ≡ 256) × (p.track.0 < 35) × (p.sector.0 < 16) × (v < 2) }
    ensures { MadeBit v p table.old table.new }
{
    let w = with_bit(map_of(table, p.track.0), p.sector.0, v);
    let pair = [(w / 256) as u8, (w % 256) as u8];
    copy_at(&pair, table, 56 + 4 * p.track.0 as usize);
}

// A map bit: 1 for a free sector, 0 for one in use.
fn bit_of(free: bool) -> u16
    ensures { result ≡ cond free 1 0 }
{
    if free { 1 } else { 0 }
}

// Makes a sector's map bit 1 or 0; nothing where the table has not 256 bytes or the place is not on the disk.
pub fn mark_sector(table: &mut [u8], p: Place, free: bool)
    ensures { Marked (cond free 1 0) p table.old table.new }
{
    if table.len() != 256 {
        return;
    }
    if on_disk(16, p) {
        mark_in(table, p, bit_of(free));
    }
}

// Tracks 0, 17 and that in byte 1 are never taken.
fn is_open(table: &[u8], t: u8) -> bool
    ensures { result ≡ open_in table.now t }
{
    (t != 0) & ((t != 17) & (t != byte_at(table, 1)))
}

// Sector s of an open track with the map w can be taken; a list after the first passes over sector 0.
fn can_take(w: u16, s: u8, later: bool) -> bool
    requires { s < 16 }
    ensures { result ≡ (eqb (bit s w) 1 && not (later && eqb s 0)) }
{
    ((w >> s) % 2 == 1) & !(later & (s == 0))
}

// The highest sector of a track that can be taken.
fn top_sector(table: &[u8], later: bool, t: u8) -> Option<u8>
    ensures { Topped table.now later t result }
{
    if !is_open(table, t) {
        return None;
    }
    let w = map_of(table, t);
    for s in (0..16u8).rev() {
        if can_take(w, s, later) {
            return Some(s);
        }
    }
    None
}

// A sector that is found.
fn found_at(t: u8, s: u8, direction: u8) -> Found
    ensures { result ≡ found_at t s direction }
{
    let place = Place {
        track: Track(t),
        sector: Sector(s),
    };
    Found { place, direction }
}

// Searches the tracks from `first` up to 34.
fn leg_up(table: &[u8], later: bool, first: u8) -> Option<Found>
    ensures { Legged table.now later 1 first result }
{
    for t in first..35 {
        if let Some(s) = top_sector(table, later, t) {
            return Some(found_at(t, s, 1));
        }
    }
    None
}

// Searches the tracks from `first` down to 0.
fn leg_down(table: &[u8], later: bool, first: u8) -> Option<Found>
    ensures { Legged table.now later 255 first result }
{
    let mut t = first;
    loop {
        if let Some(s) = top_sector(table, later, t) {
            return Some(found_at(t, s, 255));
        }
        if t == 0 {
            return None;
        }
        t -= 1;
    }
}

// Searches the tracks from `first` to the disk's edge.
fn leg(table: &[u8], later: bool, up: bool, first: u8) -> Option<Found>
    ensures { Legged table.now later (cond up 1 255) first result }
{
    if up {
        return leg_up(table, later, first);
    }
    leg_down(table, later, first)
}

// Where a search begins: a last track over 34 counts as 17.
fn last_track(b: u8) -> u8
    ensures { result ≡ track_of b }
{
    if b <= 34 { b } else { 17 }
}

// The next sector to take: from the last track to the edge, from 17 the other way, then from 17 back.
fn seek(table: &[u8], later: bool) -> Option<Found>
    ensures { Sought table.now later result }
{
    let up = byte_at(table, 49) != 255;
    let last = last_track(byte_at(table, 48));
    let first = leg(table, later, up, last);
    if first.is_some() {
        return first;
    }
    let second = leg(table, later, !up, 17);
    if second.is_some() {
        return second;
    }
    leg(table, later, up, 17)
}

// Takes the next sector: its bit is made 0, and last track and direction are kept.
fn take_one(table: &mut [u8], later: bool) -> Option<Found>
    requires { length table.old ≡ 256 }
    ensures { Took table.old table.new later result }
{
    let found = seek(table, later);
    if let Some(q) = found {
        mark_sector(table, q.place, false);
        let last = [q.place.track.0, q.direction];
        copy_at(&last, table, 48);
    }
    found
}

// Sector i of a save is a list after the first.
fn later_at(i: usize) -> bool
    ensures { result ≡ later_at i }
{
    (i != 0) & (i % 123 == 0)
}

// Takes m sectors, one after the other, and keeps their places as pairs of bytes; whether all were found.
pub fn take_sectors(table: &mut [u8], places: &mut [u8], m: usize) -> bool
    ensures { Allotted m table.old places.old table.new places.new result }
{
    if table.len() != 256 {
        return false;
    }
    if places.len() / 2 < m {
        return false;
    }
    for i in 0..m {
        let Some(q) = take_one(table, later_at(i)) else {
            return false;
        };
        let pair = [q.place.track.0, q.place.sector.0];
        copy_at(&pair, places, 2 * i);
    }
    true
}
