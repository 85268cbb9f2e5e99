// Saving and deleting on a flat disk: Req 09, and by two sides with a limit each: Req 10. Not of the Rust.
#![tactic(auto)]

ghost use Rattle.std.specs.Prelude.{◌≡◌, true, ◌+◌, ◌≤◌, length, None};
ghost use Rattle.lists.specs.Select.{among};
ghost use Rattle.files.specs.Contents.{pairs_of};
ghost use Rattle.amend.specs.Lines.{savable, tidy};
ghost use Rattle.amend.specs.Save.{data_for, lists_for, saved_at, stored, saved, deleted};
ghost use Rattle.amend.specs.Amending.{bare};
ghost use Rattle.sides.specs.Sides.{saved_for, deleted_for};
ghost use Rattle.saving.specs.Saving.{Amended};
ghost use Rattle.saving.specs.Askers.{may_name, over_limit, name_allowed, saved_by, deleted_by};
ghost use Rattle.saving.specs.Steps.{LineSeen, PageSeen, Seen, Paged, PairsFreed, ListFreed, Linked, ListsFreed, Copied, Erasable, Erased, Seated, Storable, EntryPut, FilePut};

use allot::{mark_sector, take_sectors};
use catalog::{entry_list, entry_start, first_page, last_page, valid_file};
use disk::{Place, Sector, Track, chain_budget, link_of};
use files::{MAX_PAIRS, has_name, last_list, parse_track_sector_pair};
use filing::write_file;
use holders::holders;
use lists::{byte_at, copy_at, part};
use outcome::Refusal;
use records::{file_entry_as_vec, writable_name};
use sides::{Side, belongs_to, count_held};

// What a look along the lines has found: the last line of a name, and the first that is not in use.
#[derive(Clone, Copy, Debug, PartialEq, Eq)]
struct Sight {
    line: Option<usize>,
    room: Option<usize>,
}

// The side that asks for a save or a delete, with its limit. Where no side asks, every name is allowed and no limit is set.
#[derive(Clone, Copy, Debug, PartialEq, Eq)]
struct Asker {
    side: Side,
    limit: u64,
}

// The name is not the other side's, where a side asks.
fn may_name(asker: Option<Asker>, name: &[u8]) -> bool
    ensures { result ≡ may_name asker name.now }
{
    match asker {
        None => true,
        Some(a) => belongs_to(a.side, name),
    }
}

// A disk that can be amended; refusals 1 to 6, 20. A disk of 13 sectors a track is 1.
pub fn tidy(disk: &[u8]) -> Result<(), Refusal>
    ensures { result ≡ bare (tidy 16 disk.now) }
{
    if disk.len() != 143360 {
        return Err(Refusal::OffSize);
    }
    let report = holders(disk)?;
    if !report.clean {
        return Err(Refusal::NotClean);
    }
    Ok(())
}

// A byte 0 stands in the name.
fn has_zero(name: &[u8]) -> bool
    ensures { result ≡ among 0 name.now }
{
    for k in 0..name.len() {
        if name[k] == 0 {
            return true;
        }
    }
    false
}

// A name that a save or a delete takes.
fn savable_name(name: &[u8]) -> bool
    ensures { result ≡ savable name.now }
{
    writable_name(name) && !has_zero(name) && byte_at(name, name.len() - 1) != 32
}

// With the line from x on looked at.
fn see_line(disk: &[u8], name: &[u8], s: Sight, x: usize) -> Sight
    ensures { LineSeen disk.now name.now s x result }
{
    if !valid_file(byte_at(disk, x)) {
        return Sight {
            room: s.room.or(Some(x)),
            ..s
        };
    }
    if has_name(disk, x, name) {
        return Sight { line: Some(x), ..s };
    }
    s
}

// With the lines of a page looked at.
fn see_page(disk: &[u8], name: &[u8], before: Sight, p: Place) -> Sight
    ensures { PageSeen disk.now name.now before p result }
{
    let mut s = before;
    for i in 0..7u8 {
        s = see_line(disk, name, s, entry_start(16, p, i));
    }
    s
}

// Nothing found.
fn no_sight() -> Sight
    ensures { result ≡ record { line = None; room = None } }
{
    Sight {
        line: None,
        room: None,
    }
}

// Looks along the lines of the disk, its pages having been read.
fn look(disk: &[u8], name: &[u8]) -> Sight
    requires { Paged disk.now }
    ensures { Seen disk.now name.now result }
{
    let most = chain_budget(16);
    let mut p = first_page(disk, 16);
    let mut s = no_sight();
    for _turn in 0..most {
        s = see_page(disk, name, s, p);
        if last_page(disk, 16, p) {
            return s;
        }
        p = link_of(disk, 16, p);
    }
    s
}

// Calls the pairs of a list free.
fn free_pairs(disk: &[u8], p: Place, table: &mut [u8])
    ensures { PairsFreed (pairs_of 16 disk.now p) table.old table.new }
{
    for i in 0..MAX_PAIRS {
        let q = parse_track_sector_pair(disk, 16, p, i);
        if q.track.0 == 0 {
            return;
        }
        mark_sector(table, q, true);
    }
}

// Calls a list and its pairs free.
fn free_list(disk: &[u8], p: Place, table: &mut [u8])
    ensures { ListFreed disk.now p table.old table.new }
{
    mark_sector(table, p, true);
    free_pairs(disk, p, table);
}

// Calls the lists from `first` on and their pairs free, these having been followed.
fn free_lists(disk: &[u8], first: Place, table: &mut [u8])
    requires { Linked disk.now first }
    ensures { ListsFreed disk.now first table.old table.new }
{
    let most = chain_budget(16);
    let mut p = first;
    for _turn in 0..most {
        free_list(disk, p, table);
        if last_list(disk, 16, p) {
            return;
        }
        p = link_of(disk, 16, p);
    }
}

// A copy of the VTOC; zeros where the disk is too short to have one.
pub fn vtoc_copy(disk: &[u8]) -> [u8; 256]
    ensures { Copied disk.now result }
{
    let mut table = [0u8; 256];
    copy_at(part(disk, 69632, 256), &mut table, 0);
    table
}

// Deletes the line from x on: its lists and data are called free, its list track is FFh, and the old one stands in the name's last byte.
fn erase(disk: &mut [u8], x: usize)
    requires { Erasable disk.old x }
    ensures { Erased disk.old x disk.new }
{
    let mut table = vtoc_copy(disk);
    free_lists(disk, entry_list(disk, x), &mut table);
    let old = [byte_at(disk, x)];
    let gone = [255u8];
    copy_at(&table, disk, 69632);
    copy_at(&gone, disk, x);
    copy_at(&old, disk, x + 32);
}

// What a save and a delete begin with: refusals 1 to 6, 20, 14, and 23 where a side asks.
fn name_allowed(disk: &[u8], asker: Option<Asker>, name: &[u8]) -> Result<(), Refusal>
    ensures { result ≡ bare (name_allowed 16 disk.now asker name.now) }
{
    tidy(disk)?;
    if !savable_name(name) {
        return Err(Refusal::UnwritableName);
    }
    if !may_name(asker, name) {
        return Err(Refusal::OtherSide);
    }
    Ok(())
}

// Deletes the last entry of the name, locked or not; refusals 1 to 6, 20, 14, 23 where a side asks, 18.
fn delete_by(disk: &mut [u8], asker: Option<Asker>, name: &[u8]) -> Result<(), Refusal>
    ensures { Amended (deleted_by 16 disk.old asker name.now) disk.old disk.new result }
{
    name_allowed(disk, asker, name)?;
    match look(disk, name).line {
        None => Err(Refusal::NotOnRoll),
        Some(x) => {
            erase(disk, x);
            Ok(())
        }
    }
}

// Deletes the last entry of the name, locked or not: Req 09; refusals 1 to 6, 20, 14, 18.
pub fn delete(disk: &mut [u8], name: &[u8]) -> Result<(), Refusal>
    ensures { Amended (deleted 16 disk.old name.now) disk.old disk.new result }
{
    delete_by(disk, None, name)
}

// .. for a side: Req 10; refusals 1 to 6, 20, 14, 23, 18. Its limit is not looked at.
pub fn delete_for(disk: &mut [u8], side: Side, limit: u64, name: &[u8]) -> Result<(), Refusal>
    ensures { Amended (deleted_for 16 disk.old side limit name.now) disk.old disk.new result }
{
    delete_by(disk, Some(Asker { side, limit }), name)
}

// Data sectors for k bytes: address and length stand before them.
pub fn data_for(k: usize) -> usize
    ensures { result ≡ data_for k }
{
    k / 256 + (k % 256 + 259) / 256
}

// Lists for m data sectors.
pub fn lists_for(m: usize) -> usize
    ensures { result ≡ lists_for m }
{
    m / 122 + (m % 122 + 121) / 122
}

// How many sectors a file of k bytes takes: lists and data.
fn sectors_for(k: usize) -> usize
    requires { k ≤ 32768 }
    ensures is { result ≡ lists_for (data_for k) + data_for k }
    ensures small { result ≤ 131 }
{
    let m = data_for(k);
    lists_for(m) + m
}

// Puts in the entry of a saved file, unlocked Binary, from x on.
fn write_entry(disk: &mut [u8], x: usize, places: &[u8], name: &[u8], count: u16)
    requires { savable name.now ≡ true }
    ensures { EntryPut x places.now name.now count disk.old disk.new }
{
    let list = Place {
        track: Track(byte_at(places, 0)),
        sector: Sector(byte_at(places, 1)),
    };
    let mut record = [0u8; 35];
    let _ = file_entry_as_vec(list, 4, false, name, count, &mut record);
    copy_at(&record, disk, x);
}

// Writes the sectors of a file, whose places are known, and its entry from x on.
fn put_file(disk: &mut [u8], x: usize, places: &[u8], name: &[u8], address: u16, data: &[u8])
    requires { (savable name.now ≡ true) × (length «data».now ≤ 32768) }
    ensures { FilePut x places.now name.now address «data».now disk.old disk.new }
{
    write_file(disk, places, address, data);
    write_entry(disk, x, places, name, sectors_for(data.len()) as u16);
}

// Stores a file in the line from x on: its sectors are sought first, and only then the first byte is written; refusal 21.
fn store(disk: &mut [u8], x: usize, name: &[u8], address: u16, data: &[u8]) -> Result<(), Refusal>
    requires { Storable disk.old x name.now «data».now }
    ensures { Amended (saved_at 16 disk.old x name.now address «data».now) disk.old disk.new result }
{
    let mut table = vtoc_copy(disk);
    let mut places = [0u8; 262];
    if !take_sectors(&mut table, &mut places, sectors_for(data.len())) {
        return Err(Refusal::NoSpace);
    }
    copy_at(&table, disk, 69632);
    put_file(disk, x, &places, name, address, data);
    Ok(())
}

// The end of a save, the lines having been looked along: refusal 21 for data over 32,768, for the lines, for the sectors.
fn settle(disk: &mut [u8], s: Sight, name: &[u8], address: u16, data: &[u8]) -> Result<(), Refusal>
    requires { Seated disk.old name.now s }
    ensures { Amended (stored 16 disk.old name.now address «data».now) disk.old disk.new result }
{
    if 32768 < data.len() {
        return Err(Refusal::NoSpace);
    }
    match s.room {
        None => Err(Refusal::NoSpace),
        Some(x) => store(disk, x, name, address, data),
    }
}

// Whether a file of k bytes more is over the limit of the side that asks.
fn over_limit(disk: &[u8], asker: Option<Asker>, k: usize) -> bool
    ensures { result ≡ over_limit disk.now asker k }
{
    match asker {
        None => false,
        Some(a) => {
            let m = data_for(k);
            a.limit < count_held(disk, 16, a.side) + (lists_for(m) + m) as u64
        }
    }
}

// Saves a Binary file, unlocked; refusals 1 to 6, 20, 14, 23 where a side asks, 22, 24 where one does, 21.
fn save_by(
    disk: &mut [u8],
    asker: Option<Asker>,
    name: &[u8],
    address: u16,
    data: &[u8],
) -> Result<(), Refusal>
    ensures { Amended (saved_by 16 disk.old asker name.now address «data».now) disk.old disk.new result }
{
    name_allowed(disk, asker, name)?;
    let s = look(disk, name);
    if s.line.is_some() {
        return Err(Refusal::NameTaken);
    }
    if over_limit(disk, asker, data.len()) {
        return Err(Refusal::OverLimit);
    }
    settle(disk, s, name, address, data)
}

// Saves a Binary file, unlocked: Req 09; refusals 1 to 6, 20, 14, 22, 21.
pub fn save(disk: &mut [u8], name: &[u8], address: u16, data: &[u8]) -> Result<(), Refusal>
    ensures { Amended (saved 16 disk.old name.now address «data».now) disk.old disk.new result }
{
    save_by(disk, None, name, address, data)
}

// .. for a side, within its limit of sectors: Req 10; refusals 1 to 6, 20, 14, 23, 22, 24, 21.
pub fn save_for(
    disk: &mut [u8],
    side: Side,
    limit: u64,
    name: &[u8],
    address: u16,
    data: &[u8],
) -> Result<(), Refusal>
    ensures { Amended (saved_for 16 disk.old side limit name.now address «data».now) disk.old disk.new result }
{
    save_by(disk, Some(Asker { side, limit }), name, address, data)
}
