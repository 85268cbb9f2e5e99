// Will it go on? What saves of given lengths will need of a disk, told without writing: Req 11. Not of the Rust.
#![tactic(auto)]

ghost use Rattle.std.specs.Prelude.{◌≡◌, cond, ◌≤◌, length, ◌∷◌, []};
ghost use Rattle.lists.specs.Fill.{put};
ghost use Rattle.outcome.specs.Outcome.{Hands};
ghost use Rattle.saving.specs.Steps.{idle, Paged};
ghost use Rattle.forecast.specs.Forecast.{forecast_numbers};
ghost use Rattle.forecast.specs.Steps.{PageCounted, Counted, SoughtFor, Barred, Tried, with_save, Room, Plan, Foreseen, Prepared, AllTold};

use allot::take_sectors;
use catalog::{entry_start, first_page, last_page, valid_file};
use disk::{Place, chain_budget, link_of};
use lists::{byte_at, copy_at};
use outcome::Refusal;
use saving::{data_for, lists_for, tidy, vtoc_copy};

// What the saves before have needed, how many lines are left, and from which length on a save is known to end in 21.
#[derive(Clone, Copy, Debug, PartialEq, Eq)]
struct Needs {
    sectors: usize,
    lists: usize,
    lines: usize,
    left: usize,
    least: u64,
}

// 1 for a line that is not in use, else 0.
fn line_open(disk: &[u8], x: usize) -> usize
    ensures is { result ≡ cond (idle disk.now x) 1 0 }
    ensures small { result ≤ 1 }
{
    if valid_file(byte_at(disk, x)) { 0 } else { 1 }
}

// How many lines of a page are not in use.
fn page_open(disk: &[u8], p: Place) -> usize
    ensures { PageCounted disk.now p result }
{
    let mut many: usize = 0;
    for i in 0..7u8 {
        many += line_open(disk, entry_start(16, p, i));
    }
    many
}

// How many lines of the disk are not in use, its pages having been read.
fn open_lines(disk: &[u8]) -> usize
    requires { Paged disk.now }
    ensures { Counted disk.now result }
{
    let most = chain_budget(16);
    let mut p = first_page(disk, 16);
    let mut many: usize = 0;
    for _turn in 0..most {
        many += page_open(disk, p);
        if last_page(disk, 16, p) {
            return many;
        }
        p = link_of(disk, 16, p);
    }
    many
}

// Takes the sectors of k bytes in the table; where they are not all found it stays as it is.
fn seek_for(table: &mut [u8], k: usize) -> bool
    requires { (length table.old ≡ 256) × (k ≤ 32768) }
    ensures { SoughtFor k table.old table.new result }
{
    let m = data_for(k);
    let mut copy = [0u8; 256];
    copy_at(table, &mut copy, 0);
    let mut places = [0u8; 262];
    if !take_sectors(&mut copy, &mut places, lists_for(m) + m) {
        return false;
    }
    copy_at(&copy, table, 0);
    true
}

// Tries a save of k bytes in the table, so many lines being left: whether it goes on. One that would end in 21 leaves the table as it is. One that is no shorter
// than one that did is not sought.
fn try_save(table: &mut [u8], left: usize, least: u64, k: u64) -> bool
    requires { (length table.old ≡ 256) × Barred table.old left least }
    ensures { Tried left k table.old table.new result }
{
    if least <= k {
        return false;
    }
    if left == 0 {
        return false;
    }
    seek_for(table, k as usize)
}

// With a save of k bytes more, if it goes on.
fn add_save(s: Needs, k: u64, goes: bool) -> Needs
    requires { Room s k goes }
    ensures { result ≡ with_save s k goes }
{
    if !goes {
        return Needs {
            least: k.min(s.least),
            ..s
        };
    }
    let m = data_for(k as usize);
    Needs {
        sectors: s.sectors + m,
        lists: s.lists + lists_for(m),
        lines: s.lines + 1,
        left: s.left - 1,
        least: 32769,
    }
}

// 1 for a save that would end in 21.
fn mark_of(goes: bool) -> u64
    ensures { result ≡ cond goes 0 1 }
{
    if goes { 0 } else { 1 }
}

// Puts the sums to the front of the elements.
fn put_sums(s: Needs, numbers: &mut [u64])
    requires { 3 ≤ length numbers.old }
    ensures { numbers.new ≡ put 0 (s.sectors ∷ s.lists ∷ s.lines ∷ []) numbers.old }
{
    numbers[0] = s.sectors as u64;
    numbers[1] = s.lists as u64;
    numbers[2] = s.lines as u64;
}

// Tries saves of these lengths, one after the other: the sums, and a mark for each.
fn foresee(table: &mut [u8], left: usize, lengths: &[u64], numbers: &mut [u64])
    requires { Plan table.old lengths.now numbers.old }
    ensures { Foreseen table.old left lengths.now numbers.old numbers.new }
{
    let mut s = Needs {
        sectors: 0,
        lists: 0,
        lines: 0,
        left,
        least: 32769,
    };
    for i in 0..lengths.len() {
        let k = lengths[i];
        let goes = try_save(table, s.left, s.least, k);
        numbers[3 + i] = mark_of(goes);
        s = add_save(s, k, goes);
    }
    put_sums(s, numbers);
}

// Puts the numbers of a forecast to the front of the elements, the disk being clean.
fn tell(disk: &[u8], lengths: &[u64], numbers: &mut [u64])
    requires { Prepared disk.now lengths.now numbers.old }
    ensures { AllTold disk.now lengths.now numbers.old numbers.new }
{
    let left = open_lines(disk);
    let mut table = vtoc_copy(disk);
    foresee(&mut table, left, lengths, numbers);
}

// What saves of these lengths, in order, will need: data sectors, list sectors and entry lines in all, then for each length 1 where its save would end in 21,
// else 0; refusals 25, 1 to 6, 20, 12.
pub fn forecast(disk: &[u8], lengths: &[u64], numbers: &mut [u64]) -> Result<usize, Refusal>
    ensures { Hands (forecast_numbers disk.now lengths.now) numbers.old numbers.new result }
{
    if 64 < lengths.len() {
        return Err(Refusal::PlanLong);
    }
    tidy(disk)?;
    if numbers.len() < 3 + lengths.len() {
        return Err(Refusal::TrayShort);
    }
    tell(disk, lengths, numbers);
    Ok(3 + lengths.len())
}
