// The fields of a nibble stream (nibble.rs), of 16 or 13 sectors a track: the search for marks, and the scan from one pair of fields to the next.
#![tactic(auto)]

ghost use Rattle.std.specs.Prelude.{◌≡◌, ◌+◌, ◌*◌, ◌≤◌, ◌<◌, length, drop};
ghost use Rattle.lists.specs.Fill.{tab};
ghost use Rattle.fields.specs.Search.{skip, is_mark, Clear, recognized};
ghost use Rattle.fields.specs.Scan.{byte_at4, mark_at, prologue_at, place_after, address_from, data_from, pair_from};
ghost use Rattle.fields.specs.Editions.{mark_of, nibbles_of, per_track, interleave};

use lists::byte_at;
use nibble::parse_nibble_byte_4_and_4;
use outcome::Refusal;

// The two editions of a stream: DOS 3.3 with 16 sectors a track, DOS 3.2 with 13.
#[derive(Clone, Copy, Debug, PartialEq, Eq)]
pub enum Edition {
    Sixteen,
    Thirteen,
}

// An address field: what it says, and the place behind it.
#[derive(Clone, Copy, Debug, PartialEq, Eq)]
pub struct AddressField {
    pub volume: u8,
    pub track: u8,
    pub sector: u8,
    pub next: usize,
}

// A data field: the place of its nibbles, the sum among them, and the place behind it.
#[derive(Clone, Copy, Debug, PartialEq, Eq)]
pub struct DataField {
    pub nibbles: usize,
    pub next: usize,
}

// An address and the data that follow it (in the Rust Field), and the place behind them.
#[derive(Clone, Copy, Debug, PartialEq, Eq)]
pub struct FieldPair {
    pub volume: u8,
    pub track: u8,
    pub sector: u8,
    pub nibbles: usize,
    pub next: usize,
}

// 1 for D5h, else 0.
fn mark(b: u8) -> u8
    ensures { (result ≡ is_mark b) × (result ≤ 1) }
{
    if b == 0xD5 {
        return 1;
    }
    0
}

// 0 says that no D5h stands at the 16 places from i on. Where one may, the caller looks again.
fn marks_in_16(s: &[u8], i: usize) -> u8
    requires { i + 16 ≤ length s.now }
    ensures { Clear s.now i result 16 }
{
    let mut hit: u8 = 0;
    for j in 0..16 {
        hit = hit | mark(s[i + j]);
    }
    hit
}

// The place of the first D5h from i on, byte by byte; the length where there is none.
fn find_slow(s: &[u8], i: usize) -> usize
    requires { i ≤ length s.now }
    ensures { result ≡ i + skip (drop i s.now) }
{
    for k in i..s.len() {
        if s[k] == 0xD5 {
            return k;
        }
    }
    s.len()
}

// The same, 16 bytes at a time.
fn find_fast(s: &[u8], i: usize) -> usize
    requires { i ≤ length s.now }
    ensures { result ≡ i + skip (drop i s.now) }
{
    let mut k = i;
    while s.len() - k >= 16 {
        if marks_in_16(s, k) != 0 {
            return find_slow(s, k);
        }
        k += 16;
    }
    find_slow(s, k)
}

// The place of the first D5h from i on; the length where there is none, and i where that is past the end.
pub fn find_mark(s: &[u8], i: usize) -> usize
    ensures { result ≡ i + skip (drop i s.now) }
{
    if s.len() < i {
        return i;
    }
    find_fast(s, i)
}

// The mark D5 AA c stands at place k.
#[tactic(auto, unfolding(crate::specs::Scan::mark_at))]
fn mark_at(s: &[u8], k: usize, c: u8) -> bool
    requires { k < length s.now }
    ensures { result ≡ mark_at c s.now k }
{
    byte_at(s, k) == 0xD5 && (byte_at(s, k + 1) == 0xAA && byte_at(s, k + 2) == c)
}

// The place behind the first D5 AA c from i on.
fn find_prologue(s: &[u8], i: usize, c: u8) -> Option<usize>
    requires { 0 < c }
    ensures { result ≡ place_after c s.now i }
{
    let mut k = find_mark(s, i);
    while k < s.len() {
        if mark_at(s, k, c) {
            return Some(k + 3);
        }
        k = find_mark(s, k + 1);
    }
    None
}

// The last byte of the prologue at place k, 0 where there is none.
#[tactic(auto, unfolding(crate::specs::Scan::prologue_at))]
fn prologue_at(s: &[u8], k: usize) -> u8
    requires { k < length s.now }
    ensures { result ≡ prologue_at s.now k }
{
    if mark_at(s, k, 0x96) {
        return 0x96;
    }
    if mark_at(s, k, 0xB5) {
        return 0xB5;
    }
    0
}

// 96h or B5h, whichever first follows a D5 AA; 0 where neither does.
pub fn recognize_prologue(s: &[u8]) -> u8
    ensures { result ≡ recognized s.now }
{
    let mut k = find_mark(s, 0);
    while k < s.len() {
        let c = prologue_at(s, k);
        if c != 0 {
            return c;
        }
        k = find_mark(s, k + 1);
    }
    0
}

// Byte k of what stands in 4-and-4 from place j on.
fn byte_4_and_4(s: &[u8], j: usize, k: usize) -> u8
    requires { (j ≤ length s.now) × (k < 4) }
    ensures { result ≡ byte_at4 s.now j k }
{
    parse_nibble_byte_4_and_4(byte_at(s, j + 2 * k), byte_at(s, j + (2 * k + 1)))
}

// The last byte of an edition's address prologue.
#[tactic(auto, unfolding(crate::specs::Editions::mark_of))]
fn mark_of(ed: Edition) -> u8
    ensures is { result ≡ mark_of ed }
    ensures some { 0 < result }
{
    match ed {
        Edition::Sixteen => 0x96,
        Edition::Thirteen => 0xB5,
    }
}

// The nibbles of an edition's data field, the sum among them.
#[tactic(auto, unfolding(crate::specs::Editions::nibbles_of))]
pub fn nibbles_in(ed: Edition) -> usize
    ensures is { result ≡ nibbles_of ed }
    ensures small { result ≤ 411 }
{
    match ed {
        Edition::Sixteen => 343,
        Edition::Thirteen => 411,
    }
}

// The sectors of an edition's track.
#[tactic(auto, unfolding(crate::specs::Editions::per_track))]
pub fn per_track(ed: Edition) -> u8
    ensures is { result ≡ per_track ed }
    ensures some { 0 < result }
    ensures small { result ≤ 16 }
{
    match ed {
        Edition::Sixteen => 16,
        Edition::Thirteen => 13,
    }
}

// The DOS sectors of address sectors 0 to 15: the interleave figure of Beneath Apple DOS.
const DOS_SECTORS: [u8; 16] = [0, 7, 14, 6, 13, 5, 12, 4, 11, 3, 10, 2, 9, 1, 8, 15];

// That table, to be lent to every step of a call.
pub fn dos_sectors() -> [u8; 16]
    ensures { result ≡ tab interleave 16 }
{
    DOS_SECTORS
}

// The DOS sector of address sector p. Past 15, which no disk has, the first fifteen come again.
pub fn dos_sector(p: u8) -> u8
    ensures { result ≡ interleave p }
{
    let order = dos_sectors();
    if p < 16 {
        return order[p as usize];
    }
    order[(p % 15) as usize]
}

// The place behind the first address prologue from i on.
fn find_address(s: &[u8], i: usize, ed: Edition) -> Option<usize>
    ensures { result ≡ place_after (mark_of ed) s.now i }
{
    find_prologue(s, i, mark_of(ed))
}

// The first address field from place i on; refusal 8.
pub fn find_and_parse_address_field(
    s: &[u8],
    i: usize,
    ed: Edition,
) -> Result<Option<AddressField>, Refusal>
    ensures { result ≡ address_from ed s.now i }
{
    let Some(j) = find_address(s, i, ed) else {
        return Ok(None);
    };
    if s.len() - j < 11 {
        return Ok(None);
    }
    let volume = byte_4_and_4(s, j, 0);
    let track = byte_4_and_4(s, j, 1);
    let sector = byte_4_and_4(s, j, 2);
    let sum = byte_4_and_4(s, j, 3);
    if sum != volume ^ track ^ sector {
        return Err(Refusal::AddressSum);
    }
    Ok(Some(AddressField {
        volume: volume,
        track: track,
        sector: sector,
        next: j + 11,
    }))
}

// The first data field from place i on.
pub fn find_and_parse_data_field(s: &[u8], i: usize, ed: Edition) -> Option<DataField>
    ensures { result ≡ data_from ed s.now i }
{
    let j = find_prologue(s, i, 0xAD)?;
    let size = nibbles_in(ed) + 3;
    if s.len() - j < size {
        return None;
    }
    Some(DataField {
        nibbles: j,
        next: j + size,
    })
}

// The first whole pair of fields from place i on; refusal 8. The next call goes on at `next`.
#[tactic(auto, using(crate::proofs::Scan::pair_bad, crate::proofs::Scan::pair_none, crate::proofs::Scan::pair_cut, crate::proofs::Scan::pair_is))]
pub fn parse_nib_sector(s: &[u8], i: usize, ed: Edition) -> Result<Option<FieldPair>, Refusal>
    ensures { result ≡ pair_from ed s.now i }
{
    let Some(address) = find_and_parse_address_field(s, i, ed)? else {
        return Ok(None);
    };
    let Some(data) = find_and_parse_data_field(s, address.next, ed) else {
        return Ok(None);
    };
    Ok(Some(FieldPair {
        volume: address.volume,
        track: address.track,
        sector: address.sector,
        nibbles: data.nibbles,
        next: data.next,
    }))
}
