// A nibble stream (nibble.rs): a sector by its key, and the flat disk that it holds.
#![tactic(auto)]

ghost use Rattle.std.specs.Prelude.{◌≡◌, ◌+◌, ◌*◌, ◌≤◌, ◌<◌, length, take, drop};
ghost use Rattle.lists.specs.Fill.{tab, put};
ghost use Rattle.outcome.specs.Outcome.{Hands};
ghost use Rattle.fields.specs.declared.Edition.TheVariants.{Sixteen, Thirteen};
ghost use Rattle.fields.specs.Editions.{nibbles_of, per_track, interleave, dos_sector, sum_of, data_of};
ghost use Rattle.stream.specs.Steps.{keyed, first_place, verdict, Repeats, Judges, Locates, strange, number_of, sum_counts, held_in, Complete, Decides, address_sums, Collects};
ghost use Rattle.stream.specs.Stream.{Denibblized, sector_of};

use fields::{Edition, FieldPair, dos_sectors, nibbles_in, parse_nib_sector, per_track};
use lists::copy_at;
use nibble::{data_sum, five_three, sector_data};
use outcome::Refusal;

// The XOR with the sum nibble of the data field whose nibbles stand at place a.
fn sum_at(s: &[u8], a: usize, ed: Edition) -> u8
    requires { a + (nibbles_of ed + 3) ≤ length s.now }
    ensures { result ≡ sum_of ed (take (nibbles_of ed) (drop a s.now)) }
{
    let end = a + nibbles_in(ed);
    match ed {
        Edition::Sixteen => data_sum(&s[a..end]),
        Edition::Thirteen => five_three::data_sum(&s[a..end]),
    }
}

// Puts the 256 bytes of that data field into out from place `at`, whatever the sum is. The answer is that of `sum_at`.
fn put_data(s: &[u8], a: usize, out: &mut [u8], at: usize, ed: Edition) -> u8
    requires { (a + (nibbles_of ed + 3) ≤ length s.now) × (at + 256 ≤ length out.old) }
    ensures bytes { out.new ≡ put at (data_of ed (take (nibbles_of ed) (drop a s.now))) out.old }
    ensures sum { result ≡ sum_of ed (take (nibbles_of ed) (drop a s.now)) }
{
    let end = a + nibbles_in(ed);
    match ed {
        Edition::Sixteen => sector_data(&s[a..end], &mut out[at..]),
        Edition::Thirteen => five_three::sector_data(&s[a..end], &mut out[at..]),
    }
}

// The pair has the key.
fn has_key(p: FieldPair, volume: u8, track: u8, sector: u8) -> bool
    ensures { result ≡ keyed volume track sector p }
{
    p.volume == volume && (p.track == track && p.sector == sector)
}

// A pair before place e has the key of p.
fn repeated(s: &[u8], e: usize, p: FieldPair, ed: Edition) -> bool
    ensures { Repeats ed s.now e p result }
{
    let mut i: usize = 0;
    while i < e {
        let Ok(Some(q)) = parse_nib_sector(s, i, ed) else {
            return false;
        };
        if has_key(p, q.volume, q.track, q.sector) {
            return true;
        }
        i = q.next;
    }
    false
}

// The sums of the fields that count are right up to the pair p at place e. An earlier field of its key is looked for only where its sum is wrong.
fn sums_right(s: &[u8], e: usize, p: FieldPair, good: bool, ed: Edition) -> bool
    requires { p.nibbles + (nibbles_of ed + 3) ≤ length s.now }
    ensures { Judges ed s.now e p good result }
{
    if good {
        if sum_at(s, p.nibbles, ed) == 0 {
            return true;
        }
        return repeated(s, e, p, ed);
    }
    false
}

// The place of the first nibbles that are wanted: `at`, or these if there was none before.
fn first_place(at: usize, wanted: bool, nibbles: usize) -> usize
    ensures { result ≡ first_place at wanted nibbles }
{
    if at == 0 {
        if wanted {
            return nibbles;
        }
        return 0;
    }
    at
}

// Where the sector of a key stands at the end of the scan.
fn verdict_of(good: bool, at: usize) -> Result<usize, Refusal>
    ensures { result ≡ verdict good at }
{
    if !good {
        return Err(Refusal::DataSum);
    }
    if at == 0 {
        return Err(Refusal::Absent);
    }
    Ok(at)
}

// Where the sector of a key stands; refusals 8, 9, 10.
fn locate(s: &[u8], volume: u8, track: u8, sector: u8, ed: Edition) -> Result<usize, Refusal>
    ensures { Locates ed s.now (sector_of ed volume track sector s.now) result }
{
    let mut i: usize = 0;
    let mut good = true;
    let mut at: usize = 0;
    while let Some(p) = parse_nib_sector(s, i, ed)? {
        good = sums_right(s, i, p, good, ed);
        at = first_place(at, has_key(p, volume, track, sector), p.nibbles);
        i = p.next;
    }
    verdict_of(good, at)
}

// The 256 bytes of an address field's volume, track and sector; refusals 8, 9, 10, 12.
fn sector_of(
    s: &[u8],
    volume: u8,
    track: u8,
    sector: u8,
    out: &mut [u8],
    ed: Edition,
) -> Result<usize, Refusal>
    ensures { Hands (sector_of ed volume track sector s.now) out.old out.new result }
{
    let at = locate(s, volume, track, sector, ed)?;
    if out.len() < 256 {
        return Err(Refusal::TrayShort);
    }
    put_data(s, at, out, 0, ed);
    Ok(256)
}

// The same of a stream of 16 sectors a track (in the Rust parse_nib_disk, asked key by key).
pub fn sector(s: &[u8], volume: u8, track: u8, sector: u8, out: &mut [u8]) -> Result<usize, Refusal>
    ensures { Hands (sector_of Sixteen volume track sector s.now) out.old out.new result }
{
    sector_of(s, volume, track, sector, out, Edition::Sixteen)
}

// The same of a stream of 13.
pub fn sector_13(
    s: &[u8],
    volume: u8,
    track: u8,
    sector: u8,
    out: &mut [u8],
) -> Result<usize, Refusal>
    ensures { Hands (sector_of Thirteen volume track sector s.now) out.old out.new result }
{
    sector_of(s, volume, track, sector, out, Edition::Thirteen)
}

// The DOS sector of address sector p in an edition: of 16, by the table that the caller holds.
fn dos_sector_of(order: &[u8; 16], p: u8, ed: Edition) -> u8
    requires { (order.now ≡ tab interleave 16) × (p < 16) }
    ensures { result ≡ dos_sector ed p }
{
    match ed {
        Edition::Sixteen => order[p as usize],
        Edition::Thirteen => p,
    }
}

// 8 where the scan from place i on meets a wrong address sum.
fn address_refusal(s: &[u8], i: usize, ed: Edition) -> Result<(), Refusal>
    ensures { result ≡ address_sums ed s.now i }
{
    let mut k = i;
    while let Some(p) = parse_nib_sector(s, k, ed)? {
        k = p.next;
    }
    Ok(())
}

// The pair is of another volume, or not on the disk.
fn is_stranger(p: FieldPair, volume: u8, ed: Edition) -> bool
    ensures { result ≡ strange ed volume p }
{
    p.volume != volume || (34 < p.track || per_track(ed) - 1 < p.sector)
}

// The product of two bytes.
fn times(a: u8, b: u8) -> usize
    ensures is { result ≡ a * b }
    ensures small { result < 65536 }
{
    a as usize * b as usize
}

// The number of the DOS sector that a pair holds.
fn sector_number(order: &[u8; 16], p: FieldPair, ed: Edition) -> usize
    requires { (order.now ≡ tab interleave 16) × (p.track ≤ 34) × (p.sector < per_track ed) }
    ensures is { result ≡ number_of ed p }
    ensures small { result < 560 }
{
    times(per_track(ed), p.track) + dos_sector_of(order, p.sector, ed) as usize
}

// Decodes the field of p into disk from place `at` if it is the first of its sector: then `old` is 0. The answer: the sums of the fields that count are right, p among them.
fn decode_first(
    s: &[u8],
    p: FieldPair,
    old: usize,
    good: bool,
    disk: &mut [u8],
    at: usize,
    ed: Edition,
) -> bool
    requires { (p.nibbles + (nibbles_of ed + 3) ≤ length s.now) × (at + 256 ≤ length disk.old) }
    ensures bytes { disk.new ≡ held_in ed s.now p old at disk.old }
    ensures sums { result ≡ sum_counts ed s.now p old good }
{
    if old == 0 {
        if put_data(s, p.nibbles, disk, at, ed) == 0 {
            return good;
        }
        return false;
    }
    good
}

// Each sector has a place.
fn complete(at: &[usize; 560], ed: Edition) -> bool
    ensures { Complete ed at.now result }
{
    let n = 35 * (per_track(ed) as usize);
    for k in 0..n {
        if at[k] == 0 {
            return false;
        }
    }
    true
}

// What is refused at the end of the scan: 9, 10.
fn end_refusal(good: bool, at: &[usize; 560], ed: Edition) -> Result<(), Refusal>
    ensures { Decides ed good at.now result }
{
    if !good {
        return Err(Refusal::DataSum);
    }
    if complete(at, ed) {
        return Ok(());
    }
    Err(Refusal::Absent)
}

// Decodes the first field of each sector into disk; refusals 8, 11, 9, 10. An address sum behind a stranger comes before it. `at` has for each DOS sector the place of its nibbles, 0 for none yet.
fn collect(s: &[u8], disk: &mut [u8], ed: Edition) -> Result<(), Refusal>
    requires { 256 * (35 * per_track ed) ≤ length disk.old }
    ensures { Collects ed s.now disk.new result }
{
    let Some(first) = parse_nib_sector(s, 0, ed)? else {
        return Err(Refusal::Absent);
    };
    let order = dos_sectors();
    let mut i: usize = 0;
    let mut good = true;
    let mut at = [0usize; 560];
    while let Some(p) = parse_nib_sector(s, i, ed)? {
        if is_stranger(p, first.volume, ed) {
            address_refusal(s, p.next, ed)?;
            return Err(Refusal::Stranger);
        }
        let k = sector_number(&order, p, ed);
        let old = at[k];
        good = decode_first(s, p, old, good, disk, 256 * k, ed);
        at[k] = first_place(old, true, p.nibbles);
        i = p.next;
    }
    end_refusal(good, &at, ed)
}

// Room for a flat disk of either edition.
fn space() -> [u8; 143360] {
    [0; 143360]
}

// The flat disk that a stream holds (not in the Rust); refusals 8, 11, 9, 10, 12. The sectors are decoded in one pass, into space of its own (143,360 bytes of the stack), and copied to out when nothing is refused any more.
fn denibblize_of(s: &[u8], out: &mut [u8], ed: Edition) -> Result<usize, Refusal>
    ensures { Denibblized ed s.now out.old out.new result }
{
    let mut disk = space();
    collect(s, &mut disk, ed)?;
    let size = 256 * (35 * (per_track(ed) as usize));
    if out.len() < size {
        return Err(Refusal::TrayShort);
    }
    copy_at(&disk[0..size], out, 0);
    Ok(size)
}

// That of a stream of 16 sectors a track: 143,360 bytes.
pub fn denibblize(s: &[u8], out: &mut [u8]) -> Result<usize, Refusal>
    ensures { Denibblized Sixteen s.now out.old out.new result }
{
    denibblize_of(s, out, Edition::Sixteen)
}

// That of a stream of 13: 116,480 bytes.
pub fn denibblize_13(s: &[u8], out: &mut [u8]) -> Result<usize, Refusal>
    ensures { Denibblized Thirteen s.now out.old out.new result }
{
    denibblize_of(s, out, Edition::Thirteen)
}
