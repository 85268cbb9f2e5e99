// The archive of a disk, written into lent space or compared with the bytes of one: document 01, "Return". Not of the Rust, which has none.
#![tactic(auto)]

ghost use Rattle.std.specs.Prelude.{◌≡◌, cond, ℕ, ◌+◌, ◌-◌, ◌*◌, ◌%◌, ◌<◌, ◌≤◌, min, eqb, length, get_or, take, drop};
ghost use mathlib.Core.List.{List, ◌++◌, ◌∷◌, [], map, foldl};
ghost use Rattle.lists.specs.Fill.{placed, below};
ghost use Rattle.lists.specs.Same.{same};
ghost use Rattle.disk.specs.Disk.{per_of, sectors};
ghost use Rattle.catalog.specs.Catalog.{entry_from, entries_of, first_page};
ghost use Rattle.files.specs.Copies.{cut_of, Copied, Roomy, Whole, CopiedAll, list_of, walk_of};
ghost use Rattle.archive.specs.Archive.{data_block, first_block, Wrote, Checked};
ghost use Rattle.writer.specs.Passes.{writes, compared, fresh_mark, pass_of, sector_at, head_of, tail_of, size_by, start_by, stated_in, next_data, made_at, head_at, file_with, stepped, with_file, with_entry, with_live, with_page, walk_made, Made, MadeAll, Has, Due, Walked, Sectors, Filed, spot, start_of, collected};
ghost use Rattle.files.specs.Survey.{blocks_for};

use archive::{entry_block, first_block};
use catalog::{EntryHead, entry_head, entry_start, first_page, last_page, raw_name, valid_file};
use disk::{Place, Sector, Track, chain_budget, link_of, sector_start, sectors_of};
use files::{MAX_PAIRS, last_list, parse_track_sector_pair, survey};
use lists::{byte_at, copy_at, fill_at, part, put_word, word_at};
use outcome::Refusal;

// What a pass does with a block: puts it into the lent space, or compares it with that block of an archive.
#[derive(Clone, Copy)]
enum Target<'a> {
    Write,
    Compare(&'a [u8]),
}

// What a pass is for: what it does with a block, the disk with its sectors a track, and the number of all blocks.
#[derive(Clone, Copy)]
struct Job<'a> {
    target: Target<'a>,
    disk: &'a [u8],
    per: u8,
    total: u32,
}

// The data of a file: `size` bytes from `start` on in the sectors with these starts, joined; they are k data blocks.
#[derive(Clone, Copy)]
struct Data<'a> {
    disk: &'a [u8],
    places: &'a [u32],
    start: usize,
    size: usize,
    k: u32,
}

// How far a pass has come: the next block's number, and whether all blocks were equal.
#[derive(Clone, Copy, Debug, PartialEq, Eq)]
pub struct Mark {
    pub block: u32,
    pub good: bool,
}

// Two blocks are equal. All bytes are compared, with no branch on any: at a known length the loop becomes vector code.
fn equal(a: &[u8; 256], b: &[u8; 256]) -> bool
    ensures { result ≡ same a.now b.now }
{
    let mut all = true;
    for k in 0..256 {
        all = all & (a[k] == b[k]);
    }
    all
}

// A block stands in an archive at `at`.
fn stands_at(block: &[u8; 256], archive: &[u8], at: usize) -> bool
    ensures { result ≡ same block.now (take 256 (drop at archive.now)) }
{
    match part(archive, at, 256).first_chunk::<256>() {
        Some(other) => equal(block, other),
        None => false,
    }
}

// Puts a block into out, or compares it with that block of an archive.
fn emit(target: Target, block: &[u8; 256], m: Mark, out: &mut [u8]) -> Mark
    requires { m.block ≤ 20000000 }
    ensures { Made (stepped (writes target.entry) (compared target.entry) (pass_of m out.old) block.now) 1 m out.old out.new result }
{
    let at = 256 * (m.block as usize);
    match target {
        Target::Write => {
            copy_at(block, out, at);
            Mark {
                block: m.block + 1,
                good: m.good,
            }
        },
        Target::Compare(archive) => {
            let equal = stands_at(block, archive, at);
            Mark {
                block: m.block + 1,
                good: m.good & equal,
            }
        },
    }
}

// Puts a sector's start among `places` at `at`, as far as there is space for 257.
fn put_start(per: u8, q: Place, places: &mut [u32], at: usize) -> usize
    requires { Roomy 257 (spot at) places.old }
    ensures { Copied 257 (start_of per q) (spot at) places.old places.new (spot result) }
{
    if 257 <= at {
        return at;
    }
    places[at] = sector_start(per, q) as u32;
    at + 1
}

// The starts of the sectors of one list's pairs.
fn collect_pairs(disk: &[u8], per: u8, p: Place, places: &mut [u32], first: usize) -> usize
    requires { Roomy 257 (spot first) places.old }
    ensures { Copied 257 (list_of per disk.now (start_of per) p) (spot first) places.old places.new (spot result) }
{
    let mut at = first;
    for i in 0..MAX_PAIRS {
        let q = parse_track_sector_pair(disk, per, p, i);
        if q.track.0 == 0 {
            return at;
        }
        at = put_start(per, q, places, at);
    }
    at
}

// The starts of the sectors of all lists from `first` on, at most 257, where these were followed before; how many.
fn collect(disk: &[u8], per: u8, first: Place, places: &mut [u32]) -> usize
    requires { Roomy 257 (spot 0) places.old × Whole (walk_of per disk.now (start_of per) first) }
    ensures { CopiedAll 257 (walk_of per disk.now (start_of per) first) (spot 0) places.old places.new (spot result) }
{
    let most = chain_budget(per);
    let mut p = first;
    let mut at: usize = 0;
    for _turn in 0..most {
        at = collect_pairs(disk, per, p, places, at);
        if last_list(disk, per, p) {
            return at;
        }
        p = link_of(disk, per, p);
    }
    at
}

// Start i of `places`, and 0 past the end.
fn start_at(places: &[u32], i: usize) -> u32
    ensures { result ≡ get_or places.now i 0 }
{
    places.get(i).copied().unwrap_or(0)
}

// Of the sectors with these starts, joined, so many bytes from `from` on, as far as one sector has them.
fn head_piece<'a>(disk: &'a [u8], places: &[u32], from: usize, size: usize) -> &'a [u8]
    ensures { result.now ≡ head_of disk.now places.now from size }
{
    let at = from % 256;
    let n = start_at(places, from / 256) as usize;
    part(disk, n + at, size.min(256 - at))
}

// The rest of them, out of the next sector.
fn tail_piece<'a>(
    disk: &'a [u8],
    places: &[u32],
    from: usize,
    size: usize,
    before: usize,
) -> &'a [u8]
    requires { before ≡ length (head_of disk.now places.now from size) }
    ensures { result.now ≡ tail_of disk.now places.now from size }
{
    let n = start_at(places, from / 256 + 1) as usize;
    part(disk, n, size - before)
}

// Puts a data block of two pieces into out from `at` on; where it does not fit, out stays as it is.
fn put_data(next: u16, head: &[u8], tail: &[u8], out: &mut [u8], at: usize)
    requires { (length head.now + length tail.now ≤ 254) × (at ≤ 5120000000) }
    ensures { out.new ≡ placed at (data_block next (head.now ++ tail.now)) out.old }
{
    if out.len() < at + 256 {
        return;
    }
    put_word(out, at, next);
    copy_at(head, out, at + 2);
    let end = at + 2 + head.len();
    copy_at(tail, out, end);
    fill_at(out, end + tail.len(), 254 - (head.len() + tail.len()), 0);
}

// The same as a block by itself.
fn data_block(next: u16, head: &[u8], tail: &[u8]) -> [u8; 256]
    requires { length head.now + length tail.now ≤ 254 }
    ensures { result ≡ data_block next (head.now ++ tail.now) }
{
    let mut block = [0u8; 256];
    put_data(next, head, tail, &mut block, 0);
    block
}

// The number of the data block behind data block j of k, of which the first is block `first`; 0 behind the last.
fn next_data(k: u32, first: u32, j: u32) -> u16
    requires { first + j ≤ 20000000 }
    ensures { result ≡ next_data k first j % 65536 }
{
    if j + 1 == k {
        0
    } else {
        ((first + j + 1) % 65536) as u16
    }
}

// How many bytes data block j has, of `size` in all: at most 254.
fn data_size(size: usize, j: u32) -> usize
    requires { 254 * j ≤ size }
    ensures { result ≡ min 254 (size - 254 * j) }
{
    254.min(size - 254 * (j as usize))
}

// Data block j of a file.
fn make_data(data: Data, first: u32, j: u32) -> [u8; 256]
    requires { (254 * j ≤ data.size) × (first + j ≤ 20000000) × (data.start ≤ 4) × (data.size ≤ 65792) }
    ensures { result ≡ made_at data.entry.disk.now data.entry.places.now data.entry.start data.entry.size data.entry.k first j }
{
    let from = data.start + 254 * (j as usize);
    let n = data_size(data.size, j);
    let head = head_piece(data.disk, data.places, from, n);
    let tail = tail_piece(data.disk, data.places, from, n, head.len());
    data_block(next_data(data.k, first, j), head, tail)
}

// Puts that block into out from `at` on.
fn write_data(data: Data, first: u32, j: u32, out: &mut [u8], at: usize)
    requires { (254 * j ≤ data.size) × (first + j ≤ 20000000) × (data.start ≤ 4) × (data.size ≤ 65792) × (at ≤ 5120000000) }
    ensures { out.new ≡ placed at (made_at data.entry.disk.now data.entry.places.now data.entry.start data.entry.size data.entry.k first j) out.old }
{
    let from = data.start + 254 * (j as usize);
    let n = data_size(data.size, j);
    let head = head_piece(data.disk, data.places, from, n);
    let tail = tail_piece(data.disk, data.places, from, n, head.len());
    put_data(next_data(data.k, first, j), head, tail, out, at);
}

// Writes data block j of a file in its place, or makes it and compares.
fn emit_block(target: Target, data: Data, first: u32, j: u32, m: Mark, out: &mut [u8]) -> Mark
    requires { (254 * j ≤ data.size) × (first + j ≤ 20000000) × (data.start ≤ 4) × (data.size ≤ 65792) × (m.block ≤ 20000000) }
    ensures { Made (stepped (writes target.entry) (compared target.entry) (pass_of m out.old) (made_at data.entry.disk.now data.entry.places.now data.entry.start data.entry.size data.entry.k first j)) 1 m out.old out.new result }
{
    match target {
        Target::Write => {
            let at = 256 * (m.block as usize);
            write_data(data, first, j, out, at);
            Mark {
                block: m.block + 1,
                good: m.good,
            }
        },
        Target::Compare(_) => {
            let block = make_data(data, first, j);
            emit(target, &block, m, out)
        },
    }
}

// The data blocks of a file.
fn emit_data(target: Target, data: Data, m: Mark, out: &mut [u8]) -> Mark
    requires { (data.k ≡ blocks_for data.size) × (data.start ≤ 4) × (data.size ≤ 65792) × (m.block ≤ 19000000) }
    ensures { Made (foldl (stepped (writes target.entry) (compared target.entry)) (pass_of m out.old) (map (made_at data.entry.disk.now data.entry.places.now data.entry.start data.entry.size data.entry.k m.block) (below data.entry.k))) 260 m out.old out.new result }
{
    let first = m.block;
    let mut t = m;
    for j in 0..data.k {
        t = emit_block(target, data, first, j, t, out);
    }
    t
}

// The number of the entry block behind a file: 0 where the archive ends there.
fn next_entry(after: u32, total: u32) -> u16
    ensures { result ≡ cond (eqb after total) 0 after % 65536 }
{
    if after == total {
        0
    } else {
        (after % 65536) as u16
    }
}

// The number of the first of k data blocks behind block b; 0 where there is none.
fn first_data(k: u32, b: u32) -> u16
    requires { b ≤ 20000000 }
    ensures { result ≡ cond (eqb k 0) 0 (b + 1) % 65536 }
{
    if k == 0 { 0 } else { ((b + 1) % 65536) as u16 }
}

// The entry block of an entry with these name bytes, and `size` bytes in k data blocks.
fn make_head(total: u32, b: u32, k: u32, size: u32, e: EntryHead, raw: &[u8]) -> [u8; 256]
    requires { (b ≤ 20000000) × (k ≤ 1000) }
    ensures { result ≡ head_at total b k size (file_with e raw.now []) }
{
    let next = next_entry(b + 1 + k, total);
    let first = first_data(k, b);
    entry_block(next, first, size, e.file_type, e.locked, raw, e.count)
}

// Makes the entry block of an entry and emits it.
fn emit_head(
    target: Target,
    total: u32,
    k: u32,
    size: u32,
    e: EntryHead,
    raw: &[u8],
    m: Mark,
    out: &mut [u8],
) -> Mark
    requires { (m.block ≤ 20000000) × (k ≤ 1000) }
    ensures { Made (stepped (writes target.entry) (compared target.entry) (pass_of m out.old) (head_at total m.block k size (file_with e raw.now []))) 1 m out.old out.new result }
{
    let block = make_head(total, m.block, k, size, e, raw);
    emit(target, &block, m, out)
}

// The stated length of a file with these sectors.
fn stated_length(disk: &[u8], places: &[u32]) -> usize
    ensures is { result ≡ stated_in disk.now places.now }
    ensures small { result < 65536 }
{
    let n = start_at(places, 0) as usize;
    word_at(disk, n + 2) as usize
}

// How many bytes a Binary of n sectors with that stated length has.
fn size_by(n: usize, stated: usize) -> usize
    requires { (n ≤ 257) × (stated < 65536) }
    ensures is { result ≡ size_by n stated }
    ensures small { result ≤ 65792 }
{
    if 4 + stated <= 256 * n {
        stated
    } else {
        256 * n
    }
}

// Where they begin in its sectors.
fn start_by(n: usize, stated: usize) -> usize
    requires { (n ≤ 257) × (stated < 65536) }
    ensures is { result ≡ start_by n stated }
    ensures small { result ≤ 4 }
{
    if 4 + stated <= 256 * n { 4 } else { 0 }
}

// The blocks of an entry whose sectors have been collected.
fn emit_blocks(
    job: Job,
    places: &[u32],
    n: usize,
    e: EntryHead,
    raw: &[u8],
    m: Mark,
    out: &mut [u8],
) -> Mark
    requires { Sectors job.disk.now places.now n × (m.block ≤ 18000000) }
    ensures is { Made (with_file (writes job.entry.target) (compared job.entry.target) job.entry.total (pass_of m out.old) (file_with e raw.now (collected job.entry.disk.now places.now n))) 261 m out.old out.new result }
    ensures small { stated_in job.entry.disk.now places.now < 65536 }
{
    let stated = stated_length(job.disk, places);
    let size = size_by(n, stated);
    let start = start_by(n, stated);
    let k = ((size + 253) / 254) as u32;
    let t = emit_head(job.target, job.total, k, size as u32, e, raw, m, out);
    let data = Data {
        disk: job.disk,
        places,
        start,
        size,
        k,
    };
    emit_data(job.target, data, t, out)
}

// The blocks of the entry from x on, its lists having been followed.
fn emit_file(job: Job, x: usize, m: Mark, out: &mut [u8]) -> Mark
    requires { Has job.per job.disk.now (entry_from job.disk.now x) × (m.block ≤ 18000000) }
    ensures { Made (with_entry (writes job.entry.target) (compared job.entry.target) job.entry.per job.entry.disk.now job.entry.total (pass_of m out.old) (entry_from job.entry.disk.now x)) 261 m out.old out.new result }
{
    let e = entry_head(job.disk, x);
    let raw = raw_name(job.disk, x);
    let list = e.list;
    let mut places = [0u32; 257];
    if e.file_type != 4 {
        return emit_blocks(job, &places, 0, e, raw, m, out);
    }
    let n = collect(job.disk, job.per, list, &mut places);
    emit_blocks(job, &places, n, e, raw, m, out)
}

// The same, where it is in use.
fn emit_entry(job: Job, x: usize, m: Mark, out: &mut [u8]) -> Mark
    requires { Due job.per job.disk.now (entry_from job.disk.now x) × (m.block ≤ 18000000) }
    ensures { Made (with_live (writes job.entry.target) (compared job.entry.target) job.entry.per job.entry.disk.now job.entry.total (pass_of m out.old) (entry_from job.entry.disk.now x)) 261 m out.old out.new result }
{
    if valid_file(byte_at(job.disk, x)) {
        return emit_file(job, x, m, out);
    }
    m
}

// The blocks of a page's entries.
fn emit_page(job: Job, p: Place, m: Mark, out: &mut [u8]) -> Mark
    requires { Filed job.per job.disk.now (entries_of job.per job.disk.now p) × (m.block ≤ 17900000) }
    ensures { Made (with_page (writes job.entry.target) (compared job.entry.target) job.entry.per job.entry.disk.now job.entry.total (pass_of m out.old) p) 1827 m out.old out.new result }
{
    let mut t = m;
    for i in 0..7u8 {
        t = emit_entry(job, entry_start(job.per, p, i), t, out);
    }
    t
}

// The blocks of all entries of the pages from `first` on, these and their lists having been followed.
fn emit_pages(job: Job, first: Place, m: Mark, out: &mut [u8]) -> Mark
    requires { Walked job.per job.disk.now first × (m.block ≤ 1) }
    ensures { MadeAll (walk_made (writes job.entry.target) (compared job.entry.target) job.entry.per job.entry.disk.now job.entry.total (pass_of m out.old) first) result out.new }
{
    let most = chain_budget(job.per);
    let mut p = first;
    let mut t = m;
    for _turn in 0..most {
        t = emit_page(job, p, t, out);
        if last_page(job.disk, job.per, p) {
            return t;
        }
        p = link_of(job.disk, job.per, p);
    }
    t
}

// The number of the first entry block: 0 where block 0 is the only one.
fn first_entry(total: u32) -> u16
    ensures { result ≡ cond (eqb total 1) 0 1 }
{
    if total == 1 { 0 } else { 1 }
}

// All blocks of a disk's archive, its catalog and all lists having been followed.
fn emit_all(target: Target, disk: &[u8], volume: u8, total: u32, out: &mut [u8]) -> Mark
    requires { Walked (per_of disk.now) disk.now (first_page (per_of disk.now) disk.now) × (total ≤ 4096) }
    ensures { MadeAll (walk_made (writes target.entry) (compared target.entry) (per_of disk.now) disk.now total (stepped (writes target.entry) (compared target.entry) (pass_of fresh_mark out.old) (first_block volume (cond (eqb total 1) 0 1) total)) (first_page (per_of disk.now) disk.now)) result out.new }
{
    let block = first_block(volume, first_entry(total), total as u16);
    let start = Mark {
        block: 0,
        good: true,
    };
    let m = emit(target, &block, start, out);
    let per = sectors_of(disk);
    let job = Job {
        target,
        disk,
        per,
        total,
    };
    emit_pages(job, first_page(disk, per), m, out)
}

// Writes the archive of a flat disk into out; refusals 1 to 6, 7, 12.
pub fn write_archive(disk: &[u8], out: &mut [u8]) -> Result<usize, Refusal>
    ensures { Wrote disk.now out.old out.new result }
{
    let s = survey(disk)?;
    if 4096 < s.archive_blocks {
        return Err(Refusal::Overlong);
    }
    let total = s.archive_blocks as u32;
    let size = 256 * (total as usize);
    if out.len() < size {
        return Err(Refusal::TrayShort);
    }
    emit_all(Target::Write, disk, s.volume, total, out);
    Ok(size)
}

// The bytes are the archive of this flat disk; refusals 1 to 6, 7, 13.
pub fn check_archive(disk: &[u8], archive: &[u8]) -> Result<(), Refusal>
    ensures { Checked disk.now archive.now result }
{
    let s = survey(disk)?;
    if 4096 < s.archive_blocks {
        return Err(Refusal::Overlong);
    }
    let total = s.archive_blocks as u32;
    if archive.len() != 256 * (total as usize) {
        return Err(Refusal::NotItsReturn);
    }
    let mut none = [0u8; 1];
    let m = emit_all(Target::Compare(archive), disk, s.volume, total, &mut none);
    if !m.good {
        return Err(Refusal::NotItsReturn);
    }
    Ok(())
}
