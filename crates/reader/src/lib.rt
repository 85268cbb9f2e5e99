// Archives read back, with no disk: document 01, the reader under "Return". (The Rust has none.)
#![tactic(auto)]

ghost use Rattle.std.specs.Prelude.{◌≡◌, Ok, ◌+◌, ◌*◌, ◌%◌, ◌<◌, ◌≤◌, cond, [], take, drop, eqb};
ghost use Rattle.lists.specs.Select.{all};
ghost use Rattle.lists.specs.Same.{same};
ghost use Rattle.archive.specs.Reader.{size_in, entry_in, allowed, sound_entry, sound_data, sound_first, entries_from, data_from, opened, whether};
ghost use Rattle.reader.specs.Steps.{Opens, opened_with, fields_in, is_entry, entry_step, entry_with, name_in, raw_in, data_part, next_data};
ghost use Rattle.reader.specs.Tests.{links_due, name_due, blank_entry, told};

use archive::first_block;
use catalog::{bad_letter, file_type, filename};
use lists::{byte_at, part, same, word_at};
use outcome::Refusal;

// What opening answers: the volume, the first entry block (0 for none) and the number of blocks.
#[derive(Clone, Copy, Debug, PartialEq, Eq)]
pub struct Opened {
    pub volume: u8,
    pub first: u16,
    pub blocks: u16,
}

// What a step answers of an entry: the next entry block (0 after the last), the first data block (0 for no data), and the entry's fields: type, lock, length
// of the name, sector count, length of the data.
#[derive(Clone, Copy, Debug, PartialEq, Eq)]
pub struct Entry {
    pub next: u16,
    pub first: u16,
    pub kind: u8,
    pub locked: u8,
    pub name_length: u8,
    pub count: u16,
    pub size: u32,
}

// The bytes from block b on.
fn from_block(archive: &[u8], b: usize) -> &[u8]
    ensures { result.now ≡ drop (256 * b) archive.now }
{
    let end = archive.len();
    if end / 256 < b {
        return &archive[0..0];
    }
    &archive[256 * b..end]
}

// The data length in an entry block, s being the bytes from that block on.
fn size_in(s: &[u8]) -> u32
    ensures is { result ≡ size_in s.now }
    ensures small { result < 16777216 }
{
    let low = byte_at(s, 39) as u32;
    let middle = byte_at(s, 40) as u32;
    let high = byte_at(s, 41) as u32;
    low + 256 * middle + 65536 * high
}

// The number of block b as a link has it, and 0 for none.
fn link(none: bool, b: usize) -> u16
    ensures { result ≡ cond none 0 b % 65536 }
{
    if none { 0 } else { (b % 65536) as u16 }
}

// The file that s begins with is allowed.
fn allowed_entry(s: &[u8]) -> bool
    ensures { result ≡ allowed (size_in s.now) (entry_in s.now []) }
{
    let kind = byte_at(s, 4);
    let raw = part(s, 42, 30);
    (file_type(kind) == kind)
        & ((byte_at(s, 5) < 2)
            & ((raw.len() == 30) & (!bad_letter(s, 42) & ((kind == 4) | (size_in(s) == 0)))))
}

// All bytes are zero.
fn blank(s: &[u8]) -> bool
    ensures { result ≡ all (λ b. eqb b 0) s.now }
{
    s.iter().all(|b| *b == 0)
}

// The links in the first four bytes of s are those that its fields ask for, where it is block b, with n blocks behind it.
fn links_due(s: &[u8], b: usize, n: usize) -> bool
    requires { b ≤ 4096 }
    ensures { result ≡ same (take 4 s.now) (links_due n b s.now) }
{
    let k = (size_in(s) as usize + 253) / 254;
    let next = link(k == n, b + 1 + k);
    let first = link(k == 0, b + 1);
    let [next_low, next_high] = next.to_le_bytes();
    let [first_low, first_high] = first.to_le_bytes();
    let links = [next_low, next_high, first_low, first_high];
    same(part(s, 0, 4), &links)
}

// The shown name in an entry block is the one that its name bytes give.
fn name_due(s: &[u8]) -> bool
    ensures { result ≡ name_due s.now }
{
    let name = filename(part(s, 42, 30));
    let letters = name.letters;
    (byte_at(s, 6) == name.length) & same(part(s, 7, 30), &letters)
}

// The bytes of an entry block behind its fields are zero.
fn blank_entry(s: &[u8]) -> bool
    ensures { result ≡ blank_entry s.now }
{
    blank(part(s, 72, 184))
}

// s begins with the entry block that its own fields ask for: it is block b, with n blocks behind it. No block is made for it, as below.
fn sound_entry(s: &[u8], b: usize, n: usize) -> bool
    requires { b ≤ 4096 }
    ensures { result ≡ sound_entry n b s.now }
{
    if s.len() < 256 {
        return false;
    }
    if !allowed_entry(s) {
        return false;
    }
    if !links_due(s, b, n) {
        return false;
    }
    if !name_due(s) {
        return false;
    }
    blank_entry(s)
}

// s begins with the data block that is due: it is block b, and `size` bytes are left. No block is made for it: this is called as deep as there are blocks.
fn sound_data(s: &[u8], b: usize, size: usize) -> bool
    requires { b ≤ 4096 }
    ensures { result ≡ sound_data b size s.now }
{
    if s.len() < 256 {
        return false;
    }
    let next = link(size <= 254, b + 1);
    if !same(part(s, 0, 2), &next.to_le_bytes()) {
        return false;
    }
    blank(part(part(s, 2, 254), size, 254))
}

// Block 0 is that of an archive of 1 + n blocks.
fn sound_first(archive: &[u8], n: usize) -> bool
    ensures { result ≡ sound_first n archive.now }
{
    if 4095 < n {
        return false;
    }
    if archive.len() != 256 * (1 + n) {
        return false;
    }
    let block = first_block(byte_at(archive, 0), link(0 == n, 1), (1 + n) as u16);
    same(part(archive, 0, 256), &block)
}

// What blocks come to. A `Result` fills two registers: the calls below would then each keep a place on the stack. With one, each call stands in the place of the one before.
#[derive(Clone, Copy)]
enum Blocks {
    Sound,
    Unsound,
}

// The `left` blocks from block b on, read as entries.
#[cycle(read_data_read_entries)]
fn read_entries(archive: &[u8], b: usize, left: usize) -> Blocks
    requires { b + left ≤ 4096 }
    ensures { told result ≡ whether (entries_from left b (drop (256 * b) archive.now)) }
{
    if left == 0 {
        return Blocks::Sound;
    }
    let s = from_block(archive, b);
    if !sound_entry(s, b, left - 1) {
        return Blocks::Unsound;
    }
    let size = size_in(s) as usize;
    if size == 0 {
        return read_entries(archive, b + 1, left - 1);
    }
    read_data(archive, b + 1, size, left - 1)
}

// They are read as data, of which `size` bytes are left, and then entries.
#[cycle(read_data_read_entries)]
fn read_data(archive: &[u8], b: usize, size: usize, left: usize) -> Blocks
    requires { b + left ≤ 4096 }
    ensures { told result ≡ whether (data_from left b size (drop (256 * b) archive.now)) }
{
    if left == 0 {
        return Blocks::Unsound;
    }
    if !sound_data(from_block(archive, b), b, size) {
        return Blocks::Unsound;
    }
    if size <= 254 {
        return read_entries(archive, b + 1, left - 1);
    }
    read_data(archive, b + 1, size - 254, left - 1)
}

// Opens an archive; refusal 13 for bytes that are the archive of no contents.
pub fn open(archive: &[u8]) -> Result<Opened, Refusal>
    ensures { result ≡ opened_with (opened archive.now) }
{
    let n = (archive.len() / 256).saturating_sub(1);
    if !sound_first(archive, n) {
        return Err(Refusal::NotItsReturn);
    }
    if let Blocks::Unsound = read_entries(archive, 1, n) {
        return Err(Refusal::NotItsReturn);
    }
    Ok(Opened {
        volume: byte_at(archive, 0),
        first: link(0 == n, 1),
        blocks: (1 + n) as u16,
    })
}

// The fields of the entry block with which s begins.
fn fields_in(s: &[u8]) -> Entry
    ensures { result ≡ fields_in s.now }
{
    Entry {
        next: word_at(s, 0),
        first: word_at(s, 2),
        kind: byte_at(s, 4),
        locked: byte_at(s, 5),
        name_length: byte_at(s, 6),
        count: word_at(s, 37),
        size: size_in(s),
    }
}

// Block b is an entry block, as far as it can be told from that block.
fn is_entry(archive: &[u8], b: usize) -> bool
    ensures { result ≡ is_entry archive.now b }
{
    if b == 0 || 4096 <= b {
        return false;
    }
    let n = (archive.len() / 256).saturating_sub(b + 1);
    sound_entry(from_block(archive, b), b, n)
}

// The entry in a block, that block alone being looked at; else the end. From the block that opening gives, and then from each that a step gives, these are
// the entries of the archive that was opened.
pub fn next_entry(archive: &[u8], block: u64) -> Option<Entry>
    ensures { result ≡ entry_step archive.now block }
{
    let b = block as usize;
    if is_entry(archive, b) {
        return Some(fields_in(from_block(archive, b)));
    }
    None
}

// The name in an entry block, as it is shown.
pub fn entry_name(archive: &[u8], block: u64) -> &[u8]
    ensures { result.now ≡ name_in archive.now block }
{
    let s = from_block(archive, block as usize);
    part(s, 7, byte_at(s, 6) as usize)
}

// The 30 name bytes in an entry block, as they are cut.
pub fn entry_raw_name(archive: &[u8], block: u64) -> &[u8]
    ensures { result.now ≡ raw_in archive.now block }
{
    part(from_block(archive, block as usize), 42, 30)
}

// The data in a data block, where `left` bytes are left.
pub fn data_part(archive: &[u8], block: u64, left: u64) -> &[u8]
    ensures { result.now ≡ data_part archive.now block left }
{
    part(
        part(from_block(archive, block as usize), 2, 254),
        0,
        left as usize,
    )
}

// The data block that follows a data block; 0 after the last.
pub fn next_data(archive: &[u8], block: u64) -> u16
    ensures { result ≡ next_data archive.now block }
{
    word_at(from_block(archive, block as usize), 0)
}

// The entry whose entry block is `block`, in an archive that was opened; else the end. The entries before it are passed over.
fn find_entry(archive: &[u8], block: u64) -> Option<Entry>
    requires { Opens archive.now }
    ensures { Ok result ≡ entry_with (opened archive.now) block }
{
    let blocks = (archive.len() / 256) as u64;
    let mut i: u64 = 1;
    while i < blocks {
        let e = next_entry(archive, i)?;
        if i == block {
            return Some(e);
        }
        i += 1 + (e.size as u64 + 253) / 254;
    }
    None
}

// The entry whose entry block is `block`; any other block is the end. Refusal 13 for bytes that are the archive of no contents.
pub fn entry_at(archive: &[u8], block: u64) -> Result<Option<Entry>, Refusal>
    ensures { result ≡ entry_with (opened archive.now) block }
{
    open(archive)?;
    Ok(find_entry(archive, block))
}
