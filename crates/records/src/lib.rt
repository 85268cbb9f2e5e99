// Writers of records, and the recogniser of a DOS 3.3 disk (serialize.rs, the `as_vec` of catalog.rs, format_from_data of disk.rs).
#![tactic(auto)]

ghost use Rattle.std.specs.Prelude.{◌≡◌, true, false, ◌<◌, ◌≤◌, length};
ghost use Rattle.lists.specs.Fill.{cats, put};
ghost use Rattle.lists.specs.Words.{le2};
ghost use Rattle.outcome.specs.Outcome.{Hands};
ghost use Rattle.records.specs.Records.{low_bytes, writable, type_byte, name_field, entry_record, entry_written, name_at, record_at, writables, page_record, page_written, file_written};
ghost use Rattle.records.specs.Formats.{recognized};

use catalog::file_type;
use disk::{Place, Sector, Track};
use lists::{byte_at, copy_at, part, same, word_at};
use outcome::Refusal;

// A number as two bytes, low byte first.
pub fn little_endian_word_to_bytes(word: u16) -> [u8; 2]
    ensures { result ≡ le2 word }
{
    word.to_le_bytes()
}

// Each byte is below 80h.
fn low_bytes(name: &[u8]) -> bool
    ensures { result ≡ low_bytes name.now }
{
    name.iter().all(|b| *b < 128)
}

// A name that can be written.
#[tactic(auto, unfolding(crate::specs::Records::writable))]
pub fn writable_name(name: &[u8]) -> bool
    ensures { result ≡ writable name.now }
{
    !name.is_empty() && name.len() <= 30 && low_bytes(name)
}

// The type byte.
fn type_byte(kind: u8, locked: bool) -> u8
    ensures { result ≡ type_byte kind locked }
{
    let code = file_type(kind);
    if locked { code + 128 } else { code }
}

// The 30 name bytes.
fn name_field(name: &[u8]) -> [u8; 30]
    requires { writable name.now ≡ true }
    ensures { result ≡ name_field name.now }
{
    let mut field = [0xA0u8; 30];
    for k in 0..name.len() {
        field[k] = name[k] + 128;
    }
    field
}

// The 35 bytes of an entry.
fn entry_record(list: Place, kind: u8, locked: bool, name: &[u8], count: u16) -> [u8; 35]
    requires { writable name.now ≡ true }
    ensures { result ≡ entry_record list kind locked name.now count }
{
    let head = [list.track.0, list.sector.0, type_byte(kind, locked)];
    let field = name_field(name);
    let size = little_endian_word_to_bytes(count);
    let mut record = [0u8; 35];
    copy_at(&head, &mut record, 0);
    copy_at(&field, &mut record, 3);
    copy_at(&size, &mut record, 33);
    record
}

// FileEntry::as_vec: the 35 bytes of an entry; refusals 14, 12.
pub fn file_entry_as_vec(
    list: Place,
    kind: u8,
    locked: bool,
    name: &[u8],
    count: u16,
    out: &mut [u8],
) -> Result<usize, Refusal>
    ensures { Hands (entry_written list kind locked name.now count) out.old out.new result }
{
    if !writable_name(name) {
        return Err(Refusal::UnwritableName);
    }
    if out.len() < 35 {
        return Err(Refusal::TrayShort);
    }
    let record = entry_record(list, kind, locked, name, count);
    copy_at(&record, out, 0);
    Ok(35)
}

// The name of entry i of those in 37 bytes each.
fn name_at(entries: &[u8], i: usize) -> &[u8]
    requires { i < 7 }
    ensures { result.now ≡ name_at entries.now i }
{
    let n = byte_at(entries, 37 * i + 4) as usize;
    part(entries, 37 * i + 5, n)
}

// The first n names can all be written.
fn writable_entries(entries: &[u8], n: usize) -> bool
    requires { n ≤ 7 }
    ensures { result ≡ writables entries.now n }
{
    for k in 0..n {
        if !writable_name(name_at(entries, k)) {
            return false;
        }
    }
    true
}

// Entry i as it is written.
fn record_at(entries: &[u8], i: usize) -> [u8; 35]
    requires { (i < 7) × (writable (name_at entries.now i) ≡ true) }
    ensures { result ≡ record_at entries.now i }
{
    let track = byte_at(entries, 37 * i);
    let sector = byte_at(entries, 37 * i + 1);
    let kind = byte_at(entries, 37 * i + 2);
    let lock = byte_at(entries, 37 * i + 3);
    let count = word_at(entries, 37 * i + 35);
    let list = Place {
        track: Track(track),
        sector: Sector(sector),
    };
    entry_record(list, kind, lock != 0, name_at(entries, i), count)
}

// Puts the first n entries into a page, from place 11 on.
fn put_entries(entries: &[u8], n: usize, page: &mut [u8])
    requires { (n ≤ 7) × (writables entries.now n ≡ true) × (length page.old ≡ 256) }
    ensures { page.new ≡ put 11 (cats (record_at entries.now) n) page.old }
{
    for i in 0..n {
        let record = record_at(entries, i);
        copy_at(&record, page, 11 + 35 * i);
    }
}

// The 256 bytes of a page of n entries.
fn page_record(header: &[u8], entries: &[u8], n: usize) -> [u8; 256]
    requires { (n ≤ 7) × (writables entries.now n ≡ true) }
    ensures { result ≡ page_record header.now entries.now n }
{
    let mut page = [0u8; 256];
    copy_at(part(header, 0, 11), &mut page, 0);
    put_entries(entries, n, &mut page);
    page
}

// Catalog::as_vec: the 256 bytes of a page with the entries that `entries` holds in 37 bytes each; refusals 16, 14, 12.
pub fn catalog_as_vec(header: &[u8], entries: &[u8], out: &mut [u8]) -> Result<usize, Refusal>
    ensures { Hands (page_written header.now entries.now) out.old out.new result }
{
    let n = entries.len() / 37;
    if 7 < n {
        return Err(Refusal::PageFull);
    }
    if !writable_entries(entries, n) {
        return Err(Refusal::UnwritableName);
    }
    if out.len() < 256 {
        return Err(Refusal::TrayShort);
    }
    let page = page_record(header, entries, n);
    copy_at(&page, out, 0);
    Ok(256)
}

// FullFile::as_vec: the bytes of a Binary file, with its address and its size as given in front; refusals 15, 12.
pub fn full_file_as_vec(
    kind: u8,
    address: u16,
    size: u16,
    data: &[u8],
    out: &mut [u8],
) -> Result<usize, Refusal>
    ensures { Hands (file_written kind address size «data».now) out.old out.new result }
{
    if kind != 4 {
        return Err(Refusal::NotBinary);
    }
    let need = 4 + data.len();
    if out.len() < need {
        return Err(Refusal::TrayShort);
    }
    let start = little_endian_word_to_bytes(address);
    let count = little_endian_word_to_bytes(size);
    copy_at(&start, out, 0);
    copy_at(&count, out, 2);
    copy_at(data, out, 4);
    Ok(need)
}

// Whether the data is a DOS 3.3 disk: bytes 0 to 8 and bytes 69,633 to 69,635 are looked at; refusal 17.
#[tactic(auto, unfolding(crate::specs::Formats::recognized, crate::specs::Formats::marked))]
pub fn format_from_data(data: &[u8]) -> Result<bool, Refusal>
    ensures { result ≡ recognized «data».now }
{
    if data.len() < 9 {
        return Err(Refusal::CutShort);
    }
    if !same(part(data, 0, 9), b"\x01\xA5\x27\xC9\x09\xD0\x18\xA5\x2B") {
        return Ok(false);
    }
    if data.len() < 69636 {
        return Err(Refusal::CutShort);
    }
    let marks = [17, 15, 3];
    Ok(same(part(data, 69633, 3), &marks))
}
