// What is said of an archive: its entries, without a disk, and where it differs from the archive of a disk.
#![tactic(auto)]

use outcome::Refusal;
use screen::names::name;
use screen::{
    BINARY, Failure, STDERR_FILENO, STDOUT_FILENO, bytes_column, count, entry_columns, finish,
    heads, input, names, refusal, say, tell, text_number,
};

// The most blocks of an archive.
const MOST_BLOCKS: u16 = 4096;

// A file of an archive, which was opened before, has a name that shows as this one does and is cut differently. An entry block has its link where a data block has it.
fn twin_in_archive(archive: &[u8], first: u16, raw: &[u8]) -> bool {
    let mut block = u64::from(first);
    for _ in 0..MOST_BLOCKS {
        if block == 0 {
            return false;
        }
        if names::is_twin(raw, reader::entry_raw_name(archive, block)) {
            return true;
        }
        block = u64::from(reader::next_data(archive, block));
    }
    false
}

fn show_entry(archive: &[u8], block: u64, e: reader::Entry) {
    entry_columns(STDOUT_FILENO, e.locked != 0, e.kind, e.count);
    let bytes = if e.kind == BINARY {
        Some(u64::from(e.size))
    } else {
        None
    };
    bytes_column(STDOUT_FILENO, bytes);
    say(b"  ");
    name(STDOUT_FILENO, reader::entry_name(archive, block));
    say(b"\n");
}

// The name as it is cut, where `raw` asks for all names or another name shows alike.
fn show_cut(archive: &[u8], first: u16, raw: bool, cut: &[u8]) {
    if raw || twin_in_archive(archive, first, cut) {
        names::line(cut);
    }
}

// Steps through the entries of an archive that was opened, from the block `first` on: how many these are.
fn show_entries(archive: &[u8], first: u16, raw: bool) -> u64 {
    let mut block = u64::from(first);
    let mut n: u64 = 0;
    for _ in 0..MOST_BLOCKS {
        let Some(e) = reader::next_entry(archive, block) else {
            break;
        };
        show_entry(archive, block, e);
        show_cut(archive, first, raw, reader::entry_raw_name(archive, block));
        block = u64::from(e.next);
        n = n.saturating_add(1);
    }
    n
}

fn refuse(why: Refusal, size: u64) -> Failure {
    refusal(STDERR_FILENO, why);
    tell(b"\n  these ");
    count(STDERR_FILENO, size, b"byte", b"bytes");
    tell(b" are the archive of no disk\n");
    Failure::Refused
}

// Shows the entries of an archive, or says why it is none.
pub fn show(rt: &HostRuntime, from: &[u8], archive: &[u8], raw: bool) -> Result<(), Failure> {
    let size = archive.len() as u64;
    let opened = reader::open(archive).map_err(|why| refuse(why, size))?;
    input(STDOUT_FILENO, from, b"archive", size);
    text_number(STDOUT_FILENO, b"\n\nVolume ", u64::from(opened.volume));
    say(b", ");
    count(STDOUT_FILENO, u64::from(opened.blocks), b"block", b"blocks");
    say(b"\n\n");
    heads(STDOUT_FILENO);
    let n = show_entries(archive, opened.first, raw);
    say(b"\n");
    count(STDOUT_FILENO, n, b"file", b"files");
    finish(rt, b"\n")
}

// The first place where a and b differ; the shorter length where there is none.
fn first_difference(a: &[u8], b: &[u8]) -> usize {
    let place = a.iter().zip(b.iter()).position(|(x, y)| *x != *y);
    place.unwrap_or(a.len().min(b.len()))
}

// An entry stands in the block.
fn has_entry(archive: &[u8], block: u64) -> bool {
    matches!(reader::entry_at(archive, block), Ok(Some(_)))
}

// Where the bytes at which the archives differ are those of a name: how it is cut in both.
fn tell_cut(due: &[u8], archive: &[u8], block: u64, byte: usize) {
    let other = reader::entry_raw_name(archive, block);
    if (byte < 42) | (71 < byte) | (other.len() != 30) || !has_entry(due, block) {
        return;
    }
    tell(b"\n  the name ");
    name(STDERR_FILENO, reader::entry_name(due, block));
    tell(b" is cut\n    on the disk                     ");
    names::cut(STDERR_FILENO, reader::entry_raw_name(due, block));
    tell(b"\n    in the archive                  ");
    names::cut(STDERR_FILENO, other);
}

// Where an archive differs from that of the disk.
pub fn tell_difference(due: &[u8], archive: &[u8]) {
    let i = first_difference(due, archive);
    let block = (i / 256) as u64;
    text_number(STDERR_FILENO, b"\n  the archives differ from block ", block);
    text_number(STDERR_FILENO, b", byte ", (i % 256) as u64);
    tell(b" on");
    tell_cut(due, archive, block, i % 256);
    tell(b"\n");
}
