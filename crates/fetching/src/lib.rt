// Files fetched from a disk: one by its name, or all Binary files into a folder, each under its own name.
#![tactic(auto)]

mod file_name;

use arguments::is_dash;
use arguments::letters::unescape;
use file_name::{Path, put, put_file_name};
use file_walk::{refuse, refuse_archive};
use lists::byte_at;
use outcome::Refusal;
use screen::space::{archive_space, catalog_space, file_space};
use screen::{
    BINARY, Failure, STDERR_FILENO, STDOUT_FILENO, count, finish, kind_letters, names, refusal,
    say, tell, text, text_number,
};
use storing::{ready_folder, write_file};

// The most blocks of an archive.
const MOST_BLOCKS: u16 = 4096;

// What is written, and how: files of other types too, empty, where `empty` is said; over files that are there, where `force` is.
#[derive(Clone, Copy)]
pub struct Terms {
    pub empty: bool,
    pub force: bool,
}

fn refuse_name(shown: &[u8]) -> Failure {
    refusal(STDERR_FILENO, Refusal::NotOnRoll);
    tell(b"\n  no file is named ");
    names::path(STDERR_FILENO, shown);
    tell(b"\n");
    Failure::Refused
}

// An entry of the catalog, in 37 bytes, has the name.
fn has_name(entry: &[u8], name: &[u8]) -> bool {
    lists::part(entry, 5, byte_at(entry, 4) as usize) == name
}

// The type of the last entry with a name, in a catalog of 37 bytes an entry; that of a Binary where there is none.
fn type_in(entries: &[u8], name: &[u8]) -> u8 {
    match entries.chunks(37).rfind(|entry| has_name(entry, name)) {
        Some(entry) => byte_at(entry, 2),
        None => BINARY,
    }
}

// The type of the last file with a name on a disk that is not refused.
fn type_of(disk: &[u8], name: &[u8]) -> u8 {
    let mut out = catalog_space();
    match catalog::parse_catalogs(disk, &mut out) {
        Ok(listing) => type_in(lists::part(&out, 0, listing.length), name),
        Err(_) => BINARY,
    }
}

// Says that the type of a file hands over no bytes.
fn no_bytes(fd: i32, kind: u8) {
    text(fd, b" is of type ");
    text(fd, kind_letters(kind).as_bytes());
    text(fd, b", which hands over no bytes");
}

fn refuse_type(shown: &[u8], kind: u8) -> Failure {
    tell(b"linefiles: ");
    names::path(STDERR_FILENO, shown);
    no_bytes(STDERR_FILENO, kind);
    tell(b";\n  --empty writes an empty file\n");
    Failure::Trouble
}

fn not_fetched(disk: &[u8], shown: &[u8], why: Refusal) -> Failure {
    match why {
        Refusal::NotOnRoll => refuse_name(shown),
        _ => refuse(disk, why),
    }
}

// Writes the bytes of the file with the name that is shown so to `to`. Where these are none, the type of the file says whether an empty file is meant.
pub fn get(
    rt: &HostRuntime,
    disk: &[u8],
    shown: &[u8],
    to: &[u8],
    terms: Terms,
) -> Result<(), Failure> {
    let name = unescape(shown);
    let mut out = file_space();
    let fetched = files::fetch(disk, name.as_slice(), &mut out);
    let length = fetched.map_err(|why| not_fetched(disk, shown, why))?;
    if (length == 0) & !terms.empty {
        let kind = type_of(disk, name.as_slice());
        if kind != BINARY {
            return Err(refuse_type(shown, kind));
        }
    }
    write_file(rt, to, lists::part(&out, 0, length), terms.force)
}

// How many files were written, left out, and not written.
#[derive(Clone, Copy)]
struct Tally {
    written: u64,
    left_out: u64,
    failed: u64,
}

// Of the files that are written: how many of this name stand before this one, and how many there are.
#[derive(Clone, Copy)]
struct Alike {
    before: u64,
    all: u64,
}

// An archive that was opened, the block of its first entry, and where its files go.
#[derive(Clone, Copy)]
struct Source<'a> {
    archive: &'a [u8],
    first: u64,
    folder: &'a [u8],
    terms: Terms,
}

impl<'a> Source<'a> {
    // An entry whose bytes are written.
    fn wants(self, e: reader::Entry) -> bool {
        (e.kind == BINARY) | self.terms.empty
    }

    // The files of the name that the entry at a block has.
    fn alike(self, block: u64) -> Alike {
        let name = reader::entry_name(self.archive, block);
        let mut n = Alike { before: 0, all: 0 };
        let mut here = self.first;
        for _ in 0..MOST_BLOCKS {
            let Some(e) = reader::next_entry(self.archive, here) else {
                break;
            };
            if (reader::entry_name(self.archive, here) == name) & self.wants(e) {
                n.all = n.all.saturating_add(1);
                if here < block {
                    n.before = n.before.saturating_add(1);
                }
            }
            here = u64::from(e.next);
        }
        n
    }

    // Puts the data of an entry into `out`: their length.
    fn data_of(self, e: reader::Entry, out: &mut [u8]) -> usize {
        let mut block = u64::from(e.first);
        let mut n: usize = 0;
        for _ in 0..MOST_BLOCKS {
            let Some(left) = (e.size as usize).checked_sub(n) else {
                break;
            };
            if block == 0 {
                break;
            }
            let part = reader::data_part(self.archive, block, left as u64);
            lists::copy_at(part, out, n);
            n = n.saturating_add(part.len());
            block = u64::from(reader::next_data(self.archive, block));
        }
        n
    }

    // The path of a file in the folder.
    fn path_of(self, name: &[u8], n: Alike) -> Path {
        let mut path = Path::new();
        put(self.folder, &mut path);
        put(b"/", &mut path);
        put_file_name(name, n.before, n.all, &mut path);
        path
    }

    // Writes the entry at a block.
    fn write(self, rt: &HostRuntime, block: u64, e: reader::Entry) -> Result<(), Failure> {
        let name = reader::entry_name(self.archive, block);
        let n = self.alike(block);
        let path = self.path_of(name, n);
        let mut out = file_space();
        let length = self.data_of(e, &mut out);
        write_file(
            rt,
            path.as_slice(),
            lists::part(&out, 0, length),
            self.terms.force,
        )?;
        say_alike(name, n);
        Ok(())
    }

    // Writes each entry, or leaves it out: a line for each.
    fn write_all(self, rt: &HostRuntime) -> Tally {
        let mut tally = Tally {
            written: 0,
            left_out: 0,
            failed: 0,
        };
        let mut block = self.first;
        for _ in 0..MOST_BLOCKS {
            let Some(e) = reader::next_entry(self.archive, block) else {
                break;
            };
            if self.wants(e) {
                match self.write(rt, block, e) {
                    Ok(()) => tally.written = tally.written.saturating_add(1),
                    Err(_) => tally.failed = tally.failed.saturating_add(1),
                }
            } else {
                say_left_out(reader::entry_name(self.archive, block), e.kind);
                tally.left_out = tally.left_out.saturating_add(1);
            }
            block = u64::from(e.next);
        }
        tally
    }
}

// Says that a file is one of several of its name.
fn say_alike(name: &[u8], n: Alike) {
    if n.all < 2 {
        return;
    }
    text_number(STDOUT_FILENO, b"  number ", n.before.saturating_add(1));
    text_number(STDOUT_FILENO, b" of ", n.all);
    say(b" that are named ");
    names::path(STDOUT_FILENO, name);
    say(b"\n");
}

fn say_left_out(name: &[u8], kind: u8) {
    say(b"left out: ");
    names::path(STDOUT_FILENO, name);
    no_bytes(STDOUT_FILENO, kind);
    say(b"\n");
}

fn say_tally(rt: &HostRuntime, tally: Tally) -> Result<(), Failure> {
    say(b"\n");
    count(
        STDOUT_FILENO,
        tally.written,
        b"file written",
        b"files written",
    );
    text_number(STDOUT_FILENO, b", ", tally.left_out);
    say(b" left out");
    if tally.failed == 0 {
        return finish(rt, b"\n");
    }
    text_number(STDOUT_FILENO, b", ", tally.failed);
    finish(rt, b" not written\n")?;
    Err(Failure::Trouble)
}

// Writes every Binary file of a disk into a folder; those of other types too, empty, where that is said.
pub fn get_all(rt: &HostRuntime, disk: &[u8], folder: &[u8], terms: Terms) -> Result<(), Failure> {
    if is_dash(folder) {
        tell(b"linefiles: --all writes to a folder, not to standard output\n");
        return Err(Failure::Trouble);
    }
    let mut out = archive_space();
    let written = writer::write_archive(disk, &mut out);
    let length = written.map_err(|why| refuse_archive(disk, why))?;
    ready_folder(rt, folder)?;
    let archive = lists::part(&out, 0, length);
    let first = match reader::open(archive) {
        Ok(opened) => u64::from(opened.first),
        Err(_) => 0,
    };
    let source = Source {
        archive,
        first,
        folder,
        terms,
    };
    say_tally(rt, source.write_all(rt))
}
