// A disk changed: a file saved to it or deleted from it, and the disk written.
#![tactic(auto)]

mod address;

use address::address_of;
use arguments::is_dash;
use arguments::letters::unescape;
use disk::{Place, Sector, Track};
use lists::byte_at;
use outcome::Refusal;
use saving::{data_for, lists_for};
use screen::space::{catalog_space, disk_space};
use screen::{
    Failure, STDERR_FILENO, STDOUT_FILENO, count, finish, names, refusal, tell, text, text_number,
};
use side_report::{Caller, say_held, tell_limit, tell_owner};
use storing::{read_front, replace_file, write_file};

// The longest file that is saved.
pub const LONGEST: usize = 32768;

// Space for the longest file, and one byte more.
pub fn data_space() -> [u8; 32769] {
    [0; 32769]
}

// Where the changed disk goes: `over` the file from which it came, or to another, over one that is there where `force` is said.
#[derive(Clone, Copy)]
pub struct Target<'a> {
    pub path: &'a [u8],
    pub over: bool,
    pub force: bool,
}

impl<'a> Target<'a> {
    // Where notes go: to standard error where the disk itself goes to standard output.
    fn notes(self) -> i32 {
        if is_dash(self.path) {
            return STDERR_FILENO;
        }
        STDOUT_FILENO
    }

    fn write(self, rt: &HostRuntime, disk: &[u8]) -> Result<(), Failure> {
        if !self.over {
            return write_file(rt, self.path, disk, self.force);
        }
        replace_file(rt, self.path, disk)?;
        text(STDOUT_FILENO, b"replaced ");
        names::path(STDOUT_FILENO, self.path);
        text_number(STDOUT_FILENO, b", ", disk.len() as u64);
        finish(rt, b" bytes\n")
    }
}

// Why a name cannot be written.
fn tell_name(name: &[u8]) {
    if name.is_empty() {
        tell(b"it is empty");
    } else if 30 < name.len() {
        tell(b"it has more than 30 bytes");
    } else if name.iter().any(|b| 0x80 <= *b) {
        tell(b"it has a byte of 80h or more");
    } else if name.contains(&0) {
        tell(b"it has a byte 0");
    } else {
        tell(b"it ends in a space");
    }
}

// A sector that a save may take: the map calls it free, and its track is not 0, 17 or that of the catalog's first page.
fn is_spare(disk: &[u8], track: u8, sector: u8) -> bool {
    let p = Place {
        track: Track(track),
        sector: Sector(sector),
    };
    let barred = (track == 0) | (track == 17) | (track == byte_at(disk, 69633));
    holders::is_free(disk, 16, p) & !barred
}

// How many sectors a save may take.
pub fn spare_sectors(disk: &[u8]) -> u64 {
    let mut n: u64 = 0;
    for track in 0..35u8 {
        let spare = (0..16u8).filter(|sector| is_spare(disk, track, *sector));
        n = n.saturating_add(spare.count() as u64);
    }
    n
}

// How many lines of the catalog are unused or deleted.
pub fn open_lines(disk: &[u8]) -> u64 {
    let mut out = catalog_space();
    match catalog::parse_catalogs(disk, &mut out) {
        Ok(c) => (7 * u64::from(c.pages)).saturating_sub((c.length / 37) as u64),
        Err(_) => 0,
    }
}

// What a file of so many bytes takes: data sectors and lists, with text between them.
pub fn sectors_taken(fd: i32, size: usize, between: &[u8]) {
    let m = data_for(size);
    count(fd, m as u64, b"data sector", b"data sectors");
    text(fd, between);
    count(fd, lists_for(m) as u64, b"list", b"lists");
}

// How many sectors a file of so many bytes takes.
pub fn sectors_for(size: usize) -> u64 {
    let m = data_for(size);
    (m + lists_for(m)) as u64
}

// Why so many sectors are not enough, where they are as many as a file takes: only its second list can be without one.
pub fn say_zeros(fd: i32, size: usize, left: u64, before: &[u8]) {
    if sectors_for(size) <= left {
        text(fd, before);
        text(
            fd,
            b"but those left for its second list are sectors 0, which it may not take",
        );
    }
}

// Which of the three is missing: bytes, lines, sectors.
fn tell_space(disk: &[u8], size: usize) {
    if LONGEST < size {
        tell(b"the file has more than 32768 bytes");
        return;
    }
    if open_lines(disk) == 0 {
        tell(b"no line of the catalog is unused or deleted");
        return;
    }
    tell(b"the file takes ");
    sectors_taken(STDERR_FILENO, size, b" and ");
    let spare = spare_sectors(disk);
    text_number(STDERR_FILENO, b";\n  of the sectors that are free, ", spare);
    tell(b" may be taken");
    say_zeros(STDERR_FILENO, size, spare, b",\n  ");
}

// What a file takes that is over the limit of the caller's side; of a longer one 32,769 bytes are read.
fn tell_over(disk: &[u8], caller: Option<Caller>, size: usize) {
    if let Some(caller) = caller {
        tell_limit(disk, caller);
    }
    tell(b"the file takes ");
    sectors_taken(STDERR_FILENO, size, b" and ");
    if LONGEST < size {
        tell(b", or more");
    }
}

// Says why a file is not saved or deleted.
fn tell_why(disk: &[u8], caller: Option<Caller>, why: Refusal, name: &[u8], size: usize) {
    tell(b"\n  ");
    match why {
        Refusal::UnwritableName => tell_name(name),
        Refusal::OtherSide => tell_owner(name),
        Refusal::OverLimit => tell_over(disk, caller, size),
        Refusal::NameTaken => {
            tell(b"a file is named ");
            names::name(STDERR_FILENO, name);
            tell(b"; linefiles delete deletes it");
        },
        Refusal::NoSpace => tell_space(disk, size),
        _ => {
            tell(b"no file is named ");
            names::name(STDERR_FILENO, name);
        },
    }
    tell(b"\n");
}

// Refuses a disk of 13 sectors a track, as off size.
pub fn check_edition(disk: &[u8]) -> Result<(), Failure> {
    if disk.len() == 143360 {
        return Ok(());
    }
    refusal(STDERR_FILENO, Refusal::OffSize);
    tell(b"\n  disks of 13 sectors a track are read, not changed\n");
    Err(Failure::Refused)
}

// The refusal is one of the contents of a disk.
fn is_of_contents(why: Refusal) -> bool {
    matches!(
        why,
        Refusal::OffSize
            | Refusal::NoTable
            | Refusal::OffDisc
            | Refusal::Ring
            | Refusal::CutLink
            | Refusal::BadLetter
    )
}

// Says why a disk is one that is not changed: its contents, or that it is not clean.
pub fn refuse_disk(disk: &[u8], why: Refusal) -> Failure {
    if is_of_contents(why) {
        return file_walk::refuse(disk, why);
    }
    refusal(STDERR_FILENO, why);
    tell(b"\n  linefiles crossed shows which sectors are shared, or held but free\n");
    Failure::Refused
}

fn refuse(disk: &[u8], caller: Option<Caller>, why: Refusal, name: &[u8], size: usize) -> Failure {
    if is_of_contents(why) | (why == Refusal::NotClean) {
        return refuse_disk(disk, why);
    }
    refusal(STDERR_FILENO, why);
    tell_why(disk, caller, why, name, size);
    Failure::Refused
}

// What was saved.
fn tell_saved(fd: i32, name: &[u8], at: u16, size: usize) {
    text(fd, b"saved ");
    names::name(fd, name);
    text_number(fd, b" at address ", u64::from(at));
    text(fd, b": ");
    count(fd, size as u64, b"byte", b"bytes");
    text(fd, b", ");
    sectors_taken(fd, size, b", ");
    text(fd, b"\n");
}

// A copy of the disk with a file saved to it, for a side where one calls.
fn save_to(
    image: &mut [u8],
    disk: &[u8],
    caller: Option<Caller>,
    name: &[u8],
    at: u16,
    data: &[u8],
) -> Result<(), Refusal> {
    lists::copy_at(disk, image, 0);
    match caller {
        Some(caller) => {
            let limit = caller.limit.unwrap_or(0);
            saving::save_for(image, caller.side, limit, name, at, data)
        },
        None => saving::save(image, name, at, data),
    }
}

// A copy of the disk with a file deleted from it, for a side where one calls.
fn delete_from(
    image: &mut [u8],
    disk: &[u8],
    caller: Option<Caller>,
    name: &[u8],
) -> Result<(), Refusal> {
    lists::copy_at(disk, image, 0);
    match caller {
        Some(caller) => {
            let limit = caller.limit.unwrap_or(0);
            saving::delete_for(image, caller.side, limit, name)
        },
        None => saving::delete(image, name),
    }
}

// Saves the bytes to the disk, under the name that is shown so, and writes it.
fn save_bytes(
    rt: &HostRuntime,
    disk: &[u8],
    caller: Option<Caller>,
    shown: &[u8],
    at: u16,
    data: &[u8],
    target: Target,
) -> Result<(), Failure> {
    let name = unescape(shown);
    let name = name.as_slice();
    let mut image = disk_space();
    let saved = save_to(&mut image, disk, caller, name, at, data);
    saved.map_err(|why| refuse(disk, caller, why, name, data.len()))?;
    target.write(rt, &image)?;
    tell_saved(target.notes(), name, at, data.len());
    say_held(target.notes(), &image, caller);
    Ok(())
}

// The address that a word says. Where it says none, this is told.
fn said_address(word: &[u8]) -> Result<u16, Failure> {
    if let Some(address) = address_of(word) {
        return Ok(address);
    }
    tell(b"linefiles: ");
    names::path(STDERR_FILENO, word);
    tell(b" is no address; one is 0 to 65535, or $0 to $FFFF\n");
    Err(Failure::Trouble)
}

// Saves a file to a disk, for the side that calls, under the name that is shown so and at the address that a word says.
pub fn save(
    rt: &HostRuntime,
    disk: &[u8],
    caller: Option<Caller>,
    shown: &[u8],
    at: &[u8],
    file: &[u8],
    target: Target,
) -> Result<(), Failure> {
    check_edition(disk)?;
    let address = said_address(at)?;
    let mut data = data_space();
    let length = read_front(rt, file, &mut data)?;
    let data = lists::part(&data, 0, length);
    save_bytes(rt, disk, caller, shown, address, data, target)
}

// What was deleted.
fn tell_deleted(fd: i32, name: &[u8]) {
    text(fd, b"deleted ");
    names::name(fd, name);
    text(fd, b"\n");
}

// Deletes a file from a disk, for the side that calls.
pub fn delete(
    rt: &HostRuntime,
    disk: &[u8],
    caller: Option<Caller>,
    shown: &[u8],
    target: Target,
) -> Result<(), Failure> {
    check_edition(disk)?;
    let name = unescape(shown);
    let name = name.as_slice();
    let mut image = disk_space();
    let deleted = delete_from(&mut image, disk, caller, name);
    deleted.map_err(|why| refuse(disk, caller, why, name, 0))?;
    target.write(rt, &image)?;
    tell_deleted(target.notes(), name);
    say_held(target.notes(), &image, caller);
    Ok(())
}

// The name of an image in ProDOS order.
fn ends_in_po(path: &[u8]) -> bool {
    path.ends_with(b".po") | path.ends_with(b".PO")
}

// Refuses an image that is in ProDOS order by its name.
pub fn check_order(from: &[u8]) -> Result<(), Failure> {
    if !ends_in_po(from) {
        return Ok(());
    }
    tell(b"linefiles: ");
    names::input(STDERR_FILENO, from);
    tell(
        b" is in ProDOS order by its name, and only a flat disk in\n  DOS order is changed; rearrange its sectors first, and name it .dsk or .do\n",
    );
    Err(Failure::Trouble)
}

// Says that the bytes that were read are no flat disk, and what to do.
pub fn not_flat(from: &[u8]) -> Failure {
    tell(b"linefiles: ");
    names::input(STDERR_FILENO, from);
    tell(
        b" is no flat disk, and only a flat disk is changed;\n  linefiles denibblize makes one of a nibble stream, and nibblize a stream again\n",
    );
    Failure::Trouble
}
