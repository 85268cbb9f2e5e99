// Files by name: one read whole into lent space, one written whole or not at all. The name `-` is standard input or standard output.
#![tactic(auto)]

mod kept;
mod naming;
mod standing;

use kept::keep;
use naming::{Path, is_renamed, of_folder, of_new, of_own, path_of, put};
use screen::names::{input as show_input, path as show_path};
use screen::{
    Failure, STDERR_FILENO, STDIN_FILENO, STDOUT_FILENO, fail, finish, say, tell, text_number,
};
use standing::{file_path, folder_of, is_folder, is_link};
use std::fs;
use std::fs::{File, OpenOptions};
use std::io::{Error, ErrorKind, Read, Seek, SeekFrom, Write};
use std::os::fd::AsRawFd;
use std::random::RandomSource;

// The longest name of an output or of a disk that is replaced: its folder has room for the name that the file has while it is written.
const LONGEST: usize = 3900;

// The path stands for standard input or standard output.
fn is_dash(path: &[u8]) -> bool {
    matches!(path, b"-")
}

// Says what could not be done, with which file, and the system's reason.
fn cannot(verb: &[u8], path: &[u8], e: Error) -> Failure {
    tell(b"linefiles: cannot ");
    tell(verb);
    tell(b" ");
    show_input(STDERR_FILENO, path);
    fail(e);
    Failure::Trouble
}

fn cannot_read(path: &[u8], e: Error) -> Failure {
    cannot(b"read", path, e)
}

fn cannot_write(path: &[u8], e: Error) -> Failure {
    cannot(b"write", path, e)
}

fn too_long(path: &[u8], most: usize) -> Failure {
    tell(b"linefiles: ");
    show_input(STDERR_FILENO, path);
    text_number(STDERR_FILENO, b" is longer than ", most as u64);
    tell(b" bytes:\n  no disk, nibble stream or archive that is read here\n");
    Failure::Trouble
}

// Opens a file to read it.
fn open_read(rt: &HostRuntime, path: &[u8]) -> Result<File, Failure> {
    let mut space = Path::new();
    let opened = match of_own(rt, path, &mut space) {
        Ok(name) => File::open(rt, name),
        Err(e) => Err(e),
    };
    opened.map_err(|e| cannot_read(path, e))
}

// Reads to the end of what is open, which must come within buf: how many bytes.
fn read_whole<R: Read>(
    source: &mut R,
    fd: i32,
    path: &[u8],
    buf: &mut [u8],
) -> Result<usize, Failure> {
    let length = io::read_full(fd, buf);
    let mut more = [0u8; 1];
    match source.read(&mut more) {
        Ok(0) => Ok(length),
        Ok(_) => Err(too_long(path, buf.len())),
        Err(e) => Err(cannot_read(path, e)),
    }
}

// Reads a whole file into buf: how many bytes. Where it cannot be read, or is longer, this is said.
pub fn read_file(rt: &HostRuntime, path: &[u8], buf: &mut [u8]) -> Result<usize, Failure> {
    if is_dash(path) {
        return read_whole(&mut rt.stdin(), STDIN_FILENO, path, buf);
    }
    let mut file = open_read(rt, path)?;
    let fd = file.as_raw_fd();
    read_whole(&mut file, fd, path, buf)
}

// Reads the first bytes of what is open: how many.
fn read_begin<R: Read>(
    source: &mut R,
    fd: i32,
    path: &[u8],
    buf: &mut [u8],
) -> Result<usize, Failure> {
    let length = io::read_full(fd, buf);
    let mut none = [0u8; 0];
    match source.read(&mut none) {
        Ok(_) => Ok(length),
        Err(e) => Err(cannot_read(path, e)),
    }
}

// Reads the first bytes of a file, as many as buf holds: how many. What is behind them is not looked at. Where it cannot be read, this is said.
pub fn read_front(rt: &HostRuntime, path: &[u8], buf: &mut [u8]) -> Result<usize, Failure> {
    if is_dash(path) {
        return read_begin(&mut rt.stdin(), STDIN_FILENO, path, buf);
    }
    let mut file = open_read(rt, path)?;
    let fd = file.as_raw_fd();
    read_begin(&mut file, fd, path, buf)
}

// Says what stands at a path.
fn is_there(path: &[u8], what: &[u8]) -> Failure {
    tell(b"linefiles: ");
    show_path(STDERR_FILENO, path);
    tell(what);
    Failure::Trouble
}

// Something stands at a path whose file gets another name first.
fn is_taken(rt: &HostRuntime, path: &[u8]) -> bool {
    let mut space = Path::new();
    match of_own(rt, path, &mut space) {
        Ok(name) => is_renamed(rt, path) & fs::metadata(rt, name).is_ok(),
        Err(_) => false,
    }
}

// Makes a file that is not there, to write it.
fn create(rt: &HostRuntime, path: &[u8]) -> Result<File, Error> {
    if is_taken(rt, path) {
        return Err(Error::from(ErrorKind::AlreadyExists));
    }
    let mut space = Path::new();
    let name = of_new(rt, path, &mut space)?;
    OpenOptions::new()
        .write(true)
        .create_new(true)
        .open(rt, name)
}

// Opens a file to read and write it, with its bytes as they are.
fn open_update(rt: &HostRuntime, path: &[u8]) -> Result<File, Error> {
    let mut space = Path::new();
    let name = of_own(rt, path, &mut space)?;
    OpenOptions::new().read(true).write(true).open(rt, name)
}

// Opens a file to write it anew; it is made where it is missing.
fn open_overwrite(rt: &HostRuntime, path: &[u8]) -> Result<File, Error> {
    let mut space = Path::new();
    let name = of_folder(rt, path, &mut space)?;
    File::create(rt, name)
}

fn rename(rt: &HostRuntime, from: &[u8], to: &[u8]) -> Result<(), Error> {
    let mut space = Path::new();
    let old = of_folder(rt, from, &mut space)?;
    let mut further = Path::new();
    let new = of_new(rt, to, &mut further)?;
    fs::rename(rt, old, new)
}

fn unlink(rt: &HostRuntime, path: &[u8]) {
    let mut space = Path::new();
    if let Ok(name) = of_new(rt, path, &mut space) {
        let _ = fs::remove_file(rt, name);
    }
}

// Says why a file did not get its name: it is taken, or the system's reason.
fn not_made(path: &[u8], e: Error) -> Failure {
    if let ErrorKind::AlreadyExists = e.kind() {
        return is_there(path, b" is there already;\n  --force overwrites a file\n");
    }
    cannot_write(path, e)
}

// Gives the file `part` its final name; one that is taken is refused.
fn put_in_place(rt: &HostRuntime, part: &[u8], path: &[u8]) -> Result<(), Failure> {
    create(rt, path).map_err(|e| not_made(path, e))?;
    if let Err(e) = rename(rt, part, path) {
        let failure = cannot_write(path, e);
        unlink(rt, path);
        return Err(failure);
    }
    Ok(())
}

// Waits until the bytes of a file are on the medium, where it has one.
fn sync(file: &File) -> Result<(), Error> {
    match file.sync_all() {
        Err(e) if e.kind() != ErrorKind::InvalidInput => Err(e),
        _ => Ok(()),
    }
}

// Writes bytes to a file, and waits until they are on the medium: closing it tells no failure.
fn write_synced(file: &mut File, bytes: &[u8]) -> Result<(), Error> {
    file.write_all(bytes)?;
    sync(file)
}

// Writes bytes to a file. Where that failed, this is said.
fn fill(file: &mut File, path: &[u8], bytes: &[u8]) -> Result<(), Failure> {
    write_synced(file, bytes).map_err(|e| cannot_write(path, e))
}

// Writes the file `part` and gives it the name `path`, which no file may have; what is left of it where that fails is the caller's.
fn fill_and_name(
    rt: &HostRuntime,
    file: &mut File,
    part: &[u8],
    path: &[u8],
    bytes: &[u8],
) -> Result<(), Failure> {
    fill(file, path, bytes)?;
    put_in_place(rt, part, path)
}

// Writes the file `part`, then gives it the name `path`, which no file may have. Where that fails, no file is left behind.
fn write_by(rt: &HostRuntime, part: &[u8], path: &[u8], bytes: &[u8]) -> Result<(), Failure> {
    let mut file = create(rt, part).map_err(|e| cannot_write(path, e))?;
    let written = fill_and_name(rt, &mut file, part, path, bytes);
    if written.is_err() {
        unlink(rt, part);
    }
    written
}

// Any number of 32 bits, so that two programs at work do not meet.
fn any_number(rt: &HostRuntime) -> u32 {
    let mut any = [0u8; 4];
    let _ = rt.fill_bytes(&mut any);
    u32::from_le_bytes(any)
}

// The name that the file has while it is written. It lies in the same folder, and is short, whatever the file's own name.
fn part_name(rt: &HostRuntime, path: &[u8]) -> Path {
    let mut digits = [0u8; 16];
    let length = io::hex(u64::from(any_number(rt)), 8, &mut digits);
    let mut name = path_of(folder_of(path));
    put(&mut name, b".linefiles-");
    put(&mut name, lists::part(&digits, 0, length));
    name
}

fn wrote(rt: &HostRuntime, path: &[u8], size: u64) -> Result<(), Failure> {
    say(b"wrote ");
    show_path(STDOUT_FILENO, path);
    text_number(STDOUT_FILENO, b", ", size);
    finish(rt, b" bytes\n")
}

// Writes a new file.
fn write_new(rt: &HostRuntime, path: &[u8], bytes: &[u8]) -> Result<(), Failure> {
    let part = part_name(rt, path);
    write_by(rt, part.as_slice(), path, bytes)?;
    wrote(rt, path, bytes.len() as u64)
}

// Writes what lies past the old end. Where that fails, the file has its old end again.
fn write_end(file: &mut File, old: usize, bytes: &[u8]) -> Result<(), Error> {
    file.seek(SeekFrom::Start(old as u64))?;
    let written = file.write_all(lists::part(bytes, old, bytes.len()));
    if written.is_err() {
        let _ = file.set_len(old as u64);
    }
    written
}

// Writes what stands there anew: what lies past the old end, where that comes before the new, goes first, so that too little space leaves the file as it was.
// Links, owner and mode stay.
fn write_over(file: &mut File, old: usize, bytes: &[u8]) -> Result<(), Error> {
    if old < bytes.len() {
        write_end(file, old, bytes)?;
    }
    file.seek(SeekFrom::Start(0))?;
    file.write_all(lists::part(bytes, 0, old))?;
    file.set_len(bytes.len() as u64)
}

// Where a file ends, `none` where it is no file: a pipe, a device or a socket.
fn end_of(file: &mut File) -> Option<u64> {
    let end = file.seek(SeekFrom::End(0)).ok()?;
    file.set_len(end).ok()?;
    Some(end)
}

// Replaces the bytes of a file that is open, if it is one.
fn replace(rt: &HostRuntime, file: &mut File, path: &[u8], bytes: &[u8]) -> Result<(), Failure> {
    let Some(end) = end_of(file) else {
        return Err(is_there(
            path,
            b" is a pipe, a device or a socket, and no file;\n  - is standard output\n",
        ));
    };
    let old = end.min(bytes.len() as u64) as usize;
    write_over(file, old, bytes).map_err(|e| cannot_write(path, e))?;
    wrote(rt, path, bytes.len() as u64)
}

// Writes the file to which a link leads, where there is none.
fn write_through(rt: &HostRuntime, path: &[u8], bytes: &[u8]) -> Result<(), Failure> {
    let mut file = open_overwrite(rt, path).map_err(|e| cannot_write(path, e))?;
    fill(&mut file, path, bytes)?;
    wrote(rt, path, bytes.len() as u64)
}

// Writes a file that may be there, and that could not be opened for the reason `e`.
fn write_missing(rt: &HostRuntime, path: &[u8], bytes: &[u8], e: Error) -> Result<(), Failure> {
    if e.kind() != ErrorKind::NotFound {
        return Err(cannot_write(path, e));
    }
    if is_link(rt, path) {
        return write_through(rt, path, bytes);
    }
    write_new(rt, path, bytes)
}

// Writes a file that may be there.
fn write_forced(rt: &HostRuntime, path: &[u8], bytes: &[u8]) -> Result<(), Failure> {
    match open_update(rt, path) {
        Ok(mut file) => replace(rt, &mut file, path, bytes),
        Err(e) => write_missing(rt, path, bytes, e),
    }
}

// Writes a whole file, or nothing. With `force` a file that is there is replaced; a link is written through. Where that fails, this is said.
pub fn write_file(rt: &HostRuntime, path: &[u8], bytes: &[u8], force: bool) -> Result<(), Failure> {
    if is_dash(path) {
        return finish(rt, bytes);
    }
    if LONGEST < path.len() {
        tell(b"linefiles: the name of the output is too long\n");
        return Err(Failure::Trouble);
    }
    if is_folder(rt, path) {
        return Err(is_there(path, b" is a folder\n"));
    }
    if force {
        return write_forced(rt, path, bytes);
    }
    write_new(rt, path, bytes)
}

// Writes a file that is open and gives it the name `path`; what is left of it where that fails is the caller's.
fn fill_and_rename(
    rt: &HostRuntime,
    file: &mut File,
    part: &[u8],
    path: &[u8],
    bytes: &[u8],
) -> Result<(), Failure> {
    fill(file, path, bytes)?;
    rename(rt, part, path).map_err(|e| cannot_write(path, e))
}

// Writes the file `part` with the mode and the owner that the replaced file has, as far as they are known and may be given, and gives it the name `path`.
fn write_beside(rt: &HostRuntime, part: &[u8], path: &[u8], bytes: &[u8]) -> Result<(), Failure> {
    let mut file = create(rt, part).map_err(|e| cannot_write(path, e))?;
    keep(rt, &file);
    let written = fill_and_rename(rt, &mut file, part, path, bytes);
    if written.is_err() {
        unlink(rt, part);
    }
    written
}

// Writes the bytes beside the file at `own`, and gives them its name.
fn write_anew(rt: &HostRuntime, own: &[u8], bytes: &[u8]) -> Result<(), Failure> {
    if LONGEST < own.len() {
        tell(b"linefiles: the name of the disk is too long\n");
        return Err(Failure::Trouble);
    }
    let part = part_name(rt, own);
    write_beside(rt, part.as_slice(), own, bytes)
}

// Writes the bytes beside the file that is open, and gives them its name. Where that fails, the old file stands as it was. A link stays, and the file to which it
// leads is replaced.
fn swap(rt: &HostRuntime, file: &mut File, path: &[u8], bytes: &[u8]) -> Result<(), Failure> {
    if end_of(file).is_none() {
        return Err(is_there(
            path,
            b" is a pipe, a device or a socket, and no file;\n  --out writes to another file\n",
        ));
    }
    let own = file_path(rt, path).map_err(|e| cannot_write(path, e))?;
    write_anew(rt, own.as_slice(), bytes)
}

// Replaces a file that is there, whole or not at all. Where that fails, this is said.
pub fn replace_file(rt: &HostRuntime, path: &[u8], bytes: &[u8]) -> Result<(), Failure> {
    let mut file = open_update(rt, path).map_err(|e| cannot_write(path, e))?;
    swap(rt, &mut file, path, bytes)
}

fn make_folder(rt: &HostRuntime, path: &[u8]) -> Result<(), Error> {
    let mut space = Path::new();
    let name = of_folder(rt, path, &mut space)?;
    fs::create_dir(rt, name)
}

// A folder to write files to, made where there is none. Where that cannot be, this is said.
pub fn ready_folder(rt: &HostRuntime, path: &[u8]) -> Result<(), Failure> {
    if is_folder(rt, path) {
        return Ok(());
    }
    if let Err(e) = make_folder(rt, path) {
        tell(b"linefiles: cannot make the folder ");
        show_path(STDERR_FILENO, path);
        fail(e);
        return Err(Failure::Trouble);
    }
    Ok(())
}
