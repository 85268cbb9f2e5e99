// The text by which a path is opened. The library opens paths that are UTF-8; another is reached by links that ./linefiles makes in a folder of its own: link k leads
// to what argument k names, and link k- to the folder in which that stands. A file that is written under a name that is not UTF-8 gets another one first, in the same
// folder, and ./linefiles gives it its own.
use crate::standing::folder_of;
use arrayvec::ArrayVec;
use std::env::{Env, FillError};
use std::io::{Error, ErrorKind};
use std::str::from_utf8;

// The longest path that is taken.
const LONGEST: usize = 4096;

// A path of at most that many bytes.
pub type Path = ArrayVec<u8, 4096>;

// The place of the first argument that is the caller's.
const FIRST: usize = 3;

// A path that is UTF-8.
pub fn text_of(path: &[u8]) -> Result<&str, Error> {
    match from_utf8(path) {
        Ok(name) => Ok(name),
        Err(_) => Err(Error::new(ErrorKind::InvalidFilename, "the name is not UTF-8")),
    }
}

// The path that stands in the front of a space; for a longer one than is taken a path that is too long, too.
pub fn path_of(front: &[u8]) -> Path {
    let mut path = Path::new();
    put(&mut path, front);
    path
}

// Puts text behind a path. Where there is no room for it, zeros fill the room, and no file has the name.
pub fn put(path: &mut Path, text: &[u8]) {
    if path.try_extend_from_slice(text).is_ok() {
        return;
    }
    for _ in path.len()..LONGEST {
        let _ = path.try_push(0);
    }
}

// Puts a number behind a path.
fn put_number(path: &mut Path, number: usize) {
    let mut digits = [0u8; 20];
    let length = io::decimal(number as u64, &mut digits);
    put(path, lists::part(&digits, 0, length));
}

// Argument k; an empty one where it is too long, none past the last.
fn argument(rt: &HostRuntime, k: usize) -> Option<Path> {
    let mut space = io::buffer();
    match rt.arg(k, &mut space) {
        Ok(n) => Some(path_of(lists::part(&space, 0, n))),
        Err(FillError::TooLong) => Some(Path::new()),
        Err(FillError::NotPresent) => None,
    }
}

// The folder of the links, if there is one.
fn links(rt: &HostRuntime) -> Option<Path> {
    let mut space = io::buffer();
    match rt.var("LINEFILES_LINKS", &mut space) {
        Ok(n) if 0 < n => Some(path_of(lists::part(&space, 0, n))),
        _ => None,
    }
}

// Link k with what stands behind it, if there are links, and the path is not too long.
fn by_link(rt: &HostRuntime, k: usize, end: &[u8], behind: &[u8]) -> Option<Path> {
    let mut path = links(rt)?;
    let mut digits = [0u8; 20];
    let length = io::decimal(k as u64, &mut digits);
    path.try_push(b'/').ok()?;
    path.try_extend_from_slice(lists::part(&digits, 0, length))
        .ok()?;
    path.try_extend_from_slice(end).ok()?;
    path.try_extend_from_slice(behind).ok()?;
    Some(path)
}

// The path by a link of argument k, if one leads there. `own`: the link to what the argument names may stand for it.
fn by_argument(
    rt: &HostRuntime,
    k: usize,
    argument: &[u8],
    path: &[u8],
    own: bool,
) -> Option<Path> {
    if own & (path == argument) {
        return by_link(rt, k, b"", b"");
    }
    if let Some(behind) = path.strip_prefix(argument) {
        if behind.starts_with(b"/") {
            return by_link(rt, k, b"", behind);
        }
    }
    let folder = folder_of(argument);
    match path.strip_prefix(folder) {
        Some(behind) if !folder.is_empty() => by_link(rt, k, b"-/", behind),
        _ => None,
    }
}

// The path by links, if an argument's links lead there.
fn by_links(rt: &HostRuntime, path: &[u8], own: bool) -> Option<Path> {
    for k in FIRST..usize::MAX {
        let argument = argument(rt, k)?;
        if let Some(found) = by_argument(rt, k, argument.as_slice(), path, own) {
            if from_utf8(found.as_slice()).is_ok() {
                return Some(found);
            }
        }
    }
    None
}

// The text for a path, which lies in `space` where links lead there.
fn named<'a>(
    rt: &HostRuntime,
    path: &'a [u8],
    own: bool,
    space: &'a mut Path,
) -> Result<&'a str, Error> {
    if from_utf8(path).is_err() {
        if let Some(found) = by_links(rt, path, own) {
            *space = found;
            return text_of(space.as_slice());
        }
    }
    text_of(path)
}

// The name that a file has first which argument k names, behind link k-, if there are links.
fn first_name(rt: &HostRuntime, k: usize) -> Option<Path> {
    let links = links(rt)?;
    let folder = folder_of(links.as_slice());
    let stem = lists::part(links.as_slice(), folder.len(), links.len());
    let mut name = by_link(rt, k, b"-/.linefiles-", stem)?;
    put(&mut name, b"-");
    put_number(&mut name, k);
    Some(name)
}

// The first name of the file that an argument names by this path, if one does, and there are links.
fn new_name(rt: &HostRuntime, path: &[u8]) -> Option<Path> {
    for k in FIRST..usize::MAX {
        let argument = argument(rt, k)?;
        if !argument.is_empty() & (path == argument.as_slice()) {
            return first_name(rt, k);
        }
    }
    None
}

// The name that the file of a path gets first, where the path is not UTF-8.
fn other_name(rt: &HostRuntime, path: &[u8]) -> Option<Path> {
    let mut space = Path::new();
    if of_folder(rt, path, &mut space).is_ok() {
        return None;
    }
    new_name(rt, path)
}

// The path is not UTF-8, and its file gets another name first.
pub fn is_renamed(rt: &HostRuntime, path: &[u8]) -> bool {
    other_name(rt, path).is_some()
}

// The text for a file that is written: the path's own, or of one that is not UTF-8 the name that it has first.
pub fn of_new<'a>(rt: &HostRuntime, path: &'a [u8], space: &'a mut Path) -> Result<&'a str, Error> {
    match other_name(rt, path) {
        Some(name) => {
            *space = name;
            text_of(space.as_slice())
        },
        None => of_folder(rt, path, space),
    }
}

// The text by which what stands at a path is reached.
pub fn of_own<'a>(rt: &HostRuntime, path: &'a [u8], space: &'a mut Path) -> Result<&'a str, Error> {
    named(rt, path, true, space)
}

// The text for the path itself, by which a file is made, named or taken away; only its folder may be reached by a link.
pub fn of_folder<'a>(
    rt: &HostRuntime,
    path: &'a [u8],
    space: &'a mut Path,
) -> Result<&'a str, Error> {
    named(rt, path, false, space)
}
