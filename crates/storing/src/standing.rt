// What stands at a path.
use crate::naming::{Path, is_renamed, of_folder, of_own, path_of, put, text_of};
use std::fs;
use std::io::Error;

// How many links are followed to a file.
const MOST_LINKS: u8 = 40;

// A folder has an entry for itself.
pub fn is_folder(rt: &HostRuntime, path: &[u8]) -> bool {
    if path.is_empty() | (4000 < path.len()) {
        return false;
    }
    let mut space = Path::new();
    match of_own(rt, path, &mut space) {
        Ok(name) => has_itself(rt, name.as_bytes()),
        Err(_) => false,
    }
}

fn has_itself(rt: &HostRuntime, folder: &[u8]) -> bool {
    let mut itself = path_of(folder);
    put(&mut itself, b"/.");
    match text_of(itself.as_slice()) {
        Ok(name) => fs::metadata(rt, name).is_ok(),
        Err(_) => false,
    }
}

// A link, whether or not it leads to a file.
pub fn is_link(rt: &HostRuntime, path: &[u8]) -> bool {
    let mut space = Path::new();
    match of_folder(rt, path, &mut space) {
        Ok(name) => leads(rt, name),
        Err(_) => false,
    }
}

fn leads(rt: &HostRuntime, name: &str) -> bool {
    match fs::symlink_metadata(rt, name) {
        Ok(found) => found.is_symlink(),
        Err(_) => false,
    }
}

// The path to which the text of a link leads, from the link's own folder on.
fn led_path(path: &[u8], text: &[u8]) -> Path {
    let mut led = Path::new();
    if !text.starts_with(b"/") {
        put(&mut led, folder_of(path));
    }
    put(&mut led, text);
    led
}

// The path to which a link leads; none where the path is no link.
fn link_path(rt: &HostRuntime, path: &[u8]) -> Result<Option<Path>, Error> {
    if is_renamed(rt, path) {
        return Ok(None);
    }
    let mut space = Path::new();
    let name = of_folder(rt, path, &mut space)?;
    if !leads(rt, name) {
        return Ok(None);
    }
    let text = fs::read_link(rt, name)?;
    Ok(Some(led_path(path, text.as_str().as_bytes())))
}

// The path of the file to which a path leads, links being followed.
pub fn file_path(rt: &HostRuntime, path: &[u8]) -> Result<Path, Error> {
    let mut at = path_of(path);
    for _ in 0..MOST_LINKS {
        match link_path(rt, at.as_slice())? {
            Some(next) => at = next,
            None => break,
        }
    }
    Ok(at)
}

// The folder of a path, the last stroke with it.
pub fn folder_of(path: &[u8]) -> &[u8] {
    match path.iter().rposition(|b| *b == b'/') {
        Some(stroke) => lists::part(path, 0, stroke + 1),
        None => b"",
    }
}
