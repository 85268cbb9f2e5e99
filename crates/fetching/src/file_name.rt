// The name of a file as a file system takes it: as `list` shows it, with the stroke of paths and the tilde as \xHH too. The tilde then stands before a number,
// where several files have one name, and where a file has none.
use arrayvec::ArrayVec;

// The longest path that is kept.
const LONGEST: usize = 4096;

// A path; for a longer one, one that no file is written to.
pub type Path = ArrayVec<u8, 4096>;

// The byte is not put as it is.
fn is_odd(b: u8) -> bool {
    (b < 32) | (b == b'/') | (125 < b)
}

// Puts text behind what stands there. Where there is no room for it, zeros fill the room, so that the path is too long for a file.
pub fn put(text: &[u8], out: &mut Path) {
    if out.try_extend_from_slice(text).is_ok() {
        return;
    }
    for _ in out.len()..LONGEST {
        let _ = out.try_push(0);
    }
}

// Puts a byte.
fn put_letter(b: u8, out: &mut Path) {
    if is_odd(b) {
        put_hex(b, out);
    } else if b == b'\\' {
        put(b"\\\\", out);
    } else {
        put(&[b], out);
    }
}

fn put_hex(b: u8, out: &mut Path) {
    let mut digits = [0u8; 16];
    let length = io::hex(u64::from(b), 2, &mut digits);
    put(b"\\x", out);
    put(lists::part(&digits, 0, length), out);
}

// Puts a name. That of a folder in every folder gets its first dot as a number, so that it is no folder's.
fn put_name(name: &[u8], out: &mut Path) {
    let rest = match name {
        b"." | b".." => {
            put_hex(b'.', out);
            &name[1..]
        },
        _ => name,
    };
    for b in rest {
        put_letter(*b, out);
    }
}

// Puts the name behind a folder, with a number where `all` files have it or it has no letters, `before` of them before this one.
pub fn put_file_name(name: &[u8], before: u64, all: u64, out: &mut Path) {
    put_name(name, out);
    if (1 < all) | name.is_empty() {
        let mut digits = [0u8; 20];
        let length = io::decimal(before.saturating_add(1), &mut digits);
        put(b"~", out);
        put(lists::part(&digits, 0, length), out);
    }
}
