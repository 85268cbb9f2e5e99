// Mode, owner and group of a file that is replaced. The program cannot ask for them, so ./linefiles hands them over as argument 2: --as=644:1000:1000, or --as= where
// it does not know them.
use std::env::Env;
use std::fs::{File, Permissions};
use std::os::unix::fs::{PermissionsExt, fchown};

#[derive(Clone, Copy)]
struct Kept {
    mode: u32,
    owner: u32,
    group: u32,
}

// The value of a digit in a base of 10 or less.
fn digit(b: u8, base: u32) -> Option<u32> {
    if !b.is_ascii_digit() {
        return None;
    }
    let value = u32::from(b - b'0');
    if value < base { Some(value) } else { None }
}

// A number of 12 digits at most, as far as 32 bits hold it, and what stands behind the byte that ends it. None where there is no digit.
fn next_number(text: &[u8], base: u32) -> Option<(u32, &[u8])> {
    let mut number: u32 = 0;
    let mut length: usize = 0;
    for b in text.iter().take(12) {
        let Some(value) = digit(*b, base) else {
            break;
        };
        number = number.wrapping_mul(base).wrapping_add(value);
        length = length.saturating_add(1);
    }
    if length == 0 {
        return None;
    }
    Some((
        number,
        lists::part(text, length.saturating_add(1), text.len()),
    ))
}

// What an argument says is to be kept. What stands behind the three numbers is not looked at.
fn kept_of(argument: &[u8]) -> Option<Kept> {
    let (mode, owners) = next_number(argument.strip_prefix(b"--as=")?, 8)?;
    let (owner, groups) = next_number(owners, 10)?;
    let (group, _) = next_number(groups, 10)?;
    Some(Kept { mode, owner, group })
}

fn kept_said(rt: &HostRuntime) -> Option<Kept> {
    let mut space = [0u8; 64];
    let length = rt.arg(2, &mut space).ok()?;
    kept_of(lists::part(&space, 0, length))
}

// Gives a file the mode and the owner that argument 2 says; where they may not be given, it keeps its own.
pub fn keep(rt: &HostRuntime, file: &File) {
    if let Some(kept) = kept_said(rt) {
        let _ = fchown(file, Some(kept.owner), Some(kept.group));
        let _ = file.set_permissions(Permissions::from_mode(kept.mode % 4096));
    }
}
