// The two sides that save to one disk, as the program names them: who calls, and what is said of a side's names, sectors and limit.
#![tactic(auto)]

use arguments::{Arguments, SideName};
use screen::{STDERR_FILENO, count, names, number, tell, text, text_number};
use sides::{Side, belongs_to, count_held};

// A side that calls, with its limit of sectors, if it has one.
#[derive(Clone, Copy)]
pub struct Caller {
    pub side: Side,
    pub limit: Option<u64>,
}

// The caller that the options say, if they say one.
pub fn caller_said(arguments: &Arguments) -> Option<Caller> {
    let side = match arguments.side()? {
        SideName::Ours => Side::Ours,
        SideName::SurveyOffice => Side::Survey,
    };
    Some(Caller {
        side,
        limit: arguments.limit(),
    })
}

// How many sectors the caller's side holds on a disk of 16 sectors a track.
pub fn held_by(disk: &[u8], caller: Caller) -> u64 {
    count_held(disk, 16, caller.side)
}

fn side_name(side: Side) -> &'static str {
    match side {
        Side::Survey => "survey office",
        Side::Ours => "our side",
    }
}

// Whose a name is, where it is the other side's.
pub fn tell_owner(name: &[u8]) {
    names::name(STDERR_FILENO, name);
    if belongs_to(Side::Survey, name) {
        tell(b" is the survey office's;");
    } else {
        tell(b" is ours;");
    }
    tell(b"\n  names that begin with S are the survey office's, all others are ours");
}

// What the caller's side holds, and its limit. What a file takes is told behind it.
pub fn tell_limit(disk: &[u8], caller: Caller) {
    if let Side::Survey = caller.side {
        tell(b"the ");
    }
    tell(side_name(caller.side).as_bytes());
    tell(b" holds ");
    count(STDERR_FILENO, held_by(disk, caller), b"sector", b"sectors");
    let limit = caller.limit.unwrap_or(0);
    text_number(STDERR_FILENO, b", and its limit is ", limit);
    tell(b";\n  ");
}

// What the caller's side holds now, of its limit where that is said.
pub fn say_held(fd: i32, disk: &[u8], caller: Option<Caller>) {
    let Some(caller) = caller else {
        return;
    };
    let held = held_by(disk, caller);
    text(fd, side_name(caller.side).as_bytes());
    text(fd, b": ");
    match caller.limit {
        None => count(fd, held, b"sector", b"sectors"),
        Some(limit) => {
            number(fd, held);
            text_number(fd, b" of ", limit);
            text(fd, b" sectors");
            if limit < held {
                text(fd, b", over its limit");
            }
        },
    }
    text(fd, b"\n");
}
