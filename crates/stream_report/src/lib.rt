// What is said of a nibble stream: what it is taken by, and the place where denibblize met a refusal. The library has judged the stream before.
#![tactic(auto)]

use fields::{
    Edition, FieldPair, dos_sector, find_mark, parse_nib_sector, per_track, recognize_prologue,
};
use nibble::{data_sum, five_three};
use outcome::Refusal;
use screen::{Failure, STDERR_FILENO, count, number, refusal, say, tell, text, text_number};

// What says of which edition a stream is.
#[derive(Clone, Copy, Debug, PartialEq, Eq)]
pub enum Reason {
    // an option
    Option,
    // its first address mark
    Mark,
    // nothing: it has no address mark
    NoMark,
}

// How a stream is taken.
#[derive(Clone, Copy, Debug, PartialEq, Eq)]
pub struct Taking {
    pub edition: Edition,
    pub reason: Reason,
}

// The last byte of an address mark.
fn mark_of(ed: Edition) -> u8 {
    match ed {
        Edition::Sixteen => 0x96,
        Edition::Thirteen => 0xB5,
    }
}

// The mark of an address stands at k.
fn address_at(s: &[u8], k: usize, ed: Edition) -> bool {
    let mark = lists::part(s, k, 3);
    lists::same(mark, &[0xD5, 0xAA, mark_of(ed)])
}

// The place of the first address mark from i on; the length where there is none.
fn address_place(s: &[u8], i: usize, ed: Edition) -> usize {
    let mut k = i;
    for _ in 0..1048576u32 {
        k = find_mark(s, k);
        if (s.len() <= k) | address_at(s, k, ed) {
            return k;
        }
        k = k.saturating_add(1);
    }
    k
}

// The pair holds a sector that no disk has beside those of this volume.
fn is_stranger(p: FieldPair, volume: u8, ed: Edition) -> bool {
    (p.volume != volume) | ((34 < p.track) | (per_track(ed) <= p.sector))
}

// The number of the DOS sector that the pair holds.
fn pair_number(p: FieldPair, ed: Edition) -> usize {
    let sector = match ed {
        Edition::Sixteen => dos_sector(p.sector),
        Edition::Thirteen => p.sector,
    };
    usize::from(per_track(ed)) * usize::from(p.track) + usize::from(sector)
}

// The sum of the data from place i on, which is 0 where they are right.
fn sum_at(s: &[u8], i: usize, ed: Edition) -> u8 {
    match ed {
        Edition::Sixteen => data_sum(lists::part(s, i, 343)),
        Edition::Thirteen => five_three::data_sum(lists::part(s, i, 411)),
    }
}

// The pair counts, and its data sum is wrong.
fn wrong_data(s: &[u8], p: FieldPair, seen: &[bool; 560], ed: Edition) -> bool {
    let met = seen.get(pair_number(p, ed)).copied().unwrap_or(false);
    !met && sum_at(s, p.nibbles, ed) != 0
}

fn tell_field(p: FieldPair) {
    text_number(STDERR_FILENO, b"volume ", u64::from(p.volume));
    text_number(STDERR_FILENO, b", track ", u64::from(p.track));
    text_number(STDERR_FILENO, b", address sector ", u64::from(p.sector));
}

fn tell_address(s: &[u8], i: usize, ed: Edition) {
    text_number(
        STDERR_FILENO,
        b"\n  the address at byte ",
        address_place(s, i, ed) as u64,
    );
}

fn tell_stranger(s: &[u8], i: usize, p: FieldPair, ed: Edition) {
    tell_address(s, i, ed);
    tell(b" says ");
    tell_field(p);
}

fn tell_data(p: FieldPair) {
    tell(b"\n  the data of ");
    tell_field(p);
    text_number(STDERR_FILENO, b" at byte ", p.nibbles as u64);
}

// Whether the refusal is met at this pair; then its place is told. The search for it began at i.
fn told(
    s: &[u8],
    why: Refusal,
    i: usize,
    p: FieldPair,
    volume: u8,
    seen: &[bool; 560],
    ed: Edition,
) -> bool {
    if (why == Refusal::Stranger) & is_stranger(p, volume, ed) {
        tell_stranger(s, i, p, ed);
        return true;
    }
    if (why == Refusal::DataSum) & wrong_data(s, p, seen, ed) {
        tell_data(p);
        return true;
    }
    false
}

// Goes from pair to pair up to the refusal, and notes the sectors that it meets in `seen`.
fn tell_pairs(s: &[u8], why: Refusal, volume: u8, seen: &mut [bool; 560], ed: Edition) {
    let mut i: usize = 0;
    for _ in 0..4096u16 {
        let p = match parse_nib_sector(s, i, ed) {
            Ok(Some(p)) => p,
            Ok(None) => return,
            Err(_) => {
                if why == Refusal::AddressSum {
                    tell_address(s, i, ed);
                }
                return;
            },
        };
        if told(s, why, i, p, volume, seen, ed) {
            return;
        }
        if let Some(met) = seen.get_mut(pair_number(p, ed)) {
            *met = true;
        }
        i = p.next;
    }
}

// An edition's address mark, as it is written.
fn show_mark(fd: i32, ed: Edition) {
    text(fd, b"D5 AA ");
    match ed {
        Edition::Sixteen => text(fd, b"96"),
        Edition::Thirteen => text(fd, b"B5"),
    }
}

fn tell_none(s: &[u8], ed: Edition) {
    tell(b"\n  no sector marked ");
    show_mark(STDERR_FILENO, ed);
    text_number(STDERR_FILENO, b" is in these ", s.len() as u64);
    tell(b" bytes\n  (a flat disk has 143360 or 116480)");
}

// The place of DOS sector number k.
fn tell_first(k: usize, ed: Edition) {
    let per = usize::from(per_track(ed));
    text_number(STDERR_FILENO, b", the first is track ", (k / per) as u64);
    text_number(STDERR_FILENO, b", DOS sector ", (k % per) as u64);
}

fn tell_absent(s: &[u8], seen: &[bool; 560], ed: Edition) {
    let all = &seen[0..35 * usize::from(per_track(ed))];
    let absent = all.iter().filter(|met| !**met).count();
    if absent == all.len() {
        tell_none(s, ed);
        return;
    }
    tell(b"\n  ");
    count(
        STDERR_FILENO,
        absent as u64,
        b"sector is not there",
        b"sectors are not there",
    );
    tell_first(all.iter().position(|met| !*met).unwrap_or(all.len()), ed);
}

// Tells the place of a refusal of denibblize.
fn tell_refusal(s: &[u8], why: Refusal, ed: Edition) {
    let mut seen = [false; 560];
    if let Ok(Some(first)) = parse_nib_sector(s, 0, ed) {
        tell_pairs(s, why, first.volume, &mut seen, ed);
    } else {
        tell_pairs(s, why, 0, &mut seen, ed);
    }
    if why == Refusal::Absent {
        tell_absent(s, &seen, ed);
    }
}

fn edition_of(per: u8) -> Edition {
    if per == 13 {
        return Edition::Thirteen;
    }
    Edition::Sixteen
}

fn denibblize_by(stream: &[u8], ed: Edition, image: &mut [u8]) -> Result<usize, Refusal> {
    match ed {
        Edition::Sixteen => stream::denibblize(stream, image),
        Edition::Thirteen => stream::denibblize_13(stream, image),
    }
}

// Whether a stream holds a disk of an edition: then only the space is short.
fn holds(stream: &[u8], ed: Edition) -> bool {
    let mut none = [0u8; 1];
    denibblize_by(stream, ed, &mut none) == Err(Refusal::TrayShort)
}

fn other(ed: Edition) -> Edition {
    match ed {
        Edition::Sixteen => Edition::Thirteen,
        Edition::Thirteen => Edition::Sixteen,
    }
}

// How many sectors a track has.
pub fn say_sectors(fd: i32, per: u8) {
    number(fd, u64::from(per));
    text(fd, b" sectors a track");
}

// Says that a stream holds a disk of another edition too.
pub fn say_other(fd: i32, held: Option<Edition>) {
    if let Some(ed) = held {
        let per = u64::from(per_track(ed));
        text_number(fd, b"It holds a disk of ", per);
        text_number(fd, b" sectors a track too: --", per);
        text(fd, b" takes that one.\n");
    }
}

impl Taking {
    // A stream is taken as an option says, 13 or 16, else by its first address mark, and by 16 where it has none.
    pub fn of(said: Option<u8>, stream: &[u8]) -> Taking {
        if let Some(per) = said {
            return Taking {
                edition: edition_of(per),
                reason: Reason::Option,
            };
        }
        match recognize_prologue(stream) {
            0 => Taking {
                edition: Edition::Sixteen,
                reason: Reason::NoMark,
            },
            0xB5 => Taking {
                edition: Edition::Thirteen,
                reason: Reason::Mark,
            },
            _ => Taking {
                edition: Edition::Sixteen,
                reason: Reason::Mark,
            },
        }
    }

    // How many sectors a track has.
    pub fn sectors(self) -> u8 {
        per_track(self.edition)
    }

    // The disk that the stream holds.
    pub fn denibblize(self, stream: &[u8], image: &mut [u8]) -> Result<usize, Refusal> {
        denibblize_by(stream, self.edition, image)
    }

    // The edition of the other disk that the stream holds too. Where an option said the edition, it is not looked for.
    pub fn other_held(self, stream: &[u8]) -> Option<Edition> {
        let ed = other(self.edition);
        if (self.reason != Reason::Option) & holds(stream, ed) {
            return Some(ed);
        }
        None
    }

    // Says why the stream is refused.
    pub fn refuse(self, stream: &[u8], why: Refusal) -> Failure {
        refusal(STDERR_FILENO, why);
        tell_refusal(stream, why, self.edition);
        if let Some(ed) = self.other_held(stream) {
            let per = u64::from(per_track(ed));
            text_number(STDERR_FILENO, b"\n  by ", per);
            text_number(
                STDERR_FILENO,
                b" sectors a track it is not refused (--",
                per,
            );
            tell(b")");
        }
        tell(b"\n");
        Failure::Refused
    }

    // What the sectors of its track go by.
    pub fn say_reason(self, fd: i32) {
        match self.reason {
            Reason::Option => {
                text_number(fd, b" (--", u64::from(self.sectors()));
                text(fd, b")\n");
            },
            Reason::NoMark => text(fd, b" (no address mark)\n"),
            Reason::Mark => {
                text(fd, b" (first address mark ");
                show_mark(fd, self.edition);
                text(fd, b")\n");
            },
        }
    }

    // The same as a string of JSON.
    pub fn reason_string(self) {
        match self.reason {
            Reason::Option => say(b"\"option\""),
            Reason::NoMark => say(b"\"no address mark\""),
            Reason::Mark => say(b"\"first address mark\""),
        }
    }
}
