// A plan of saves told ahead, for people: what each takes of a disk, which would end in 21 and why, and the sums. Nothing is written.
#![tactic(auto)]

use arguments::decimal::number_of;
use arguments::{Arguments, Opt};
use arrayvec::ArrayVec;
use changing::{
    LONGEST, check_edition, data_space, open_lines, refuse_disk, say_zeros, sectors_for,
    sectors_taken, spare_sectors,
};
use outcome::Refusal;
use screen::{
    Failure, STDERR_FILENO, STDOUT_FILENO, count, finish, names, refusal, right, say, tell,
    text_number,
};
use storing::read_front;

// Where the first length stands among the words.
const FIRST_LENGTH: usize = 2;

// The lengths that are looked at: one more than a plan may have.
const MOST_LENGTHS: usize = 65;

// Space for the numbers of a forecast: three sums, and a mark for each length.
fn number_space() -> [u64; 67] {
    [0; 67]
}

// The length that a word says. Where it says none, this is told.
fn said_length(word: &[u8]) -> Result<u64, Failure> {
    if let Some(length) = number_of(word) {
        return Ok(length);
    }
    tell(b"linefiles: ");
    names::path(STDERR_FILENO, word);
    tell(
        b" is no length;\n  one is 0 to 18446744073709551615 in digits, and --files takes files instead\n",
    );
    Err(Failure::Trouble)
}

// The length of a file; of one that is longer than any that is saved, one byte more than the longest. Where it cannot be read, this is told.
fn file_length(rt: &HostRuntime, path: &[u8]) -> Result<u64, Failure> {
    let mut data = data_space();
    let length = read_front(rt, path, &mut data)?;
    Ok(length as u64)
}

// The lengths that are looked at.
type Lengths = ArrayVec<u64, 65>;

// The lengths of the plan. Where one is none, this is told.
fn lengths_of(rt: &HostRuntime, arguments: &Arguments) -> Result<Lengths, Failure> {
    let many = arguments.words_behind(FIRST_LENGTH - 1).min(MOST_LENGTHS);
    let files = arguments.has(Opt::Files);
    let mut lengths = Lengths::new();
    for k in 0..many {
        let word = arguments.word(FIRST_LENGTH + k);
        let length = if files {
            file_length(rt, word.as_slice())?
        } else {
            said_length(word.as_slice())?
        };
        let _ = lengths.try_push(length);
    }
    Ok(lengths)
}

// A save of the plan: the word that says its length, or the file that has it; and whether it would end in 21.
#[derive(Clone, Copy)]
struct Save<'a> {
    word: &'a [u8],
    is_file: bool,
    size: u64,
    ends: bool,
}

// What is left for a save, those before it having been made: sectors that it may take, and entry lines; and how many of those before would end in 21.
#[derive(Clone, Copy)]
struct Left {
    sectors: u64,
    lines: u64,
    ended: u64,
}

impl<'a> Save<'a> {
    // The front of its line: the file, and how many bytes it has.
    fn front(self) {
        if !self.is_file {
            right(STDOUT_FILENO, self.size, 5);
            say(if self.size == 1 {
                b" byte: "
            } else {
                b" bytes: "
            });
            return;
        }
        names::input(STDOUT_FILENO, self.word);
        if (LONGEST as u64) < self.size {
            say(b": more than 32768 bytes: ");
            return;
        }
        say(b": ");
        count(STDOUT_FILENO, self.size, b"byte", b"bytes");
        say(b": ");
    }

    // What is missing where it would end in 21: bytes, lines, sectors. Behind a file's name the sectors stand on a line of their own.
    fn say_missing(self, left: Left) {
        say(b"no space (21)");
        if (LONGEST as u64) < self.size {
            if !self.is_file {
                say(b": more than 32768 bytes");
            }
            return;
        }
        if left.lines == 0 {
            say(b": no entry line is left");
            return;
        }
        if self.is_file {
            say(b":\n      ");
        } else {
            say(b": ");
        }
        let size = self.size as usize;
        sectors_taken(STDOUT_FILENO, size, b" and ");
        text_number(STDOUT_FILENO, b" needed, ", left.sectors);
        say(b" left");
        say_zeros(STDOUT_FILENO, size, left.sectors, b",\n      ");
    }

    // Its line, and what is left behind it. k saves stand before it.
    fn line(self, k: usize, left: Left) -> Left {
        right(STDOUT_FILENO, (k as u64).saturating_add(1), 4);
        say(b": ");
        self.front();
        if self.ends {
            self.say_missing(left);
        } else {
            sectors_taken(STDOUT_FILENO, self.size as usize, b", ");
        }
        say(b"\n");
        self.behind(left)
    }

    fn behind(self, left: Left) -> Left {
        if self.ends {
            return Left {
                ended: left.ended.saturating_add(1),
                ..left
            };
        }
        Left {
            sectors: left.sectors.saturating_sub(sectors_for(self.size as usize)),
            lines: left.lines.saturating_sub(1),
            ended: left.ended,
        }
    }
}

// A line for each save of the plan; what is left behind them.
fn lines(disk: &[u8], arguments: &Arguments, lengths: &[u64], marks: &[u64]) -> Left {
    let mut left = Left {
        sectors: spare_sectors(disk),
        lines: open_lines(disk),
        ended: 0,
    };
    let is_file = arguments.has(Opt::Files);
    for (k, (size, mark)) in lengths.iter().zip(marks.iter()).enumerate() {
        let word = arguments.word(k.saturating_add(FIRST_LENGTH));
        let save = Save {
            word: word.as_slice(),
            is_file,
            size: *size,
            ends: *mark != 0,
        };
        left = save.line(k, left);
    }
    left
}

// Whether the saves go on.
fn say_verdict(many: u64, ended: u64) {
    if many == 0 {
        say(b"; no length is given");
    } else if ended == 0 {
        say(b"; every save goes on");
    } else {
        text_number(STDOUT_FILENO, b"; no space for ", ended);
        text_number(STDOUT_FILENO, b" of ", many);
    }
}

// The sums at the end. A plan of which a save would end in 21 is refused.
fn sums(rt: &HostRuntime, many: usize, sums: [u64; 3], left: Left) -> Result<(), Failure> {
    let [data, lists, entries] = sums;
    say(b"in all: ");
    count(STDOUT_FILENO, data, b"data sector", b"data sectors");
    say(b", ");
    count(STDOUT_FILENO, lists, b"list", b"lists");
    say(b", ");
    count(STDOUT_FILENO, entries, b"entry line", b"entry lines");
    say_verdict(many as u64, left.ended);
    say(b"\nleft: ");
    count(STDOUT_FILENO, left.sectors, b"sector", b"sectors");
    say(b" that may be taken, ");
    count(STDOUT_FILENO, left.lines, b"entry line", b"entry lines");
    finish(rt, b"\n")?;
    if 0 < left.ended {
        return Err(Failure::Refused);
    }
    Ok(())
}

// Says why there is no forecast: the plan is too long, or the disk is one that is not changed.
fn refuse(disk: &[u8], why: Refusal) -> Failure {
    if why == Refusal::PlanLong {
        refusal(STDERR_FILENO, why);
        tell(b"\n  at most 64 lengths are told at once; ask for the rest when these are saved\n");
        return Failure::Refused;
    }
    match check_edition(disk) {
        Ok(()) => refuse_disk(disk, why),
        Err(failure) => failure,
    }
}

// The forecast for the words behind the disk: lengths, or with --files files whose lengths are taken.
pub fn forecast(rt: &HostRuntime, arguments: &Arguments, disk: &[u8]) -> Result<(), Failure> {
    let lengths = lengths_of(rt, arguments)?;
    let lengths = lengths.as_slice();
    let mut numbers = number_space();
    forecast::forecast(disk, lengths, &mut numbers).map_err(|why| refuse(disk, why))?;
    say(b"\n");
    let left = lines(disk, arguments, lengths, &numbers[3..]);
    if !lengths.is_empty() {
        say(b"\n");
    }
    let [data, lists, entries, ..] = numbers;
    sums(rt, lengths.len(), [data, lists, entries], left)
}
