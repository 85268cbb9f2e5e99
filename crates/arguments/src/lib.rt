// The arguments: the command, its words and its options, and what is wrong with them. The help text stands in ./linefiles, which answers without the program.
#![tactic(auto)]

pub mod decimal;
pub mod letters;

use arrayvec::ArrayVec;
use decimal::number_of;
use screen::names::path;
use screen::{Failure, STDERR_FILENO, tell};
use std::env::{Env, FillError};

#[derive(Clone, Copy, Debug, PartialEq, Eq)]
pub enum Command {
    List,
    Survey,
    Map,
    Crossed,
    Get,
    Save,
    Delete,
    Forecast,
    Archive,
    Check,
    Show,
    Nibblize,
    Denibblize,
}

impl Command {
    // The command of a word.
    fn of(word: &[u8]) -> Option<Command> {
        match word {
            b"list" => Some(Command::List),
            b"survey" => Some(Command::Survey),
            b"map" => Some(Command::Map),
            b"crossed" => Some(Command::Crossed),
            b"get" => Some(Command::Get),
            b"save" => Some(Command::Save),
            b"delete" => Some(Command::Delete),
            b"forecast" => Some(Command::Forecast),
            b"archive" => Some(Command::Archive),
            b"check" => Some(Command::Check),
            b"show" => Some(Command::Show),
            b"nibblize" => Some(Command::Nibblize),
            b"denibblize" => Some(Command::Denibblize),
            _ => None,
        }
    }

    // What stands behind `linefiles` where it is used.
    fn usage(self) -> &'static str {
        match self {
            Command::List => "list DISK [--raw] [--json] [--13 | --16]",
            Command::Survey => "survey DISK [--json] [--13 | --16]",
            Command::Map => "map DISK [--svg OUT [--force]] [--13 | --16]",
            Command::Crossed => "crossed DISK [--13 | --16]",
            Command::Get => {
                "get DISK NAME OUT [--empty] [--force] [--13 | --16]\n       linefiles get DISK --all FOLDER [--empty] [--force] [--13 | --16]"
            },
            Command::Save => {
                "save DISK NAME ADDRESS FILE [--side ours|survey --limit N]\n         [--out OUT [--force]]"
            },
            Command::Delete => {
                "delete DISK NAME [--side ours|survey [--limit N]]\n         [--out OUT [--force]]"
            },
            Command::Forecast => {
                "forecast DISK [LENGTH...] [--13 | --16]\n       linefiles forecast DISK --files FILE... [--13 | --16]"
            },
            Command::Archive => "archive DISK OUT [--force] [--13 | --16]",
            Command::Check => "check DISK ARCHIVE [--13 | --16]",
            Command::Show => "show ARCHIVE [--raw]",
            Command::Nibblize => "nibblize DISK OUT [--force] [--13 | --16]",
            Command::Denibblize => "denibblize STREAM OUT [--force] [--13 | --16]",
        }
    }

    // It changes a disk.
    pub fn changes(self) -> bool {
        matches!(self, Command::Save | Command::Delete)
    }

    // It takes the option.
    fn takes(self, option: Opt) -> bool {
        match option {
            Opt::Force => match self {
                Command::Map
                | Command::Get
                | Command::Archive
                | Command::Nibblize
                | Command::Denibblize => true,
                _ => self.changes(),
            },
            Opt::As13 | Opt::As16 => (self != Command::Show) & !self.changes(),
            Opt::Out | Opt::Side | Opt::Limit => self.changes(),
            Opt::Raw => matches!(self, Command::List | Command::Show),
            Opt::Json => matches!(self, Command::List | Command::Survey),
            Opt::Svg => self == Command::Map,
            Opt::All | Opt::Empty => self == Command::Get,
            Opt::Files => self == Command::Forecast,
        }
    }
}

// The options.
#[derive(Clone, Copy, Debug, PartialEq, Eq)]
pub enum Opt {
    Force,
    As13,
    As16,
    Raw,
    Json,
    Svg,
    All,
    Empty,
    Out,
    Files,
    Side,
    Limit,
}

impl Opt {
    // The option of an argument.
    fn of(argument: &[u8]) -> Option<Opt> {
        match argument {
            b"--force" => Some(Opt::Force),
            b"--13" => Some(Opt::As13),
            b"--16" => Some(Opt::As16),
            b"--raw" => Some(Opt::Raw),
            b"--json" => Some(Opt::Json),
            b"--svg" => Some(Opt::Svg),
            b"--all" => Some(Opt::All),
            b"--empty" => Some(Opt::Empty),
            b"--out" => Some(Opt::Out),
            b"--files" => Some(Opt::Files),
            b"--side" => Some(Opt::Side),
            b"--limit" => Some(Opt::Limit),
            _ => None,
        }
    }

    // What stands behind it is its value, and neither a word nor an option.
    fn has_value(self) -> bool {
        matches!(self, Opt::Out | Opt::Side | Opt::Limit)
    }

    // Its place in OPTIONS.
    fn number(self) -> usize {
        match self {
            Opt::Force => 0,
            Opt::As13 => 1,
            Opt::As16 => 2,
            Opt::Raw => 3,
            Opt::Json => 4,
            Opt::Svg => 5,
            Opt::All => 6,
            Opt::Empty => 7,
            Opt::Out => 8,
            Opt::Files => 9,
            Opt::Side => 10,
            Opt::Limit => 11,
        }
    }

    // Its name, and why a command may not take it.
    fn misplaced(self) -> &'static str {
        match self {
            Opt::Force => "--force: it writes no file",
            Opt::As13 => "--13: it reads no nibble stream",
            Opt::As16 => "--16: it reads no nibble stream",
            Opt::Raw => "--raw, which list and show do",
            Opt::Json => "--json, which list and survey do",
            Opt::Svg => "--svg, which map does",
            Opt::All => "--all, which get does",
            Opt::Empty => "--empty, which get does",
            Opt::Out => "--out, which save and delete do",
            Opt::Files => "--files, which forecast does",
            Opt::Side => "--side, which save and delete do",
            Opt::Limit => "--limit, which save and delete do",
        }
    }
}

// All options, in the order in which one that stands in the wrong place is looked for.
const OPTIONS: [Opt; 12] = [
    Opt::Force,
    Opt::As13,
    Opt::As16,
    Opt::Raw,
    Opt::Json,
    Opt::Svg,
    Opt::All,
    Opt::Empty,
    Opt::Out,
    Opt::Files,
    Opt::Side,
    Opt::Limit,
];

// A side that --side names: we, or the survey office.
#[derive(Clone, Copy, Debug, PartialEq, Eq)]
pub enum SideName {
    Ours,
    SurveyOffice,
}

// The bytes of a word, or of an option's value.
pub type Word = ArrayVec<u8, 4096>;

// Argument i; empty past the last.
fn argument(rt: &HostRuntime, i: usize) -> Word {
    let mut space = io::buffer();
    let length = rt.arg(i, &mut space).unwrap_or(0);
    let mut word = Word::new();
    let _ = word.try_extend_from_slice(lists::part(&space, 0, length));
    word
}

// Where words and options stand among the arguments. Behind `--` all are words.
#[derive(Drop)]
struct Places {
    // the words behind the first `skipped`, as many as a command looks at; how many words there are; how many of them are `-`
    words: ArrayVec<usize, 80>,
    skipped: usize,
    many: usize,
    dashes: usize,
    // each option where it is said first, in the order of OPTIONS; its value stands behind it
    options: [Option<usize>; 12],
    // the first argument that begins as an option does, and is none
    odd: Option<usize>,
    // the next argument is the value of an option, and neither word nor option
    awaits_value: bool,
    is_ended: bool,
}

impl Places {
    // Those of no arguments.
    fn none(skipped: usize) -> Places {
        Places {
            words: ArrayVec::new(),
            skipped,
            many: 0,
            dashes: 0,
            options: [None; 12],
            odd: None,
            awaits_value: false,
            is_ended: false,
        }
    }

    fn add_word(&mut self, place: usize, word: &[u8]) {
        if self.skipped <= self.many {
            let _ = self.words.try_push(place);
        }
        self.many = self.many.saturating_add(1);
        if is_dash(word) {
            self.dashes = self.dashes.saturating_add(1);
        }
    }

    fn add_option(&mut self, option: Opt, place: usize) {
        if let Some(said) = self.options.get_mut(option.number()) {
            *said = said.or(Some(place));
        }
        self.awaits_value = option.has_value();
    }

    // An argument before `--` that is no value.
    fn add_open(&mut self, place: usize, argument: &[u8]) {
        match Opt::of(argument) {
            Some(option) => self.add_option(option, place),
            None if is_odd(argument) => self.odd = self.odd.or(Some(place)),
            None => self.add_word(place, argument),
        }
    }

    // The argument that stands behind those before.
    fn add(&mut self, place: usize, argument: &[u8]) {
        let is_end = matches!(argument, b"--");
        if self.awaits_value {
            self.awaits_value = false;
        } else if self.is_ended {
            self.add_word(place, argument);
        } else if !is_end {
            self.add_open(place, argument);
        }
        self.is_ended = self.is_ended | is_end;
    }

    // The option's first place.
    fn of_option(&self, option: Opt) -> Option<usize> {
        *self.options.get(option.number())?
    }
}

// Argument i is an option with a value. No option is longer than the space for it.
fn has_value_behind(rt: &HostRuntime, i: usize) -> bool {
    let mut space = [0u8; 8];
    let length = rt.arg(i, &mut space).unwrap_or(0);
    Opt::of(lists::part(&space, 0, length)).is_some_and(|option| option.has_value())
}

// Argument i is the value of the option before it, which is no value itself.
fn is_value(rt: &HostRuntime, i: usize) -> bool {
    let mut value = false;
    for before in (0..i).rev() {
        if !has_value_behind(rt, before) {
            break;
        }
        value = !value;
    }
    value
}

// The places of the arguments from `first` on, of the words those behind the first `skipped`. An argument that is too long is refused.
fn places_of(rt: &HostRuntime, first: usize, skipped: usize) -> Result<Places, Failure> {
    let mut places = Places::none(skipped);
    places.awaits_value = is_value(rt, first);
    let mut space = io::buffer();
    for i in first..usize::MAX {
        match rt.arg(i, &mut space) {
            Ok(n) => places.add(i, lists::part(&space, 0, n)),
            Err(FillError::NotPresent) => break,
            Err(FillError::TooLong) => {
                tell(b"linefiles: an argument is longer than 4096 bytes\n");
                return Err(Failure::Trouble);
            },
        }
    }
    Ok(places)
}

// The words that stand behind the command, and the options.
#[derive(Drop)]
pub struct Arguments<'a> {
    rt: &'a HostRuntime,
    first: usize,
    pub command: Command,
    places: Places,
}

fn unknown_option(argument: &[u8]) -> Failure {
    tell(b"linefiles: there is no option ");
    path(STDERR_FILENO, argument);
    tell(b"; behind -- it is a word\n");
    Failure::Trouble
}

fn unknown_command(word: &[u8]) -> Failure {
    tell(b"linefiles: there is no command ");
    path(STDERR_FILENO, word);
    tell(b"; linefiles help names them\n");
    Failure::Trouble
}

// The argument begins as an option does.
fn is_odd(argument: &[u8]) -> bool {
    (1 < argument.len()) & (lists::byte_at(argument, 0) == b'-')
}

// Refused where something is wrong; then `why` is told.
fn refuse_if(wrong: bool, why: &[u8]) -> Result<(), Failure> {
    if wrong {
        tell(b"linefiles: ");
        tell(why);
        tell(b"\n");
        return Err(Failure::Trouble);
    }
    Ok(())
}

// The word is `-`, which stands for standard input or standard output.
pub fn is_dash(word: &[u8]) -> bool {
    matches!(word, b"-")
}

impl<'a> Arguments<'a> {
    // Word k, which is none of those whose place is kept. No command asks for one, so `word` keeps no room for this.
    #[cold]
    #[inline(never)]
    fn far_word(&self, k: usize) -> Word {
        if self.places.many <= k {
            return Word::new();
        }
        let Ok(places) = places_of(self.rt, self.first, k) else {
            return Word::new();
        };
        match places.words.as_slice().first() {
            Some(place) => argument(self.rt, *place),
            None => Word::new(),
        }
    }

    // Word k, the command being word 0; where there is none, it is empty.
    pub fn word(&self, k: usize) -> Word {
        match self.places.words.as_slice().get(k) {
            Some(place) => argument(self.rt, *place),
            None => self.far_word(k),
        }
    }

    // Word k is `-`.
    pub fn has_dash(&self, k: usize) -> bool {
        is_dash(self.word(k).as_slice())
    }

    pub fn has(&self, option: Opt) -> bool {
        self.places.of_option(option).is_some()
    }

    // The value of an option that is said; that of one that takes none is empty. Of one that is said twice the first counts.
    pub fn value_of(&self, option: Opt) -> Option<Word> {
        let place = self.places.of_option(option)?;
        if !option.has_value() {
            return Some(Word::new());
        }
        Some(argument(self.rt, place.saturating_add(1)))
    }

    // The side that --side says.
    pub fn side(&self) -> Option<SideName> {
        match self.value_of(Opt::Side)?.as_slice() {
            b"ours" => Some(SideName::Ours),
            b"survey" => Some(SideName::SurveyOffice),
            _ => None,
        }
    }

    // The limit that --limit says.
    pub fn limit(&self) -> Option<u64> {
        number_of(self.value_of(Opt::Limit)?.as_slice())
    }

    // The sectors a track that an option says.
    pub fn sectors_per_track(&self) -> Option<u8> {
        if self.has(Opt::As13) {
            return Some(13);
        }
        if self.has(Opt::As16) {
            return Some(16);
        }
        None
    }

    // Where the name of its output stands among the words. The output of `get --all` is a folder, and none.
    pub fn out_word(&self) -> Option<usize> {
        match self.command {
            Command::Get if !self.has(Opt::All) => Some(3),
            Command::Map if self.has(Opt::Svg) => Some(2),
            Command::Archive | Command::Nibblize | Command::Denibblize => Some(2),
            _ => None,
        }
    }

    // The output is standard output.
    pub fn out_is_dash(&self) -> bool {
        if self.command.changes() {
            let out = self.value_of(Opt::Out);
            return out.is_some_and(|out| is_dash(out.as_slice()));
        }
        self.out_word().is_some_and(|k| self.has_dash(k))
    }

    // How many words the command wants behind it.
    fn wants(&self) -> usize {
        match self.command {
            Command::List | Command::Survey | Command::Crossed | Command::Show => 1,
            Command::Map if !self.has(Opt::Svg) => 1,
            Command::Get if !self.has(Opt::All) => 3,
            Command::Save => 4,
            Command::Forecast if !self.has(Opt::Files) => 1,
            _ => 2,
        }
    }

    // How many words stand behind word k.
    pub fn words_behind(&self, k: usize) -> usize {
        self.places.many.saturating_sub(k).saturating_sub(1)
    }

    // The number of words behind the command is what it wants; behind `forecast` there may be more.
    fn has_words(&self) -> bool {
        let words = self.words_behind(0);
        let wanted = self.wants();
        (words == wanted) | ((self.command == Command::Forecast) & (wanted < words))
    }

    fn usage(&self) -> Failure {
        tell(b"usage: linefiles ");
        tell(self.command.usage().as_bytes());
        tell(b"\n       linefiles help says what it does\n");
        Failure::Trouble
    }

    // Refused, and this is said: an option that the command does not take.
    fn check_taken(&self) -> Result<(), Failure> {
        for option in OPTIONS {
            if self.has(option) & !self.command.takes(option) {
                tell(b"linefiles: this command does not take ");
                tell(option.misplaced().as_bytes());
                tell(b"\n");
                return Err(Failure::Trouble);
            }
        }
        Ok(())
    }

    // Says what is wrong with an option's value.
    fn wrong_value(&self, option: Opt, why: &[u8]) -> Failure {
        let value = self.value_of(option).unwrap_or_default();
        tell(b"linefiles: ");
        path(STDERR_FILENO, value.as_slice());
        tell(why);
        Failure::Trouble
    }

    // Refused, and this is said: side or limit that are said as they cannot be, or without each other.
    fn check_side(&self) -> Result<(), Failure> {
        let has_side = self.has(Opt::Side);
        let has_limit = self.has(Opt::Limit);
        if has_side & self.side().is_none() {
            return Err(self.wrong_value(Opt::Side, b" is no side; one is ours or survey\n"));
        }
        if has_limit & self.limit().is_none() {
            return Err(self.wrong_value(
                Opt::Limit,
                b" is no limit; one is 0 to 18446744073709551615\n",
            ));
        }
        refuse_if(
            has_limit & !has_side,
            b"--limit is a side's; --side ours or --side survey says whose",
        )?;
        refuse_if(
            (self.command == Command::Save) & has_side & !has_limit,
            b"--limit N is missing; a side saves within its limit of sectors",
        )
    }

    // Refused, and this is said: an option that stands where it says nothing, or two against each other.
    fn check_options(&self) -> Result<(), Failure> {
        self.check_taken()?;
        refuse_if(
            self.command.changes() & self.has(Opt::Force) & !self.has(Opt::Out),
            b"--force is for --out; without it the disk itself is replaced",
        )?;
        refuse_if(
            self.has(Opt::As13) & self.has(Opt::As16),
            b"--13 and --16 are both said; a stream is taken by one of them",
        )?;
        self.check_side()
    }

    // Refused, and this is said: `-` for two of what is read, or for a disk that is to be replaced.
    fn check_dashes(&self) -> Result<(), Failure> {
        let disk = self.has_dash(1);
        refuse_if(
            (self.command == Command::Check) & disk & self.has_dash(2),
            b"disk and archive cannot both be standard input",
        )?;
        refuse_if(
            self.command.changes() & disk & !self.has(Opt::Out),
            b"standard input cannot be replaced; --out OUT says where the disk goes",
        )?;
        refuse_if(
            (self.command == Command::Save) & disk & self.has_dash(4),
            b"disk and file cannot both be standard input",
        )?;
        refuse_if(
            (self.command == Command::Forecast) & self.has(Opt::Files) & (1 < self.places.dashes),
            b"only one of disk and files can be standard input",
        )
    }
}

// The arguments from `first` on; where something is wrong with them, this is said.
pub fn read_arguments(rt: &HostRuntime, first: usize) -> Result<Arguments<'_>, Failure> {
    let places = places_of(rt, first, 0)?;
    if let Some(place) = places.odd {
        return Err(unknown_option(argument(rt, place).as_slice()));
    }
    let word = match places.words.as_slice().first() {
        Some(place) => argument(rt, *place),
        None => Word::new(),
    };
    let Some(command) = Command::of(word.as_slice()) else {
        return Err(unknown_command(word.as_slice()));
    };
    let arguments = Arguments {
        rt,
        first,
        command,
        places,
    };
    if arguments.places.awaits_value | !arguments.has_words() {
        return Err(arguments.usage());
    }
    arguments.check_options()?;
    arguments.check_dashes()?;
    Ok(arguments)
}
