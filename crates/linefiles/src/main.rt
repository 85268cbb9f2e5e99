// The program that people run: it reads a disk, a nibble stream or an archive, calls the libraries, and prints. `./linefiles help` says what it does.
// With `--status` as its first argument it writes its status, a digit, to descriptor 3: ./linefiles reads it there. Its
// second argument is then `--as=`, with what is to be kept of a disk that is replaced.
#![tactic(auto)]

use arguments::{Arguments, Command, Opt, Word, read_arguments};
use changing::Target;
use fetching::Terms;
use fields::{Edition, per_track};
use file_walk::{refuse, refuse_archive};
use files::DiskSurvey;
use outcome::Refusal;
use pen::Picture;
use screen::space::{archive_space, disk_space, stream_space};
use screen::{
    Failure, STDERR_FILENO, STDOUT_FILENO, finish, input, json, names, number, refusal, say, tell,
    text, text_number,
};
use side_report::caller_said;
use std::env::Env;
use storing::{read_file, write_file};
use stream_report::{Taking, say_other, say_sectors};

// Saves to the file that word k names.
fn save_word(
    rt: &HostRuntime,
    arguments: &Arguments,
    k: usize,
    bytes: &[u8],
) -> Result<(), Failure> {
    let path = arguments.word(k);
    write_file(rt, path.as_slice(), bytes, arguments.has(Opt::Force))
}

// The picture's space is this function's, so that other commands cost none.
fn draw_svg(
    rt: &HostRuntime,
    arguments: &Arguments,
    disk: &[u8],
    survey: DiskSurvey,
) -> Result<(), Failure> {
    let mut picture = Picture::new();
    let from = arguments.word(1);
    svg::draw(disk, survey, from.as_slice(), &mut picture);
    save_word(rt, arguments, 2, picture.as_bytes())
}

fn draw_map(rt: &HostRuntime, arguments: &Arguments, disk: &[u8]) -> Result<(), Failure> {
    let survey = files::survey(disk).map_err(|why| refuse(disk, why))?;
    if arguments.has(Opt::Svg) {
        return draw_svg(rt, arguments, disk, survey);
    }
    picture::draw(disk);
    finish(rt, b"\n")
}

fn crossed(rt: &HostRuntime, disk: &[u8]) -> Result<(), Failure> {
    let counts = holders::holders(disk).map_err(|why| refuse(disk, why))?;
    crossing::list(rt, disk, counts)
}

fn get(rt: &HostRuntime, arguments: &Arguments, disk: &[u8]) -> Result<(), Failure> {
    let terms = Terms {
        empty: arguments.has(Opt::Empty),
        force: arguments.has(Opt::Force),
    };
    let name = arguments.word(2);
    if arguments.has(Opt::All) {
        return fetching::get_all(rt, disk, name.as_slice(), terms);
    }
    let out = arguments.word(3);
    fetching::get(rt, disk, name.as_slice(), out.as_slice(), terms)
}

fn write_archive(rt: &HostRuntime, arguments: &Arguments, disk: &[u8]) -> Result<(), Failure> {
    let mut out = archive_space();
    let written = writer::write_archive(disk, &mut out);
    let length = written.map_err(|why| refuse_archive(disk, why))?;
    save_word(rt, arguments, 2, lists::part(&out, 0, length))
}

// Says that an archive is not that of the disk, and where they differ.
fn refuse_other(disk: &[u8], archive: &[u8]) -> Failure {
    refusal(STDERR_FILENO, Refusal::NotItsReturn);
    let mut out = archive_space();
    let length = writer::write_archive(disk, &mut out).unwrap_or(0);
    archive_report::tell_difference(lists::part(&out, 0, length), archive);
    Failure::Refused
}

fn check(rt: &HostRuntime, arguments: &Arguments, disk: &[u8]) -> Result<(), Failure> {
    let mut space = archive_space();
    let from = arguments.word(2);
    let length = read_file(rt, from.as_slice(), &mut space)?;
    let archive = lists::part(&space, 0, length);
    match writer::check_archive(disk, archive) {
        Ok(()) => finish(rt, b"pass: this is the archive of this disk\n"),
        Err(Refusal::NotItsReturn) => Err(refuse_other(disk, archive)),
        Err(why) => Err(refuse_archive(disk, why)),
    }
}

fn refuse_nibblize(why: Refusal) -> Failure {
    refusal(STDERR_FILENO, why);
    tell(b"\n  streams of 13 sectors a track are read, not written\n");
    Failure::Refused
}

fn nibblize(rt: &HostRuntime, arguments: &Arguments, disk: &[u8]) -> Result<(), Failure> {
    let mut out = stream_space();
    let written = nibblize::nibblize(disk, &mut out);
    let length = written.map_err(|why| refuse_nibblize(why))?;
    save_word(rt, arguments, 2, lists::part(&out, 0, length))
}

// Where a changed disk goes: what stands behind --out, or where it came from.
fn target_path(arguments: &Arguments) -> Word {
    match arguments.value_of(Opt::Out) {
        Some(path) => path,
        None => arguments.word(1),
    }
}

fn target_of<'a>(arguments: &Arguments, path: &'a [u8]) -> Target<'a> {
    Target {
        path,
        over: !arguments.has(Opt::Out),
        force: arguments.has(Opt::Force),
    }
}

fn save(rt: &HostRuntime, arguments: &Arguments, disk: &[u8]) -> Result<(), Failure> {
    let name = arguments.word(2);
    let address = arguments.word(3);
    let file = arguments.word(4);
    let path = target_path(arguments);
    changing::save(
        rt,
        disk,
        caller_said(arguments),
        name.as_slice(),
        address.as_slice(),
        file.as_slice(),
        target_of(arguments, path.as_slice()),
    )
}

fn delete(rt: &HostRuntime, arguments: &Arguments, disk: &[u8]) -> Result<(), Failure> {
    let name = arguments.word(2);
    let path = target_path(arguments);
    changing::delete(
        rt,
        disk,
        caller_said(arguments),
        name.as_slice(),
        target_of(arguments, path.as_slice()),
    )
}

// A command on a flat disk.
fn on_flat(rt: &HostRuntime, arguments: &Arguments, disk: &[u8]) -> Result<(), Failure> {
    let json = arguments.has(Opt::Json);
    match arguments.command {
        Command::List => disk_report::list(rt, disk, arguments.has(Opt::Raw), json),
        Command::Survey => disk_report::survey(rt, disk, json),
        Command::Map => draw_map(rt, arguments, disk),
        Command::Crossed => crossed(rt, disk),
        Command::Get => get(rt, arguments, disk),
        Command::Save => save(rt, arguments, disk),
        Command::Delete => delete(rt, arguments, disk),
        Command::Forecast => plan_report::forecast(rt, arguments, disk),
        Command::Archive => write_archive(rt, arguments, disk),
        Command::Check => check(rt, arguments, disk),
        Command::Nibblize => nibblize(rt, arguments, disk),
        Command::Show | Command::Denibblize => save_word(rt, arguments, 2, disk),
    }
}

// Where it is said what was read: on standard output, or on standard error where the output itself goes there.
fn notes_to(arguments: &Arguments) -> i32 {
    if arguments.out_is_dash() {
        return STDERR_FILENO;
    }
    STDOUT_FILENO
}

// The front of an object of JSON: what was read, and by what its sectors a track go.
fn object_front(from: &[u8], form: &[u8], size: u64, per: u8) {
    say(b"{\n  \"file\": ");
    json::string(from);
    say(b",\n  \"form\": ");
    json::string(form);
    text_number(STDOUT_FILENO, b",\n  \"bytes\": ", size);
    text_number(
        STDOUT_FILENO,
        b",\n  \"sectors_per_track\": ",
        u64::from(per),
    );
    say(b",\n  \"taken_by\": ");
}

// The sectors a track of another disk that a stream holds too.
fn object_other(held: Option<Edition>) {
    say(b",\n  \"other_disk\": ");
    json::known(held.map(|ed| u64::from(per_track(ed))));
}

// The rest of an object where a stream holds no disk.
fn object_refused(rt: &HostRuntime, command: Command, why: Refusal) {
    object_other(None);
    match command {
        Command::List => disk_report::none_listed(why),
        _ => disk_report::none_surveyed(rt, why),
    }
}

// Says why a stream holds no disk.
fn refuse_stream(
    rt: &HostRuntime,
    arguments: &Arguments,
    stream: &[u8],
    taking: Taking,
    why: Refusal,
) -> Failure {
    if arguments.has(Opt::Json) {
        object_refused(rt, arguments.command, why);
    }
    taking.refuse(stream, why)
}

// A command on a nibble stream: it is denibblized first.
fn on_stream(
    rt: &HostRuntime,
    arguments: &Arguments,
    stream: &[u8],
    taking: Taking,
) -> Result<(), Failure> {
    let mut image = disk_space();
    let read = taking.denibblize(stream, &mut image);
    let length = read.map_err(|why| refuse_stream(rt, arguments, stream, taking, why))?;
    let held = taking.other_held(stream);
    if arguments.has(Opt::Json) {
        object_other(held);
    } else {
        say_other(notes_to(arguments), held);
    }
    on_flat(rt, arguments, lists::part(&image, 0, length))
}

// What is said of a stream before it is read.
fn say_stream(fd: i32, from: &[u8], size: u64, taking: Taking) {
    input(fd, from, b"taken as a nibble stream", size);
    text(fd, b",\n  ");
    say_sectors(fd, taking.sectors());
    taking.say_reason(fd);
}

// A file that is taken as a nibble stream. The first line says so.
fn as_stream(rt: &HostRuntime, arguments: &Arguments, bytes: &[u8]) -> Result<(), Failure> {
    let from = arguments.word(1);
    let from = from.as_slice();
    let size = bytes.len() as u64;
    let taking = Taking::of(arguments.sectors_per_track(), bytes);
    if arguments.has(Opt::Json) {
        object_front(from, b"nibble stream", size, taking.sectors());
        taking.reason_string();
    } else {
        say_stream(notes_to(arguments), from, size, taking);
    }
    on_stream(rt, arguments, bytes, taking)
}

fn is_flat(bytes: &[u8]) -> bool {
    (bytes.len() == 143360) | (bytes.len() == 116480)
}

// What is said of a flat disk before it is read.
fn say_flat(fd: i32, from: &[u8], size: u64, per: u8) {
    input(fd, from, b"flat disk", size);
    text(fd, b", ");
    say_sectors(fd, per);
    text(fd, b"\n");
}

// A file that is a flat disk by its length.
fn as_flat(rt: &HostRuntime, arguments: &Arguments, bytes: &[u8]) -> Result<(), Failure> {
    let from = arguments.word(1);
    let from = from.as_slice();
    let per = disk::sectors_of(bytes);
    let size = bytes.len() as u64;
    if arguments.has(Opt::Json) {
        object_front(from, b"flat", size, per);
        json::string(b"length");
        object_other(None);
    } else {
        say_flat(notes_to(arguments), from, size, per);
    }
    on_flat(rt, arguments, bytes)
}

// A command on a disk: flat, or by its length a nibble stream. The first line says which.
fn on_disk(rt: &HostRuntime, arguments: &Arguments, bytes: &[u8]) -> Result<(), Failure> {
    let from = arguments.word(1);
    let from = from.as_slice();
    if arguments.command.changes() {
        changing::check_order(from)?;
        if !is_flat(bytes) {
            return Err(changing::not_flat(from));
        }
    }
    if (arguments.command == Command::Denibblize) | !is_flat(bytes) {
        return as_stream(rt, arguments, bytes);
    }
    if arguments.sectors_per_track().is_some() {
        tell(b"linefiles: ");
        names::input(STDERR_FILENO, from);
        tell(b" is a flat disk by its length;\n  --13 and --16 are for nibble streams\n");
        return Err(Failure::Trouble);
    }
    as_flat(rt, arguments, bytes)
}

// Reads the file that a command is about, and goes on with its bytes. The space for it is this function's, so that arguments that are refused cost none.
fn act(rt: &HostRuntime, arguments: &Arguments) -> Result<(), Failure> {
    let mut space = archive_space();
    let from = arguments.word(1);
    let from = from.as_slice();
    let length = read_file(rt, from, &mut space)?;
    let bytes = lists::part(&space, 0, length);
    if arguments.command == Command::Show {
        return archive_report::show(rt, from, bytes, arguments.has(Opt::Raw));
    }
    on_disk(rt, arguments, bytes)
}

// Runs the command that stands among the arguments at `first`.
fn run(rt: &HostRuntime, first: usize) -> Result<(), Failure> {
    let arguments = read_arguments(rt, first)?;
    act(rt, &arguments)
}

// The exit status of a run; what is wrong was said before, but that memory is short.
fn status_of(done: Result<(), Failure>) -> u64 {
    match done {
        Ok(()) => 0,
        Err(Failure::Refused) => 1,
        Err(Failure::Trouble) => 2,
        Err(Failure::OutOfMemory) => {
            tell(b"linefiles: there is not enough memory\n");
            2
        },
    }
}

// The first argument asks for the status.
fn asks_status(rt: &HostRuntime) -> bool {
    let mut w = [0u8; 8];
    match rt.arg(1, &mut w) {
        Ok(n) => lists::part(&w, 0, n) == b"--status".as_slice(),
        Err(_) => false,
    }
}

fn main(rt: HostRuntime) {
    if asks_status(&rt) {
        let status = status_of(run(&rt, 3));
        number(3, status);
        return;
    }
    status_of(run(&rt, 1));
}
