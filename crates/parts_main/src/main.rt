// Answers of the parts of linefiles where the program itself asks for none: words behind the first 80, options before the first argument, a picture drawn into a
// text that grows, and names that are longer than a path.
#![tactic(auto)]

use arguments::letters::unescape;
use arguments::{Arguments, Opt, read_arguments};
use arrows::draw_arrows;
use cells::{Drawing, Layer};
use pen::{Picture, shown, shown_end};
use screen::Failure;
use std::alloc::{AllocError, AllocFailed};
use trial::{disk, place_16, poke, print, print_line, print_number};
use uses::uses_of;

fn word_line(arguments: &Arguments, k: usize) {
    print_number(b"word", k as u64);
    print(b": ");
    print(arguments.word(k).as_slice());
    print(b"\n");
}

fn value_line(arguments: &Arguments, text: &[u8], option: Opt) {
    print(text);
    match arguments.value_of(option) {
        Some(value) => {
            print(b": ");
            print(value.as_slice());
            print(b"\n");
        },
        None => print(b": not said\n"),
    }
}

// A plan of 90 lengths and eleven words more behind `--`. Before it stand two options: the second is the value of the first.
fn show_plan(rt: &HostRuntime) -> Result<(), Failure> {
    let plan = read_arguments(rt, 3)?;
    print_line(b"words behind the command", plan.words_behind(0) as u64);
    for k in [0, 1, 2, 79, 80, 81, 91, 92, 102, 103] {
        word_line(&plan, k);
    }
    value_line(&plan, b"--13", Opt::As13);
    value_line(&plan, b"--out", Opt::Out);
    print_line(b"- at 96", u64::from(plan.has_dash(96)));
    Ok(())
}

// The eleven words, as a command.
fn show_save(rt: &HostRuntime) -> Result<(), Failure> {
    let save = read_arguments(rt, 97)?;
    for k in [0, 4, 5] {
        word_line(&save, k);
    }
    value_line(&save, b"--out", Opt::Out);
    value_line(&save, b"--limit", Opt::Limit);
    value_line(&save, b"--force", Opt::Force);
    Ok(())
}

// What a name or a path becomes in a text, and its end in another.
fn show_name(rt: &HostRuntime, text: &[u8], name: &[u8]) -> Result<(), Failure> {
    let mut whole = String::new(rt.alloc());
    shown(&mut whole, name, 1000000);
    let mut end = String::new(rt.alloc());
    shown_end(&mut end, name);
    print_line(text, whole.len() as u64);
    whole.push_str("\n")?;
    print(lists::part(whole.as_bytes(), whole.len().saturating_sub(9), 9));
    end.push_str("\n")?;
    print(end.as_bytes());
    Ok(())
}

fn show_names(rt: &HostRuntime) -> Result<(), Failure> {
    show_name(rt, b"a name", b"<\xE9\\\xC3\xA9>")?;
    let mut long = Vec::from_slice(rt.alloc(), &[0xE9; 5000])?;
    long.extend_from_slice(b"&end")?;
    show_name(rt, b"a name of 5004 bytes", long.as_slice())?;
    print(unescape(b"A\\x81\\\\").as_slice());
    print(b"\n");
    Ok(())
}

// A disk with an empty catalog.
fn empty_disk() -> [u8; 143360] {
    let mut bytes = disk();
    for (byte, v) in [(1, 17), (2, 15), (52, 35), (53, 16)] {
        poke(&mut bytes, place_16(17, 0, byte), v);
    }
    bytes
}

// The length of a text, and its last line.
fn text_lines(text: &[u8], drawn: &[u8]) {
    print_line(text, drawn.len() as u64);
    let before = lists::part(drawn, 0, drawn.len().saturating_sub(1));
    let from = before
        .iter()
        .rposition(|b| *b == b'\n')
        .map_or(0, |at| at.saturating_add(1));
    print(lists::part(drawn, from, drawn.len()));
}

// Layers that are longer than the room of a picture, and the arrows.
fn show_layers(rt: &HostRuntime, bytes: &[u8]) -> Result<(), Failure> {
    let uses = uses_of(bytes);
    let drawing = Drawing {
        disk: bytes,
        per: 255,
        uses: &uses,
        entries: &[],
    };
    let mut cells = String::new(rt.alloc());
    drawing.layer(&mut cells, Layer::Cells);
    drawing.layer(&mut cells, Layer::Cells);
    text_lines(b"cells of 255 sectors a track, twice", cells.as_bytes());
    let mut arrows = String::new(rt.alloc());
    draw_arrows(&mut arrows, bytes, 16);
    text_lines(b"arrows", arrows.as_bytes());
    Ok(())
}

// A whole picture, in a text and in room of its own.
fn show_picture(rt: &HostRuntime, bytes: &[u8]) -> Result<(), Failure> {
    let survey = files::survey(bytes).map_err(|_| Failure::Refused)?;
    let from = [b'/'; 5000];
    let mut text = String::new(rt.alloc());
    svg::draw(bytes, survey, &from, &mut text);
    let mut picture = Picture::new();
    svg::draw(bytes, survey, &from, &mut picture);
    text_lines(b"the picture", text.as_bytes());
    print_line(
        b"the same in its room",
        u64::from(text.as_bytes() == picture.as_bytes()),
    );
    picture.push_str("and behind it");
    let size = text.len();
    write!(picture, " {size}\n");
    text_lines(b"with what is put behind it", picture.as_bytes());
    Ok(())
}

fn failure_line(why: Failure) {
    match why {
        Failure::Refused => print(b"refused\n"),
        Failure::Trouble => print(b"trouble\n"),
        Failure::OutOfMemory => print(b"not enough memory\n"),
    }
}

fn show(rt: &HostRuntime) -> Result<(), Failure> {
    show_plan(rt)?;
    show_save(rt)?;
    show_names(rt)?;
    let bytes = empty_disk();
    show_layers(rt, &bytes)?;
    show_picture(rt, &bytes)
}

fn main(rt: HostRuntime) {
    if let Err(why) = show(&rt) {
        failure_line(why);
    }
    failure_line(Failure::from(AllocError));
    failure_line(Failure::from(AllocFailed { value: 1 }));
}
