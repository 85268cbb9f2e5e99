// Answers of the flat reader's calls on a small disk. Standard input is a script, a line of six bytes in hexadecimal for each step, on a disk of zeros; what is not named is 00.
// Space is lent of LLLL bytes, 4,096 at most, each of them 55h:
//     TT SS BB VV    with a track below F0h: put VV at byte BB of DOS sector SS of track TT
//     FF LL LL       show the catalog
//     FE LL LL NN    show the file of entry NN
//     FD LL LL NN    show the track/sector lists of entry NN
//     FC LL TT SS    show the pairs of the list at TT/SS, LL bytes being lent
//     FB LL LL NN    fetch the file whose name is the first NN bytes of track 0, sector 0
//     FA             show the survey
//     F9             show the survey of the disk without its last byte
//     F8 TT SS       show the answer for the list at TT/SS, and the run of four pairs, which goes in as 201/202 203/204 205/206 207/208
//     F7 TT SS       the same of the disk without its last byte
//     F6             a disk of zeros
#![tactic(auto)]

use disk::{Sector, Track};
use lists::part;
use outcome::Refusal;
use pairs::TrackSectorPair;
use trial::{STDOUT_FILENO, handed_line, number, print, print_decimals, print_line, print_number};

// The first 80 bytes that were handed over, and the byte behind all of them.
fn handed_lines(text: &[u8], answer: Result<usize, Refusal>, space: &[u8]) {
    if let Some(bytes) = trial::handed(text, answer, space) {
        print_decimals(part(bytes, 0, 80));
        trial::behind(answer, space);
    }
}

fn show_catalog(disk: &[u8], space: &mut [u8]) {
    let listing = catalog::parse_catalogs(disk, space);
    handed_lines(b"catalog: refusal", listing.map(|l| l.length), space);
    print_line(b"  pages", listing.map_or(0, |l| l.pages as u64));
}

fn show_file(disk: &[u8], space: &mut [u8], number: u8) {
    let answer = files::file(disk, number as u64, space);
    handed_lines(b"file: refusal", answer, space);
}

fn show_lists(disk: &[u8], space: &mut [u8], number: u8) {
    let answer = files::track_sector_lists(disk, number as u64, space);
    handed_lines(b"lists: refusal", answer, space);
}

fn show_pairs(disk: &[u8], space: &mut [u8], track: u8, sector: u8) {
    let answer = files::track_sector_pairs(disk, Track(track), Sector(sector), space);
    handed_lines(b"pairs: refusal", answer, space);
}

fn show_fetch(disk: &[u8], space: &mut [u8], length: u8) {
    let answer = files::fetch(disk, part(disk, 0, length as usize), space);
    handed_lines(b"fetch: refusal", answer, space);
}

fn show_survey(disk: &[u8]) {
    let s = showing::survey(disk);
    print_line(b"  volume", s.volume as u64);
    print_line(b"  entries", s.entries as u64);
    print_line(b"  free", s.free as u64);
    print_line(b"  used", s.used as u64);
    print_line(b"  percent used", s.percent_used as u64);
    print_line(b"  archive blocks", s.archive_blocks);
    print_line(b"  links", s.links);
}

fn print_pair(p: TrackSectorPair) {
    print_number(b"", p.track_number as u64);
    print(b"/");
    io::print_decimal(STDOUT_FILENO, p.sector_number as u64);
}

fn run_line(run: [TrackSectorPair; 4]) {
    print(b"  run");
    for pair in run {
        print_pair(pair);
    }
    print(b"\n");
}

fn pair_of(track: u8, sector: u8) -> TrackSectorPair {
    TrackSectorPair {
        track_number: track,
        sector_number: sector,
    }
}

fn known_run() -> [TrackSectorPair; 4] {
    [
        pair_of(201, 202),
        pair_of(203, 204),
        pair_of(205, 206),
        pair_of(207, 208),
    ]
}

fn show_run(disk: &[u8], track: u8, sector: u8) {
    let r = pairs::run_of_four(disk, track, sector, known_run());
    handed_line(b"pairs: refusal", r.answer);
    let run = r.pairs;
    run_line(run);
}

fn cut(disk: &[u8]) -> &[u8] {
    part(disk, 0, 143359)
}

// The steps that lend no space.
fn show_alone(disk: &[u8], step: [u8; 6]) {
    let command = step[0];
    match command {
        0xFA => show_survey(disk),
        0xF9 => show_survey(cut(disk)),
        0xF8 => show_run(disk, step[1], step[2]),
        0xF7 => show_run(cut(disk), step[1], step[2]),
        _ => print(b"no such step\n"),
    }
}

fn show(disk: &[u8], space: &mut [u8], step: [u8; 6]) {
    let command = step[0];
    match command {
        0xFF => show_catalog(disk, space),
        0xFE => show_file(disk, space, step[3]),
        0xFD => show_lists(disk, space, step[3]),
        0xFC => show_pairs(disk, space, step[2], step[3]),
        _ => show_fetch(disk, space, step[3]),
    }
}

fn show_lent(disk: &[u8], step: [u8; 6], size: usize) {
    let mut space = trial::space();
    if size <= space.len() {
        show(disk, &mut space[0..size], step);
    }
}

fn act(disk: &mut [u8], step: [u8; 6]) {
    let command = step[0];
    match command {
        0xFD..=0xFF | 0xFB => show_lent(disk, step, number(step[1], step[2])),
        0xFC => show_lent(disk, step, number(0, step[1])),
        0xF6 => lists::fill_at(disk, 0, 143360, 0),
        0xF0..=0xFA => show_alone(disk, step),
        _ => trial::poke(disk, trial::place_16(step[0], step[1], step[2]), step[3]),
    }
}

fn main() {
    let mut disk = trial::disk();
    for step in trial::script_steps() {
        act(&mut disk, step);
    }
}
