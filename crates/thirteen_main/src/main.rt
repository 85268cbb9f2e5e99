// Answers of the calls on disks of both editions: of 13 sectors a track (document 02, Req 12), with lists of 121 and 122 pairs (Req 05), with the catalog on any
// track (Req 08), with names that show alike (Req 07) and with the percent used at a half (Req 04). Standard input is a script, a line of six bytes in hexadecimal for
// each step. The head of laying has the steps that lay the disks, 00 to 02, 15 and 23. There is an archive at hand that is empty at first. KK is an edition, 0D or 10; what is not named is 00:
//     0D KK          show the VTOC
//     0E KK          show the survey
//     0F KK TT SS    show the window
//     10 KK TT SS    show the pairs of a list
//     11 KK          show the catalog, and the bytes of entry 0 and of the last entry named A
//     13 KK          write the archive of the disk; if it is not refused, it is the archive at hand
//     14 KK          check the archive at hand
#![tactic(auto)]

use disk::{Sector, Track};
use files::PAIR_BYTES;
use trial::{
    bytes_line, filled, handed_line, print, print_line, print_number, refusal_line, shown, sum_of,
};

// The bytes of an archive of 256 blocks.
const ARCHIVE: usize = 65536;

fn show_vtoc(disk: &[u8]) {
    let v = showing::table(b"VTOC: refusal", disk);
    print_number(b"  tracks", v.number_of_tracks_per_diskette as u64);
    print_number(b", sectors", v.number_of_sectors_per_track as u64);
    print_number(b", free", v.free as u64);
    print_number(b", used", v.used as u64);
    print_line(b", percent", v.percent_used as u64);
}

fn show_survey(disk: &[u8]) {
    let s = showing::survey(disk);
    print_number(b"  volume", s.volume as u64);
    print_number(b", entries", s.entries as u64);
    print_number(b", free", s.free as u64);
    print_number(b", used", s.used as u64);
    print_number(b", percent", s.percent_used as u64);
    print_number(b", blocks", s.archive_blocks);
    print_line(b", links", s.links);
}

fn show_window(disk: &[u8], track: u8, sector: u8) {
    let window = disk::window(disk, disk, true, Track(track), Sector(sector));
    let bytes = shown(b"window: refusal", window, b"");
    print_number(b"  length", bytes.len() as u64);
    print_line(b", sum", sum_of(bytes));
}

fn show_pairs(disk: &[u8], track: u8, sector: u8) {
    let mut out = [0u8; PAIR_BYTES];
    let answer = files::track_sector_pairs(disk, Track(track), Sector(sector), &mut out);
    handed_line(b"pairs: refusal", answer);
    bytes_line(answer, &out);
}

fn entry_files(disk: &[u8]) {
    let mut out: [u8; 66000] = filled(0);
    let first = files::file(disk, 0, &mut out);
    handed_line(b"entry 0: refusal", first);
    bytes_line(first, &out);
    let named = files::fetch(disk, b"A", &mut out);
    handed_line(b"file A: refusal", named);
    bytes_line(named, &out);
}

fn show_files(disk: &[u8]) {
    let mut out: [u8; 8192] = filled(0);
    let listing = catalog::parse_catalogs(disk, &mut out);
    let answer = listing.map(|l| l.length);
    handed_line(b"catalog: refusal", answer);
    bytes_line(answer, &out);
    print_line(b"  pages", listing.map_or(0, |l| l.pages as u64));
    entry_files(disk);
}

// The length of the archive at hand afterwards, `size` being the length before.
fn show_archive(disk: &[u8], hand: &mut [u8], size: usize) -> usize {
    let mut space: [u8; ARCHIVE] = filled(0);
    let answer = writer::write_archive(disk, &mut space);
    handed_line(b"archive: refusal", answer);
    let Ok(length) = answer else {
        return size;
    };
    bytes_line(answer, &space);
    lists::copy_at(lists::part(&space, 0, length), hand, 0);
    length
}

fn show_checked(disk: &[u8], archive: &[u8]) {
    refusal_line(b"check: refusal", &writer::check_archive(disk, archive));
}

// The steps that show an answer: how long the archive at hand is afterwards.
fn show(disk: &[u8], hand: &mut [u8], size: usize, step: [u8; 6]) -> usize {
    match step[0] {
        13 => show_vtoc(disk),
        14 => show_survey(disk),
        15 => show_window(disk, step[2], step[3]),
        16 => show_pairs(disk, step[2], step[3]),
        17 => show_files(disk),
        19 => {
            return show_archive(disk, hand, size);
        },
        20 => show_checked(disk, lists::part(hand, 0, size)),
        _ => print(b"no such step\n"),
    }
    size
}

fn act(disks: &mut [u8], hand: &mut [u8], size: usize, step: [u8; 6]) -> usize {
    match step[0] {
        0..=2 | 0x15 | 0x23 => laying::change(disks, step),
        _ => {
            return show(laying::disk_of(disks, step[1]), hand, size, step);
        },
    }
    size
}

fn main() {
    let mut disks = laying::disks();
    let mut hand: [u8; ARCHIVE] = filled(0);
    let mut size: usize = 0;
    for step in trial::script_steps() {
        size = act(&mut disks, &mut hand, size, step);
    }
}
