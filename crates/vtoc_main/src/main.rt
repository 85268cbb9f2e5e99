// Answers of the disk layer on a small disk. Standard input is a script, a line of six bytes in hexadecimal for each step, on a disk of zeros; what is not named is 00:
//     TT SS BB VV    with a track below FCh: put VV at byte BB of DOS sector SS of track TT
//     FF             show the volume table of contents, and how many pages the catalog has
//     FE TT SS       show the window on DOS sector SS of track TT of the flat disk
//     FD TT SS       the same, the disk being taken for the unrolled image of a stream
//     FC             show the table of the disk without its last byte
#![tactic(auto)]

use disk::{Sector, Track, VolumeTableOfContents};
use trial::{print, print_line, shown};

fn byte_line(text: &[u8], n: u8) {
    print_line(text, n as u64);
}

fn direction_line(n: i8) {
    match n {
        1 => print(b"direction 1\n"),
        -1 => print(b"direction -1\n"),
        0 => print(b"direction 0\n"),
        _ => print(b"direction neither 1, -1 nor 0\n"),
    }
}

fn front(t: VolumeTableOfContents) {
    byte_line(
        b"first catalog track",
        t.track_number_of_first_catalog_sector,
    );
    byte_line(
        b"first catalog sector",
        t.sector_number_of_first_catalog_sector,
    );
    byte_line(b"release", t.release_number_of_dos);
    byte_line(b"volume", t.diskette_volume_number);
    byte_line(b"pair maximum", t.maximum_number_of_track_sector_pairs);
    byte_line(b"last track", t.last_track_where_sectors_were_allocated);
}

fn back(t: VolumeTableOfContents) {
    direction_line(t.direction_of_track_allocation);
    byte_line(b"tracks", t.number_of_tracks_per_diskette);
    byte_line(b"sectors", t.number_of_sectors_per_track);
    print_line(b"sector size", t.number_of_bytes_per_sector as u64);
    print_line(b"free", t.free as u64);
    print_line(b"used", t.used as u64);
    print_line(b"percent used", t.percent_used as u64);
}

fn show_table(disk: &[u8]) {
    let t = showing::table(b"table: refusal", disk);
    front(t);
    back(t);
    let pages = catalog::count_pages(disk).map(|p| p.count as u64);
    print_line(b"pages", shown(b"catalog: refusal", pages, 0));
}

fn show_window<'a>(disk: &'a [u8], image: &'a [u8], flat: bool, track: u8, sector: u8) {
    let window = disk::window(disk, image, flat, Track(track), Sector(sector));
    let part = shown(b"window: refusal", window, b"");
    print_line(b"length", part.len() as u64);
    byte_line(b"first byte", lists::byte_at(part, 0));
    byte_line(b"last byte", lists::byte_at(part, 255));
}

fn act(disk: &mut [u8], step: [u8; 6]) {
    let command = step[0];
    match command {
        0xFF => show_table(disk),
        0xFE => show_window(disk, b"", true, step[1], step[2]),
        0xFD => show_window(b"", disk, false, step[1], step[2]),
        0xFC => show_table(lists::part(disk, 0, 143359)),
        _ => trial::poke(disk, trial::place_16(step[0], step[1], step[2]), step[3]),
    }
}

fn main() {
    let mut disk = trial::disk();
    for step in trial::script_steps() {
        act(&mut disk, step);
    }
}
