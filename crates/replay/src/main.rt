// image-rider's recorded answers on flat disks, asked of our libraries again. Standard input is the script that image-rider was asked, and `stdout` is what it answered;
// README.md says how the two were made. The head of crates/recorded has the steps that lay the input. There is a space to put bytes in, and one step asks:
//     L 000000    load the input as a flat disk: its number, table and entries, and for each entry the bytes of its name
#![tactic(auto)]

use disk::VolumeTableOfContents;
use lists::{byte_at, part};
use outcome::Refusal;
use recorded::{answer_line, asks, entry_lines, lay, name_of, number_of};
use trial::{print, print_decimals, print_hex, print_line};

// The direction as the byte of the disk; 128 for what is none.
fn direction_byte(n: i8) -> u8 {
    match n {
        1 => 1,
        0 => 0,
        -1 => 255,
        _ => 128,
    }
}

fn table_line(t: VolumeTableOfContents) {
    print(b"vtoc");
    print_decimals(&[
        t.track_number_of_first_catalog_sector,
        t.sector_number_of_first_catalog_sector,
        t.release_number_of_dos,
        t.diskette_volume_number,
        t.maximum_number_of_track_sector_pairs,
        t.last_track_where_sectors_were_allocated,
        direction_byte(t.direction_of_track_allocation),
        t.number_of_tracks_per_diskette,
        t.number_of_sectors_per_track,
    ]);
    print_line(b"", t.number_of_bytes_per_sector as u64);
}

fn file_lines(disk: &[u8], entry: &[u8], space: &mut [u8]) {
    if entry.len() < 37 {
        return;
    }
    let name = name_of(entry);
    print(b"file");
    print_hex(name);
    print(b"\n");
    let answer = files::fetch(disk, name, space);
    answer_line(answer, space);
}

fn all_file_lines(disk: &[u8], entries: &[u8], space: &mut [u8]) {
    for i in 0..1000u16 {
        file_lines(disk, part(entries, 37 * i as usize, 37), space);
    }
}

// The table of a disk whose first file can be read.
fn load(disk: &[u8], space: &mut [u8]) -> Result<VolumeTableOfContents, Refusal> {
    files::file(disk, 0, space)?;
    disk::parse_volume_table_of_contents(disk)
}

fn listing_lines(disk: &[u8], entries: &mut [u8], space: &mut [u8]) {
    if let Ok(listing) = catalog::parse_catalogs(disk, entries) {
        let found = part(entries, 0, listing.length);
        entry_lines(found);
        all_file_lines(disk, found, space);
    }
}

fn show_load(disk: &[u8], entries: &mut [u8], space: &mut [u8]) {
    let answer = load(disk, space);
    print_line(b"load", number_of(&answer));
    if let Ok(table) = answer {
        table_line(table);
        listing_lines(disk, entries, space);
    }
}

// How many bytes are in use after a step, `used` being those before it.
fn act(line: &[u8], input: &mut [u8], used: usize, entries: &mut [u8], space: &mut [u8]) -> usize {
    if byte_at(line, 0) == b'L' {
        show_load(part(input, 0, used), entries, space);
        return used;
    }
    if asks(line) {
        print(b"no such step\n");
    }
    lay(line, input, used)
}

fn main() {
    let mut input = trial::disk();
    // Space for 1,000 entries.
    let mut entries: [u8; 37000] = trial::filled(0);
    let mut space = trial::disk();
    let mut used: usize = 0;
    let mut script = io::large_buffer();
    for line in recorded::script_lines(&mut script) {
        used = act(line, &mut input, used, &mut entries, &mut space);
    }
}
