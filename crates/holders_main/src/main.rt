// Answers on the holders of trial disks of both editions: document 02, Req 06. Standard input is a script, a line of six bytes in hexadecimal for each step. The head
// of laying has the steps that lay the disks, 00 to 02 and 15. KK is an edition, 0D or 10; AABB is a number, the high byte first; what is not named is 00:
//     16 KK          show the numbers of the disk's holders
//     17 KK AA BB    those of its first AABB sectors, taken for a disk
//     18 KK TT SS    show whether the map calls the sector free
#![tactic(auto)]

use disk::{Place, Sector, Track};
use holders::HolderCounts;
use trial::{number, print, print_line, print_number, shown};

// What is shown under a refusal.
const NO_COUNTS: HolderCounts = HolderCounts {
    unheld: 0,
    held_once: 0,
    shared: 0,
    held_free: 0,
    clean: false,
};

fn show_holders(disk: &[u8]) {
    let h = shown(b"holders: refusal", holders::holders(disk), NO_COUNTS);
    print_number(b"  unheld", h.unheld as u64);
    print_number(b", once", h.held_once as u64);
    print_number(b", shared", h.shared as u64);
    print_number(b", free", h.held_free as u64);
    print_line(b", clean", h.clean as u64);
}

fn show_free(disk: &[u8], track: u8, sector: u8) {
    let p = Place {
        track: Track(track),
        sector: Sector(sector),
    };
    let free = holders::is_free(disk, disk::sectors_of(disk), p);
    print_number(b"free: track", track as u64);
    print_number(b", sector", sector as u64);
    print_line(b":", free as u64);
}

fn show(disk: &[u8], step: [u8; 6]) {
    match step[0] {
        0x16 => show_holders(disk),
        0x17 => show_holders(lists::part(disk, 0, 256 * number(step[2], step[3]))),
        0x18 => show_free(disk, step[2], step[3]),
        _ => print(b"no such step\n"),
    }
}

fn act(disks: &mut [u8], step: [u8; 6]) {
    match step[0] {
        0..=2 | 0x15 => laying::change(disks, step),
        _ => show(laying::disk_of(disks, step[1]), step),
    }
}

fn main() {
    let mut disks = laying::disks();
    for step in trial::script_steps() {
        act(&mut disks, step);
    }
}
