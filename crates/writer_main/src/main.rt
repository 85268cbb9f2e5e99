// Answers of the archive's writer and checker on a small disk. Standard input is a script, a line of six bytes in hexadecimal for each step, on a disk of zeros;
// what is not named is 00.
// The archive at hand is empty at first. LLLL is a number of blocks of 256 bytes, 4,097 at most, high byte first:
//     TT SS BB VV    with a track below F0h: put VV at byte BB of DOS sector SS of track TT
//     FF LL LL MM    write the archive into LLLL blocks less MM bytes, each of them 55h; if it is not refused, it is the archive at hand
//     FE             check the archive at hand
//     FD NN BB VV    put VV at byte BB of block NN of the archive at hand
//     FC LL LL MM    the archive at hand gets the length of LLLL blocks less MM bytes
//     FB LL LL       show block LLLL of the archive at hand
//     FA             show the survey
//     F9 TT SS VV    put VV at every byte of the sector
//     F8 TT SS VV    put VV, VV + 1, VV + 2 and so on at the bytes of the sector
//     F7             a disk of zeros
#![tactic(auto)]

use lists::part;
use outcome::Refusal;
use trial::{
    filled, handed_line, length_of, place_16, poke, print, print_line, refusal_line, untouched,
};

// The bytes of 4,097 blocks.
const ROOM: usize = 1048832;

fn bytes_line(bytes: &[u8]) {
    print(b"  bytes");
    trial::print_decimals(bytes);
    print(b"\n");
}

// The first 72 bytes of a block: all fields of an entry block.
fn block_line(bytes: &[u8], block: u8) {
    let at = 256 * (block as usize);
    if at < bytes.len() {
        bytes_line(part(bytes, at, 72));
    }
}

// The first 5 blocks.
fn block_lines(bytes: &[u8]) {
    for block in 0..5u8 {
        block_line(bytes, block);
    }
}

fn behind_lines(bytes: &[u8]) {
    print_line(b"  bytes behind it", bytes.len() as u64);
    if untouched(bytes) {
        print(b"  unchanged\n");
    } else {
        print(b"  changed\n");
    }
}

fn handed_lines(answer: Result<usize, Refusal>, space: &[u8]) {
    handed_line(b"write: refusal", answer);
    if untouched(space) {
        print(b"  nothing changed\n");
        return;
    }
    let length = length_of(answer);
    let written = part(space, 0, length);
    block_lines(written);
    print_line(b"  sum", trial::sum_of(written));
    behind_lines(part(space, length, space.len()));
}

// The length of the archive at hand afterwards, `size` being the length before.
fn keep(disk: &[u8], space: &mut [u8], hand: &mut [u8], size: usize) -> usize {
    let answer = writer::write_archive(disk, space);
    handed_lines(answer, space);
    let Ok(length) = answer else {
        return size;
    };
    lists::copy_at(part(space, 0, length), hand, 0);
    length
}

fn keep_in(disk: &[u8], space: &mut [u8], hand: &mut [u8], size: usize, room: usize) -> usize {
    if room <= space.len() {
        return keep(disk, &mut space[0..room], hand, size);
    }
    print(b"no such step\n");
    size
}

fn show_written(disk: &[u8], hand: &mut [u8], size: usize, room: usize) -> usize {
    let mut space: [u8; ROOM] = filled(0x55);
    keep_in(disk, &mut space, hand, size, room)
}

fn show_checked(disk: &[u8], archive: &[u8]) {
    refusal_line(b"check: refusal", &writer::check_archive(disk, archive));
}

fn show_survey(disk: &[u8]) {
    let s = showing::survey(disk);
    print_line(b"  entries", s.entries as u64);
    print_line(b"  archive blocks", s.archive_blocks);
}

fn clear(disk: &mut [u8]) {
    let size = disk.len();
    lists::fill_at(disk, 0, size, 0);
}

// The steps that change the disk.
fn change(disk: &mut [u8], step: [u8; 6]) {
    let command = step[0];
    let at = place_16(step[1], step[2], 0);
    match command {
        0xF9 => lists::fill_at(disk, at, 256, step[3]),
        0xF8 => trial::put_ramp(disk, at, step[3]),
        0xF7 => clear(disk),
        _ => poke(disk, place_16(step[0], step[1], step[2]), step[3]),
    }
}

// So many blocks less so many bytes.
fn room_of(step: [u8; 6]) -> usize {
    let room = 256 * trial::number(step[1], step[2]);
    room.saturating_sub(step[3] as usize)
}

fn act(disk: &mut [u8], hand: &mut [u8], size: usize, step: [u8; 6]) -> usize {
    let command = step[0];
    let room = room_of(step);
    match command {
        0xFF => {
            return show_written(disk, hand, size, room);
        },
        0xFE => show_checked(disk, part(hand, 0, size)),
        0xFD => poke(hand, trial::number(step[1], step[2]), step[3]),
        0xFC => {
            return room;
        },
        0xFB => bytes_line(part(part(hand, 0, size), room, 256)),
        0xFA => show_survey(disk),
        _ => change(disk, step),
    }
    size
}

fn main() {
    let mut disk = trial::disk();
    let mut hand: [u8; ROOM] = filled(0);
    let mut size: usize = 0;
    for step in trial::script_steps() {
        size = act(&mut disk, &mut hand, size, step);
    }
}
