// Saves and deletes on trial disks: document 02, Req 09 and 10. Standard input is a script, a line of six bytes in hexadecimal for each step. The head of laying has the
// steps that lay the disks, 00 to 02, 15 and 23. There are a name of 63 bytes at most and 40,000 bytes of data at hand. KK is an edition, 0D or 10, or 0F: the disk of 16
// sectors a track without its last byte. AABB and NNNN are numbers, the high byte first; what is not named is 00:
//     20 NN VV             the name has NN bytes, each of them VV
//     21 II AA BB CC DD    put AA, BB, CC, DD at bytes II, II + 1, II + 2, II + 3 of the name
//     22 VV AA BB          the data are VV, VV + AA, VV + 2 AA and so on, at each 256th byte BB more
//     24 KK AA BB NN NN    save the first NNNN bytes of the data under the name, AABB being their load address
//     25 KK 00 00 NN NN    delete the name; the file that is left under it, if any, is held to the first NNNN bytes of the data
//     26 LL DD AA BB       for each track: on a copy of the disk whose last track is LL, whose direction is DD and where map bytes 0 and 1 of the track are AA, BB, save a
//                          file without bytes. Shown is "+" or "-" where the last track is then that track, ">" or "<" where it is another, by the direction; "." for 21
//                          and "!" for another refusal
//     27 AA BB CC DD EE    print these letters, but no 00
//     28 SS AA BB          who asks in the steps 24 and 25 from here on: SS 01 our side, 02 the survey office, with the limit AABB; 81 and 82 the same, with the limit
//                          2^64 - 1; 00 no side, as at the start. A step 26 asks for no side
// A save or delete shows its number and the sectors that changed: up to 48 bytes that differ, or else how many and the sum of all. If it is not refused, bytes 48 and 49 of
// the VTOC, whether the disk is clean, and the file of that name follow. Where a side asked and the number is not 1 to 6, it is shown last how many sectors each side holds.
#![tactic(auto)]

use lists::{byte_at, copy_at, fill_at, part, same};
use outcome::Refusal;
use sides::{Side, count_held};
use trial::{
    filled, number, place_16, poke, print, print_hex, print_line, print_number, refusal_line,
    shown, sum_of,
};

// The bytes of the longest data.
const LONGEST: usize = 40000;

// The side that asks, with its limit.
#[derive(Clone, Copy)]
struct Asker {
    side: Side,
    limit: u64,
}

// The name at hand: its length, and its bytes.
fn asked(name: &[u8]) -> &[u8] {
    part(name, 1, byte_at(name, 0) as usize)
}

fn set_name(name: &mut [u8], length: u8, v: u8) {
    fill_at(name, 0, 64, v);
    poke(name, 0, length % 64);
}

fn put_name(name: &mut [u8], step: [u8; 6]) {
    let at = number(0, step[1]);
    poke(name, at + 1, step[2]);
    poke(name, at + 2, step[3]);
    poke(name, at + 3, step[4]);
    poke(name, at + 4, step[5]);
}

// The sum of two bytes without its carry.
fn summed(x: u8, y: u8) -> u8 {
    ((x as u16 + y as u16) % 256) as u8
}

// The byte behind byte k of the data.
fn next_byte(v: u8, a: u8, b: u8, k: u16) -> u8 {
    if k % 256 == 255 {
        return summed(summed(v, a), b);
    }
    summed(v, a)
}

fn fill_data(data: &mut [u8], first: u8, a: u8, b: u8) {
    let mut v = first;
    for k in 0..40000u16 {
        poke(data, k as usize, v);
        v = next_byte(v, a, b, k);
    }
}

// How many bytes of two sectors differ.
fn differing(old: &[u8], new: &[u8]) -> u64 {
    let mut n: u64 = 0;
    for i in 0..256u16 {
        if byte_at(old, i as usize) != byte_at(new, i as usize) {
            n = n % 256 + 1;
        }
    }
    n
}

// Byte i, which differs; its number stands before the first of a run.
fn show_byte(new: &[u8], i: u16, run: bool) {
    if !run {
        print_number(b" at", i as u64);
        print(b":");
    }
    print_hex(&[byte_at(new, i as usize)]);
}

fn show_bytes(old: &[u8], new: &[u8]) {
    let mut run = false;
    for i in 0..256u16 {
        let changed = byte_at(old, i as usize) != byte_at(new, i as usize);
        if changed {
            show_byte(new, i, run);
        }
        run = changed;
    }
}

// Sector number k of the disk, where it changed.
fn show_sector(old: &[u8], new: &[u8], k: u16) {
    if same(old, new) {
        return;
    }
    print_number(b"  track", (k / 16) as u64);
    print_number(b", sector", (k % 16) as u64);
    print(b":");
    let n = differing(old, new);
    if n > 48 {
        print_number(b"", n);
        print_number(b" bytes, sum", sum_of(new));
    } else {
        show_bytes(old, new);
    }
    print(b"\n");
}

fn show_sectors(old: &[u8], new: &[u8]) {
    for k in 0..560u16 {
        let at = 256 * (k as usize);
        show_sector(part(old, at, 256), part(new, at, 256), k);
    }
}

fn show_changes(old: &[u8], new: &[u8]) {
    if same(old, new) {
        print(b"  nothing changed\n");
        return;
    }
    show_sectors(old, new);
}

fn show_file(disk: &[u8], name: &[u8], data: &[u8]) {
    let mut out: [u8; LONGEST] = filled(0);
    let answer = files::fetch(disk, name, &mut out);
    let n = shown(b"  file: refusal", answer, 0);
    print_number(b"  length", n as u64);
    print_line(b", as saved", same(part(&out, 0, n), data) as u64);
}

fn is_clean(disk: &[u8]) -> bool {
    holders::holders(disk).is_ok_and(|h| h.clean)
}

fn show_state(disk: &[u8], name: &[u8], data: &[u8]) {
    print_number(b"  last track", byte_at(disk, place_16(17, 0, 48)) as u64);
    print_line(b", direction", byte_at(disk, place_16(17, 0, 49)) as u64);
    print_line(b"  clean", is_clean(disk) as u64);
    show_file(disk, name, data);
}

fn save(
    disk: &mut [u8],
    name: &[u8],
    data: &[u8],
    who: Option<Asker>,
    address: u16,
) -> Result<(), Refusal> {
    match who {
        Some(a) => saving::save_for(disk, a.side, a.limit, name, address, data),
        None => saving::save(disk, name, address, data),
    }
}

fn delete(disk: &mut [u8], name: &[u8], who: Option<Asker>) -> Result<(), Refusal> {
    match who {
        Some(a) => saving::delete_for(disk, a.side, a.limit, name),
        None => saving::delete(disk, name),
    }
}

// A save, or a delete: its answer.
fn amend(
    disk: &mut [u8],
    name: &[u8],
    data: &[u8],
    who: Option<Asker>,
    step: [u8; 6],
) -> Result<(), Refusal> {
    if step[0] == 0x24 {
        let answer = save(disk, name, data, who, number(step[2], step[3]) as u16);
        refusal_line(b"save: refusal", &answer);
        return answer;
    }
    let answer = delete(disk, name, who);
    refusal_line(b"delete: refusal", &answer);
    answer
}

// The disk was refused as 1 to 6.
fn not_read(answer: Result<(), Refusal>) -> bool {
    match answer {
        Err(
            Refusal::OffSize
            | Refusal::NoTable
            | Refusal::OffDisc
            | Refusal::Ring
            | Refusal::CutLink
            | Refusal::BadLetter,
        ) => true,
        _ => false,
    }
}

// What each side holds, where a side asked and the disk was read.
fn show_sides(disk: &[u8], who: Option<Asker>, answer: Result<(), Refusal>) {
    if who.is_none() || not_read(answer) {
        return;
    }
    print_number(b"  sectors of ours", count_held(disk, 16, Side::Ours));
    print_line(
        b", of the survey office",
        count_held(disk, 16, Side::Survey),
    );
}

fn show_amended(disk: &mut [u8], name: &[u8], data: &[u8], who: Option<Asker>, step: [u8; 6]) {
    let mut old = trial::disk();
    copy_at(disk, &mut old, 0);
    let answer = amend(disk, name, data, who, step);
    show_changes(part(&old, 0, disk.len()), disk);
    if answer.is_ok() {
        show_state(disk, name, data);
    }
    show_sides(disk, who, answer);
}

// On the disk of 16 sectors a track.
fn show_whole(disks: &mut [u8], name: &[u8], data: &[u8], who: Option<Asker>, step: [u8; 6]) {
    let mut copy = trial::disk();
    copy_at(part(disks, 0, 143360), &mut copy, 0);
    show_amended(&mut copy, name, data, who, step);
    copy_at(&copy, disks, 0);
}

// How many bytes are lent of a disk of another size.
fn lent_size(edition: u8) -> usize {
    if edition == 13 { 116480 } else { 143359 }
}

// On a disk of another size; what becomes of it is only shown.
fn show_front(disks: &[u8], name: &[u8], data: &[u8], who: Option<Asker>, step: [u8; 6]) {
    let mut copy = trial::disk();
    copy_at(laying::disk_of(disks, step[1]), &mut copy, 0);
    let size = lent_size(step[1]);
    if size <= copy.len() {
        show_amended(&mut copy[0..size], name, data, who, step);
    }
}

fn show_lent(disks: &mut [u8], name: &[u8], data: &[u8], who: Option<Asker>, step: [u8; 6]) {
    let bytes = part(data, 0, number(step[4], step[5]));
    if step[1] == 16 {
        show_whole(disks, name, bytes, who, step);
        return;
    }
    show_front(disks, name, bytes, who, step);
}

// The sign of a direction, as a step 26 shows it.
fn sign(direction: u8, plus: &[u8], minus: &[u8]) {
    if direction == 1 {
        print(plus);
        return;
    }
    print(minus);
}

fn show_found(disk: &[u8], track: u8) {
    let direction = byte_at(disk, place_16(17, 0, 49));
    if byte_at(disk, place_16(17, 0, 48)) == track {
        sign(direction, b"+", b"-");
        return;
    }
    sign(direction, b">", b"<");
}

// A save without bytes on a copy of the disk, the track having the step's map.
fn try_track(disk: &[u8], name: &[u8], step: [u8; 6], track: u8) {
    let mut copy = trial::disk();
    copy_at(part(disk, 0, 143360), &mut copy, 0);
    poke(&mut copy, place_16(17, 0, 48), step[1]);
    poke(&mut copy, place_16(17, 0, 49), step[2]);
    laying::put_map(&mut copy, track, step[3], step[4]);
    match saving::save(&mut copy, name, 0, b"") {
        Ok(()) => show_found(&copy, track),
        Err(Refusal::NoSpace) => print(b"."),
        Err(_) => print(b"!"),
    }
}

fn try_tracks(disk: &[u8], name: &[u8], step: [u8; 6]) {
    print_number(b"last track", step[1] as u64);
    print_number(b", direction", step[2] as u64);
    print(b": ");
    for t in 0..35u8 {
        try_track(disk, name, step, t);
    }
    print(b"\n");
}

fn letter(c: u8) {
    if c != 0 {
        print(&[c]);
    }
}

fn letters(step: [u8; 6]) {
    letter(step[1]);
    letter(step[2]);
    letter(step[3]);
    letter(step[4]);
    letter(step[5]);
}

// The steps that show something.
fn show(disks: &mut [u8], name: &[u8], data: &[u8], who: Option<Asker>, step: [u8; 6]) {
    match step[0] {
        0x24..=0x25 => show_lent(disks, asked(name), data, who, step),
        0x26 => try_tracks(disks, asked(name), step),
        0x27 => letters(step),
        _ => print(b"no such step\n"),
    }
}

fn act(disks: &mut [u8], name: &mut [u8], data: &mut [u8], who: Option<Asker>, step: [u8; 6]) {
    match step[0] {
        0..=2 | 0x15 | 0x23 => laying::change(disks, step),
        0x20 => set_name(name, step[1], step[2]),
        0x21 => put_name(name, step),
        0x22 => fill_data(data, step[1], step[2], step[3]),
        0x28 => (),
        _ => show(disks, name, data, who, step),
    }
}

fn side_of(number: u8) -> Side {
    if number % 2 == 0 {
        Side::Survey
    } else {
        Side::Ours
    }
}

fn limit_of(step: [u8; 6]) -> u64 {
    if 0x80 <= step[1] {
        return u64::MAX;
    }
    number(step[2], step[3]) as u64
}

// Who asks after a step.
fn who_asks(who: Option<Asker>, step: [u8; 6]) -> Option<Asker> {
    if step[0] != 0x28 {
        return who;
    }
    if step[1] == 0 {
        return None;
    }
    Some(Asker {
        side: side_of(step[1]),
        limit: limit_of(step),
    })
}

fn main() {
    let mut disks = laying::disks();
    let mut name: [u8; 64] = filled(0);
    let mut data: [u8; LONGEST] = filled(0);
    let mut who: Option<Asker> = None;
    for step in trial::script_steps() {
        who = who_asks(who, step);
        act(&mut disks, &mut name, &mut data, who, step);
    }
}
