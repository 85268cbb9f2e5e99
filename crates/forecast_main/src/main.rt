// Forecasts for trial disks, each held to the saves themselves: document 02, Req 11. Standard input is a script, a line of six bytes in hexadecimal for each step. The
// head of laying has the steps that lay the disks, 00 to 02, 15 and 23. There are 255 lengths at hand, numbered from 0. KK is an edition, 0D or 10, or 0F: the disk of
// 16 sectors a track without its last byte. AABBCCDD is a number, the high byte first; what is not named is 00:
//     20 NN                forecasts are of the first NN lengths
//     21 II AA BB CC DD    length II and all behind it are AABBCCDD
//     22 II AA BB CC DD    length II and all behind it keep their four low bytes and have AABBCCDD above them
//     24 KK NN             forecast, NN elements being lent
//     27 AA BB CC DD EE    print these letters
// A forecast shows its number, how many elements it hands over, and whether all others are as they were. If it is not refused, the sums follow, and the lengths with
// (21) behind those that are marked. Then the saves are made on a copy of the disk, in order, under new names; a length over 40,000 is taken as 21. Shown is what the
// disk is then, and "as saved" where each save ended in 21 if it is marked and else in 0, and the disk is clean and has by the sums more data sectors, lists and files.
#![tactic(auto)]

ghost use Rattle.std.specs.Prelude.{◌<◌};

use lists::{byte_at, copy_at, part};
use outcome::Refusal;
use showing::survey_of;
use trial::{filled, number, place_16, print, print_line, print_number, shown, sum_of};

// Element i, 0 past the end.
fn element(numbers: &[u64], i: usize) -> u64 {
    if i < numbers.len() { numbers[i] } else { 0 }
}

fn set_element(numbers: &mut [u64], i: usize, v: u64) {
    if i < numbers.len() {
        numbers[i] = v;
    }
}

// The lengths that are asked for: element 0 says how many, and they stand behind it.
fn asked(lengths: &[u64]) -> &[u64] {
    let n = element(lengths, 0) as usize;
    if n < lengths.len() {
        return &lengths[1..1 + n];
    }
    &lengths[0..0]
}

// The number of a step's last four bytes.
fn four(step: [u8; 6]) -> u64
    ensures { result < 4294967296 }
{
    65536 * (number(step[2], step[3]) as u64) + number(step[4], step[5]) as u64
}

// What a step makes of a length.
fn changed(length: u64, step: [u8; 6]) -> u64 {
    if step[0] == 0x22 {
        return 4294967296 * four(step) + length % 4294967296;
    }
    four(step)
}

// Length i, where it is one of the step's.
fn set_length(lengths: &mut [u64], i: u8, step: [u8; 6]) {
    if step[1] <= i {
        let at = 1 + i as usize;
        set_element(lengths, at, changed(element(lengths, at), step));
    }
}

fn set_lengths(lengths: &mut [u64], step: [u8; 6]) {
    for i in 0..255u8 {
        set_length(lengths, i, step);
    }
}

// Whether the elements from `first` on are as they were.
fn untouched_from(numbers: &[u64], first: usize) -> bool {
    for i in first..numbers.len() {
        if numbers[i] != 0x5555555555555555 {
            return false;
        }
    }
    true
}

// A save of k bytes under name i, or 21 by the rule.
fn save_one(disk: &mut [u8], i: u8, k: u64) -> Result<(), Refusal> {
    if 40000 < k {
        return Err(Refusal::NoSpace);
    }
    let name = [65, 48 + i % 64];
    let data: [u8; 40000] = filled(0x55);
    saving::save(disk, &name, 0x0803, part(&data, 0, k as usize))
}

// A save ended as it is marked.
fn as_marked(answer: Result<(), Refusal>, mark: u64) -> bool {
    match answer {
        Ok(()) => mark == 0,
        Err(Refusal::NoSpace) => mark == 1,
        Err(_) => false,
    }
}

// Save i, where there is one; whether it ended as it is marked.
fn save_next(disk: &mut [u8], lengths: &[u64], numbers: &[u64], i: u8) -> bool {
    let at = i as usize;
    if lengths.len() <= at {
        return true;
    }
    as_marked(
        save_one(disk, i, element(lengths, at)),
        element(numbers, 3 + at),
    )
}

// Makes the saves; whether each ended as it is marked.
fn save_all(disk: &mut [u8], lengths: &[u64], numbers: &[u64]) -> bool {
    let mut good = true;
    for i in 0..64u8 {
        let g = save_next(disk, lengths, numbers, i);
        good = good & g;
    }
    good
}

// How many sectors of a disk are held once, 0 of one that is refused.
fn held_once(disk: &[u8]) -> u64 {
    holders::holders(disk).map_or(0, |h| h.held_once as u64)
}

fn is_clean(disk: &[u8]) -> bool {
    holders::holders(disk).is_ok_and(|h| h.clean)
}

// How much more a is than b.
fn more(a: u64, b: u64) -> u64 {
    a.saturating_sub(b)
}

// Whether a disk that was `old` is clean and has the sums more: by its holders, its map, its links and its catalog.
fn as_counted(old: &[u8], new: &[u8], numbers: &[u64]) -> bool {
    let before = survey_of(old);
    let after = survey_of(new);
    let sectors = more(held_once(new), held_once(old));
    let lists = more(after.links, before.links);
    let files = more(after.entries as u64, before.entries as u64);
    is_clean(new)
        & (sectors == more(before.free as u64, after.free as u64))
        & (element(numbers, 0) == more(sectors, lists))
        & (element(numbers, 1) == lists)
        & (element(numbers, 2) == files)
}

fn show_disk(disk: &[u8]) {
    let v = survey_of(disk);
    print_number(b"  then free", v.free as u64);
    print_number(b", files", v.entries as u64);
    print_number(b", links", v.links);
    print_number(b", last track", byte_at(disk, place_16(17, 0, 48)) as u64);
    print_number(b", direction", byte_at(disk, place_16(17, 0, 49)) as u64);
    print_line(b", sum", sum_of(disk));
}

fn verdict(good: bool) {
    if good {
        print(b"  as saved\n");
        return;
    }
    print(b"  NOT AS SAVED\n");
}

// Makes the saves on a copy of the disk, and holds the forecast to them.
fn show_saved(disk: &[u8], lengths: &[u64], numbers: &[u64]) {
    let mut copy = trial::disk();
    copy_at(disk, &mut copy, 0);
    let marked = save_all(&mut copy, lengths, numbers);
    show_disk(&copy);
    verdict(marked & as_counted(disk, &copy, numbers));
}

// A mark behind its length.
fn show_mark(mark: u64) {
    match mark {
        0 => print(b""),
        1 => print(b" (21)"),
        _ => print(b" (no mark)"),
    }
}

// Length i and its mark, where there is one.
fn show_length(lengths: &[u64], numbers: &[u64], i: u8) {
    let at = i as usize;
    if at < lengths.len() {
        print_number(b"", element(lengths, at));
        show_mark(element(numbers, 3 + at));
    }
}

fn show_lengths(lengths: &[u64], numbers: &[u64]) {
    print(b"  lengths");
    for i in 0..64u8 {
        show_length(lengths, numbers, i);
    }
    print(b"\n");
}

fn show_sums(numbers: &[u64]) {
    print_number(b"  data", element(numbers, 0));
    print_number(b", lists", element(numbers, 1));
    print_line(b", lines", element(numbers, 2));
}

// A forecast, n of the elements being lent.
fn lend(disk: &[u8], lengths: &[u64], numbers: &mut [u64], n: usize) -> Result<usize, Refusal> {
    if n <= numbers.len() {
        return forecast::forecast(disk, lengths, &mut numbers[0..n]);
    }
    Ok(0)
}

fn show_forecast(disk: &[u8], lengths: &[u64], n: usize) {
    let mut numbers: [u64; 256] = filled(0x5555555555555555);
    let answer = lend(disk, lengths, &mut numbers, n);
    let length = shown(b"forecast: refusal", answer, 0);
    print_number(b"  length", length as u64);
    print_line(
        b", others as they were",
        untouched_from(&numbers, length) as u64,
    );
    if answer.is_ok() {
        show_sums(&numbers);
        show_lengths(lengths, &numbers);
        show_saved(disk, lengths, &numbers);
    }
}

// The disk of an edition, or that without its last byte.
fn lent_disk(disks: &[u8], edition: u8) -> &[u8] {
    if edition == 15 {
        return part(disks, 0, 143359);
    }
    laying::disk_of(disks, edition)
}

// The steps that show something.
fn show(disks: &[u8], lengths: &[u64], step: [u8; 6]) {
    match step[0] {
        0x24 => show_forecast(lent_disk(disks, step[1]), asked(lengths), step[2] as usize),
        0x27 => print(part(&step, 1, 5)),
        _ => print(b"no such step\n"),
    }
}

fn act(disks: &mut [u8], lengths: &mut [u64], step: [u8; 6]) {
    match step[0] {
        0..=2 | 0x15 | 0x23 => laying::change(disks, step),
        0x20 => set_element(lengths, 0, step[1] as u64),
        0x21..=0x22 => set_lengths(lengths, step),
        _ => show(disks, lengths, step),
    }
}

fn main() {
    let mut disks = laying::disks();
    let mut lengths: [u64; 256] = filled(0);
    for step in trial::script_steps() {
        act(&mut disks, &mut lengths, step);
    }
}
