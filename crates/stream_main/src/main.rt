// Answers of the calls on nibble streams of both editions. Standard input is a script, a line of six bytes in hexadecimal for each step. The head of laying has the
// steps that lay disks and the stream, 00 to 08 and 15. KK is an edition, 0D or 10; NNNN and AABBDD are numbers, the high byte first; what is not named is 00:
//     09 KK NN NN          show what denibblize answers, with space of the disk's size less NNNN bytes, each 55h, and what it leaves
//     0A KK VV TT SS       show the sector of that address in the stream
//     0B KK AA BB DD       show the first pair of fields from place AABBDD on
//     0C                   show the prologue that is recognized
//     12 KK                show what nibblize answers; if it is not refused, it is the stream
//     16 NN NN JJ JJ       copy the 416 bytes of block NNNN of the stream over block JJJJ
//     17 SS SS GG NN NN    of a stream that nibblize wrote, the 560 sector writings in an order drawn from SSSS, NNNN of them again, 560 at most, with gaps of 0 to GG bytes
#![tactic(auto)]

mod duplicator;

ghost use Rattle.std.specs.Prelude.{◌<◌};

use fields::{Edition, FieldPair};
use laying::disk_of;
use lists::{copy_at, part};
use outcome::Refusal;
use trial::{
    bytes_line, filled, handed_line, length_of, number, place, print, print_line, print_number,
    shown, sum_of, untouched,
};

fn left_line(disk: &[u8], space: &[u8], length: usize) {
    if untouched(space) {
        print(b"  nothing changed\n");
        return;
    }
    if !untouched(part(space, length, space.len())) {
        print(b"  more than its length changed\n");
        return;
    }
    if lists::same(disk, part(space, 0, length)) {
        print(b"  it is the disk\n");
        return;
    }
    print_line(b"  it is another disk, sum", sum_of(part(space, 0, length)));
}

// The edition that a step names: 13 sectors a track, else 16.
fn edition_of(edition: u8) -> Edition {
    if edition == 13 {
        return Edition::Thirteen;
    }
    Edition::Sixteen
}

fn unrolled(nibbles: &[u8], edition: u8, space: &mut [u8]) -> Result<usize, Refusal> {
    match edition_of(edition) {
        Edition::Sixteen => stream::denibblize(nibbles, space),
        Edition::Thirteen => stream::denibblize_13(nibbles, space),
    }
}

// What denibblize answers with this space, and what it leaves there.
fn image_in(disk: &[u8], nibbles: &[u8], edition: u8, space: &mut [u8]) {
    let answer = unrolled(nibbles, edition, space);
    print_number(b"denibblize", edition as u64);
    handed_line(b": refusal", answer);
    left_line(disk, space, length_of(answer));
}

fn show_image(disk: &[u8], nibbles: &[u8], edition: u8, less: usize) {
    let mut space = trial::disk_of_55();
    let size = laying::size_of(edition);
    if less <= size {
        image_in(disk, nibbles, edition, &mut space[0..size - less]);
    }
}

fn fetched(
    nibbles: &[u8],
    edition: u8,
    v: u8,
    t: u8,
    s: u8,
    space: &mut [u8],
) -> Result<usize, Refusal> {
    match edition_of(edition) {
        Edition::Sixteen => stream::sector(nibbles, v, t, s, space),
        Edition::Thirteen => stream::sector_13(nibbles, v, t, s, space),
    }
}

fn show_sector(nibbles: &[u8], edition: u8, v: u8, t: u8, s: u8) {
    let mut data = [0u8; 256];
    let answer = fetched(nibbles, edition, v, t, s, &mut data);
    print_number(b"sector", edition as u64);
    handed_line(b": refusal", answer);
    bytes_line(answer, &data);
}

// What is shown where there is no pair.
const NO_PAIR: FieldPair = FieldPair {
    volume: 0,
    track: 0,
    sector: 0,
    nibbles: 0,
    next: 0,
};

fn show_pair(nibbles: &[u8], edition: u8, at: usize) {
    let answer = fields::parse_nib_sector(nibbles, at, edition_of(edition));
    print_number(b"pair", edition as u64);
    let p = shown(b": refusal", answer, None).unwrap_or(NO_PAIR);
    print_number(b"  volume", p.volume as u64);
    print_number(b", track", p.track as u64);
    print_line(b", sector", p.sector as u64);
    print_number(b"  nibbles", p.nibbles as u64);
    print_line(b", next", p.next as u64);
}

fn show_prologue(nibbles: &[u8]) {
    print_line(b"prologue", fields::recognize_prologue(nibbles) as u64);
}

// How many bytes the stream has afterwards.
fn write_stream(disk: &[u8], nibbles: &mut [u8], used: usize) -> usize {
    let mut out: [u8; 232960] = filled(0x55);
    let answer = nibblize::nibblize(disk, &mut out);
    handed_line(b"nibblize: refusal", answer);
    if untouched(&out) {
        print(b"  nothing changed\n");
    }
    let Ok(length) = answer else {
        return used;
    };
    copy_at(part(&out, 0, length), nibbles, 0);
    length
}

fn copy_block(nibbles: &mut [u8], from: usize, to: usize)
    requires { (from < 65536) × (to < 65536) }
{
    let mut block = [0u8; 416];
    copy_at(part(nibbles, 416 * from, 416), &mut block, 0);
    copy_at(&block, nibbles, 416 * to);
}

// How many bytes the stream has afterwards.
fn lay_anew(nibbles: &mut [u8], step: [u8; 6]) -> usize {
    let used = duplicator::lay_anew(
        nibbles,
        number(step[1], step[2]),
        step[3],
        number(step[4], step[5]),
    );
    print_line(b"laid anew, bytes", used as u64);
    used
}

// The steps that show an answer on the stream.
fn show(disks: &[u8], nibbles: &[u8], step: [u8; 6]) {
    let command = step[0];
    let edition = step[1];
    match command {
        9 => show_image(
            disk_of(disks, edition),
            nibbles,
            edition,
            number(step[2], step[3]),
        ),
        10 => show_sector(nibbles, edition, step[2], step[3], step[4]),
        11 => show_pair(nibbles, edition, place(step[2], step[3], step[4])),
        12 => show_prologue(nibbles),
        _ => print(b"no such step\n"),
    }
}

// How many bytes of the stream are in use after a step.
fn act(disks: &mut [u8], nibbles: &mut [u8], used: usize, step: [u8; 6]) -> usize {
    match step[0] {
        0..=2 | 0x15 => laying::change(disks, step),
        3..=8 => {
            return laying::lay(disks, nibbles, used, step);
        },
        0x12 => {
            return write_stream(disk_of(disks, step[1]), nibbles, used);
        },
        0x16 => copy_block(nibbles, number(step[1], step[2]), number(step[3], step[4])),
        0x17 => {
            return lay_anew(nibbles, step);
        },
        _ => show(disks, part(nibbles, 0, used), step),
    }
    used
}

fn main() {
    let mut disks = laying::disks();
    let mut stream: [u8; 1048576] = filled(0);
    let mut used: usize = 0;
    for step in trial::script_steps() {
        used = act(&mut disks, &mut stream, used, step);
    }
}
