// Answers of the record writers and of the recogniser. Standard input is a script, a line of six bytes in hexadecimal for each step, on an input of zeros; what is not named is 00.
// A number AA BB DD has its high byte first. Space is lent of LLLL bytes, 4,096 at most, each of them 55h:
//     00 AA BB DD VV    put VV at place AABBDD of the input
//     01 LL LL NN       write the entry: bytes 0 to 5 of the input are list track, list sector, type, lock, sector count; the name is NN bytes from 16 on
//     02 LL LL EE EE    write the page: the entries are EEEE bytes from 16 on; the header is as many bytes from 0 on as byte 15 says
//     03 LL LL NN NN    write the file: bytes 0 to 4 are type, address, size; its data is NNNN bytes from 16 on
//     04 AA BB DD       show the format of the first AABBDD bytes
#![tactic(auto)]

use disk::{Place, Sector, Track};
use lists::{byte_at, part, word_at};
use outcome::Refusal;
use trial::{number, place, print, print_hex, shown};

// The first 256 bytes that were handed over, and the byte behind all of them.
fn handed_lines(text: &[u8], answer: Result<usize, Refusal>, space: &[u8]) {
    if let Some(bytes) = trial::handed(text, answer, space) {
        print_hex(part(bytes, 0, 256));
        trial::behind(answer, space);
    }
}

fn show_entry(input: &[u8], space: &mut [u8], n: u8) {
    let list = Place {
        track: Track(byte_at(input, 0)),
        sector: Sector(byte_at(input, 1)),
    };
    let kind = byte_at(input, 2);
    let lock = byte_at(input, 3);
    let count = word_at(input, 4);
    let name = part(input, 16, n as usize);
    let answer = records::file_entry_as_vec(list, kind, lock != 0, name, count, space);
    handed_lines(b"entry: refusal", answer, space);
}

fn show_page(input: &[u8], space: &mut [u8], n: usize) {
    let header = part(input, 0, byte_at(input, 15) as usize);
    let answer = records::catalog_as_vec(header, part(input, 16, n), space);
    handed_lines(b"page: refusal", answer, space);
}

fn show_file(input: &[u8], space: &mut [u8], n: usize) {
    let kind = byte_at(input, 0);
    let address = word_at(input, 1);
    let size = word_at(input, 3);
    let answer = records::full_file_as_vec(kind, address, size, part(input, 16, n), space);
    handed_lines(b"file: refusal", answer, space);
}

fn show_format(input: &[u8], n: usize) {
    let format = records::format_from_data(part(input, 0, n));
    if shown(b"format: refusal", format, false) {
        print(b"  DOS 3.3\n");
        return;
    }
    print(b"  not DOS 3.3\n");
}

fn show(input: &[u8], space: &mut [u8], step: [u8; 6]) {
    let command = step[0];
    match command {
        1 => show_entry(input, space, step[3]),
        2 => show_page(input, space, number(step[3], step[4])),
        3 => show_file(input, space, number(step[3], step[4])),
        _ => print(b"no such step\n"),
    }
}

fn show_lent(input: &[u8], step: [u8; 6]) {
    let mut space = trial::space();
    let size = number(step[1], step[2]);
    if size <= space.len() {
        show(input, &mut space[0..size], step);
    }
}

fn act(input: &mut [u8], step: [u8; 6]) {
    let command = step[0];
    match command {
        0 => trial::poke(input, place(step[1], step[2], step[3]), step[4]),
        4 => show_format(input, place(step[1], step[2], step[3])),
        _ => show_lent(input, step),
    }
}

fn main() {
    // One byte more than `format_from_data` looks at, and some.
    let mut input: [u8; 69700] = trial::filled(0);
    for step in trial::script_steps() {
        act(&mut input, step);
    }
}
