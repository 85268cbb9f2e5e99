// image-rider's recorded answers on nibble streams, sectors, records and inputs of the recognisers, asked of our libraries again: as crates/replay, whose README.md says how
// script and answers were made. The head of crates/recorded has the steps that lay the input. There is a space to put bytes in, and a line of answer for each step that asks:
//     K VVTTSS                  the sector of volume VV, track TT, sector SS, the input being a nibble stream
//     E PPPPPP                  the 342 nibbles of the 256 bytes at place PPPPPP
//     D TTSSKK LL CC CC VV..    the record of an entry: list track and sector, type, lock, sector count (low byte first), name
//     G 000000                  the catalog page with the first 11 bytes for its header, and behind them entries of 37 bytes
//     B 000000                  the file with type, address and length in the first five bytes (low bytes first), and behind them its data
//     M 000000                  the prologue recognized in the input
//     O 000000                  whether the input is a DOS 3.3 disk
#![tactic(auto)]

use disk::{Place, Sector, Track};
use lists::{byte_at, part, word_at};
use outcome::Refusal;
use recorded::{answer_line, asks, bytes_of, content, count, digits_of, lay, number_of, place_of};
use trial::{print, print_hex, print_line, print_number};

fn show_sector(nibbles: &[u8], key: [u8; 3], space: &mut [u8]) {
    print(b"sector");
    print_hex(&key);
    print(b"\n");
    let answer = stream::sector(nibbles, key[0], key[1], key[2], space);
    answer_line(answer, space);
}

fn show_nibbles(sector: &[u8], space: &mut [u8]) {
    let answer = nibble::encode_sector(sector, space);
    print_number(b"encoded: number", number_of(&answer));
    if answer.is_ok() {
        content(part(space, 0, 342));
    }
    print(b"\n");
}

fn show_record(place: [u8; 3], words: &[u8], space: &mut [u8]) {
    let list = Place {
        track: Track(place[0]),
        sector: Sector(place[1]),
    };
    let lock = byte_at(words, 0);
    let name = part(words, 3, words.len());
    print(b"record\n");
    let count = word_at(words, 1);
    let answer = records::file_entry_as_vec(list, place[2], lock != 0, name, count, space);
    answer_line(answer, space);
}

fn show_page(input: &[u8], space: &mut [u8]) {
    print(b"page\n");
    let answer = records::catalog_as_vec(part(input, 0, 11), part(input, 11, input.len()), space);
    answer_line(answer, space);
}

fn show_binary(input: &[u8], space: &mut [u8]) {
    let data = part(input, 5, input.len());
    print(b"binary\n");
    let answer = records::full_file_as_vec(
        byte_at(input, 0),
        word_at(input, 1),
        word_at(input, 3),
        data,
        space,
    );
    answer_line(answer, space);
}

fn show_format(input: &[u8]) {
    let format = records::format_from_data(input);
    print_number(b"format: number", number_of(&format));
    if format.unwrap_or(false) {
        print(b", DOS 3.3\n");
        return;
    }
    print(b", not DOS 3.3\n");
}

fn show_prologue(input: &[u8]) {
    print_line(b"prologue", fields::recognize_prologue(input) as u64);
}

fn show_words(line: &[u8], space: &mut [u8]) {
    let bytes = bytes_of(line);
    show_record(digits_of(line), part(&bytes, 0, count(line)), space);
}

// The steps that ask.
fn show(line: &[u8], input: &[u8], space: &mut [u8]) {
    let command = byte_at(line, 0);
    match command {
        b'K' => show_sector(input, digits_of(line), space),
        b'E' => show_nibbles(part(input, place_of(line), 256), space),
        b'D' => show_words(line, space),
        b'G' => show_page(input, space),
        b'B' => show_binary(input, space),
        b'M' => show_prologue(input),
        b'O' => show_format(input),
        _ => print(b"no such step\n"),
    }
}

// How many bytes are in use after a step, `used` being those before it.
fn act(line: &[u8], input: &mut [u8], used: usize, space: &mut [u8]) -> usize {
    if asks(line) {
        show(line, part(input, 0, used), space);
        return used;
    }
    lay(line, input, used)
}

fn main() {
    let mut input = trial::disk();
    let mut space = trial::disk();
    let mut used: usize = 0;
    let mut script = io::large_buffer();
    for line in recorded::script_lines(&mut script) {
        used = act(line, &mut input, used, &mut space);
    }
}
