// Answers of the archive reader. Standard input is a script, a line of six bytes in hexadecimal for each step, high bytes first; what is not named is 00. It works on bytes that
// start as zeros, of which a front is in use:
//     00 AA BB DD VV    put VV at place AABBDD
//     01 AA BB DD       let AABBDD bytes be in use
//     02 KK KK JJ JJ    let each block from KKKK on, and before JJJJ, be linked to the next
//     03                open the archive
//     04 KK KK          show the entry that block KKKK has, looked at alone, and its name, as it is shown and as it is cut
//     05 KK KK          show the entry that block KKKK has in the archive
//     06 KK KK LL LL    show the data of block KKKK, where LLLL bytes are left
//     07                step through the entries of the archive
//     08 KK KK JJ JJ    let the 30 name bytes of each block from KKKK on, and before JJJJ, be A0h
//     09 KK KK JJ JJ    let them be 0
#![tactic(auto)]

use outcome::Refusal;
use reader::{Entry, Opened};
use trial::{place, print, print_line, print_number, shown};

// What is shown of bytes that are no archive.
const NOT_OPENED: Opened = Opened {
    volume: 0,
    first: 0,
    blocks: 0,
};

fn show_open(archive: &[u8]) {
    let o = shown(b"open: refusal", reader::open(archive), NOT_OPENED);
    print_number(b"  volume", o.volume as u64);
    print_number(b", first entry block", o.first as u64);
    print_line(b", blocks", o.blocks as u64);
}

fn fields_line(e: Entry) {
    print_number(b"  type", e.kind as u64);
    print_number(b", lock", e.locked as u64);
    print_number(b", name length", e.name_length as u64);
    print_number(b", sector count", e.count as u64);
    print_line(b", data length", e.size as u64);
}

// What is shown where there is no entry.
const NO_ENTRY: Entry = Entry {
    next: 0,
    first: 0,
    kind: 0,
    locked: 0,
    name_length: 0,
    count: 0,
    size: 0,
};

fn entry_lines(text: &[u8], answer: Result<Option<Entry>, Refusal>) {
    let found = shown(text, answer, None);
    print_number(b"  found", u64::from(found.is_some()));
    let e = found.unwrap_or(NO_ENTRY);
    print_number(b", next entry block", e.next as u64);
    print_line(b", first data block", e.first as u64);
    fields_line(e);
}

fn show_next(archive: &[u8], block: u16) {
    entry_lines(b"block: refusal", Ok(cursor::entry_from(archive, block)));
    print(b"  name ");
    print(reader::entry_name(archive, block as u64));
    print(b"\n");
    print(b"  as cut");
    trial::print_decimals(reader::entry_raw_name(archive, block as u64));
    print(b"\n");
}

fn show_entry(archive: &[u8], block: u64) {
    entry_lines(b"entry: refusal", reader::entry_at(archive, block));
}

fn show_data(archive: &[u8], block: u64, left: u64) {
    let part = reader::data_part(archive, block, left);
    print_number(b"data: length", part.len() as u64);
    print_number(b", first byte", lists::byte_at(part, 0) as u64);
    print_number(b", byte 253", lists::byte_at(part, 253) as u64);
    print_line(
        b", next data block",
        reader::next_data(archive, block) as u64,
    );
}

fn show_steps(archive: &[u8]) {
    let mut block = cursor::first_block(archive);
    for count in 0..5000u32 {
        let Some(e) = cursor::entry_from(archive, block) else {
            print_line(b"steps: entries", count as u64);
            return;
        };
        block = e.next;
    }
    print(b"steps: no end\n");
}

// The number of a block.
fn number(high: u8, low: u8) -> u64 {
    trial::number(high, low) as u64
}

fn block_number(high: u8, low: u8) -> u16 {
    trial::number(high, low) as u16
}

fn chain(bytes: &mut [u8], from: u64, to: u64) {
    for b in from..to.min(65535) {
        lists::put_word(bytes, 256 * b as usize, (b + 1) as u16);
    }
}

fn names(bytes: &mut [u8], from: u64, to: u64, v: u8) {
    for b in from..to.min(65535) {
        lists::fill_at(bytes, 256 * b as usize + 42, 30, v);
    }
}

fn show(archive: &[u8], step: [u8; 6]) {
    let command = step[0];
    match command {
        3 => show_open(archive),
        4 => show_next(archive, block_number(step[1], step[2])),
        5 => show_entry(archive, number(step[1], step[2])),
        6 => show_data(archive, number(step[1], step[2]), number(step[3], step[4])),
        7 => show_steps(archive),
        _ => print(b"no such step\n"),
    }
}

fn act(bytes: &mut [u8], used: usize, step: [u8; 6]) -> usize {
    let from = number(step[1], step[2]);
    let to = number(step[3], step[4]);
    match step[0] {
        0 => trial::poke(bytes, place(step[1], step[2], step[3]), step[4]),
        1 => {
            return place(step[1], step[2], step[3]);
        },
        2 => chain(bytes, from, to),
        8 => names(bytes, from, to, 160),
        9 => names(bytes, from, to, 0),
        _ => show(lists::part(bytes, 0, used), step),
    }
    used
}

fn main() {
    // 4,097 blocks.
    let mut bytes: [u8; 1048832] = trial::filled(0);
    let mut used: usize = 0;
    for step in trial::script_steps() {
        used = act(&mut bytes, used, step);
    }
}
