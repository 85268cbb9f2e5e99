// Disks and streams of both editions, laid for trials by the steps of a script. KK is an edition, 0D or 10: 13 or 16 sectors a track. NNNN and AABBDD are numbers, the
// high byte first; what is not named is 00:
//     00 KK TT SS BB VV    put VV at byte BB of DOS sector SS of track TT of the disk
//     01 KK TT SS VV       put VV, VV + 1, VV + 2 and so on at the bytes of the sector
//     02 KK                a disk of zeros
//     03                   an empty stream
//     04 NN NN VV          NNNN bytes VV more in the stream, 4,095 at most
//     05 KK VV TT SS       the sector with that address, 5 of FFh, and the data of the disk's sector more in the stream
//     06 KK VV AA BB GG    so all sectors of the disk, numbers AA, AA + BB, AA + 2 BB and so on, GG of FFh before each
//     07 AA BB DD VV       put VV at place AABBDD of the stream
//     08 AA BB DD          the stream has AABBDD bytes
//     15 KK AA BB          as step 01 at every sector of the disk, VV being AA k + BB for sector k
//     23 TT UU AA BB       map bytes 0 and 1 of the tracks TT to UU of the disk of 16 sectors a track are AA, BB
// The 5-and-3 coding is written here alone: byte by byte, as DOS 3.2 does it. All is proved to end and never to trap, and no more than that.
#![tactic(auto)]

ghost use Rattle.std.specs.Prelude.{◌<◌, ◌≤◌};

use disk::{Place, Sector, Track, sector_start};
use lists::{byte_at, copy_at, fill_at, part};
use trial::{filled, number, place, place_16, poke, put_ramp};

// The sectors of a track of an edition: 13, else 16.
fn per_of(edition: u8) -> u8
    ensures { (0 < result) × (result ≤ 16) }
{
    if edition == 13 {
        return 13;
    }
    16
}

// The bytes of a disk.
pub fn size_of(edition: u8) -> usize
    ensures { result ≤ 143360 }
{
    8960 * (per_of(edition) as usize)
}

// Where a disk begins: that of 16 at 0, that of 13 behind it.
fn start_of(edition: u8) -> usize
    ensures { result ≤ 143360 }
{
    if edition == 13 {
        return 143360;
    }
    0
}

// The disk of an edition.
pub fn disk_of(disks: &[u8], edition: u8) -> &[u8] {
    part(disks, start_of(edition), size_of(edition))
}

// A disk of zeros of each edition. What they hold is not promised, so that lending them costs no proof.
pub fn disks() -> [u8; 259840] {
    filled(0)
}

// Where a sector of a disk begins.
fn sector_at(edition: u8, track: u8, sector: u8) -> usize
    ensures { result < 33554432 }
{
    let p = Place {
        track: Track(track),
        sector: Sector(sector),
    };
    start_of(edition) + sector_start(per_of(edition), p)
}

// The sum of two bytes without its carry.
fn summed(x: u8, y: u8) -> u8 {
    ((x as u16 + y as u16) % 256) as u8
}

// Such a sector for each of the disk.
fn fill_ramps(disks: &mut [u8], edition: u8, a: u8, b: u8) {
    let start = start_of(edition);
    let mut first = b;
    for k in 0..35 * (per_of(edition) as u16) {
        put_ramp(disks, start + 256 * (k as usize), first);
        first = summed(first, a);
    }
}

// Puts map bytes 0 and 1 of a track of the disk of 16 sectors a track.
pub fn put_map(disks: &mut [u8], track: u8, high: u8, low: u8) {
    let at = place_16(17, 0, 56) + 4 * (track as usize);
    poke(disks, at, high);
    poke(disks, at + 1, low);
}

// The same, where the track is one of the step's.
fn put_asked(disks: &mut [u8], track: u8, step: [u8; 6]) {
    if (step[1] <= track) & (track <= step[2]) {
        put_map(disks, track, step[3], step[4]);
    }
}

fn put_maps(disks: &mut [u8], step: [u8; 6]) {
    for t in 0..35u8 {
        put_asked(disks, t, step);
    }
}

// The steps that change a disk: 00, 01, 02, 15, 23.
pub fn change(disks: &mut [u8], step: [u8; 6]) {
    let command = step[0];
    let edition = step[1];
    let at = sector_at(edition, step[2], step[3]);
    match command {
        0 => poke(disks, at + number(0, step[4]), step[5]),
        1 => put_ramp(disks, at, step[4]),
        2 => fill_at(disks, start_of(edition), size_of(edition), 0),
        0x23 => put_maps(disks, step),
        _ => fill_ramps(disks, edition, step[2], step[3]),
    }
}

// The bytes from ABh up, without D5h and those with two zero bits in a row.
const WRITES: [u8; 32] = [
    0xAB, 0xAD, 0xAE, 0xAF, 0xB5, 0xB6, 0xB7, 0xBA, 0xBB, 0xBD, 0xBE, 0xBF, 0xD6, 0xD7, 0xDA, 0xDB,
    0xDD, 0xDE, 0xDF, 0xEA, 0xEB, 0xED, 0xEE, 0xEF, 0xF5, 0xF6, 0xF7, 0xFA, 0xFB, 0xFD, 0xFE, 0xFF,
];

// The length after n more, where there is room for them, else as before.
fn longer(nibbles: &[u8], used: usize, n: usize) -> usize {
    if nibbles.len() < used {
        return used;
    }
    if nibbles.len() - used < n {
        return used;
    }
    used + n
}

// n bytes v more: the length afterwards.
fn append_gap(nibbles: &mut [u8], used: usize, n: usize, v: u8) -> usize {
    fill_at(nibbles, used, n, v);
    longer(nibbles, used, n)
}

// These bytes more: the length afterwards.
pub fn append(nibbles: &mut [u8], used: usize, bytes: &[u8]) -> usize {
    copy_at(bytes, nibbles, used);
    longer(nibbles, used, bytes.len())
}

fn odd(v: u8) -> u8 {
    v / 2 | 0xAA
}

fn even(v: u8) -> u8 {
    v | 0xAA
}

// The last byte of an address prologue.
fn mark_of(edition: u8) -> u8 {
    if edition == 13 {
        return 0xB5;
    }
    0x96
}

fn address(edition: u8, v: u8, t: u8, s: u8) -> [u8; 14] {
    let sum = v ^ t ^ s;
    [
        0xD5,
        0xAA,
        mark_of(edition),
        odd(v),
        even(v),
        odd(t),
        even(t),
        odd(s),
        even(s),
        odd(sum),
        even(sum),
        0xDE,
        0xAA,
        0xEB,
    ]
}

// A group of five bytes from place p on: the high bits go to b at k, k + 51, k + 102, k + 153, k + 204, which stand behind the 154 values of the low bits.
fn put_high(group: &[u8], vals: &mut [u8], k: u8) {
    let at = 154 + k as usize;
    poke(vals, at, byte_at(group, 0) / 8);
    poke(vals, at + 51, byte_at(group, 1) / 8);
    poke(vals, at + 102, byte_at(group, 2) / 8);
    poke(vals, at + 153, byte_at(group, 3) / 8);
    poke(vals, at + 204, byte_at(group, 4) / 8);
}

// A value of the low bits: three of a byte of its own, one of the fourth and one of the fifth.
fn low_value(own: u8, fourth: u8, fifth: u8) -> u8 {
    own % 8 * 4 + fourth % 2 * 2 + fifth % 2
}

// Their low bits go to t at k, k + 51, k + 102; t153 stands first.
fn put_low(group: &[u8], vals: &mut [u8], k: u8) {
    let at = (k % 51) as usize;
    let d = byte_at(group, 3);
    let e = byte_at(group, 4);
    poke(vals, 153 - at, low_value(byte_at(group, 0), d / 4, e / 4));
    poke(vals, 102 - at, low_value(byte_at(group, 1), d / 2, e / 2));
    poke(vals, 51 - at, low_value(byte_at(group, 2), d, e));
}

// The 410 values of a sector, and a zero behind them.
fn values(data: &[u8]) -> [u8; 411] {
    let mut vals = [0u8; 411];
    for i in 0..51u8 {
        let group = part(data, 5 * (i as usize), 5);
        let k = 50 - i % 51;
        put_high(group, &mut vals, k);
        put_low(group, &mut vals, k);
    }
    let last = byte_at(data, 255);
    vals[0] = last % 8;
    vals[409] = last / 8;
    vals
}

// Each value against the one before it, as a nibble; the sum last.
fn encoded(vals: &[u8; 411]) -> [u8; 411] {
    let mut out = [0u8; 411];
    let mut last: u8 = 0;
    for k in 0..411 {
        out[k] = WRITES[((vals[k] ^ last) % 32) as usize];
        last = vals[k];
    }
    out
}

fn append_data_13(nibbles: &mut [u8], used: usize, data: &[u8]) -> usize {
    let vals = values(data);
    append(nibbles, used, &encoded(&vals))
}

fn append_data_16(nibbles: &mut [u8], used: usize, data: &[u8]) -> usize {
    let mut out = [0u8; 343];
    let _ = nibble::encode_sector(data, &mut out);
    append(nibbles, used, &out)
}

fn append_data(nibbles: &mut [u8], used: usize, edition: u8, data: &[u8]) -> usize {
    let at = append(nibbles, used, &[0xD5, 0xAA, 0xAD]);
    let end = if edition == 13 {
        append_data_13(nibbles, at, data)
    } else {
        append_data_16(nibbles, at, data)
    };
    append(nibbles, end, &[0xDE, 0xAA, 0xEB])
}

// The DOS sector of an address sector: of 13 it is the same.
fn dos_sector(edition: u8, sector: u8) -> u8 {
    if edition == 13 {
        return sector;
    }
    fields::dos_sector(sector)
}

// A sector with its address: the length afterwards. Where the disk has no such sector, no data are written.
fn append_sector(
    disk: &[u8],
    nibbles: &mut [u8],
    used: usize,
    edition: u8,
    volume: u8,
    track: u8,
    sector: u8,
) -> usize {
    let p = Place {
        track: Track(track),
        sector: Sector(dos_sector(edition, sector)),
    };
    let at = append(nibbles, used, &address(edition, volume, track, sector));
    let data = append_gap(nibbles, at, 5, 0xFF);
    append_data(
        nibbles,
        data,
        edition,
        part(disk, sector_start(per_of(edition), p), 256),
    )
}

// Track and sector of sector number k, counted from the start of a disk.
fn track_of(edition: u8, k: u16) -> u8 {
    (k / (per_of(edition) as u16) % 256) as u8
}

fn sector_of(edition: u8, k: u16) -> u8 {
    (k % (per_of(edition) as u16)) as u8
}

// The number n further, in a ring of a disk's sectors.
fn further(edition: u8, k: u16, n: u8) -> u16 {
    let all = 35 * (per_of(edition) as u16);
    (k % all + n as u16) % all
}

// Sector number k of a disk, behind a gap.
fn append_numbered(disk: &[u8], nibbles: &mut [u8], used: usize, step: [u8; 6], k: u16) -> usize {
    let end = append_gap(nibbles, used, step[5] as usize, 0xFF);
    append_sector(
        disk,
        nibbles,
        end,
        step[1],
        step[2],
        track_of(step[1], k),
        sector_of(step[1], k),
    )
}

// All sectors of a disk, from number AA on, always BB further.
fn append_all(disk: &[u8], nibbles: &mut [u8], used: usize, step: [u8; 6]) -> usize {
    let mut end = used;
    let mut k = further(step[1], 0, step[3]);
    for j in 0..35 * (per_of(step[1]) as u16) {
        end = append_numbered(disk, nibbles, end, step, k);
        k = further(step[1], k, step[4]);
    }
    end
}

// The steps that lay a stream, 03 to 08: how many bytes it has afterwards.
pub fn lay(disks: &[u8], nibbles: &mut [u8], used: usize, step: [u8; 6]) -> usize {
    let command = step[0];
    let edition = step[1];
    match command {
        3 => 0,
        4 => append_gap(nibbles, used, place(0, step[1], step[2]), step[3]),
        5 => append_sector(
            disk_of(disks, edition),
            nibbles,
            used,
            edition,
            step[2],
            step[3],
            step[4],
        ),
        6 => append_all(disk_of(disks, edition), nibbles, used, step),
        7 => {
            poke(nibbles, place(step[1], step[2], step[3]), step[4]);
            used
        },
        _ => place(step[1], step[2], step[3]),
    }
}
