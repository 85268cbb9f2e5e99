// A flat disk written as a nibble stream of 16 sectors a track (not in the Rust).
#![tactic(auto)]

ghost use Rattle.std.specs.Prelude.{◌≡◌, ◌++◌, ◌+◌, ◌*◌, ◌≤◌, ◌<◌, length, replicate};
ghost use Rattle.lists.specs.Fill.{tab, put, placed, cats};
ghost use Rattle.outcome.specs.Outcome.{Hands};
ghost use Rattle.fields.specs.Editions.{interleave};
ghost use Rattle.nibblize.specs.Nibblize.{address_writing, sector_writing, block, nibblized};

use disk::{Place, Sector, Track, byte_of};
use fields::dos_sectors;
use lists::{copy_at, fill_at};
use nibble::{build_nibble_byte_4_and_4, encode_sector};
use outcome::Refusal;

// Puts an address in from place at; where it does not fit, out stays as it is.
fn put_address(out: &mut [u8], at: usize, volume: u8, track: u8, sector: u8)
    ensures { out.new ≡ placed at (address_writing volume track sector) out.old }
{
    let v = build_nibble_byte_4_and_4(volume);
    let t = build_nibble_byte_4_and_4(track);
    let p = build_nibble_byte_4_and_4(sector);
    let sum = build_nibble_byte_4_and_4(volume ^ track ^ sector);
    let field = [
        0xD5, 0xAA, 0x96, v[0], v[1], t[0], t[1], p[0], p[1], sum[0], sum[1], 0xDE, 0xAA, 0xEB,
    ];
    copy_at(&field, out, at);
}

// Puts a sector in from place at, with the gap before it: 416 bytes.
fn put_sector(src: &[u8], out: &mut [u8], at: usize, volume: u8, track: u8, sector: u8)
    requires { (length src.now ≡ 256) × (at + 416 ≤ length out.old) }
    ensures { out.new ≡ put at (replicate 48 0xFF ++ sector_writing volume track sector src.now) out.old }
{
    fill_at(out, at, 48, 0xFF);
    put_address(out, at + 48, volume, track, sector);
    fill_at(out, at + 62, 5, 0xFF);
    let head = [0xD5, 0xAA, 0xAD];
    copy_at(&head, out, at + 67);
    let a = at + 70;
    let _ = encode_sector(src, &mut out[a..]);
    let tail = [0xDE, 0xAA, 0xEB];
    copy_at(&tail, out, at + 413);
}

// The DOS sector of address sector p, from the table that the caller holds.
fn dos_sector_in(order: &[u8; 16], p: u8) -> u8
    requires { (order.now ≡ tab interleave 16) × (p < 16) }
    ensures { result ≡ interleave p }
{
    order[p as usize]
}

// Puts address sector k % 16 of track k / 16 in at its place.
fn put_block(order: &[u8; 16], disk: &[u8], out: &mut [u8], k: usize, volume: u8)
    requires { (order.now ≡ tab interleave 16) × (length disk.now ≡ 143360) × (232960 ≤ length out.old) × (k < 560) }
    ensures { out.new ≡ put (416 * k) (block volume disk.now k) out.old }
{
    let t = (k / 16) as u8;
    let p = (k % 16) as u8;
    let d = dos_sector_in(order, p);
    let start = 256 * (16 * (t as usize) + d as usize);
    let end = start + 256;
    put_sector(&disk[start..end], out, 416 * k, volume, t, p);
}

// All sectors of a disk, one behind the other.
fn put_blocks(disk: &[u8], out: &mut [u8], volume: u8)
    requires { (length disk.now ≡ 143360) × (232960 ≤ length out.old) }
    ensures { out.new ≡ put 0 (cats (block volume disk.now) 560) out.old }
{
    let order = dos_sectors();
    for k in 0..560 {
        put_block(&order, disk, out, k, volume);
    }
}

// A flat disk as nibbles, 232,960 bytes (not in the Rust); refusals 1, 12. The volume is the VTOC's.
pub fn nibblize(disk: &[u8], out: &mut [u8]) -> Result<usize, Refusal>
    ensures { Hands (nibblized disk.now) out.old out.new result }
{
    if disk.len() != 143360 {
        return Err(Refusal::OffSize);
    }
    if out.len() < 232960 {
        return Err(Refusal::TrayShort);
    }
    let table = Place {
        track: Track(17),
        sector: Sector(0),
    };
    let volume = byte_of(disk, 16, table, 6);
    put_blocks(disk, out, volume);
    Ok(232960)
}
