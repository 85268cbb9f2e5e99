// The 4-and-4 and 6-and-2 codings of Apple DOS 3.3 (nibble.rs): a byte to two bytes, 256 bytes to 343 nibbles, and back. `five_three` has the coding of DOS 3.2.
#![tactic(auto)]

pub mod five_three;
mod running;
mod tables;

ghost use Rattle.std.specs.Prelude.{◌≡◌, ◌+◌, ◌-◌, ◌*◌, ◌/◌, ◌%◌, ◌≤◌, ◌<◌, length};
ghost use Rattle.std.specs.Int.Bits.{bit_and};
ghost use Rattle.lists.specs.Fill.{tab, filled, placed};
ghost use Rattle.outcome.specs.Outcome.{Hands};
ghost use Rattle.nibble.specs.Running.{run_at, looked};
ghost use Rattle.nibble.specs.Nibble.{of44, four, writes, reads, write_of, read_of, low, val_at, values_of, pairs_at, byte_from, encoded, decode, decoded, LowsOf, StepsOf};

use outcome::Refusal;
use running::{sum_of, values_with};
use tables::{reading, writing};

// The byte of two bytes in 4-and-4.
pub fn parse_nibble_byte_4_and_4(a: u8, b: u8) -> u8
    ensures { result ≡ of44 a b }
{
    (2 * (a % 128) + 1) & b
}

// A byte in 4-and-4.
pub fn build_nibble_byte_4_and_4(v: u8) -> [u8; 2]
    ensures { result ≡ four v }
{
    [v / 2 | 0xAA, v | 0xAA]
}

// The nibble of a step, from the table that the caller holds.
#[tactic(auto, unfolding(crate::specs::Nibble::write_of))]
fn write(table: &[u8; 64], v: u8) -> u8
    requires { (table.now ≡ writes) × (v < 64) }
    ensures { result ≡ write_of v }
{
    table[v as usize]
}

// Bits 0, 2 and 4.
fn evens(t: u8) -> u8
    ensures { (result ≡ bit_and t 21) × (result ≤ 21) }
{
    t & 21
}

// A value of the low bits of three bytes: the three pairs together, then both bits of each pair swapped at once.
fn low6(a: u8, b: u8, c: u8) -> u8
    ensures { (result ≡ low a + low b * 4 + low c * 16) × (result < 64) }
{
    let t = a % 4 + b % 4 * 4 + c % 4 * 16;
    evens(t) * 2 + evens(t / 2)
}

// The high bits of a byte.
fn high6(a: u8) -> u8
    ensures { (result ≡ a / 4) × (result < 64) }
{
    a / 4
}

// The 86 values of the low bits: the last two have no third byte.
fn lows(src: &[u8]) -> [u8; 86]
    requires { length src.now ≡ 256 }
    ensures { LowsOf src.now result }
{
    let mut vals = [0u8; 86];
    for k in 0..84 {
        vals[k] = low6(src[k], src[k + 86], src[k + 172]);
    }
    for k in 84..86 {
        vals[k] = low6(src[k], src[k + 86], 0);
    }
    vals
}

// Each value against the one before it: a loop for each range of places.
fn steps(src: &[u8], lows: &[u8; 86]) -> [u8; 343]
    requires { (length src.now ≡ 256) × LowsOf src.now lows.now }
    ensures { StepsOf src.now result }
{
    let mut diffs = [0u8; 343];
    diffs[0] = lows[0];
    for k in 1..86 {
        diffs[k] = lows[k] ^ lows[k - 1];
    }
    diffs[86] = lows[85] ^ high6(src[0]);
    for k in 87..342 {
        diffs[k] = high6(src[k - 86] ^ src[k - 87]);
    }
    diffs[342] = high6(src[255]);
    diffs
}

// A sector as 343 nibbles, the sum last (in the Rust build_nibble_sector, whose sum is always 0); refusals 1, 12.
pub fn encode_sector(src: &[u8], out: &mut [u8]) -> Result<usize, Refusal>
    ensures { Hands (encoded src.now) out.old out.new result }
{
    if src.len() != 256 {
        return Err(Refusal::OffSize);
    }
    if out.len() < 343 {
        return Err(Refusal::TrayShort);
    }
    let table = writing();
    let vals = lows(src);
    let diffs = steps(src, &vals);
    for k in 0..343 {
        out[k] = write(&table, diffs[k]);
    }
    Ok(343)
}

// The XOR of the first 343 nibbles' values, which is zero where a data field's sum is right. Past the end of the slice zeros are read.
#[tactic(auto, using(crate::proofs::Decode::summed))]
pub fn data_sum(nibbles: &[u8]) -> u8
    ensures { result ≡ val_at nibbles.now 342 }
{
    sum_of::<343>(&reading(), nibbles)
}

// The values of the first 343 nibbles (in the Rust data_field_build_buffer). Past the end of the slice zeros are read.
#[tactic(auto, using(crate::proofs::Decode::valued))]
fn values_of(nibbles: &[u8]) -> [u8; 343]
    ensures { result ≡ values_of nibbles.now }
{
    values_with::<343>(&reading(), nibbles)
}

// The low bits of three bytes in each of the first 86 values, the two bits of each pair swapped.
fn pairs_of(vals: &[u8; 343]) -> [u8; 86]
    ensures { result ≡ tab (pairs_at vals.now) 86 }
{
    let mut pairs = [0u8; 86];
    for k in 0..86 {
        let v = vals[k];
        pairs[k] = low6(v, v / 4, v / 16);
    }
    pairs
}

// A byte of its high bits and the two low bits of l.
fn byte(h: u8, l: u8) -> u8
    ensures { result ≡ h % 64 * 4 + l % 4 }
{
    h % 64 * 4 + l % 4
}

// The 256 bytes of a sector's values: a loop for each range of places.
fn put_bytes(vals: &[u8; 343], out: &mut [u8])
    requires { 256 ≤ length out.old }
    ensures { out.new ≡ filled (byte_from vals.now) 256 out.old }
{
    let pairs = pairs_of(vals);
    for i in 0..86 {
        out[i] = byte(vals[i + 86], pairs[i]);
    }
    for i in 86..172 {
        out[i] = byte(vals[i + 86], pairs[i - 86] / 4);
    }
    for i in 172..256 {
        out[i] = byte(vals[i + 86], pairs[i - 172] / 16);
    }
}

// Puts the 256 bytes of a sector to the front of out, whatever the sum is; where they do not fit, out stays as it is. The answer is that of `data_sum`. Past the end of the nibbles zeros are read.
pub fn sector_data(nibbles: &[u8], out: &mut [u8]) -> u8
    ensures bytes { out.new ≡ placed 0 (decode nibbles.now) out.old }
    ensures sum { result ≡ val_at nibbles.now 342 }
{
    let vals = values_of(nibbles);
    if out.len() < 256 {
        return vals[342];
    }
    put_bytes(&vals, out);
    vals[342]
}

// The 256 bytes of a sector (in the Rust transform_data_field); refusals 9, 12. Past the end of the slice zeros are read.
pub fn decode_sector(nibbles: &[u8], out: &mut [u8]) -> Result<usize, Refusal>
    ensures { Hands (decoded nibbles.now) out.old out.new result }
{
    let vals = values_of(nibbles);
    if vals[342] != 0 {
        return Err(Refusal::DataSum);
    }
    if out.len() < 256 {
        return Err(Refusal::TrayShort);
    }
    put_bytes(&vals, out);
    Ok(256)
}
