// The 5-and-3 coding of Apple DOS 3.2 (document 02, Req 12; not in the Rust): 411 nibbles to 256 bytes. It is read, not written.
ghost use Rattle.std.specs.Prelude.{◌≡◌, ◌+◌, ◌*◌, ◌%◌, ◌≤◌, ◌<◌, length};
ghost use Rattle.lists.specs.Fill.{filled, placed};
ghost use Rattle.nibble.specs.FiveThree.{val_at53, values_of53, three_of, byte_from53, decode53};

use crate::running::{sum_of, values_with};
use crate::tables::reading_5_and_3;

// The XOR of the first 411 nibbles' values, which is zero where a data field's sum is right. Past the end of the slice zeros are read.
#[tactic(auto, using(crate::proofs::FiveThree::summed))]
pub fn data_sum(nibbles: &[u8]) -> u8
    ensures { result ≡ val_at53 nibbles.now 410 }
{
    sum_of::<411>(&reading_5_and_3(), nibbles)
}

// The values of the first 411 nibbles. Past the end of the slice zeros are read.
#[tactic(auto, using(crate::proofs::FiveThree::valued))]
fn values_of(nibbles: &[u8]) -> [u8; 411]
    ensures { result ≡ values_of53 nibbles.now }
{
    values_with::<411>(&reading_5_and_3(), nibbles)
}

// A byte of its high five bits and three low ones.
fn joined(high: u8, low: u8) -> u8
    requires { low < 8 }
    ensures { result ≡ high % 32 * 8 + low }
{
    high % 32 * 8 + low
}

// The bits 0 of three values, that of a highest.
#[tactic(auto, unfolding(crate::specs::FiveThree::three_of))]
fn bits_0(a: u8, b: u8, c: u8) -> u8
    ensures { result ≡ three_of 1 a b c }
{
    a % 2 * 4 + b % 2 * 2 + c % 2
}

// The bits 1, likewise.
#[tactic(auto, unfolding(crate::specs::FiveThree::three_of))]
fn bits_1(a: u8, b: u8, c: u8) -> u8
    ensures { result ≡ three_of 2 a b c }
{
    a / 2 % 2 * 4 + b / 2 % 2 * 2 + c / 2 % 2
}

// Byte r of the five that begin at 5 i, where k is 50 - i: of the first three, ..
fn of_three(vals: &[u8; 411], i: usize, r: usize) -> u8
    requires { (i < 51) × (r < 3) }
    ensures { result ≡ byte_from53 vals.now (5 * i + r) }
{
    let j = 50 - i + 51 * r;
    joined(vals[154 + j], vals[153 - j] / 4 % 8)
}

// .. the fourth ..
fn fourth(vals: &[u8; 411], i: usize) -> u8
    requires { i < 51 }
    ensures { result ≡ byte_from53 vals.now (5 * i + 3) }
{
    let k = 50 - i;
    joined(
        vals[154 + (k + 153)],
        bits_1(vals[153 - k], vals[153 - (k + 51)], vals[153 - (k + 102)]),
    )
}

// .. and the fifth.
fn fifth(vals: &[u8; 411], i: usize) -> u8
    requires { i < 51 }
    ensures { result ≡ byte_from53 vals.now (5 * i + 4) }
{
    let k = 50 - i;
    joined(
        vals[154 + (k + 204)],
        bits_0(vals[153 - k], vals[153 - (k + 51)], vals[153 - (k + 102)]),
    )
}

// The 256 bytes of a sector's values, five by five.
fn put_bytes(vals: &[u8; 411], out: &mut [u8])
    requires { 256 ≤ length out.old }
    ensures { out.new ≡ filled (byte_from53 vals.now) 256 out.old }
{
    for i in 0..51 {
        out[5 * i] = of_three(vals, i, 0);
        out[5 * i + 1] = of_three(vals, i, 1);
        out[5 * i + 2] = of_three(vals, i, 2);
        out[5 * i + 3] = fourth(vals, i);
        out[5 * i + 4] = fifth(vals, i);
    }
    out[255] = joined(vals[409], vals[0] % 8);
}

// Puts the 256 bytes of a sector to the front of out, whatever the sum is; where they do not fit, out stays as it is. The answer is that of `data_sum`. Past the end of the nibbles zeros are read.
pub fn sector_data(nibbles: &[u8], out: &mut [u8]) -> u8
    ensures bytes { out.new ≡ placed 0 (decode53 nibbles.now) out.old }
    ensures sum { result ≡ val_at53 nibbles.now 410 }
{
    let vals = values_of(nibbles);
    if out.len() < 256 {
        return vals[410];
    }
    put_bytes(&vals, out);
    vals[410]
}
