// The sector writings of a stream laid anew, as a duplicator may lay them: in an order drawn by lot, some of them again, with gaps that are drawn too.
ghost use Rattle.std.specs.Prelude.{◌<◌, ◌≤◌};

use laying::append;
use lists::{copy_at, part};

// The next lot, from the one before it.
fn next(lot: u64) -> u64
    ensures { result < 2147483648 }
{
    (lot % 2147483648 * 1103515245 + 12345) % 2147483648
}

// A number from 0 to `most`.
fn at_most(lot: u64, most: u16) -> u16
    ensures { result ≤ most }
{
    (lot / 65536 % (most as u64 + 1)) as u16
}

// A byte that is not D5h.
fn gap_byte(lot: u64) -> u8 {
    let b = (lot / 65536 % 256) as u8;
    if b == 0xD5 {
        return 0;
    }
    b
}

// Fills a gap: the lot behind it.
fn draw_gap(gap: &mut [u8], lot: u64) -> u64 {
    let mut x = lot;
    for b in gap.iter_mut() {
        x = next(x);
        *b = gap_byte(x);
    }
    x
}

// Where the stream ends so far, and the lot.
#[derive(Clone, Copy)]
struct Laid {
    used: usize,
    lot: u64,
}

// A gap of 0 to `most` bytes more.
fn add_gap(nibbles: &mut [u8], laid: Laid, most: u8) -> Laid {
    let x = next(laid.lot);
    let n = at_most(x, most as u16) as usize;
    let mut gap = [0u8; 255];
    let y = draw_gap(&mut gap[0..n], x);
    Laid {
        used: append(nibbles, laid.used, &gap[0..n]),
        lot: y,
    }
}

// Sector writing k of those that stand as nibblize writes them: address and data, with a gap before each.
fn add_writing(from: &[u8], nibbles: &mut [u8], k: u16, laid: Laid, most: u8) -> Laid {
    let at = 416 * (k as usize);
    let before = add_gap(nibbles, laid, most);
    let address = Laid {
        used: append(nibbles, before.used, part(from, at + 48, 14)),
        lot: before.lot,
    };
    let between = add_gap(nibbles, address, most);
    Laid {
        used: append(nibbles, between.used, part(from, at + 67, 349)),
        lot: between.lot,
    }
}

fn add_writings(from: &[u8], nibbles: &mut [u8], order: &[u16], lot: u64, most: u8) -> Laid {
    let mut laid = Laid { used: 0, lot: lot };
    for k in order {
        laid = add_writing(from, nibbles, *k, laid, most);
    }
    laid
}

// Each of the 560 once; behind them any of them.
fn number_at(i: usize, lot: u64) -> u16 {
    if i < 560 {
        return i as u16;
    }
    at_most(lot, 559)
}

fn draw_numbers(order: &mut [u16], lot: u64) -> u64 {
    let mut x = lot;
    for i in 0..order.len() {
        x = next(x);
        order[i] = number_at(i, x);
    }
    x
}

// From the last place on, each changes with one that is drawn from those up to it.
fn shuffle(order: &mut [u16], lot: u64) -> u64 {
    let mut x = lot;
    for i in (1..order.len()).rev() {
        x = next(x);
        order.swap(i, (x / 65536) as usize % (i + 1));
    }
    x
}

// The stream that nibblize wrote. What it holds is not promised, so that lending it costs no proof.
fn written() -> [u8; 232960] {
    [0; 232960]
}

// Lays the stream anew: gaps of 0 to `most` bytes, and `again` writings more, 560 at most. The answer is its length.
pub fn lay_anew(nibbles: &mut [u8], seed: usize, most: u8, again: usize) -> usize {
    let mut from = written();
    copy_at(part(nibbles, 0, 232960), &mut from, 0);
    let mut order = [0u16; 1120];
    let n = 560 + again % 561;
    let x = draw_numbers(&mut order[0..n], seed as u64);
    let y = shuffle(&mut order[0..n], x);
    let laid = add_writings(&from, nibbles, &order[0..n], y, most);
    add_gap(nibbles, laid, most).used
}
