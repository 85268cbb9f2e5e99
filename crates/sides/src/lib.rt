// The two sides that save to one disk: Req 10. Not of the Rust.
#![tactic(auto)]

ghost use Rattle.std.specs.Prelude.{◌≡◌, ◌<◌, ◌≤◌};
ghost use Rattle.catalog.specs.Catalog.{entry_from};
ghost use Rattle.sides.specs.Sides.{belongs, of_side};
ghost use Rattle.sides.specs.Steps.{lettered, line_count, page_count, tally};

use catalog::{entry_list, entry_start, first_page, last_page, letter_of, valid_file};
use disk::{Place, chain_budget, link_of};
use files::build_file;
use lists::byte_at;

// Whose a name is, and who calls: the survey office, and we.
#[derive(Clone, Copy, Debug, PartialEq, Eq)]
pub enum Side {
    Survey,
    Ours,
}

// A name with this first letter is the side's.
fn lettered_for(side: Side, letter: u8) -> bool
    ensures { result ≡ lettered side letter }
{
    match side {
        Side::Survey => letter == 0x53,
        Side::Ours => letter != 0x53,
    }
}

// The name is the side's.
pub fn belongs_to(side: Side, name: &[u8]) -> bool
    ensures { result ≡ belongs side name.now }
{
    lettered_for(side, byte_at(name, 0))
}

// The line from x on is in use by the side.
fn of_side(disk: &[u8], side: Side, x: usize) -> bool
    requires { x < 16793600 }
    ensures { result ≡ of_side side (entry_from disk.now x) }
{
    valid_file(byte_at(disk, x)) && lettered_for(side, letter_of(byte_at(disk, x + 3)))
}

// How many sectors the side holds in the line from x on, lists and pairs; none where the line is not its own, or its lists are refused.
fn count_line(disk: &[u8], per: u8, side: Side, x: usize) -> u64
    requires { x < 16793600 }
    ensures is { result ≡ line_count per disk.now side x }
    ensures small { result ≤ 4295032830 }
{
    if !of_side(disk, side, x) {
        return 0;
    }
    match build_file(disk, per, entry_list(disk, x)) {
        Ok(t) => t.lists as u64 + t.pairs as u64,
        Err(_) => 0,
    }
}

// .. in the lines of a page.
fn count_page(disk: &[u8], per: u8, side: Side, p: Place) -> u64
    ensures is { result ≡ page_count per disk.now side p }
    ensures small { result ≤ 30065229810 }
{
    let mut many: u64 = 0;
    for i in 0..7u8 {
        many += count_line(disk, per, side, entry_start(per, p, i));
    }
    many
}

// .. on a disk of `per` sectors a track, page by page.
pub fn count_held(disk: &[u8], per: u8, side: Side) -> u64
    ensures is { result ≡ tally per disk.now side }
    ensures small { result ≤ 268362241284060 }
{
    let most = chain_budget(per);
    let mut p = first_page(disk, per);
    let mut many: u64 = 0;
    for _turn in 0..most {
        many += count_page(disk, per, side, p);
        if last_page(disk, per, p) {
            return many;
        }
        p = link_of(disk, per, p);
    }
    many
}
