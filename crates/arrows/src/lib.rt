// The links followed, as arrows: from the VTOC to the first page, from page to page, from a page to the first list of each of its entries, from list to list.
#![tactic(auto)]

use catalog::{entry_list, entry_start, first_page, last_page, valid_file};
use disk::{Place, link_of};
use files::last_list;
use lists::byte_at;
use pen::colours::{CATALOG, dark};
use screen::seen::Seen;
use screen::vtoc;
use std::fmt;

// The point 11 from a on the way to b, in one direction, where the way is `far` in the longer one.
fn near(a: u32, b: u32, far: u32) -> u32 {
    if far == 0 {
        return a;
    }
    let step = 11 * (a.abs_diff(b) % 8192) / far;
    if a < b {
        return a % 8192 + step % 8192;
    }
    a.saturating_sub(step)
}

// Where the bend of an arrow is drawn to, in one direction: from the middle aside by an eighth of the way in the other.
fn bend(a: u32, b: u32, from: u32, to: u32) -> u32 {
    let middle = (a % 8192 + b % 8192) / 2;
    let aside = (from % 8192 + 1600).saturating_sub(to % 8192) / 8;
    (middle + aside).saturating_sub(200)
}

// A point of the picture.
#[derive(Clone, Copy, Debug, PartialEq, Eq)]
struct Point {
    x: u32,
    y: u32,
}

// The middle of a sector.
fn point_of(p: Place) -> Point {
    Point {
        x: 30 * u32::from(p.track.0) + 14,
        y: 30 * u32::from(p.sector.0) + 14,
    }
}

// An arrow of a file, or of the catalog, by its beginning, its bend and its end.
#[derive(Clone, Copy)]
struct Arrow {
    begin: Point,
    bend: Point,
    end: Point,
}

impl Arrow {
    fn draw<W: fmt::Write>(self, out: &mut W, file: Option<u32>) {
        let (style, colour) = match file {
            Some(file) => ('e', dark(file)),
            None => ('c', CATALOG),
        };
        let Point { x, y } = self.begin;
        let _ = write!(out, "<path d=\"M{x} {y}");
        let Point { x, y } = self.bend;
        let _ = write!(out, "Q{x} {y}");
        let Point { x, y } = self.end;
        let _ = write!(out, " {x} {y}\" class=\"{style}\" stroke=\"{colour}\"/>\n");
    }

    // An arrow from a sector to itself.
    fn round(at: Point) -> Arrow {
        let x = at.x % 8192;
        let y = at.y % 8192;
        Arrow {
            begin: Point {
                x: x + 15,
                y: y.saturating_sub(8),
            },
            bend: Point { x: x + 56, y },
            end: Point {
                x: x + 15,
                y: y + 8,
            },
        }
    }

    // The arrow from one point to another.
    fn straight(per: u8, from: Point, to: Point, far: u32) -> Arrow {
        Arrow {
            begin: Point {
                x: near(from.x, to.x, far),
                y: near(from.y, to.y, far),
            },
            bend: bend_of(per, from, to, far),
            end: Point {
                x: near(to.x, from.x, far),
                y: near(to.y, from.y, far),
            },
        }
    }

    // The arrow that leads from one place to another, on a disk of `per` sectors a track.
    fn between(per: u8, from: Place, to: Place) -> Arrow {
        let from = point_of(from);
        let to = point_of(to);
        let far = from.x.abs_diff(to.x).max(from.y.abs_diff(to.y));
        if far == 0 {
            return Arrow::round(from);
        }
        Arrow::straight(per, from, to, far)
    }
}

// A steep arrow that leads down, or a flat one in the lower half. So a steep one bends away from the track where it begins, and a flat one to the middle.
fn is_low(per: u8, from: Point, to: Point) -> bool {
    if from.x.abs_diff(to.x) < from.y.abs_diff(to.y) {
        return from.y < to.y;
    }
    15 * u32::from(per) < (from.y % 8192 + to.y % 8192) / 2
}

// Whether an arrow bends to the other side.
fn is_turned(per: u8, from: Point, to: Point) -> bool {
    if is_low(per, from, to) {
        return from.x < to.x;
    }
    to.x < from.x
}

// Where the arrow is drawn to between its ends: a short one is straight.
fn bend_of(per: u8, from: Point, to: Point, far: u32) -> Point {
    if far < 31 {
        return Point {
            x: (from.x % 8192 + to.x % 8192) / 2,
            y: (from.y % 8192 + to.y % 8192) / 2,
        };
    }
    if is_turned(per, from, to) {
        return Point {
            x: bend(from.x, to.x, to.y, from.y),
            y: bend(from.y, to.y, from.x, to.x),
        };
    }
    Point {
        x: bend(from.x, to.x, from.y, to.y),
        y: bend(from.y, to.y, to.x, from.x),
    }
}

// The arrows from list to list. Those behind a list that was seen before are drawn already.
fn list_arrows<W: fmt::Write>(
    out: &mut W,
    disk: &[u8],
    per: u8,
    file: u32,
    first: Place,
    seen: &mut Seen,
) {
    let mut p = first;
    for _ in 0..560u16 {
        if last_list(disk, per, p) || seen.has(per, p) {
            break;
        }
        seen.add(per, p);
        let q = link_of(disk, per, p);
        Arrow::between(per, p, q).draw(out, Some(file));
        p = q;
    }
}

// The arrows of the entries of page p that are in use: the files so far.
fn page_arrows<W: fmt::Write>(
    out: &mut W,
    disk: &[u8],
    per: u8,
    p: Place,
    seen: &mut Seen,
    before: u32,
) -> u32 {
    let mut files = before;
    for i in 0..7u8 {
        let x = entry_start(per, p, i);
        if valid_file(byte_at(disk, x)) {
            files = files.saturating_add(1);
            let list = entry_list(disk, x);
            Arrow::between(per, p, list).draw(out, Some(files));
            list_arrows(out, disk, per, files, list, seen);
        }
    }
    files
}

// All arrows.
pub fn draw_arrows<W: fmt::Write>(out: &mut W, disk: &[u8], per: u8) {
    let mut seen = Seen::none();
    let mut files = 0;
    let mut p = first_page(disk, per);
    Arrow::between(per, vtoc(), p).draw(out, None);
    for _ in 0..560u16 {
        files = page_arrows(out, disk, per, p, &mut seen, files);
        if last_page(disk, per, p) {
            break;
        }
        let q = link_of(disk, per, p);
        Arrow::between(per, p, q).draw(out, None);
        p = q;
    }
}
