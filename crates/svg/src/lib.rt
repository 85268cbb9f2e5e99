// A disk as an SVG picture: 35 tracks across, their sectors down, the files in their colours, the links followed as arrows, and what the map says of them. It
// stands alone: no script, and nothing from elsewhere.
// A sector takes 504 bytes at most, with 180 for a name; an arrow 67, and there are at most 5,041; a file of the legend 457, and 120 are shown; a path of 4,096 bytes
// 25,100; all else 8,000. So the whole has less than 800,000 bytes, and fits.
#![tactic(auto)]

mod legend;

use arrows::draw_arrows;
use cells::{Drawing, Layer, TRACKS};
use disk::sectors_of;
use files::DiskSurvey;
use legend::{MOST, file_key, key, rows_of};
use pen::{shown, shown_end};
use screen::space::catalog_space;
use std::fmt;
use uses::uses_of;

// How high the picture is.
fn height(per: u8, files: u32) -> u32 {
    let sectors = 30 * u32::from(per);
    if files == 0 {
        return sectors + 206;
    }
    let rows = rows_of(files) % 64;
    if MOST < files {
        return sectors + 20 * rows + 270;
    }
    sectors + 20 * rows + 246
}

// The words for the path where it has no letters of its own.
fn path_words(from: &[u8]) -> Option<&'static str> {
    match from {
        b"" => Some("''"),
        b"-" => Some("standard input"),
        _ => None,
    }
}

// The whole path.
fn path<W: fmt::Write>(out: &mut W, from: &[u8]) {
    if let Some(words) = path_words(from) {
        let _ = out.write_str(words);
        return;
    }
    shown(out, from, 1000000);
}

// Its end.
fn path_end<W: fmt::Write>(out: &mut W, from: &[u8]) {
    if let Some(words) = path_words(from) {
        let _ = out.write_str(words);
        return;
    }
    shown_end(out, from);
}

// The front of the picture, with the path in the title and its end in the heading.
fn front<W: fmt::Write>(out: &mut W, from: &[u8], high: u32) {
    let _ = write!(
        out,
        "<svg xmlns=\"http://www.w3.org/2000/svg\" viewBox=\"0 0 1130 {high}\" role=\"img\" aria-labelledby=\"t\">\n<title id=\"t\">Sectors of "
    );
    path(out, from);
    let _ = out.write_str(
        "</title>\n<style>\nsvg{background:#fff}\ntext{font:13px ui-monospace,Menlo,Consolas,\"DejaVu Sans Mono\",monospace;fill:#222}\n.h{font-size:20px;font-weight:bold}\n.t,.l{font-size:12px}\n.s{font-size:9.5px}\n.m,.b,.l,.p,.s,.w{text-anchor:middle}\n.b,.l,.p,.s,.w{font-weight:bold;paint-order:stroke;stroke-width:2px;stroke-linejoin:round}\n.w{fill:#fff}\n.r{text-anchor:end}\n.q{fill:#666}\n.n{pointer-events:none}\n.o,.u,.v,.j{stroke-width:2px}\n.o{fill:#fff;stroke:#fff}\n.u{fill:#b4b4b4;stroke:#b4b4b4}\n.v{fill:#1f3566;stroke:#1f3566}\n.k,.g{stroke-width:2.5px}\n.k{fill:#d5def2;stroke:#1f3566}\n.p{stroke:#d5def2}\n.x{stroke:#d00000;stroke-width:1.8px;fill:none}\n.d{fill:none;stroke:#d00000;stroke-width:2.4px;stroke-dasharray:4 3}\n.c,.e{fill:none;stroke-width:1.4px;marker-end:url(#a)}\n.c{stroke-width:1.8px}\n</style>\n<defs><marker id=\"a\" viewBox=\"0 0 8 8\" refX=\"7\" refY=\"4\" markerWidth=\"8\" markerHeight=\"8\" markerUnits=\"userSpaceOnUse\" orient=\"auto\"><path d=\"M0 .5l8 3.5l-8 3.5z\" fill=\"context-stroke\"/></marker></defs>\n",
    );
    let _ = write!(
        out,
        "<rect width=\"1130\" height=\"{high}\" fill=\"#fff\"/>\n<text x=\"58\" y=\"36\" class=\"h\">"
    );
    path_end(out, from);
}

// What makes more than one of it.
fn plural(n: u64) -> &'static str {
    if n == 1 { "" } else { "s" }
}

// The line under the path.
fn second_line<W: fmt::Write>(out: &mut W, per: u8, s: DiskSurvey) {
    let volume = s.volume;
    let entries = s.entries;
    let links = s.links;
    let _ = write!(
        out,
        "</text>\n<text x=\"58\" y=\"60\">volume {volume}, {per} sectors a track, {entries} file"
    );
    let _ = out.write_str(plural(u64::from(entries)));
    let _ = write!(out, ", {links} link");
    let _ = out.write_str(plural(links));
    let _ = out.write_str(" followed</text>\n");
}

// The numbers of the tracks, above.
fn track_numbers<W: fmt::Write>(out: &mut W) {
    for track in 0..TRACKS {
        let x = 30 * u32::from(track) + 14;
        let _ = write!(
            out,
            "<text x=\"{x}.5\" y=\"-8\" class=\"m q\">{track}</text>\n"
        );
    }
}

// The numbers of the sectors, at the left.
fn sector_numbers<W: fmt::Write>(out: &mut W, per: u8) {
    for sector in 0..per {
        let y = 30 * u32::from(sector) + 19;
        let _ = write!(
            out,
            "<text x=\"-10\" y=\"{y}\" class=\"r q\">{sector}</text>\n"
        );
    }
}

// The edges of the picture, and the ground of its sectors.
fn edges<W: fmt::Write>(out: &mut W, per: u8) {
    let middle = 15 * u32::from(per);
    let _ = write!(
        out,
        "<g transform=\"translate(58 100)\">\n<text x=\"-10\" y=\"-8\" class=\"r q\">track</text>\n<text x=\"-{middle}\" y=\"-38\" class=\"m q\" transform=\"rotate(-90)\">sector</text>\n"
    );
    track_numbers(out);
    sector_numbers(out, per);
    let high = 30 * u32::from(per) + 1;
    let _ = write!(
        out,
        "<rect x=\"-1\" y=\"-1\" width=\"1051\" height=\"{high}\" fill=\"#d0d0d0\"/>\n"
    );
}

// The sectors, with all that is drawn upon them.
fn sectors<W: fmt::Write>(out: &mut W, d: Drawing) {
    edges(out, d.per);
    d.layer(out, Layer::Cells);
    let _ = out.write_str("<g class=\"n\">\n");
    d.layer(out, Layer::Marks);
    draw_arrows(out, d.disk, d.per);
    d.layer(out, Layer::Letters);
    let _ = out.write_str("</g>\n</g>\n");
}

// Draws a disk that is not refused, with its survey. `from` is the disk's path.
pub fn draw<W: fmt::Write>(disk: &[u8], s: DiskSurvey, from: &[u8], out: &mut W) {
    let per = sectors_of(disk);
    let uses = uses_of(disk);
    let mut entries = catalog_space();
    let _ = catalog::parse_catalogs(disk, &mut entries);
    let drawing = Drawing {
        disk,
        per,
        uses: &uses,
        entries: &entries,
    };
    front(out, from, height(per, s.entries));
    second_line(out, per, s);
    sectors(out, drawing);
    key(out, drawing);
    file_key(out, drawing, s.entries);
    let _ = out.write_str("</svg>\n");
}
