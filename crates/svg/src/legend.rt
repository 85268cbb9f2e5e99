// What explains the picture: the key of its marks, and the files with their colours.
ghost use Rattle.std.specs.Prelude.{◌<◌};

use cells::{Drawing, Kind};
use lists::{byte_at, part, word_at};
use pen::colours::light;
use pen::shown;
use screen::kind_letters;
use std::fmt;
use uses::name_of;

// The files that are shown.
pub const MOST: u32 = 120;

// The columns of a name.
const NAME_COLUMNS: usize = 30;

// How many rows they take, in three columns.
pub fn rows_of(files: u32) -> u32 {
    files.min(MOST).div_ceil(3)
}

// The squares of the key, and how many sectors of each there are.
pub fn key<W: fmt::Write>(out: &mut W, d: Drawing) {
    let y = 124 + 30 * u32::from(d.per);
    let vtoc = d.count(Kind::Vtoc);
    let pages = d.count(Kind::Pages);
    let lists = d.count(Kind::Lists);
    let data = d.count(Kind::Data);
    let _ = write!(
        out,
        "<g transform=\"translate(58 {y})\">
<rect x=\"1\" y=\"1\" width=\"27\" height=\"27\" class=\"v\"/><text x=\"14.5\" y=\"19\" class=\"w\">V</text><text x=\"38\" y=\"19\">VTOC: {vtoc}</text>
<rect x=\"1\" y=\"37\" width=\"27\" height=\"27\" class=\"k\"/><text x=\"14.5\" y=\"55\" class=\"p\">C</text><text x=\"38\" y=\"55\">catalog pages: {pages}</text>
<rect x=\"203\" y=\"1\" width=\"27\" height=\"27\" class=\"g\" fill=\"#e4e4e4\" stroke=\"#444\"/><text x=\"216.5\" y=\"19\" class=\"l\">L1</text><text x=\"240\" y=\"19\">track/sector lists: {lists}</text>
<rect x=\"203\" y=\"37\" width=\"27\" height=\"27\" class=\"j\" fill=\"#e4e4e4\" stroke=\"#e4e4e4\"/><text x=\"216.5\" y=\"55\" class=\"b\">1</text><text x=\"240\" y=\"55\">data of files: {data}</text>
"
    );
    marks_key(out, d);
}

fn marks_key<W: fmt::Write>(out: &mut W, d: Drawing) {
    let free = d.count(Kind::Free);
    let lost = d.count(Kind::Lost);
    let shared = d.count(Kind::Shared);
    let loose = d.count(Kind::Loose);
    let _ = write!(
        out,
        "<rect x=\"442.5\" y=\".5\" width=\"28\" height=\"28\" fill=\"#fff\" stroke=\"#d0d0d0\"/><text x=\"480\" y=\"19\">free: {free}</text>
<rect x=\"443\" y=\"37\" width=\"27\" height=\"27\" class=\"u\"/><text x=\"480\" y=\"55\">used in the map, in no chain: {lost}</text>
<rect x=\"772.5\" y=\".5\" width=\"28\" height=\"28\" fill=\"#fff\" stroke=\"#d0d0d0\"/><path d=\"M774 2l25 25m-25 0l25-25\" class=\"x\"/><text x=\"810\" y=\"19\">shared: {shared}</text>
<rect x=\"773\" y=\"37\" width=\"27\" height=\"27\" class=\"d\"/><text x=\"810\" y=\"55\">in a chain, free in the map: {loose}</text>
</g>
"
    );
}

// A file: its number in its colour, then its lock, type, sectors and name. Files count from 1 here.
fn file_line<W: fmt::Write>(out: &mut W, d: Drawing, file: u32, left: u32, top: u32)
    requires left_small { left < 65536 }
    requires top_small { top < 65536 }
    requires file_some { 0 < file }
{
    let entry = part(d.entries, 37 * (file - 1) as usize, 37);
    let base = top + 13;
    let colour = light(file);
    let _ = write!(
        out,
        "<rect x=\"{left}\" y=\"{top}\" width=\"29\" height=\"17\" fill=\"{colour}\"/>"
    );
    let middle = left + 14;
    let _ = write!(
        out,
        "<text x=\"{middle}.5\" y=\"{base}\" class=\"m t\">{file}</text>"
    );
    if byte_at(entry, 3) != 0 {
        let x = left + 36;
        let _ = write!(out, "<text x=\"{x}\" y=\"{base}\" class=\"t\">*</text>");
    }
    let x = left + 50;
    let kind = kind_letters(byte_at(entry, 2));
    let _ = write!(
        out,
        "<text x=\"{x}\" y=\"{base}\" class=\"t\">{kind:<2}</text>"
    );
    let x = left + 106;
    let sectors = word_at(entry, 35);
    let _ = write!(
        out,
        "<text x=\"{x}\" y=\"{base}\" class=\"r t\">{sectors}</text>"
    );
    let x = left + 116;
    let _ = write!(out, "<text x=\"{x}\" y=\"{base}\" class=\"t\">");
    shown(out, name_of(d.entries, file), NAME_COLUMNS);
    let _ = out.write_str("</text>\n");
}

fn file_lines<W: fmt::Write>(out: &mut W, d: Drawing, files: u32) {
    let rows = rows_of(files);
    if rows == 0 {
        return;
    }
    for k in 0..files.min(MOST) {
        file_line(out, d, k + 1, 352 * (k / rows), 12 + 20 * (k % rows));
    }
}

// The files, under the key; and how many more there are than are shown.
pub fn file_key<W: fmt::Write>(out: &mut W, d: Drawing, files: u32) {
    if files == 0 {
        return;
    }
    let y = 222 + 30 * u32::from(d.per);
    let _ = write!(
        out,
        "<g transform=\"translate(58 {y})\">\n<text class=\"q\">Files in catalog order: number, lock (*), type, sectors stated, name</text>\n"
    );
    file_lines(out, d, files);
    if MOST < files {
        let y = 32 + 20 * (MOST / 3);
        let more = files - MOST;
        let _ = write!(out, "<text y=\"{y}\">and {more} more</text>\n");
    }
    let _ = out.write_str("</g>\n");
}
