// The sectors of the picture: 30 apart, each a square of 27 and its outline, with its title; and what is drawn upon them.
#![tactic(auto)]

ghost use Rattle.std.specs.Prelude.{◌≤◌};

use disk::{Place, Sector, Track};
use holders::is_free;
use pen::colours::{Colour, dark, light};
use pen::shown;
use std::fmt;
use uses::{Holder, Uses, name_of};

pub const TRACKS: u8 = 35;

// A disk that is drawn: its bytes, its sectors a track, what each serves, and its catalog, 37 bytes an entry.
#[derive(Clone, Copy)]
pub struct Drawing<'a> {
    pub disk: &'a [u8],
    pub per: u8,
    pub uses: &'a Uses,
    pub entries: &'a [u8],
}

// A sector of the picture: where it stands, its first holder, whether it has more, and whether the map calls it free.
#[derive(Clone, Copy)]
struct Seat {
    track: u8,
    sector: u8,
    holder: Option<Holder>,
    shared: bool,
    free: bool,
}

// The name of a file in at most so many columns.
const NAME_COLUMNS: usize = 1000;

impl Seat {
    // The left edge of the sector, and the upper one.
    fn left(self) -> u32
        ensures { result ≤ 7650 }
    {
        30 * u32::from(self.track)
    }

    fn top(self) -> u32
        ensures { result ≤ 7650 }
    {
        30 * u32::from(self.sector)
    }

    fn file(self) -> Option<u32> {
        self.holder?.file()
    }

    // In a chain, and free in the map.
    fn is_loose(self) -> bool {
        self.holder.is_some() & self.free
    }

    // The style of its square.
    fn style(self) -> char {
        match self.holder {
            Some(Holder::Vtoc) => 'v',
            Some(Holder::Page) => 'k',
            Some(Holder::List(_)) => 'g',
            Some(Holder::Data(_)) => 'j',
            None if self.free => 'o',
            None => 'u',
        }
    }

    // The colour of the outline of a file's square.
    fn edge(self, file: u32) -> Colour {
        match self.holder {
            Some(Holder::List(_)) => dark(file),
            _ => light(file),
        }
    }

    // Its square, the end left open.
    fn square<W: fmt::Write>(self, out: &mut W) {
        let x = self.left() + 1;
        let y = self.top() + 1;
        let style = self.style();
        let _ = write!(
            out,
            "<rect x=\"{x}\" y=\"{y}\" width=\"27\" height=\"27\" class=\"{style}\""
        );
        if let Some(file) = self.file() {
            let fill = light(file);
            let edge = self.edge(file);
            let _ = write!(out, " fill=\"{fill}\" stroke=\"{edge}\"");
        }
        let _ = out.write_str(">");
    }

    // What it serves, in words.
    fn say_use<W: fmt::Write>(self, out: &mut W, d: Drawing) {
        let _ = match self.holder {
            Some(Holder::Vtoc) => out.write_str("VTOC"),
            Some(Holder::Page) => out.write_str("catalog page"),
            Some(Holder::List(file)) => {
                let _ = out.write_str("list of ");
                return shown(out, name_of(d.entries, file), NAME_COLUMNS);
            },
            Some(Holder::Data(file)) => return shown(out, name_of(d.entries, file), NAME_COLUMNS),
            None if self.free => out.write_str("free"),
            None => out.write_str("used in the map, in no chain"),
        };
    }

    // The square with its title.
    fn cell<W: fmt::Write>(self, out: &mut W, d: Drawing) {
        let track = self.track;
        let sector = self.sector;
        self.square(out);
        let _ = write!(out, "<title>{track}/{sector}: ");
        self.say_use(out, d);
        if self.shared {
            let _ = out.write_str(", shared");
        }
        if self.is_loose() {
            let _ = out.write_str(", free in the map");
        }
        let _ = out.write_str("</title></rect>\n");
    }

    // The red cross of a shared sector, and the red outline of one in a chain that the map calls free.
    fn marks<W: fmt::Write>(self, out: &mut W) {
        if self.shared {
            let x = self.left() + 2;
            let y = self.top() + 2;
            let _ = write!(
                out,
                "<path d=\"M{x} {y}l25 25m-25 0l25-25\" class=\"x\"/>\n"
            );
        }
        if self.is_loose() {
            let x = self.left() + 1;
            let y = self.top() + 1;
            let _ = write!(
                out,
                "<rect x=\"{x}\" y=\"{y}\" width=\"27\" height=\"27\" class=\"d\"/>\n"
            );
        }
    }

    // The letters of a holder: V, C or L, or none, and the number of its file. They are small where there are four.
    fn letters<W: fmt::Write>(self, out: &mut W) {
        let Some(holder) = self.holder else {
            return;
        };
        let (letter, size) = match holder {
            Holder::Vtoc => ("V", 'w'),
            Holder::Page => ("C", 'p'),
            Holder::List(file) => ("L", if file < 100 { 'l' } else { 's' }),
            Holder::Data(file) => ("", if file < 1000 { 'b' } else { 's' }),
        };
        let x = self.left() + 14;
        let y = self.top() + 19;
        let _ = write!(out, "<text x=\"{x}.5\" y=\"{y}\" class=\"{size}\"");
        let _ = match holder.file() {
            Some(file) => {
                let colour = light(file);
                write!(out, " stroke=\"{colour}\">{letter}{file}</text>\n")
            },
            None => write!(out, ">{letter}</text>\n"),
        };
    }
}

// The layers of the picture.
#[derive(Clone, Copy, Debug, PartialEq, Eq)]
pub enum Layer {
    Cells,
    Marks,
    Letters,
}

// The sectors that the key counts: those of a holder; free ones; those in no chain that the map calls used; shared ones; those in a chain that it calls free.
#[derive(Clone, Copy, Debug, PartialEq, Eq)]
pub enum Kind {
    Vtoc,
    Pages,
    Lists,
    Data,
    Free,
    Lost,
    Shared,
    Loose,
}

impl Kind {
    fn has(self, s: Seat) -> bool {
        match self {
            Kind::Vtoc => matches!(s.holder, Some(Holder::Vtoc)),
            Kind::Pages => matches!(s.holder, Some(Holder::Page)),
            Kind::Lists => matches!(s.holder, Some(Holder::List(_))),
            Kind::Data => matches!(s.holder, Some(Holder::Data(_))),
            Kind::Free => s.holder.is_none() & s.free,
            Kind::Lost => s.holder.is_none() & !s.free,
            Kind::Shared => s.shared,
            Kind::Loose => s.is_loose(),
        }
    }
}

impl<'a> Drawing<'a> {
    fn seat(self, track: u8, sector: u8) -> Seat {
        let p = Place {
            track: Track(track),
            sector: Sector(sector),
        };
        let served = self.uses.at(p);
        Seat {
            track,
            sector,
            holder: served.first(),
            shared: served.is_shared(),
            free: is_free(self.disk, self.per, p),
        }
    }

    // One layer of all sectors.
    pub fn layer<W: fmt::Write>(self, out: &mut W, layer: Layer) {
        for track in 0..TRACKS {
            for sector in 0..self.per {
                let seat = self.seat(track, sector);
                match layer {
                    Layer::Cells => seat.cell(out, self),
                    Layer::Marks => seat.marks(out),
                    Layer::Letters => seat.letters(out),
                }
            }
        }
    }

    // How many sectors of a kind there are.
    pub fn count(self, kind: Kind) -> u32 {
        let mut n: u32 = 0;
        for track in 0..TRACKS {
            for sector in 0..self.per {
                if kind.has(self.seat(track, sector)) {
                    n = n.saturating_add(1);
                }
            }
        }
        n
    }
}
