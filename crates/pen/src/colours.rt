// The colours of files.
ghost use Rattle.std.specs.Prelude.{◌<◌};

use std::fmt;

// Red, green and blue, eight bits each.
#[derive(Clone, Copy, Debug, PartialEq, Eq)]
pub struct Colour(pub u32);

impl fmt::Display for Colour {
    fn fmt<W: fmt::Write>(&self, f: &mut fmt::Formatter<W>) -> fmt::Result {
        let number = self.0;
        write!(f, "#{number:06x}")
    }
}

// The colour of the catalog.
pub const CATALOG: Colour = Colour(0x1f3566);

fn mix(red: u32, green: u32, blue: u32) -> Colour {
    Colour(65536 * (red % 256) + 256 * (green % 256) + blue % 256)
}

// A colour of the wheel, 137 degrees on from file to file, between two lights; `up` and `down` lie between them, as far on as the hue.
fn wheel(file: u32, low: u32, high: u32, up: u32, down: u32) -> Colour {
    match 137 * (file % 65536) % 360 / 60 {
        0 => mix(high, up, low),
        1 => mix(down, high, low),
        2 => mix(low, high, up),
        3 => mix(low, down, high),
        4 => mix(up, low, high),
        _ => mix(high, low, down),
    }
}

// How far a file's hue is on its sixth of the wheel.
fn turn(file: u32) -> u32
    ensures { result < 60 }
{
    137 * (file % 65536) % 60
}

// The colour of a file's sectors: three lights in turn.
pub fn light(file: u32) -> Colour {
    let f = turn(file);
    match file % 3 {
        0 => wheel(file, 158, 250, 158 + 92 * f / 60, 250 - 92 * f / 60),
        1 => wheel(file, 198, 255, 198 + 57 * f / 60, 255 - 57 * f / 60),
        _ => wheel(file, 140, 238, 140 + 98 * f / 60, 238 - 98 * f / 60),
    }
}

// The colour of its outlines and arrows.
pub fn dark(file: u32) -> Colour {
    let f = turn(file);
    wheel(file, 10, 140, 10 + 130 * f / 60, 140 - 130 * f / 60)
}
