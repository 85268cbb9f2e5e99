// The sectors that a walk along a chain has met.
use crate::sector_number;
use disk::Place;

#[derive(Drop)]
pub struct Seen {
    sectors: [bool; 560],
}

impl Seen {
    pub fn none() -> Seen {
        Seen {
            sectors: [false; 560],
        }
    }

    // The sector was met, on a disk of `per` sectors a track.
    pub fn has(&self, per: u8, p: Place) -> bool {
        self.sectors
            .get(sector_number(per, p))
            .copied()
            .unwrap_or(false)
    }

    pub fn add(&mut self, per: u8, p: Place) {
        if let Some(seen) = self.sectors.get_mut(sector_number(per, p)) {
            *seen = true;
        }
    }
}
