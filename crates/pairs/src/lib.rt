// The pairs of a track/sector list in a lent run of structs: document 01, "Track/sector list" ("They are handed over in a lent run of pairs"). (In the Rust:
// TrackSectorPair and TrackSectorList of catalog.rs.) `pair_run` calls the functions above it, and stores; `run_of_four` lends a run of its own.
#![tactic(auto)]

ghost use Rattle.std.specs.Prelude.{◌≡◌};
ghost use Rattle.outcome.specs.Outcome.{answer_of, Hands};
ghost use Rattle.disk.specs.Disk.{per_of, place};
ghost use Rattle.pairs.specs.Run.{pair_in, pair_run, fitting};

use disk::{Place, Sector, Track, on_disk, sectors_of};
use files::{MAX_PAIRS, parse_track_sector_list, parse_track_sector_pair};
use outcome::Refusal;

// One pair.
#[repr(C)]
#[derive(Clone, Copy, Debug, PartialEq, Eq)]
pub struct TrackSectorPair {
    pub track_number: u8,
    pub sector_number: u8,
}

// Pair i of the list at a location, on a disk of `per` sectors a track; zeros where a list has no such pair.
fn pair_of(disk: &[u8], per: u8, track: u8, sector: u8, i: usize) -> TrackSectorPair
    ensures { result ≡ pair_in per disk.now (place track sector) i }
{
    if (MAX_PAIRS as usize) <= i {
        return TrackSectorPair {
            track_number: 0,
            sector_number: 0,
        };
    }
    let p = Place {
        track: Track(track),
        sector: Sector(sector),
    };
    let q = parse_track_sector_pair(disk, per, p, i as u8);
    TrackSectorPair {
        track_number: q.track.0,
        sector_number: q.sector.0,
    }
}

// The same of a flat disk.
pub fn pair_at(disk: &[u8], track: u8, sector: u8, i: usize) -> TrackSectorPair
    ensures { result ≡ pair_in (per_of disk.now) disk.now (place track sector) i }
{
    pair_of(disk, sectors_of(disk), track, sector, i)
}

// What is answered for that list, where there is room for so many pairs: refusals 1, 3, 12, else the number of its pairs.
fn answer_of(disk: &[u8], per: u8, track: u8, sector: u8, room: usize) -> Result<usize, Refusal>
    ensures { result ≡ answer_of (fitting room (pair_run per disk.now (place track sector))) }
{
    let p = Place {
        track: Track(track),
        sector: Sector(sector),
    };
    if disk.len() != 256 * (35 * (per as usize)) {
        return Err(Refusal::OffSize);
    }
    if !on_disk(per, p) {
        return Err(Refusal::OffDisc);
    }
    let count = parse_track_sector_list(disk, per, p).count as usize;
    if room < count {
        return Err(Refusal::TrayShort);
    }
    Ok(count)
}

// The same of a flat disk.
pub fn run_answer(disk: &[u8], track: u8, sector: u8, room: usize) -> Result<usize, Refusal>
    ensures { result ≡ answer_of (fitting room (pair_run (per_of disk.now) disk.now (place track sector))) }
{
    answer_of(disk, sectors_of(disk), track, sector, room)
}

// The pairs of the list at a location, from the front of the run; those past them stay. Refusals 1, 3, 12.
pub fn pair_run(
    disk: &[u8],
    track: u8,
    sector: u8,
    run: &mut [TrackSectorPair],
) -> Result<usize, Refusal>
    ensures { Hands (pair_run (per_of disk.now) disk.now (place track sector)) run.old run.new result }
{
    let n = run_answer(disk, track, sector, run.len())?;
    for i in 0..n {
        run[i] = pair_at(disk, track, sector, i);
    }
    Ok(n)
}

// The answer of `run_of_four`, and the run as it is left.
#[derive(Clone, Copy, Debug, PartialEq, Eq)]
pub struct RunOfFour {
    pub answer: Result<usize, Refusal>,
    pub pairs: [TrackSectorPair; 4],
}

// The same with a run of four pairs that goes in by value and comes back.
pub fn run_of_four(disk: &[u8], track: u8, sector: u8, pairs: [TrackSectorPair; 4]) -> RunOfFour
    ensures { Hands (pair_run (per_of disk.now) disk.now (place track sector)) pairs result.pairs result.answer }
{
    let mut run = pairs;
    let answer = pair_run(disk, track, sector, &mut run);
    RunOfFour { answer, pairs: run }
}
