// A flat Apple DOS disk: locations, the window, and the volume table of contents (disk.rs).
#![tactic(auto)]

ghost use Rattle.std.specs.Prelude.{◌≡◌, ℕ, ◌+◌, ◌*◌, ◌<◌, ◌≤◌, length};
ghost use Rattle.std.specs.Int.Count.{ones};
ghost use Rattle.disk.specs.Disk.{per_of, place, sectors, start, byte_of, link_of, on_disk};
ghost use Rattle.disk.specs.Vtoc.{vtoc, readable, free_in, free_below, percent, one_of, valid_table, spare, map_word, signed, table_of, parsed};
ghost use Rattle.disk.specs.Window.{sector_in, windowed, seen};

use outcome::Refusal;

#[derive(Clone, Copy, Debug, PartialEq, Eq)]
pub struct Track(pub u8);

#[derive(Clone, Copy, Debug, PartialEq, Eq)]
pub struct Sector(pub u8);

// A location. A track number is never taken for a sector number: the two meet in the location arithmetic alone.
#[derive(Clone, Copy, Debug, PartialEq, Eq)]
pub struct Place {
    pub track: Track,
    pub sector: Sector,
}

// The fields of the volume table of contents, with the numbers that are made of its map.
#[derive(Clone, Copy, Debug, PartialEq, Eq)]
pub struct VolumeTableOfContents {
    pub track_number_of_first_catalog_sector: u8,
    pub sector_number_of_first_catalog_sector: u8,
    pub release_number_of_dos: u8,
    pub diskette_volume_number: u8,
    pub maximum_number_of_track_sector_pairs: u8,
    pub last_track_where_sectors_were_allocated: u8,
    pub direction_of_track_allocation: i8,
    pub number_of_tracks_per_diskette: u8,
    pub number_of_sectors_per_track: u8,
    pub number_of_bytes_per_sector: u16,
    pub free: u32,
    pub used: u32,
    pub percent_used: u32,
}

// Where a sector begins, on a disk of `per` sectors a track.
pub fn sector_start(per: u8, p: Place) -> usize
    ensures is { result ≡ start per p }
    ensures small { result < 16777216 }
{
    256 * (per as usize * p.track.0 as usize + p.sector.0 as usize)
}

// Byte k of a sector, 0 past the end of the disk.
pub fn byte_of(disk: &[u8], per: u8, p: Place, k: u16) -> u8
    ensures { result ≡ byte_of per disk.now p k }
{
    lists::byte_at(disk, sector_start(per, p) + k as usize)
}

// Where the link of a page or of a list leads: bytes 1 and 2 of its sector.
pub fn link_of(disk: &[u8], per: u8, p: Place) -> Place
    ensures { result ≡ link_of per disk.now p }
{
    let t = byte_of(disk, per, p, 1);
    let s = byte_of(disk, per, p, 2);
    Place {
        track: Track(t),
        sector: Sector(s),
    }
}

// Byte k of the volume table of contents, which stands on track 17, sector 0.
fn vtoc_byte(disk: &[u8], per: u8, k: u16) -> u8
    ensures { result ≡ byte_of per disk.now vtoc k }
{
    byte_of(
        disk,
        per,
        Place {
            track: Track(17),
            sector: Sector(0),
        },
        k,
    )
}

// The sectors of a track, by the disk's size: 13 for 116,480 bytes, else 16.
#[tactic(auto, unfolding(crate::specs::Disk::per_of))]
pub fn sectors_of(disk: &[u8]) -> u8
    ensures is { result ≡ per_of disk.now }
    ensures some { 0 < result }
    ensures small { result ≤ 16 }
{
    if disk.len() == 116480 { 13 } else { 16 }
}

// Two to the power of the map bits that are below sector 0's.
#[tactic(auto, unfolding(crate::specs::Vtoc::spare))]
fn spare_of(per: u8) -> u16
    ensures is { result ≡ spare per }
    ensures some { 0 < result }
{
    if per == 13 { 8 } else { 1 }
}

// Map bytes 0 and 1 of a track, as one number.
pub fn map_word(disk: &[u8], per: u8, t: u8) -> u16
    ensures { result ≡ map_word per disk.now t }
{
    let high = vtoc_byte(disk, per, 56 + 4 * (t as u16)) as u16;
    let low = vtoc_byte(disk, per, 57 + 4 * (t as u16)) as u16;
    256 * high + low
}

// The free sectors of a track: the ones among its map bits.
fn free_in(disk: &[u8], per: u8, t: u8) -> u32
    ensures is { result ≡ free_in per disk.now t }
    ensures small { result ≤ 16 }
{
    u16::count_ones(map_word(disk, per, t) / spare_of(per))
}

// A byte as a signed number.
fn signed_byte(b: u8) -> i8
    ensures { result ≡ signed b }
{
    if b < 128 { b as i8 } else { !((255 - b) as i8) }
}

// The free sectors of the disk's 35 tracks.
fn free_sectors(disk: &[u8], per: u8) -> u32
    ensures is { result ≡ free_below per disk.now 35 }
    ensures small { result ≤ 560 }
{
    let mut n: u32 = 0;
    for t in 0..35u8 {
        n += free_in(disk, per, t);
    }
    n
}

// The table names 35 or 40 tracks, and 13 sectors or as many as the disk has.
#[tactic(auto, unfolding(crate::specs::Vtoc::valid_table, crate::specs::Vtoc::one_of))]
fn valid_table(per: u8, tracks: u8, sectors: u8) -> bool
    ensures { result ≡ valid_table per tracks sectors }
{
    (tracks == 35 || tracks == 40) && (sectors == 13 || sectors == per)
}

// 100 times used / total, to the nearest number; exactly halfway, to the even one.
fn percent_of(total: u32, used: u32) -> u32
    requires { (0 < total) × (total ≤ 8925) × (used ≤ 8925) }
    ensures { result ≡ percent total used }
{
    let hundredfold = 100 * used;
    let below = hundredfold / total;
    let rest = hundredfold % total;
    if 2 * rest < total {
        return below;
    }
    if total < 2 * rest {
        return below + 1;
    }
    below + below % 2
}

// The fields as they stand on the disk.
fn table(disk: &[u8], per: u8) -> VolumeTableOfContents
    requires { 0 < per }
    ensures { result ≡ table_of per disk.now }
{
    let free = free_sectors(disk, per);
    let total = 35 * (per as u32);
    let used = total.saturating_sub(free);
    let percent = percent_of(total, used);
    let track = vtoc_byte(disk, per, 1);
    let sector = vtoc_byte(disk, per, 2);
    let release = vtoc_byte(disk, per, 3);
    let volume = vtoc_byte(disk, per, 6);
    let pairs = vtoc_byte(disk, per, 39);
    let last = vtoc_byte(disk, per, 48);
    let direction = signed_byte(vtoc_byte(disk, per, 49));
    let tracks = vtoc_byte(disk, per, 52);
    let sectors = vtoc_byte(disk, per, 53);
    let low = vtoc_byte(disk, per, 54) as u16;
    let high = vtoc_byte(disk, per, 55) as u16;
    VolumeTableOfContents {
        track_number_of_first_catalog_sector: track,
        sector_number_of_first_catalog_sector: sector,
        release_number_of_dos: release,
        diskette_volume_number: volume,
        maximum_number_of_track_sector_pairs: pairs,
        last_track_where_sectors_were_allocated: last,
        direction_of_track_allocation: direction,
        number_of_tracks_per_diskette: tracks,
        number_of_sectors_per_track: sectors,
        number_of_bytes_per_sector: low + 256 * high,
        free: free,
        used: used,
        percent_used: percent,
    }
}

// A flat disk that can be read; refusals 1 for its size, 2 for its table.
#[tactic(auto, unfolding(crate::specs::Vtoc::readable, crate::specs::Disk::sized, crate::specs::Vtoc::tabled))]
pub fn readable(disk: &[u8], per: u8) -> Result<(), Refusal>
    ensures { result ≡ readable per disk.now }
{
    if disk.len() != 256 * (35 * (per as usize)) {
        return Err(Refusal::OffSize);
    }
    if !valid_table(per, vtoc_byte(disk, per, 52), vtoc_byte(disk, per, 53)) {
        return Err(Refusal::NoTable);
    }
    Ok(())
}

// The volume table of contents of a disk of `per` sectors a track; refusals 1, 2.
#[tactic(auto, using(crate::proofs::Numbers::table_some), unfolding(crate::specs::Vtoc::parsed))]
pub fn table_of(disk: &[u8], per: u8) -> Result<VolumeTableOfContents, Refusal>
    ensures { result ≡ parsed per disk.now }
{
    readable(disk, per)?;
    Ok(table(disk, per))
}

// The volume table of contents of a flat disk; refusals 1, 2.
pub fn parse_volume_table_of_contents(disk: &[u8]) -> Result<VolumeTableOfContents, Refusal>
    ensures { result ≡ parsed (per_of disk.now) disk.now }
{
    table_of(disk, sectors_of(disk))
}

// A place that the disk has.
#[tactic(auto, unfolding(crate::specs::Disk::on_disk))]
pub fn on_disk(per: u8, p: Place) -> bool
    ensures { result ≡ on_disk per p }
{
    p.track.0 < 35 && p.sector.0 < per
}

// The turns that a walk along a chain of sectors has, no sector being marked: one more than there are sectors. They run out in a ring alone.
pub fn chain_budget(per: u8) -> u16
    ensures { result ≡ sectors per + 1 }
{
    35 * (per as u16) + 1
}

// A sector of a disk of `per` sectors a track, as a part of it; refusals 1 for the size, 3 for the place.
#[tactic(auto, unfolding(crate::specs::Window::sector_in, crate::specs::Disk::sized, crate::specs::Disk::bytes_of))]
fn sector_in(disk: &[u8], per: u8, p: Place) -> Result<&[u8], Refusal>
    ensures { seen result ≡ sector_in per disk.now p }
{
    if disk.len() != 256 * (35 * (per as usize)) {
        return Err(Refusal::OffSize);
    }
    if !on_disk(per, p) {
        return Err(Refusal::OffDisc);
    }
    let start = sector_start(per, p);
    Ok(&disk[start..start + 256])
}

// A sector as a part of the disk if flat, else of the unrolled image; refusals 1, 3.
pub fn window<'a>(
    disk: &'a [u8],
    image: &'a [u8],
    flat: bool,
    track: Track,
    sector: Sector,
) -> Result<&'a [u8], Refusal>
    ensures { seen result ≡ windowed disk.now image.now flat (place track.0 sector.0) }
{
    let d = if flat { disk } else { image };
    sector_in(d, sectors_of(d), Place { track, sector })
}
