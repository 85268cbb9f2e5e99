// The sectors of a saved file, lists and data, written to a flat disk: Req 09. Not of the Rust.
#![tactic(auto)]

ghost use Rattle.std.specs.Prelude.{◌≡◌, ◌<◌, ◌≤◌, length};
ghost use Rattle.filing.specs.Filing.{place_in, Filed};
ghost use Rattle.filing.specs.Steps.{ListMade, DataMade, DataPut, ListsWritten, DataWritten};

use disk::{Place, Sector, Track, sector_start};
use lists::{byte_at, copy_at, part, put_word};

// Place i of those kept as pairs of bytes.
fn place_in(places: &[u8], i: usize) -> Place
    requires { i < 131 }
    ensures { result ≡ place_in places.now i }
{
    let track = byte_at(places, 2 * i);
    let sector = byte_at(places, 2 * i + 1);
    Place {
        track: Track(track),
        sector: Sector(sector),
    }
}

// The 256 bytes of list j: the next list, the pairs of earlier lists, its own pairs.
fn list_sector(places: &[u8], j: usize) -> [u8; 256]
    requires { j < 2 }
    ensures { ListMade places.now j result }
{
    let track = byte_at(places, 246 * (j + 1));
    let sector = byte_at(places, 246 * (j + 1) + 1);
    let low = (122 * j % 256) as u8;
    let high = (122 * j / 256 % 256) as u8;
    let head = [0u8, track, sector, 0, 0, low, high, 0, 0, 0, 0, 0];
    let mut list = [0u8; 256];
    copy_at(&head, &mut list, 0);
    copy_at(part(places, 246 * j + 2, 244), &mut list, 12);
    list
}

// The 256 bytes of data sector k: address and length stand before the data.
fn data_sector(address: u16, data: &[u8], k: usize) -> [u8; 256]
    requires { (length «data».now ≤ 32768) × (k < 129) }
    ensures { DataMade address «data».now k result }
{
    let mut sector = [0u8; 256];
    if k == 0 {
        put_word(&mut sector, 0, address);
        put_word(&mut sector, 2, data.len() as u16);
        copy_at(part(data, 0, 252), &mut sector, 4);
        return sector;
    }
    copy_at(part(data, 256 * k - 4, 256), &mut sector, 0);
    sector
}

// Writes the first lists.
fn write_lists(disk: &mut [u8], places: &[u8], count: usize)
    requires { count ≤ 2 }
    ensures { ListsWritten places.now count disk.old disk.new }
{
    for j in 0..count {
        let list = list_sector(places, j);
        let at = sector_start(16, place_in(places, 123 * j));
        copy_at(&list, disk, at);
    }
}

// Writes data sector k; one that the data fill whole is copied straight from them.
fn put_data(disk: &mut [u8], places: &[u8], address: u16, data: &[u8], k: usize)
    requires { (length «data».now ≤ 32768) × (k < 129) }
    ensures { DataPut places.now address «data».now k disk.old disk.new }
{
    let at = sector_start(16, place_in(places, k + 1 + k / 122));
    if k != 0 {
        if 256 * k + 252 <= data.len() {
            copy_at(part(data, 256 * k - 4, 256), disk, at);
            return;
        }
    }
    let sector = data_sector(address, data, k);
    copy_at(&sector, disk, at);
}

// Writes the first data sectors.
fn write_data(disk: &mut [u8], places: &[u8], address: u16, data: &[u8], count: usize)
    requires { (length «data».now ≤ 32768) × (count ≤ 129) }
    ensures { DataWritten places.now address «data».now count disk.old disk.new }
{
    for k in 0..count {
        put_data(disk, places, address, data, k);
    }
}

// Writes the lists and the data of a file from the places of its sectors; nothing for data over 32,768.
pub fn write_file(disk: &mut [u8], places: &[u8], address: u16, data: &[u8])
    ensures { Filed places.now address «data».now disk.old disk.new }
{
    if 32768 < data.len() {
        return;
    }
    let count = (4 + data.len() + 255) / 256;
    write_lists(disk, places, (count + 121) / 122);
    write_data(disk, places, address, data, count);
}
