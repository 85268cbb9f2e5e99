// The functions exported to a host: docs/HOST-API.md. Each calls the library function of the same job, and tells its answer.
#![tactic(auto)]

ghost use Rattle.std.specs.Prelude.{◌≡◌, cond, ltb, Ok};
ghost use Rattle.outcome.specs.Outcome.{number, Hands};
ghost use Rattle.disk.specs.Disk.{per_of, place, byte_of};
ghost use Rattle.disk.specs.Vtoc.{vtoc};
ghost use Rattle.disk.specs.Window.{windowed};
ghost use Rattle.catalog.specs.Listing.{listed};
ghost use Rattle.files.specs.Contents.{pair_bytes};
ghost use Rattle.files.specs.Survey.{fetched};
ghost use Rattle.pairs.specs.Run.{pair_run};
ghost use Rattle.files.specs.Chosen.{file_of_number, lists_of_number};
ghost use Rattle.amend.specs.Save.{saved, deleted};
ghost use Rattle.sides.specs.Sides.{saved_for, deleted_for};
ghost use Rattle.forecast.specs.Forecast.{forecast_numbers};
ghost use Rattle.nibble.specs.Nibble.{encoded};
ghost use Rattle.fields.specs.declared.Edition.TheVariants.{Sixteen, Thirteen};
ghost use Rattle.stream.specs.Stream.{image, sector_of};
ghost use Rattle.nibblize.specs.Nibblize.{nibblized};
ghost use Rattle.archive.specs.Archive.{archive_of, check};
ghost use Rattle.records.specs.Records.{entry_written, page_written, file_written};
ghost use Rattle.fields.specs.Search.{recognized};
ghost use Rattle.reader.specs.Steps.{entry_step};
ghost use Rattle.host.specs.Exports.{Exports, Fields, Puts, Amends, Told, yes, letters_of, vtoc_values, vtoc_numbers, survey_numbers, holder_numbers, open_numbers, entry_fields, entry_numbers, format_numbers};
ghost use Rattle.host.specs.Sides.{side_of};

use disk::{Place, Sector, Track, VolumeTableOfContents};
use lists::copy_at;
use outcome::Refusal;
use pairs::TrackSectorPair;
use reader::Entry;
use sides::Side;

// Tells an answer: the refusal's number, or 0 and how many were written behind `length`.
fn tell(answer: Result<usize, Refusal>, length: &mut u64) -> u8
    ensures { Told answer length.old length.new result }
{
    match answer {
        Ok(written) => {
            *length = written as u64;
            0
        },
        Err(why) => u8::from(why),
    }
}

// The number of an answer: 0 where nothing was refused.
fn number_of<T: Drop>(answer: Result<T, Refusal>) -> u8
    ensures { result ≡ number answer }
{
    match answer {
        Ok(_) => 0,
        Err(refusal) => u8::from(refusal),
    }
}

// The catalog, 37 bytes an entry. 1, 2, pages, 12.
#[unsafe(no_mangle)]
pub extern "C" fn dos33_catalog(disk: &[u8], out: &mut [u8], length: &mut u64) -> u8
    ensures { Exports (listed (per_of disk.now) disk.now) out.old out.new length.old length.new result }
{
    let answer = catalog::parse_catalogs(disk, out).map(|listing| listing.length);
    tell(answer, length)
}

// The track/sector lists of an entry, two bytes each. 1 to 6, 12.
#[unsafe(no_mangle)]
pub extern "C" fn dos33_lists(disk: &[u8], entry: u64, out: &mut [u8], length: &mut u64) -> u8
    ensures { Exports (lists_of_number (per_of disk.now) disk.now entry) out.old out.new length.old length.new result }
{
    let answer = files::track_sector_lists(disk, entry, out);
    tell(answer, length)
}

// The pairs of the list at a location, two bytes each. 1, 3, 12.
#[unsafe(no_mangle)]
pub extern "C" fn dos33_pairs(
    disk: &[u8],
    track: u8,
    sector: u8,
    out: &mut [u8],
    length: &mut u64,
) -> u8
    ensures { Exports (pair_bytes (per_of disk.now) disk.now (place track sector)) out.old out.new length.old length.new result }
{
    let answer = files::track_sector_pairs(disk, Track(track), Sector(sector), out);
    tell(answer, length)
}

// The same in a run of structs, whose number goes behind `length`. 1, 3, 12.
#[unsafe(no_mangle)]
pub extern "C" fn dos33_pair_run(
    disk: &[u8],
    track: u8,
    sector: u8,
    run: &mut [TrackSectorPair],
    length: &mut u64,
) -> u8
    ensures { Exports (pair_run (per_of disk.now) disk.now (place track sector)) run.old run.new length.old length.new result }
{
    let answer = pairs::pair_run(disk, track, sector, run);
    tell(answer, length)
}

// The bytes of an entry. 1 to 6, 12.
#[unsafe(no_mangle)]
pub extern "C" fn dos33_file(disk: &[u8], entry: u64, out: &mut [u8], length: &mut u64) -> u8
    ensures { Exports (file_of_number (per_of disk.now) disk.now entry) out.old out.new length.old length.new result }
{
    let answer = files::file(disk, entry, out);
    tell(answer, length)
}

// The bytes of the last entry with that shown name. 1 to 6, 18, 12.
#[unsafe(no_mangle)]
pub extern "C" fn dos33_fetch(disk: &[u8], name: &[u8], out: &mut [u8], length: &mut u64) -> u8
    ensures { Exports (fetched (per_of disk.now) disk.now name.now) out.old out.new length.old length.new result }
{
    let answer = files::fetch(disk, name, out);
    tell(answer, length)
}

// The disk's archive. 1 to 6, 7, 12.
#[unsafe(no_mangle)]
pub extern "C" fn dos33_archive_write(disk: &[u8], out: &mut [u8], length: &mut u64) -> u8
    ensures { Exports (archive_of (per_of disk.now) disk.now) out.old out.new length.old length.new result }
{
    let answer = writer::write_archive(disk, out);
    tell(answer, length)
}

// The archive is the disk's. 1 to 6, 7, 13.
#[unsafe(no_mangle)]
pub extern "C" fn dos33_archive_check(disk: &[u8], archive: &[u8]) -> u8
    ensures { result ≡ number (check (per_of disk.now) disk.now archive.now) }
{
    number_of(writer::check_archive(disk, archive))
}

// Saves a Binary file, not locked: the disk is changed in place. 1 to 6, 20, 14, 22, 21.
#[unsafe(no_mangle)]
pub extern "C" fn dos33_save(disk: &mut [u8], name: &[u8], address: u16, data: &[u8]) -> u8
    ensures { Amends (saved 16 disk.old name.now address «data».now) disk.old disk.new result }
{
    number_of(saving::save(disk, name, address, data))
}

// Deletes the last entry of the name, locked or not: the disk is changed in place. 1 to 6, 20, 14, 18.
#[unsafe(no_mangle)]
pub extern "C" fn dos33_delete(disk: &mut [u8], name: &[u8]) -> u8
    ensures { Amends (deleted 16 disk.old name.now) disk.old disk.new result }
{
    number_of(saving::delete(disk, name))
}

// The side that a host names by a byte: 0 is ours, anything else the survey office.
fn side_of(side: u8) -> Side
    ensures { result ≡ side_of side }
{
    if side == 0 { Side::Ours } else { Side::Survey }
}

// A save by a side, within its limit of sectors. 1 to 6, 20, 14, 23, 22, 24, 21.
#[unsafe(no_mangle)]
pub extern "C" fn dos33_save_for(
    disk: &mut [u8],
    side: u8,
    limit: u64,
    name: &[u8],
    address: u16,
    data: &[u8],
) -> u8
    ensures { Amends (saved_for 16 disk.old (side_of side) limit name.now address «data».now) disk.old disk.new result }
{
    let asker = side_of(side);
    number_of(saving::save_for(disk, asker, limit, name, address, data))
}

// A delete by a side; its limit is not looked at. 1 to 6, 20, 14, 23, 18.
#[unsafe(no_mangle)]
pub extern "C" fn dos33_delete_for(disk: &mut [u8], side: u8, limit: u64, name: &[u8]) -> u8
    ensures { Amends (deleted_for 16 disk.old (side_of side) limit name.now) disk.old disk.new result }
{
    let asker = side_of(side);
    number_of(saving::delete_for(disk, asker, limit, name))
}

// The 342 nibbles of a sector and their sum. 1, 12.
#[unsafe(no_mangle)]
pub extern "C" fn dos33_encode_sector(sector: &[u8], out: &mut [u8], length: &mut u64) -> u8
    ensures { Exports (encoded sector.now) out.old out.new length.old length.new result }
{
    let answer = nibble::encode_sector(sector, out);
    tell(answer, length)
}

// A sector of a stream, by the key of its address field. 8, 9, 10, 12.
#[unsafe(no_mangle)]
pub extern "C" fn dos33_sector(
    stream: &[u8],
    volume: u8,
    track: u8,
    sector: u8,
    out: &mut [u8],
    length: &mut u64,
) -> u8
    ensures { Exports (sector_of Sixteen volume track sector stream.now) out.old out.new length.old length.new result }
{
    let answer = stream::sector(stream, volume, track, sector, out);
    tell(answer, length)
}

// The flat disk of a stream. 8, 11, 9, 10, 12.
#[unsafe(no_mangle)]
pub extern "C" fn dos33_denibblize(stream: &[u8], out: &mut [u8], length: &mut u64) -> u8
    ensures { Exports (image Sixteen stream.now) out.old out.new length.old length.new result }
{
    let answer = stream::denibblize(stream, out);
    tell(answer, length)
}

// A sector of a stream of 13 sectors a track, by the key of its address field. 8, 9, 10, 12.
#[unsafe(no_mangle)]
pub extern "C" fn dos33_sector_13(
    stream: &[u8],
    volume: u8,
    track: u8,
    sector: u8,
    out: &mut [u8],
    length: &mut u64,
) -> u8
    ensures { Exports (sector_of Thirteen volume track sector stream.now) out.old out.new length.old length.new result }
{
    let answer = stream::sector_13(stream, volume, track, sector, out);
    tell(answer, length)
}

// The flat disk of a stream of 13 sectors a track. 8, 11, 9, 10, 12.
#[unsafe(no_mangle)]
pub extern "C" fn dos33_denibblize_13(stream: &[u8], out: &mut [u8], length: &mut u64) -> u8
    ensures { Exports (image Thirteen stream.now) out.old out.new length.old length.new result }
{
    let answer = stream::denibblize_13(stream, out);
    tell(answer, length)
}

// The nibble stream of a flat disk. 1, 12.
#[unsafe(no_mangle)]
pub extern "C" fn dos33_nibblize(disk: &[u8], out: &mut [u8], length: &mut u64) -> u8
    ensures { Exports (nibblized disk.now) out.old out.new length.old length.new result }
{
    let answer = nibblize::nibblize(disk, out);
    tell(answer, length)
}

// The record of an entry. 14, 12.
#[unsafe(no_mangle)]
pub extern "C" fn dos33_entry_record(
    track: u8,
    sector: u8,
    kind: u8,
    locked: u8,
    name: &[u8],
    count: u16,
    out: &mut [u8],
    length: &mut u64,
) -> u8
    ensures { Exports (entry_written (place track sector) kind (yes locked) name.now count) out.old out.new length.old length.new result }
{
    let list = Place {
        track: Track(track),
        sector: Sector(sector),
    };
    let answer = records::file_entry_as_vec(list, kind, locked != 0, name, count, out);
    tell(answer, length)
}

// A catalog page. 16, 14, 12.
#[unsafe(no_mangle)]
pub extern "C" fn dos33_catalog_page(
    header: &[u8],
    entries: &[u8],
    out: &mut [u8],
    length: &mut u64,
) -> u8
    ensures { Exports (page_written header.now entries.now) out.old out.new length.old length.new result }
{
    let answer = records::catalog_as_vec(header, entries, out);
    tell(answer, length)
}

// A Binary file. 15, 12.
#[unsafe(no_mangle)]
pub extern "C" fn dos33_binary_file(
    kind: u8,
    address: u16,
    size: u16,
    data: &[u8],
    out: &mut [u8],
    length: &mut u64,
) -> u8
    ensures { Exports (file_written kind address size «data».now) out.old out.new length.old length.new result }
{
    let answer = records::full_file_as_vec(kind, address, size, data, out);
    tell(answer, length)
}

// 96h or B5h, or 0 for none.
#[unsafe(no_mangle)]
pub extern "C" fn dos33_recognize_prologue(stream: &[u8]) -> u8
    ensures { result ≡ recognized stream.now }
{
    fields::recognize_prologue(stream)
}

// Hands the bytes over; 12 where there is too little space.
fn put_bytes(bytes: &[u8], out: &mut [u8]) -> Result<usize, Refusal>
    ensures { Hands (Ok bytes.now) out.old out.new result }
{
    if out.len() < bytes.len() {
        return Err(Refusal::TrayShort);
    }
    copy_at(bytes, out, 0);
    Ok(bytes.len())
}

// The bytes of a sector of the disk if flat, else of the image.
fn put_window<'a>(
    disk: &'a [u8],
    image: &'a [u8],
    flat: bool,
    place: Place,
    out: &mut [u8],
) -> Result<usize, Refusal>
    ensures { Hands (windowed disk.now image.now flat place) out.old out.new result }
{
    let bytes = disk::window(disk, image, flat, place.track, place.sector)?;
    put_bytes(bytes, out)
}

// A sector of the disk if flat, else of the image. 1, 3, 12.
#[unsafe(no_mangle)]
pub extern "C" fn dos33_window<'a>(
    disk: &'a [u8],
    image: &'a [u8],
    flat: u8,
    track: u8,
    sector: u8,
    out: &mut [u8],
    length: &mut u64,
) -> u8
    ensures { Exports (windowed disk.now image.now (yes flat) (place track sector)) out.old out.new length.old length.new result }
{
    let place = Place {
        track: Track(track),
        sector: Sector(sector),
    };
    tell(put_window(disk, image, flat != 0, place, out), length)
}

// The letters of the word for a number: none where no refusal has it.
#[tactic(auto, unfolding(crate::specs::Exports::letters_of))]
fn letters_of(number: u8) -> &'static str
    ensures { result.now ≡ letters_of number }
{
    match Refusal::try_from(number) {
        Ok(refusal) => refusal.word(),
        Err(_) => "",
    }
}

// The letters of a refusal's word, by its number: at most 17, and none where no refusal has the number, as for 0. 12.
#[unsafe(no_mangle)]
pub extern "C" fn dos33_refusal_word(number: u8, out: &mut [u8], length: &mut u64) -> u8
    ensures { Exports (Ok (letters_of number)) out.old out.new length.old length.new result }
{
    let letters = letters_of(number);
    tell(put_bytes(letters.as_bytes(), out), length)
}

// Hands the values over; 12 where there are too few elements.
fn put_fields(values: &[u64], fields: &mut [u64]) -> Result<(), Refusal>
    ensures { Puts (Ok values.now) fields.old fields.new result }
{
    if fields.len() < values.len() {
        return Err(Refusal::TrayShort);
    }
    fields[..values.len()].copy_from_slice(values);
    Ok(())
}

// The direction of a VTOC as its byte.
fn direction_byte(disk: &[u8]) -> u8
    ensures { result ≡ byte_of (per_of disk.now) disk.now vtoc 49 }
{
    let table = Place {
        track: Track(17),
        sector: Sector(0),
    };
    disk::byte_of(disk, disk::sectors_of(disk), table, 49)
}

// The thirteen numbers of a table, with the byte of its direction.
fn vtoc_values(v: VolumeTableOfContents, direction: u8) -> [u64; 13]
    ensures { result ≡ vtoc_values v direction }
{
    [
        v.track_number_of_first_catalog_sector as u64,
        v.sector_number_of_first_catalog_sector as u64,
        v.release_number_of_dos as u64,
        v.diskette_volume_number as u64,
        v.maximum_number_of_track_sector_pairs as u64,
        v.last_track_where_sectors_were_allocated as u64,
        direction as u64,
        v.number_of_tracks_per_diskette as u64,
        v.number_of_sectors_per_track as u64,
        v.number_of_bytes_per_sector as u64,
        v.free as u64,
        v.used as u64,
        v.percent_used as u64,
    ]
}

// Hands the numbers of a VTOC over.
fn put_vtoc(disk: &[u8], fields: &mut [u64]) -> Result<(), Refusal>
    ensures { Puts (vtoc_numbers disk.now) fields.old fields.new result }
{
    let v = disk::parse_volume_table_of_contents(disk)?;
    put_fields(&vtoc_values(v, direction_byte(disk)), fields)
}

// The numbers of a VTOC. 1, 2, 12.
#[unsafe(no_mangle)]
pub extern "C" fn dos33_vtoc(disk: &[u8], fields: &mut [u64]) -> u8
    ensures { Fields (vtoc_numbers disk.now) fields.old fields.new result }
{
    number_of(put_vtoc(disk, fields))
}

// Hands the numbers of a survey over.
fn put_survey(disk: &[u8], fields: &mut [u64]) -> Result<(), Refusal>
    ensures { Puts (survey_numbers disk.now) fields.old fields.new result }
{
    let s = files::survey(disk)?;
    let values = [
        s.volume as u64,
        s.entries as u64,
        s.free as u64,
        s.used as u64,
        s.percent_used as u64,
        s.archive_blocks,
        s.links,
    ];
    put_fields(&values, fields)
}

// The numbers of a survey. 1 to 6, 12.
#[unsafe(no_mangle)]
pub extern "C" fn dos33_survey(disk: &[u8], fields: &mut [u64]) -> u8
    ensures { Fields (survey_numbers disk.now) fields.old fields.new result }
{
    number_of(put_survey(disk, fields))
}

// 1 for yes, 0 for no.
fn bit(b: bool) -> u64
    ensures { result ≡ cond b 1 0 }
{
    if b { 1 } else { 0 }
}

// Hands the numbers of the holders over.
fn put_holders(disk: &[u8], fields: &mut [u64]) -> Result<(), Refusal>
    ensures { Puts (holder_numbers disk.now) fields.old fields.new result }
{
    let h = holders::holders(disk)?;
    let values = [
        h.unheld as u64,
        h.held_once as u64,
        h.shared as u64,
        h.held_free as u64,
        bit(h.clean),
    ];
    put_fields(&values, fields)
}

// The numbers of the holders: sectors held by no one, by one, by more; held ones that the map calls free; 1 for a clean disk. 1 to 6, 12.
#[unsafe(no_mangle)]
pub extern "C" fn dos33_holders(disk: &[u8], fields: &mut [u64]) -> u8
    ensures { Fields (holder_numbers disk.now) fields.old fields.new result }
{
    number_of(put_holders(disk, fields))
}

// What saves of these lengths, in order, will need: data sectors, list sectors and entry lines in all, then for each length 1 where its save would end in 21,
// else 0. 25, 1 to 6, 20, 12.
#[unsafe(no_mangle)]
pub extern "C" fn dos33_forecast(disk: &[u8], lengths: &[u64], fields: &mut [u64]) -> u8
    ensures { Fields (forecast_numbers disk.now lengths.now) fields.old fields.new result }
{
    number_of(forecast::forecast(disk, lengths, fields))
}

// Hands the numbers of an archive over.
fn put_opened(archive: &[u8], fields: &mut [u64]) -> Result<(), Refusal>
    ensures { Puts (open_numbers archive.now) fields.old fields.new result }
{
    let o = reader::open(archive)?;
    let values = [o.volume as u64, o.first as u64, o.blocks as u64];
    put_fields(&values, fields)
}

// The numbers of an archive that is opened. 13, 12.
#[unsafe(no_mangle)]
pub extern "C" fn dos33_archive_open(archive: &[u8], fields: &mut [u64]) -> u8
    ensures { Fields (open_numbers archive.now) fields.old fields.new result }
{
    number_of(put_opened(archive, fields))
}

// The eight numbers of an entry; zeros where there is none.
fn entry_values(found: Option<Entry>) -> [u64; 8]
    ensures { result ≡ entry_fields found }
{
    match found {
        Some(e) => [
            1,
            e.next as u64,
            e.first as u64,
            e.kind as u64,
            e.locked as u64,
            e.name_length as u64,
            e.count as u64,
            e.size as u64,
        ],
        None => [0; 8],
    }
}

// Hands the numbers of an archive's entry over.
fn put_entry(archive: &[u8], block: u64, fields: &mut [u64]) -> Result<(), Refusal>
    ensures { Puts (entry_numbers archive.now block) fields.old fields.new result }
{
    let found = reader::entry_at(archive, block)?;
    put_fields(&entry_values(found), fields)
}

// The numbers of an archive's entry by its block; eight zeros at the end. 13, 12.
#[unsafe(no_mangle)]
pub extern "C" fn dos33_archive_entry(archive: &[u8], block: u64, fields: &mut [u64]) -> u8
    ensures { Fields (entry_numbers archive.now block) fields.old fields.new result }
{
    number_of(put_entry(archive, block, fields))
}

// A block that may have an entry, else 0.
fn block_number(block: u64) -> u16
    ensures { result ≡ cond (ltb block 4096) block 0 }
{
    if block < 4096 { block as u16 } else { 0 }
}

// The same of a block that opening or a step gave: that block alone is looked at. 12.
#[unsafe(no_mangle)]
pub extern "C" fn dos33_archive_step(archive: &[u8], block: u64, fields: &mut [u64]) -> u8
    ensures { Fields (Ok (entry_fields (entry_step archive.now block))) fields.old fields.new result }
{
    let found = cursor::entry_from(archive, block_number(block));
    number_of(put_fields(&entry_values(found), fields))
}

// Hands over what the recogniser says.
fn put_format(data: &[u8], fields: &mut [u64]) -> Result<(), Refusal>
    ensures { Puts (format_numbers «data».now) fields.old fields.new result }
{
    let found = records::format_from_data(data)?;
    put_fields(&[bit(found)], fields)
}

// 1 for a DOS 3.3 disk, else 0. 17, 12.
#[unsafe(no_mangle)]
pub extern "C" fn dos33_format_from_data(data: &[u8], fields: &mut [u64]) -> u8
    ensures { Fields (format_numbers «data».now) fields.old fields.new result }
{
    number_of(put_format(data, fields))
}
