// What the trial programs share of showing a disk: its table and its survey, which are zeros where it is refused.
// All is proved to end and never to trap, and no more than that.
#![tactic(auto)]

use disk::VolumeTableOfContents;
use files::DiskSurvey;
use trial::shown;

const NO_TABLE: VolumeTableOfContents = VolumeTableOfContents {
    track_number_of_first_catalog_sector: 0,
    sector_number_of_first_catalog_sector: 0,
    release_number_of_dos: 0,
    diskette_volume_number: 0,
    maximum_number_of_track_sector_pairs: 0,
    last_track_where_sectors_were_allocated: 0,
    direction_of_track_allocation: 0,
    number_of_tracks_per_diskette: 0,
    number_of_sectors_per_track: 0,
    number_of_bytes_per_sector: 0,
    free: 0,
    used: 0,
    percent_used: 0,
};

const NO_SURVEY: DiskSurvey = DiskSurvey {
    volume: 0,
    entries: 0,
    free: 0,
    used: 0,
    percent_used: 0,
    archive_blocks: 0,
    links: 0,
};

// The table of a disk, its refusal being shown behind the text.
pub fn table(text: &[u8], disk: &[u8]) -> VolumeTableOfContents {
    shown(text, disk::parse_volume_table_of_contents(disk), NO_TABLE)
}

// The survey of a disk, its refusal being shown.
pub fn survey(disk: &[u8]) -> DiskSurvey {
    shown(b"survey: refusal", files::survey(disk), NO_SURVEY)
}

// The same, and nothing is shown.
pub fn survey_of(disk: &[u8]) -> DiskSurvey {
    files::survey(disk).unwrap_or(NO_SURVEY)
}
