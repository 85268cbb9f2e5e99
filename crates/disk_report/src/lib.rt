// What is said of a flat disk: its files with the links to them, and its survey, as text or as the rest of an object of JSON whose front says what was read.
#![tactic(auto)]

use file_walk::{Purpose, follow_files, refuse};
use files::DiskSurvey;
use holders::HolderCounts;
use outcome::Refusal;
use page_walk::{Aim, follow_pages};
use screen::space::archive_space;
use screen::{
    Failure, STDOUT_FILENO, count, finish, heads, json, right, say, text_number, text_place,
};
use sides::{Side, count_held};

// The volume of a disk that has a VTOC.
fn volume_of(disk: &[u8]) -> u64 {
    match disk::parse_volume_table_of_contents(disk) {
        Ok(v) => u64::from(v.diskette_volume_number),
        Err(_) => 0,
    }
}

// The links of the VTOC and the pages, then the files with their lists.
fn list_links(disk: &[u8], to_do: Purpose, archive: &[u8]) {
    text_number(
        STDOUT_FILENO,
        b"\nCatalog\n  VTOC 17/0     volume ",
        volume_of(disk),
    );
    text_place(
        STDOUT_FILENO,
        b" -> page ",
        catalog::first_page(disk, disk::sectors_of(disk)),
    );
    say(b"\n");
    if follow_pages(disk, to_do.aim).is_ok() {
        say(b"\nFiles\n");
        heads(STDOUT_FILENO);
        let _ = follow_files(disk, to_do, archive);
    }
}

fn list_end(rt: &HostRuntime, disk: &[u8], s: DiskSurvey) -> Result<(), Failure> {
    let pages = match catalog::count_pages(disk) {
        Ok(pages) => u64::from(pages.count),
        Err(_) => 0,
    };
    say(b"\n");
    count(STDOUT_FILENO, u64::from(s.entries), b"file", b"files");
    say(b", ");
    count(STDOUT_FILENO, s.links, b"link", b"links");
    say(b" followed: ");
    count(STDOUT_FILENO, pages, b"catalog page", b"catalog pages");
    if let Some(lists) = s.links.checked_sub(pages) {
        say(b" and ");
        count(
            STDOUT_FILENO,
            lists,
            b"track/sector list",
            b"track/sector lists",
        );
    }
    finish(rt, b"\n")
}

// Whether each file of a disk may be fetched, which follows all links for each entry.
fn may_fetch(survey: Result<DiskSurvey, Refusal>) -> bool {
    match survey {
        Ok(s) => s.links <= 4000000 / (u64::from(s.entries) + 1),
        Err(_) => false,
    }
}

// The same links as JSON.
fn object_links(disk: &[u8], to_do: Purpose, archive: &[u8]) {
    text_number(STDOUT_FILENO, b",\n  \"volume\": ", volume_of(disk));
    say(b",\n  \"pages\": [");
    let followed = follow_pages(disk, to_do.aim);
    say(b"\n  ],\n  \"files\": [");
    if followed.is_ok() {
        let _ = follow_files(disk, to_do, archive);
    }
    say(b"\n  ]");
}

fn object_end(rt: &HostRuntime, survey: Result<DiskSurvey, Refusal>) -> Result<(), Failure> {
    say(b",\n  \"links\": ");
    json::known(survey.ok().map(|s| s.links));
    finish(rt, b"\n}\n")
}

// A disk without a table, or one that a stream does not hold: nothing is listed.
pub fn none_listed(why: Refusal) {
    json::refusal(Some(why));
    say(b",\n  \"volume\": null,\n  \"pages\": [],\n  \"files\": [],\n  \"links\": null\n}\n");
}

fn refuse_table(disk: &[u8], object: bool) -> Failure {
    if object {
        none_listed(Refusal::NoTable);
    }
    refuse(disk, Refusal::NoTable)
}

// The list, as an object of JSON or as lines.
fn show_list(
    rt: &HostRuntime,
    disk: &[u8],
    survey: Result<DiskSurvey, Refusal>,
    to_do: Purpose,
    archive: &[u8],
) -> Result<(), Failure> {
    if to_do.aim == Aim::Objects {
        json::refusal(survey.err());
        object_links(disk, to_do, archive);
        return object_end(rt, survey);
    }
    list_links(disk, to_do, archive);
    match survey {
        Ok(s) => list_end(rt, disk, s),
        Err(_) => Ok(()),
    }
}

// Lists the files of a disk, or says why it is refused.
pub fn list(rt: &HostRuntime, disk: &[u8], raw: bool, object: bool) -> Result<(), Failure> {
    let survey = files::survey(disk);
    if survey.err() == Some(Refusal::NoTable) {
        return Err(refuse_table(disk, object));
    }
    let mut out = archive_space();
    let length = writer::write_archive(disk, &mut out).unwrap_or(0);
    let to_do = Purpose {
        aim: if object { Aim::Objects } else { Aim::Lines },
        raw,
        fetch: may_fetch(survey),
    };
    let shown = show_list(rt, disk, survey, to_do, lists::part(&out, 0, length));
    match survey {
        Ok(_) => shown,
        Err(why) => Err(refuse(disk, why)),
    }
}

// What is known of a disk that is not refused: its survey, its holders, and how many sectors each side holds.
#[derive(Clone, Copy)]
struct Report {
    disk: DiskSurvey,
    holders: HolderCounts,
    ours: u64,
    survey_office: u64,
}

fn report_on(disk: &[u8]) -> Result<Report, Refusal> {
    let survey = files::survey(disk)?;
    let holders = holders::holders(disk)?;
    let per = disk::sectors_of(disk);
    Ok(Report {
        disk: survey,
        holders,
        ours: count_held(disk, per, Side::Ours),
        survey_office: count_held(disk, per, Side::Survey),
    })
}

fn survey_line(what: &[u8], n: u64) {
    say(what);
    right(STDOUT_FILENO, n, 9);
}

fn survey_lines(rt: &HostRuntime, s: Report) -> Result<(), Failure> {
    survey_line(b"\n  volume        ", u64::from(s.disk.volume));
    survey_line(b"\n  entries       ", u64::from(s.disk.entries));
    survey_line(b"\n  free sectors  ", u64::from(s.disk.free));
    survey_line(b"\n  used sectors  ", u64::from(s.disk.used));
    survey_line(b"\n  percent used  ", u64::from(s.disk.percent_used));
    survey_line(b"\n  archive blocks", s.disk.archive_blocks);
    survey_line(b"\n  links followed", s.disk.links);
    survey_line(b"\n  our sectors   ", s.ours);
    survey_line(b"\n  survey office ", s.survey_office);
    survey_line(b"\n  unheld sectors", u64::from(s.holders.unheld));
    survey_line(b"\n  held once     ", u64::from(s.holders.held_once));
    survey_line(b"\n  shared sectors", u64::from(s.holders.shared));
    survey_line(b"\n  held but free ", u64::from(s.holders.held_free));
    if s.holders.clean {
        return finish(rt, b"\n  clean               yes\n");
    }
    finish(rt, b"\n  clean                no\n")
}

// A key of the survey, whose value is null where the disk is refused.
fn survey_key(key: &[u8], n: Option<u64>) {
    say(b",\n  \"");
    say(key);
    say(b"\": ");
    json::known(n);
}

// The object of a disk, or of none: its values are null where there is a refusal.
fn survey_object(rt: &HostRuntime, survey: Result<Report, Refusal>) -> Result<(), Failure> {
    json::refusal(survey.err());
    let s = survey.ok();
    survey_key(b"volume", s.map(|s| u64::from(s.disk.volume)));
    survey_key(b"entries", s.map(|s| u64::from(s.disk.entries)));
    survey_key(b"free", s.map(|s| u64::from(s.disk.free)));
    survey_key(b"used", s.map(|s| u64::from(s.disk.used)));
    survey_key(b"percent_used", s.map(|s| u64::from(s.disk.percent_used)));
    survey_key(b"archive_blocks", s.map(|s| s.disk.archive_blocks));
    survey_key(b"links", s.map(|s| s.disk.links));
    survey_key(b"our_sectors", s.map(|s| s.ours));
    survey_key(b"survey_office_sectors", s.map(|s| s.survey_office));
    survey_key(b"unheld", s.map(|s| u64::from(s.holders.unheld)));
    survey_key(b"held_once", s.map(|s| u64::from(s.holders.held_once)));
    survey_key(b"shared", s.map(|s| u64::from(s.holders.shared)));
    survey_key(b"held_free", s.map(|s| u64::from(s.holders.held_free)));
    say(b",\n  \"clean\": ");
    match s {
        Some(s) => json::boolean(s.holders.clean),
        None => json::known(None),
    }
    finish(rt, b"\n}\n")
}

// A disk that a stream does not hold: nothing is surveyed.
pub fn none_surveyed(rt: &HostRuntime, why: Refusal) {
    let _ = survey_object(rt, Err(why));
}

// Shows the survey of a disk, or says why it is refused.
pub fn survey(rt: &HostRuntime, disk: &[u8], object: bool) -> Result<(), Failure> {
    let survey = report_on(disk);
    let shown = match survey {
        _ if object => survey_object(rt, survey),
        Ok(s) => survey_lines(rt, s),
        Err(_) => Ok(()),
    };
    match survey {
        Ok(_) => shown,
        Err(why) => Err(refuse(disk, why)),
    }
}
