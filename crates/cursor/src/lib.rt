// An archive that is stepped through entry by entry, without a copy: document 01, "Return" ("A display steps through a return entry by entry without copying
// it"). (The Rust has none.)
#![tactic(auto)]

ghost use Rattle.std.specs.Prelude.{◌≡◌};
ghost use Rattle.archive.specs.Reader.{opened};
ghost use Rattle.reader.specs.Steps.{opened_with, begins, entry_step};
ghost use Rattle.cursor.specs.Cursor.{shown_by, moved};

use reader::Entry;

// An archive, and the entry block at which a display stands; 0 is the end.
#[derive(Drop)]
pub struct Reader<'a> {
    pub archive: &'a [u8],
    pub block: u16,
}

// Where a display begins: the first entry block, or 0 for an archive of no entries and for bytes that are no archive.
pub fn first_block(archive: &[u8]) -> u16
    ensures { result ≡ begins (opened_with (opened archive.now)) }
{
    reader::open(archive).map_or(0, |o| o.first)
}

// The entry in a block, that block alone being looked at; else the end.
pub fn look_at(archive: &[u8], block: u16) -> Option<Entry>
    ensures { result ≡ entry_step archive.now block }
{
    reader::next_entry(archive, block as u64)
}

impl<'a> Reader<'a> {
    // A reader that stands at a block.
    pub fn new(archive: &'a [u8], block: u16) -> Reader<'a>
        ensures { (result.archive ≡ archive.entry) × (result.block ≡ block) }
    {
        Reader { archive, block }
    }

    // The entry at which it stands.
    pub fn next(self) -> Option<Entry>
        ensures { result ≡ shown_by self.entry }
    {
        look_at(self.archive, self.block)
    }

    // The same, and the reader, which is lent, moves on to the next entry.
    pub fn step(&mut self) -> Option<Entry>
        ensures { (result ≡ shown_by self.old) × (self.new ≡ moved self.old) }
    {
        let e = look_at(self.archive, self.block);
        self.block = e.map_or(0, |e| e.next);
        e
    }
}

// From plain parameters.
pub fn entry_from(archive: &[u8], block: u16) -> Option<Entry>
    ensures { result ≡ entry_step archive.now block }
{
    Reader::new(archive, block).next()
}
