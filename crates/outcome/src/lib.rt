// Why a call refuses: the refusals, their numbers and their words. Document 01, "Numbers on the slip". (In the Rust: errors and panics, error.rs.)
#![tactic(auto)]

ghost use Rattle.std.specs.Prelude.{◌≡◌};
ghost use Rattle.outcome.specs.Refusal.{code, refusal_of, word};

use std::fmt;

// A refusal, with its number. Its word and its number are the paper's; 0 is no refusal's.
#[derive(Clone, Copy, Debug, PartialEq, Eq)]
pub enum Refusal {
    // flat disk, or unrolled image that is read, not 143,360 bytes; sector to encode not 256
    OffSize = 1,
    // the check of the VTOC fails
    NoTable = 2,
    // a followed page, list or pair, or a location asked for, is not on the disk
    OffDisc = 3,
    // a link leads to a sector already read in its own chain
    Ring = 4,
    // list: next track nonzero, next sector 0
    CutLink = 5,
    // a live name holds 80h
    BadLetter = 6,
    // archive of over 4,096 blocks
    Overlong = 7,
    // any whole address the search meets
    AddressSum = 8,
    // a field that counts
    DataSum = 9,
    // sector not in the stream
    Absent = 10,
    // denibblize: a whole pair of fields with track over 34, sector over 15 or a second volume
    Stranger = 11,
    // lent space under the need
    TrayShort = 12,
    // checker: not the disk's archive; reader: the archive of no contents
    NotItsReturn = 13,
    // empty, over 30, byte 80h or more
    UnwritableName = 14,
    // binary file record of another type
    NotBinary = 15,
    // over 7 entries
    PageFull = 16,
    // recogniser: under 9 bytes, or header right and under 69,636
    CutShort = 17,
    // name asked for
    NotOnRoll = 18,
    // a shared sector, or a held one that the map calls free
    NotClean = 20,
    // no sector, no entry line, or data over 32,768
    NoSpace = 21,
    // a shown name of the catalog
    NameTaken = 22,
    // a name of the other side
    OtherSide = 23,
    // the side's sectors and the save's together over its limit
    OverLimit = 24,
    // over 64 lengths
    PlanLong = 25,
}

// A number that no refusal has, as 0.
#[derive(Clone, Copy, Debug, PartialEq, Eq)]
pub struct UnknownNumber(pub u8);

impl From<Refusal> for u8 {
    ghost from_gives = { λ r n. n ≡ code r };

    fn from(refusal: Refusal) -> u8 {
        refusal as u8
    }
}

impl TryFrom<u8> for Refusal {
    type Error = UnknownNumber;

    ghost try_from_gives = { λ n r. r ≡ refusal_of n };

    #[tactic(auto, unfolding(crate::specs::Refusal::refusal_of, crate::specs::Refusal::numbered))]
    fn try_from(number: u8) -> Result<Refusal, UnknownNumber> {
        match number {
            1 => Ok(Refusal::OffSize),
            2 => Ok(Refusal::NoTable),
            3 => Ok(Refusal::OffDisc),
            4 => Ok(Refusal::Ring),
            5 => Ok(Refusal::CutLink),
            6 => Ok(Refusal::BadLetter),
            7 => Ok(Refusal::Overlong),
            8 => Ok(Refusal::AddressSum),
            9 => Ok(Refusal::DataSum),
            10 => Ok(Refusal::Absent),
            11 => Ok(Refusal::Stranger),
            12 => Ok(Refusal::TrayShort),
            13 => Ok(Refusal::NotItsReturn),
            14 => Ok(Refusal::UnwritableName),
            15 => Ok(Refusal::NotBinary),
            16 => Ok(Refusal::PageFull),
            17 => Ok(Refusal::CutShort),
            18 => Ok(Refusal::NotOnRoll),
            20 => Ok(Refusal::NotClean),
            21 => Ok(Refusal::NoSpace),
            22 => Ok(Refusal::NameTaken),
            23 => Ok(Refusal::OtherSide),
            24 => Ok(Refusal::OverLimit),
            25 => Ok(Refusal::PlanLong),
            _ => Err(UnknownNumber(number)),
        }
    }
}

impl Refusal {
    // Its word.
    pub fn word(self) -> &'static str
        ensures { result.now ≡ word self }
    {
        match self {
            Refusal::OffSize => "off size",
            Refusal::NoTable => "no table",
            Refusal::OffDisc => "off disc",
            Refusal::Ring => "ring",
            Refusal::CutLink => "cut link",
            Refusal::BadLetter => "bad letter",
            Refusal::Overlong => "overlong",
            Refusal::AddressSum => "address sum",
            Refusal::DataSum => "data sum",
            Refusal::Absent => "absent",
            Refusal::Stranger => "stranger",
            Refusal::TrayShort => "tray short",
            Refusal::NotItsReturn => "not its return",
            Refusal::UnwritableName => "unwritable name",
            Refusal::NotBinary => "not binary",
            Refusal::PageFull => "page full",
            Refusal::CutShort => "cut short",
            Refusal::NotOnRoll => "not on roll",
            Refusal::NotClean => "not clean",
            Refusal::NoSpace => "no space",
            Refusal::NameTaken => "name taken",
            Refusal::OtherSide => "other side's name",
            Refusal::OverLimit => "over limit",
            Refusal::PlanLong => "plan long",
        }
    }
}

impl fmt::Display for Refusal {
    fn fmt<W: fmt::Write>(&self, f: &mut fmt::Formatter<W>) -> fmt::Result {
        f.write_str(self.word())
    }
}
