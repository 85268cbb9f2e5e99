// The two tables of the 6-and-2 coding, under the Rust's names, and the read table of the 5-and-3 coding.
ghost use Rattle.std.specs.Prelude.{◌≡◌};
ghost use Rattle.nibble.specs.Nibble.{writes, reads};
ghost use Rattle.nibble.specs.FiveThree.{reads53};

// The nibble of each six-bit value.
const NIBBLE_WRITE_TABLE_6_AND_2: [u8; 64] = [
    150, 151, 154, 155, 157, 158, 159, 166, 167, 171, 172, 173, 174, 175, 178, 179, 180, 181, 182,
    183, 185, 186, 187, 188, 189, 190, 191, 203, 205, 206, 207, 211, 214, 215, 217, 218, 219, 220,
    221, 222, 223, 229, 230, 231, 233, 234, 235, 236, 237, 238, 239, 242, 243, 244, 245, 246, 247,
    249, 250, 251, 252, 253, 254, 255,
];

// The value of each nibble: the write table inverted, zero elsewhere.
const NIBBLE_READ_TABLE_6_AND_2: [u8; 256] = [
    0, 0, 0, 0, 0, 0, 0, 0, 0, 0, 0, 0, 0, 0, 0, 0, 0, 0, 0, 0, 0, 0, 0, 0, 0, 0, 0, 0, 0, 0, 0, 0,
    0, 0, 0, 0, 0, 0, 0, 0, 0, 0, 0, 0, 0, 0, 0, 0, 0, 0, 0, 0, 0, 0, 0, 0, 0, 0, 0, 0, 0, 0, 0, 0,
    0, 0, 0, 0, 0, 0, 0, 0, 0, 0, 0, 0, 0, 0, 0, 0, 0, 0, 0, 0, 0, 0, 0, 0, 0, 0, 0, 0, 0, 0, 0, 0,
    0, 0, 0, 0, 0, 0, 0, 0, 0, 0, 0, 0, 0, 0, 0, 0, 0, 0, 0, 0, 0, 0, 0, 0, 0, 0, 0, 0, 0, 0, 0, 0,
    0, 0, 0, 0, 0, 0, 0, 0, 0, 0, 0, 0, 0, 0, 0, 0, 0, 0, 0, 0, 0, 0, 0, 1, 0, 0, 2, 3, 0, 4, 5, 6,
    0, 0, 0, 0, 0, 0, 7, 8, 0, 0, 0, 9, 10, 11, 12, 13, 0, 0, 14, 15, 16, 17, 18, 19, 0, 20, 21,
    22, 23, 24, 25, 26, 0, 0, 0, 0, 0, 0, 0, 0, 0, 0, 0, 27, 0, 28, 29, 30, 0, 0, 0, 31, 0, 0, 32,
    33, 0, 34, 35, 36, 37, 38, 39, 40, 0, 0, 0, 0, 0, 41, 42, 43, 0, 44, 45, 46, 47, 48, 49, 50, 0,
    0, 51, 52, 53, 54, 55, 56, 0, 57, 58, 59, 60, 61, 62, 63,
];

// The write table, to be lent to every step of a call.
#[tactic(auto, unfolding(crate::specs::Nibble::writes))]
pub(crate) fn writing() -> [u8; 64]
    ensures { result ≡ writes }
{
    NIBBLE_WRITE_TABLE_6_AND_2
}

// The read table, likewise.
#[tactic(auto, unfolding(crate::specs::Nibble::reads))]
pub(crate) fn reading() -> [u8; 256]
    ensures { result ≡ reads }
{
    NIBBLE_READ_TABLE_6_AND_2
}

// The value of each nibble in 5-and-3, zero for every byte that is none.
const NIBBLE_READ_TABLE_5_AND_3: [u8; 256] = [
    0, 0, 0, 0, 0, 0, 0, 0, 0, 0, 0, 0, 0, 0, 0, 0, 0, 0, 0, 0, 0, 0, 0, 0, 0, 0, 0, 0, 0, 0, 0, 0,
    0, 0, 0, 0, 0, 0, 0, 0, 0, 0, 0, 0, 0, 0, 0, 0, 0, 0, 0, 0, 0, 0, 0, 0, 0, 0, 0, 0, 0, 0, 0, 0,
    0, 0, 0, 0, 0, 0, 0, 0, 0, 0, 0, 0, 0, 0, 0, 0, 0, 0, 0, 0, 0, 0, 0, 0, 0, 0, 0, 0, 0, 0, 0, 0,
    0, 0, 0, 0, 0, 0, 0, 0, 0, 0, 0, 0, 0, 0, 0, 0, 0, 0, 0, 0, 0, 0, 0, 0, 0, 0, 0, 0, 0, 0, 0, 0,
    0, 0, 0, 0, 0, 0, 0, 0, 0, 0, 0, 0, 0, 0, 0, 0, 0, 0, 0, 0, 0, 0, 0, 0, 0, 0, 0, 0, 0, 0, 0, 0,
    0, 0, 0, 0, 0, 0, 0, 0, 0, 0, 0, 0, 0, 1, 2, 3, 0, 0, 0, 0, 0, 4, 5, 6, 0, 0, 7, 8, 0, 9, 10,
    11, 0, 0, 0, 0, 0, 0, 0, 0, 0, 0, 0, 0, 0, 0, 0, 0, 0, 0, 0, 0, 0, 0, 12, 13, 0, 0, 14, 15, 0,
    16, 17, 18, 0, 0, 0, 0, 0, 0, 0, 0, 0, 0, 19, 20, 0, 21, 22, 23, 0, 0, 0, 0, 0, 24, 25, 26, 0,
    0, 27, 28, 0, 29, 30, 31,
];

// The read table of 5-and-3, to be lent to every step of a call.
#[tactic(auto, unfolding(crate::specs::FiveThree::reads53))]
pub(crate) fn reading_5_and_3() -> [u8; 256]
    ensures { result ≡ reads53 }
{
    NIBBLE_READ_TABLE_5_AND_3
}
