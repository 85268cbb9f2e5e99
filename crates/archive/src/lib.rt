// Archives: the contents of a disk in chained blocks (document 01's return, which the Rust has not).
#![tactic(auto)]

ghost use Rattle.std.specs.Prelude.{◌≡◌};
ghost use Rattle.archive.specs.Archive.{first_block};
ghost use Rattle.archive.specs.Blocks.{entry_bytes};

use catalog::filename;
use lists::{copy_at, part};

// Block 0: the volume, the first entry block, the number of blocks.
#[tactic(auto, using(crate::proofs::Making::first_made))]
pub fn first_block(volume: u8, next: u16, blocks: u16) -> [u8; 256]
    ensures { result ≡ first_block volume next blocks }
{
    let [next_low, next_high] = next.to_le_bytes();
    let [blocks_low, blocks_high] = blocks.to_le_bytes();
    let head = [volume, next_low, next_high, blocks_low, blocks_high];
    let mut block = [0u8; 256];
    copy_at(&head, &mut block, 0);
    block
}

// An entry block: of the name bytes the first 30, and the name that they show; of the size its low three bytes.
pub fn entry_block(
    next: u16,
    first: u16,
    size: u32,
    kind: u8,
    locked: u8,
    raw: &[u8],
    count: u16,
) -> [u8; 256]
    ensures { result ≡ entry_bytes next first size kind locked raw.now count }
{
    let name = filename(raw);
    let letters = name.letters;
    let [next_low, next_high] = next.to_le_bytes();
    let [first_low, first_high] = first.to_le_bytes();
    let head = [
        next_low,
        next_high,
        first_low,
        first_high,
        kind,
        locked,
        name.length,
    ];
    let [count_low, count_high] = count.to_le_bytes();
    let [size_low, size_middle, size_high, _] = size.to_le_bytes();
    let tail = [count_low, count_high, size_low, size_middle, size_high];
    let mut block = [0u8; 256];
    copy_at(&head, &mut block, 0);
    copy_at(&letters, &mut block, 7);
    copy_at(&tail, &mut block, 37);
    copy_at(part(raw, 0, 30), &mut block, 42);
    block
}
