// Bytes in slices: total reads, copies into lent space, comparison, and numbers of two bytes. Not of the Rust, which has its iterators for them.
#![tactic(auto)]

ghost use Rattle.std.specs.Prelude.{◌≡◌, ◌+◌, ◌≤◌, length, get_or, take, drop, replicate};
ghost use Rattle.lists.specs.Fill.{put, placed};
ghost use Rattle.lists.specs.Same.{same};
ghost use Rattle.lists.specs.Words.{word_at, le2};

// What stands at i, and 0 past the end.
pub fn byte_at(s: &[u8], i: usize) -> u8
    ensures { result ≡ get_or s.now i 0 }
{
    if i < s.len() { s[i] } else { 0 }
}

// The number of the two bytes at i, low byte first; past the end stand zeros.
pub fn word_at(s: &[u8], i: usize) -> u16
    ensures { result ≡ word_at s.now i }
{
    if i < s.len() {
        let low = byte_at(s, i) as u16;
        let high = byte_at(s, i + 1) as u16;
        return low + 256 * high;
    }
    0
}

// The n elements from a on, as far as there are any.
pub fn part(s: &[u8], a: usize, n: usize) -> &[u8]
    ensures { result.now ≡ take n (drop a s.now) }
{
    if s.len() <= a {
        return &s[0..0];
    }
    let end = s.len();
    if end - a < n {
        return &s[a..end];
    }
    &s[a..a + n]
}

// Puts all of src into dst from place at. `copy_from_slice` would ask whoever links the library for `memmove`.
fn copy_within(src: &[u8], dst: &mut [u8], at: usize)
    requires { at + length src.now ≤ length dst.old }
    ensures { dst.new ≡ put at src.now dst.old }
{
    for k in 0..src.len() {
        dst[at + k] = src[k];
    }
}

// Puts all of src into dst from place at; where it does not fit, dst stays as it is.
pub fn copy_at(src: &[u8], dst: &mut [u8], at: usize)
    ensures { dst.new ≡ placed at src.now dst.old }
{
    if dst.len() < at {
        return;
    }
    if dst.len() - at < src.len() {
        return;
    }
    copy_within(src, dst, at);
}

// Puts n times v into dst from place at; where they do not fit, dst stays as it is.
pub fn fill_at(dst: &mut [u8], at: usize, n: usize, v: u8)
    ensures { dst.new ≡ placed at (replicate n v) dst.old }
{
    if dst.len() < at {
        return;
    }
    if dst.len() - at < n {
        return;
    }
    dst[at..at + n].fill(v);
}

// Puts v into dst at place at, in two bytes, low byte first; where they do not fit, dst stays as it is.
pub fn put_word(dst: &mut [u8], at: usize, v: u16)
    ensures { dst.new ≡ placed at (le2 v) dst.old }
{
    let pair = [(v % 256) as u8, (v / 256 % 256) as u8];
    copy_at(&pair, dst, at);
}

// The two slices have equal bytes, length included.
#[tactic(auto, using(crate::proofs::Equal::same_pairs))]
pub fn same(a: &[u8], b: &[u8]) -> bool
    ensures { result ≡ same a.now b.now }
{
    a == b
}
