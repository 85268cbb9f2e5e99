// The running XOR of what a table says of nibbles: for 6-and-2 and for 5-and-3.
ghost use Rattle.std.specs.Prelude.{◌≡◌, ◌-◌, ◌%◌, ◌≤◌, ◌<◌, length};
ghost use Rattle.lists.specs.Fill.{tab, padded};
ghost use Rattle.nibble.specs.Running.{run_at, looked};

use lists::copy_at;

// What a table says of a byte.
#[tactic(auto, unfolding(crate::specs::Running::looked))]
fn read(table: &[u8; 256], b: u8) -> u8
    ensures { result ≡ looked table.now b }
{
    table[b as usize]
}

// The exclusive or of the values of m + 1 nibbles, in two chains.
fn sum_with(table: &[u8; 256], nibbles: &[u8], m: usize) -> u8
    requires { (m % 2 ≡ 0) × (m < length nibbles.now) }
    ensures { result ≡ run_at (looked table.now) nibbles.now m }
{
    let mut even: u8 = 0;
    let mut odd: u8 = 0;
    let mut k: usize = 0;
    while k < m {
        even = even ^ read(table, nibbles[k]);
        odd = odd ^ read(table, nibbles[k + 1]);
        k += 2;
    }
    even ^ odd ^ read(table, nibbles[m])
}

// The values of as many nibbles as the buffer has places.
fn put_values(table: &[u8; 256], nibbles: &[u8], vals: &mut [u8])
    requires { length vals.old ≤ length nibbles.now }
    ensures { vals.new ≡ tab (run_at (looked table.now) nibbles.now) (length vals.old) }
{
    let mut last: u8 = 0;
    for k in 0..vals.len() {
        last = last ^ read(table, nibbles[k]);
        vals[k] = last;
    }
}

// Nibbles with zeros behind them.
#[tactic(auto, using(lists::proofs::Laws::placed_zeros))]
fn lengthened<const N: usize>(nibbles: &[u8]) -> [u8; N]
    requires { (length nibbles.now ≤ N) × (N < 512) }
    ensures { result ≡ padded N nibbles.now }
{
    let mut all = [0u8; N];
    copy_at(nibbles, &mut all, 0);
    all
}

// The XOR of the values of the first N nibbles. Past the end of the slice zeros are read.
#[tactic(auto, using(crate::proofs::Runs::run_padded))]
pub(crate) fn sum_of<const N: usize>(table: &[u8; 256], nibbles: &[u8]) -> u8
    requires { (N % 2 ≡ 1) × (N < 512) }
    ensures { result ≡ run_at (looked table.now) nibbles.now (N - 1) }
{
    if nibbles.len() < N {
        let all = lengthened::<N>(nibbles);
        return sum_with(table, &all, N - 1);
    }
    sum_with(table, nibbles, N - 1)
}

// The values of the first N nibbles, likewise.
#[tactic(auto, using(crate::proofs::Runs::values_padded))]
pub(crate) fn values_with<const N: usize>(table: &[u8; 256], nibbles: &[u8]) -> [u8; N]
    requires { N < 512 }
    ensures { result ≡ tab (run_at (looked table.now) nibbles.now) N }
{
    let mut vals = [0u8; N];
    if nibbles.len() < N {
        let all = lengthened::<N>(nibbles);
        put_values(table, &all, &mut vals);
        return vals;
    }
    put_values(table, nibbles, &mut vals);
    vals
}
