// Numbers in bytes, and tests on slices.
ghost use Rattle.std.specs.Prelude.{◌≡◌, ◌+◌, ◌≤◌, ◌<◌, ◌^◌, length, ◌++◌, drop};
ghost use Rattle.words.specs.Bytes.{be_at, le_at, swap_bytes, put_be};
ghost use Rattle.words.specs.Lists.{same_bytes, all_zero, all_within};

// The number in the k bytes of s from at on.
pub fn be_at(s: &[u8], at: usize, k: usize) -> u64
    requires k_bound { k ≤ 8 }
    requires k_in_bounds { at + k ≤ length s.now }
    ensures value { result ≡ be_at k s.now at }
    ensures upper_bound { result < 256 ^ k }
{
    let mut x: u64 = 0;
    for b in &s[at..at + k] {
        x = x * 256 + *b as u64;
    }
    x
}

// The word in the four bytes of s from at on.
pub fn word_at(s: &[u8], at: usize) -> u32
    requires { at + 4 ≤ length s.now }
    ensures { result ≡ be_at 4 s.now at }
{
    be_at(s, at, 4) as u32
}

// The number in the eight bytes of s from at on, the lowest byte first.
pub fn le_eight(s: &[u8], at: usize) -> u64
    requires { at + 8 ≤ length s.now }
    ensures { result ≡ le_at 8 s.now at }
{
    u64::from_le_bytes([
        s[at],
        s[at + 1],
        s[at + 2],
        s[at + 3],
        s[at + 4],
        s[at + 5],
        s[at + 6],
        s[at + 7],
    ])
}

// The eight bytes of x in the other order: one instruction.
pub fn swapped(x: u64) -> u64
    ensures { result ≡ swap_bytes 8 x }
{
    x.swap_bytes()
}

// The number in the eight bytes of s from at on, as `be_at` reads it.
pub fn be_eight(s: &[u8], at: usize) -> u64
    requires { at + 8 ≤ length s.now }
    ensures { result ≡ be_at 8 s.now at }
{
    swapped(le_eight(s, at))
}

// Stores the k low bytes of x from at on.
pub fn put_be(s: &mut [u8], at: usize, k: usize, x: u64)
    requires { at + k ≤ length s.old }
    ensures { s.new ≡ put_be k s.old at x }
{
    let mut rest = x;
    for i in (0..k).rev() {
        s[at + i] = (rest % 256) as u8;
        rest /= 256;
    }
}

// Copies s to the front of out.
pub fn copy<T: Copy>(s: &[T], out: &mut [T])
    requires { length s.now ≤ length out.old }
    ensures { out.new ≡ s.now ++ drop (length s.now) out.old }
{
    out[..s.len()].copy_from_slice(s);
}

// Whether a and b are the same bytes. Every byte is read: the time says nothing of where they differ.
pub fn same(a: &[u8], b: &[u8]) -> bool
    ensures { result ≡ same_bytes a.now b.now }
{
    if a.len() != b.len() {
        return false;
    }
    let mut alike = true;
    for (i, x) in a.iter().enumerate() {
        alike &= *x == b[i];
    }
    alike
}

// Whether every byte of s is zero. Eight to sixteen bytes are two numbers, which may overlap.
pub fn zeros(s: &[u8]) -> bool
    ensures { result ≡ all_zero s.now }
{
    let n = s.len();
    if (n < 8) | (16 < n) {
        return each_zero(s);
    }
    (le_eight(s, 0) == 0) & (le_eight(s, n - 8) == 0)
}

fn each_zero(s: &[u8]) -> bool
    ensures { result ≡ all_zero s.now }
{
    s.iter().all(|b| *b == 0)
}

// Whether each byte is low to high. Every byte is read, so that sixteen are tested at once: by `all`, which ends at the first that is not, 32 took three times
// as long.
pub fn within(s: &[u8], low: u8, high: u8) -> bool
    ensures { result ≡ all_within low high s.now }
{
    let mut clean = true;
    for b in s {
        clean &= (low <= *b) & (*b <= high);
    }
    clean
}
