// Numbers of several bytes, low byte first, in lists of bytes. How many bytes is an argument, at most 8: std converts whole words alone.
#![tactic(auto)]

ghost use Rattle.std.specs.Prelude.{◌≡◌, ◌+◌, ◌*◌, ◌%◌, ◌<◌, ◌≤◌, length, take, drop};
ghost use Rattle.numbers.specs.Number.{digits, num, placed};

// The number that n bytes at a place write, low byte first, where they are all there.
pub fn whole_number(b: &[u8], at: usize, n: usize) -> u64
    requires { (at + n ≤ length b.now) × (n ≤ 8) }
    ensures { result ≡ num 8 (take n (drop at b.now)) }
{
    let mut v = 0u64;
    for j in 0..n {
        v |= (b[at + j] as u64) << (8 * j);
    }
    v
}

// The number that n bytes at a place write, low byte first; past the end they are 0.
pub fn number_at(b: &[u8], at: usize, n: usize) -> u64
    requires { n ≤ 8 }
    ensures { result ≡ num 8 (take n (drop at b.now)) }
{
    if b.len() < at {
        return 0;
    }
    if b.len() - at < n {
        return whole_number(b, at, b.len() - at);
    }
    whole_number(b, at, n)
}

// Writes a number as n bytes at a place, low byte first.
pub fn put_number(b: &mut [u8], at: usize, n: usize, v: u64)
    requires { (at + n ≤ length b.old) × (n ≤ 8) }
    ensures { b.new ≡ placed b.old at (digits 8 n v) }
{
    for j in 0..n {
        b[at + j] = ((v >> (8 * j)) % 256) as u8;
    }
}
