// Numbers and bytes at places of a message, read and written: what every message of rows (RFC 7609, Appendix A) is made of.
#![tactic(auto)]

ghost use Rattle.std.specs.Prelude.{◌≡◌, cond, ◌++◌, ◌+◌, ◌-◌, ◌*◌, ◌^◌, ◌≤◌, ◌<◌, min, length, take, drop, get_or, replicate};
ghost use Rattle.layout.specs.Layout.{number_at, bytes_at, be_of, laid_at};

// The number of the n bytes from byte at on, high byte first; of the first eight, and of as many as there are.
pub fn number(s: &[u8], at: usize, n: usize) -> u64
    ensures { (result ≡ number_at s.now at (min n 8)) × (result < 2 ^ (8 * min n 8)) }
{
    let end = n.min(8).min(s.len().saturating_sub(at));
    let mut x: u64 = 0;
    for i in 0..end {
        x = x * 256 + u64::from(s[at + i]);
    }
    x
}

// Fills out with the bytes from byte at on, and with zeros past the end.
pub fn bytes(s: &[u8], at: usize, out: &mut [u8])
    ensures { out.new ≡ bytes_at s.now at (length out.old) }
{
    let from = at.min(s.len());
    let n = out.len().min(s.len() - from);
    out[..n].copy_from_slice(&s[from..from + n]);
    out[n..].fill(0);
}

// Lays p over the bytes from byte at on; where it does not stand within out, nothing is written.
pub fn put_bytes(out: &mut [u8], at: usize, p: &[u8])
    ensures { out.new ≡ laid_at out.old at p.now }
{
    if p.len() <= out.len() && at <= out.len() - p.len() {
        out[at..at + p.len()].copy_from_slice(p);
    }
}

// The same with the n low bytes of x, high byte first, and at most eight.
pub fn put_number(out: &mut [u8], at: usize, n: usize, x: u64)
    ensures { out.new ≡ laid_at out.old at (be_of (min n 8) x) }
{
    let b = x.to_be_bytes();
    put_bytes(out, at, &b[8 - n.min(8)..]);
}

// The same with n zeros.
pub fn put_zeros(out: &mut [u8], at: usize, n: usize)
    ensures { out.new ≡ laid_at out.old at (replicate n 0) }
{
    if n <= out.len() && at <= out.len() - n {
        out[at..at + n].fill(0);
    }
}
