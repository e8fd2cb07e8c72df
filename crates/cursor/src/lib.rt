// Cursors of an RMB element: an offset and a 16-bit wrap number (document 01, "The memory and the tables").
#![tactic(auto)]

ghost use Rattle.std.specs.Prelude.{◌≡◌, ◌+◌, ◌≤◌, ◌<◌};
ghost use Rattle.cursor.specs.Cursor.{data_of, in_range, turns_of, lead_of, good_b, gap_of, moved_of, step_of};

#[repr(C)]
#[derive(Clone, Copy, PartialEq, Eq)]
pub struct Cursor {
    pub offset: u32,
    pub wrap: u16,
}

// D, the number of data bytes of an element of n bytes; 0 where n is below 4.
pub fn data_size(n: u32) -> u32
    ensures { result ≡ data_of n }
{
    n.saturating_sub(4)
}

// Whether the offset is one of an element of n bytes.
pub fn in_range(n: u32, c: Cursor) -> bool
    ensures { result ≡ in_range n c }
{
    (4 <= c.offset) & (c.offset < n)
}

// How often the wrap number went on from one cursor to the other, modulo 65,536.
pub fn turns(from: u16, to: u16) -> u16
    ensures { result ≡ turns_of from to }
{
    to.wrapping_sub(from)
}

// The distance with the first cursor's offset added: no signed number is held.
fn lead(d: u32, from: Cursor, to: Cursor) -> u64
    ensures { (result ≡ lead_of d from to) × (result < 562949953421312) }
{
    (turns(from.wrap, to.wrap) as u64) * (d as u64) + (to.offset as u64)
}

// Whether the distance is good: from 0 to d.
pub fn good(d: u32, from: Cursor, to: Cursor) -> bool
    ensures { result ≡ good_b d from to }
{
    let l = lead(d, from, to);
    let low = from.offset as u64;
    (low <= l) & (l <= low + (d as u64))
}

// The distance, and 0 where it is below zero.
pub fn gap(d: u32, from: Cursor, to: Cursor) -> u64
    ensures { (result ≡ gap_of d from to) × (result < 562949953421312) }
{
    let l = lead(d, from, to);
    let low = from.offset as u64;
    l.saturating_sub(low)
}

// The cursor k bytes further on in an element of n bytes. Out of the range in which the page gives a step a meaning (the offset in the
// data, k at most D) the cursor stays.
pub fn step(n: u32, c: Cursor, k: u32) -> Cursor
    ensures { result ≡ step_of n c k }
{
    let size = n as u64;
    let ok = in_range(n, c) & ((k as u64) + 4 <= size);
    if ok { moved(n, c, k) } else { c }
}

fn moved(n: u32, c: Cursor, k: u32) -> Cursor
    requires { (c.offset < n) × (k + 4 ≤ n) }
    ensures { result ≡ moved_of n c k }
{
    let size = n as u64;
    let at = (c.offset as u64) + (k as u64);
    if at < size {
        Cursor {
            offset: at as u32,
            wrap: c.wrap,
        }
    } else {
        Cursor {
            offset: (at - size + 4) as u32,
            wrap: c.wrap.wrapping_add(1),
        }
    }
}
