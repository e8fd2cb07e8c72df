// One RMB element in lent memory: cleared, its eye catcher, free bytes, a store, the ring read (document 01, Open, Place, Read).
#![tactic(auto)]

ghost use Rattle.std.specs.Prelude.{◌≡◌, cond, ◌∷◌, ◌++◌, ◌+◌, ◌-◌, ◌*◌, ◌≤◌, ◌<◌, length, take, drop, replicate};
ghost use Rattle.element.specs.Element.{base_of, splice, part, fresh_element, clears, cleared_of, intact_b, intact_at, free_from, all_free, stores, stored_of, reads, ring_from, unread, read_of};

// An element's first four bytes.
const EYE_CATCHER: [u8; 4] = [0xE2, 0xD4, 0xC3, 0xD9];

// Where the element of a slot from 1 on begins in the memory, each having n bytes; 0 for slot 0.
pub fn base_of(n: u32, slot: u32) -> usize
    ensures { result ≡ base_of n slot }
{
    (slot.saturating_sub(1) as usize) * (n as usize)
}

// Copies src over the whole of dst, which is as long. By way of a local array, which the compiler knows to be apart from both: it makes
// the two copies one memmove, and the array goes.
fn copy(src: &[u8], dst: &mut [u8])
    requires { (length src.now ≡ length dst.old) × (length src.now ≤ 65536) }
    ensures { dst.new ≡ src.now }
{
    let n = src.len();
    let mut tmp = [0; 65536];
    tmp[..n].copy_from_slice(src);
    dst.copy_from_slice(&tmp[..n]);
}

fn fresh(el: &mut [u8])
    requires { 4 ≤ length el.old }
    ensures { el.new ≡ fresh_element (length el.old) }
{
    el.fill(0);
    el[..4].copy_from_slice(&EYE_CATCHER);
}

// Zeroes the element of `size` bytes at `base` and writes its eye catcher; memory that does not hold it stays as it is.
pub fn clear(mem: &mut [u8], base: usize, size: usize)
    ensures { mem.new ≡ cleared_of mem.old base size }
{
    let len = mem.len();
    if base <= len && size <= len - base && 4 <= size {
        fresh(&mut mem[base..base + size]);
    }
}

// Whether the element at `base` begins with its eye catcher.
pub fn intact(mem: &[u8], base: usize) -> bool
    ensures { result ≡ intact_at mem.now base }
{
    base <= mem.len() && mem[base..].starts_with(&EYE_CATCHER)
}

// (x - p) mod d.
fn past(d: u32, p: u32, x: u32) -> u32
    requires { 0 < d }
    ensures { (result ≡ free_from d p x) × (result < d) }
{
    if p <= x {
        (x - p) % d
    } else {
        d - 1 - (p - x - 1) % d
    }
}

// Whether each of k bytes from x on is free: less than `window` bytes past p, in a ring of d. One test serves for all of them: the last
// of the run is the farthest, unless the run passes p itself, which only a window of the whole ring lets it.
pub fn all_free(d: u32, p: u32, window: u32, x: u32, k: usize) -> bool
    ensures { result ≡ all_free d p window x k }
{
    if k == 0 {
        return true;
    }
    if d == 0 {
        return false;
    }
    if d <= window {
        return true;
    }
    let s = past(d, p, x);
    if window < s {
        return false;
    }
    k <= ((window - s) as usize)
}

// Stores bytes into the memory from `at` on; where they do not fit it stays as it is.
pub fn store(mem: &mut [u8], at: usize, bytes: &[u8])
    ensures { mem.new ≡ stored_of mem.old at bytes.now }
{
    let len = mem.len();
    let n = bytes.len();
    if n <= 65536 && at <= len && n <= len - at {
        copy(bytes, &mut mem[at..at + n]);
    }
}

// Fills out with the bytes of an element that a reader at `offset` meets: up to the element's end, and on from 4.
fn read_ring(el: &[u8], offset: usize, out: &mut [u8])
    requires { (4 ≤ offset) × (offset < length el.now) × (length out.old + 4 ≤ length el.now) × (length el.now ≤ 65540) }
    ensures { out.new ≡ unread el.now offset (length out.old) }
{
    let count = out.len();
    let room = el.len() - offset;
    if count <= room {
        copy(&el[offset..offset + count], out);
    } else {
        copy(&el[offset..], &mut out[..room]);
        copy(&el[4..4 + (count - room)], &mut out[room..]);
    }
}

// Copies the first `count` bytes that a reader at `offset` meets, in the element of `size` bytes at `base`, to the front of out; where
// there is no such element, offset or count, out stays as it is.
pub fn read(mem: &[u8], base: usize, size: usize, offset: usize, count: usize, out: &mut [u8])
    ensures { out.new ≡ read_of mem.now base size offset count out.old }
{
    let len = mem.len();
    if base <= len
        && size <= len - base
        && size <= 65540
        && 4 <= offset
        && offset < size
        && count <= out.len()
        && count <= size - 4
    {
        read_ring(&mem[base..base + size], offset, &mut out[..count]);
    }
}
