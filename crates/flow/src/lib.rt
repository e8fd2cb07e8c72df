// Flow control between a producer and a consumer: room, placings, the peer's window and when it is worth telling
// (document 01, "Calls of a connection": Send and Read; RFC 7609, 4.5.1).
#![tactic(auto)]

ghost use Rattle.std.specs.Prelude.{◌≡◌, ◌-◌, ◌*◌, ◌≤◌, ◌<◌, ltb, leb};
ghost use Rattle.flow.specs.Flow.{room_of, taken_of, first_of, stretches_of, window_of, update_due};

use cursor::Cursor;

// A placing, by its offset: an offset in the peer's element, a start in the bytes sent, and a length. Send gives it a key and an address.
#[derive(Clone, Copy)]
pub struct Stretch {
    pub offset: u32,
    pub start: u32,
    pub len: u32,
}

#[derive(Clone, Copy)]
pub enum Stretches {
    Nowhere,
    One(Stretch),
    Two(Stretch, Stretch),
}

// Room in an element of `size` bytes, written at q and read up to r.
pub fn room(size: u32, r: Cursor, q: Cursor) -> u32
    ensures { (result ≡ room_of size r q) × (result ≤ size - 4) }
{
    let d = cursor::data_size(size);
    let g = cursor::gap(d, r, q);
    if (d as u64) < g { 0 } else { d - (g as u32) }
}

// How many of `len` bytes are taken.
pub fn taken(room: u32, len: usize) -> u32
    ensures { (result ≡ taken_of room len) × (result ≤ room) }
{
    if (room as usize) <= len {
        room
    } else {
        len as u32
    }
}

// The length of the first placing: up to the element's end at most.
fn first_part(size: u32, q: Cursor, n: u32) -> u32
    ensures { (result ≡ first_of size q n) × (result ≤ n) }
{
    let at = q.offset;
    if size < at {
        return 0;
    }
    if n <= size - at { n } else { size - at }
}

// Where n bytes go, from q on.
pub fn stretches_of(size: u32, q: Cursor, n: u32) -> Stretches
    ensures { result ≡ stretches_of size q n }
{
    let f = first_part(size, q, n);
    if n == 0 {
        return Stretches::Nowhere;
    }
    let one = Stretch {
        offset: q.offset,
        start: 0,
        len: f,
    };
    if n == f {
        return Stretches::One(one);
    }
    let two = Stretch {
        offset: 4,
        start: f,
        len: n - f,
    };
    Stretches::Two(one, two)
}

// The peer's window: what it may still write, by what it was told.
pub fn window(n: u32, t: Cursor, p: Cursor) -> u32
    ensures { (result ≡ window_of n t p) × (result ≤ n - 4) }
{
    room(n, t, p)
}

// Whether a window is small: twice it is below d.
fn small(d: u32, w: u32) -> bool
    ensures { result ≡ ltb (2 * w) d }
{
    2 * (w as u64) < (d as u64)
}

// Whether a gain is large: ten times it is at least d.
fn large(d: u32, g: u64) -> bool
    requires { g < 562949953421312 }
    ensures { result ≡ leb d (10 * g) }
{
    (d as u64) <= 10 * g
}

// Whether the window is small and the gain, the distance from t to the new c, is large.
pub fn update_due(n: u32, t: Cursor, p: Cursor, c: Cursor) -> bool
    ensures { result ≡ update_due n t p c }
{
    let d = cursor::data_size(n);
    let w = window(n, t, p);
    let g = cursor::gap(d, t, c);
    small(d, w) & large(d, g)
}
