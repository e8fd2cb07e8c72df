// One connection's record, and when it is coherent (document 01, "The memory and the tables").
#![tactic(auto)]

ghost use Rattle.std.specs.Prelude.{◌≡◌, Bool};
ghost use Rattle.conn_record.specs.Connection.{no_place, resting_record, zero_record, opened_record, fits_b, remote_ok, numbers_ok, marks_to};
ghost use Rattle.conn_record.specs.Connection.{offsets_ok, distances_ok, place_ok, places_ok, coherent_b, reached_b, passed_by, refusal_of};

use closing::{Marks, Side};
use cursor::Cursor;

// The bytes of an element, ours or the peer's: at least and at most.
pub const LEAST_SIZE: u32 = 8;

pub const MOST_SIZE: u32 = 65540;

// Links are numbered from 1.
pub const MOST_LINK: u8 = 4;

// An element's place in its memory, counted from 1, is one byte.
pub const MOST_INDEX: u32 = 255;

// The last address of 64 bits.
pub const MOST_ADDRESS: u64 = 18446744073709551615;

// Who the connection is: closed or open by its mark, both alert tokens, its link from 1 to 4.
#[repr(C)]
#[derive(Clone, Copy)]
pub struct Identity {
    pub opened: bool,
    pub own: u32,
    pub peer: u32,
    pub link: u8,
}

// The peer's memory as one link reaches it (RFC 7609's RToken): its key, and the address of its first byte.
#[repr(C)]
#[derive(Clone, Copy)]
pub struct RToken {
    pub key: u32,
    pub base: u64,
}

// What is fixed at open about the peer: its element has `size` bytes (N') and is number `index` of its memory; and that memory, link by
// link.
#[repr(C)]
#[derive(Clone, Copy)]
pub struct Remote {
    pub size: u32,
    pub index: u32,
    pub link1: RToken,
    pub link2: RToken,
    pub link3: RToken,
    pub link4: RToken,
}

// An urgent place: whether one stands, and where. All zeros where none does.
#[repr(C)]
#[derive(Clone, Copy)]
pub struct Urgent {
    pub standing: bool,
    pub place: Cursor,
}

// What comes in, in our own element: P the peer's producer as last heard, C our consumer, T the consumer last told; the last sequence
// number heard; B and R of the last message heard; the urgent place.
#[repr(C)]
#[derive(Clone, Copy)]
pub struct Inbound {
    pub producer: Cursor,
    pub consumer: Cursor,
    pub told: Cursor,
    pub last: u16,
    pub blocked: bool,
    pub request: bool,
    pub urgent: Urgent,
}

// What goes out, in the peer's element: Q our producer, R the peer's consumer as last heard; the next sequence number; our present B;
// the urgent place of our own sends.
#[repr(C)]
#[derive(Clone, Copy)]
pub struct Outbound {
    pub producer: Cursor,
    pub consumer: Cursor,
    pub next: u16,
    pub blocked: bool,
    pub urgent: Urgent,
}

#[repr(C)]
#[derive(Clone, Copy)]
pub struct Record {
    pub id: Identity,
    pub remote: Remote,
    pub inbound: Inbound,
    pub outbound: Outbound,
    pub marks: Marks,
}

// What open is given for a connection: both alert tokens, its link, and what is fixed about the peer.
#[repr(C)]
#[derive(Clone, Copy)]
pub struct Opening {
    pub own: u32,
    pub peer: u32,
    pub link: u8,
    pub remote: Remote,
}

// No urgent place stands.
fn no_place() -> Urgent
    ensures { result ≡ no_place }
{
    Urgent {
        standing: false,
        place: Cursor { offset: 0, wrap: 0 },
    }
}

// A record before anything is sent or heard, all its cursors at one place.
fn resting_record(id: Identity, remote: Remote, at: Cursor, next: u16) -> Record
    ensures { result ≡ resting_record id remote at next }
{
    let inbound = Inbound {
        producer: at,
        consumer: at,
        told: at,
        last: 0,
        blocked: false,
        request: false,
        urgent: no_place(),
    };
    let outbound = Outbound {
        producer: at,
        consumer: at,
        next,
        blocked: false,
        urgent: no_place(),
    };
    let side = Side {
        done: false,
        closed: false,
    };
    let marks = Marks {
        sent: side,
        heard: side,
        first: false,
        abort: false,
    };
    Record {
        id,
        remote,
        inbound,
        outbound,
        marks,
    }
}

// What closing writes.
#[tactic(auto, unfolding(crate::specs::Connection::zero_record))]
pub fn zero_record() -> Record
    ensures { result ≡ zero_record }
{
    let id = Identity {
        opened: false,
        own: 0,
        peer: 0,
        link: 0,
    };
    let nowhere = RToken { key: 0, base: 0 };
    let remote = Remote {
        size: 0,
        index: 0,
        link1: nowhere,
        link2: nowhere,
        link3: nowhere,
        link4: nowhere,
    };
    let at = Cursor { offset: 0, wrap: 0 };
    resting_record(id, remote, at, 0)
}

// The record that open lays down.
#[tactic(auto, unfolding(crate::specs::Connection::opened_record))]
pub fn opened_record(given: Opening) -> Record
    ensures { result ≡ opened_record given }
{
    let id = Identity {
        opened: true,
        own: given.own,
        peer: given.peer,
        link: given.link,
    };
    let at = Cursor { offset: 4, wrap: 0 };
    resting_record(id, given.remote, at, 1)
}

// Whether the peer's element ends at the last address or before, in a memory that begins at `base`.
#[tactic(auto, unfolding(crate::specs::Connection::fits_b))]
fn fits(size: u32, index: u32, base: u64) -> bool
    ensures { result ≡ fits_b size index base }
{
    let end = index as u64 * size as u64;
    end == 0 || base <= MOST_ADDRESS - (end - 1)
}

// Whether the peer's element is as a record may have it: its size, its index, and its end on every link.
#[tactic(auto, unfolding(crate::specs::Connection::remote_ok))]
pub fn remote_ok(r: Remote) -> bool
    ensures { result ≡ remote_ok r }
{
    let size = r.size;
    let index = r.index;
    LEAST_SIZE <= size
        && size <= MOST_SIZE
        && 1 <= index
        && index <= MOST_INDEX
        && fits(size, index, r.link1.base)
        && fits(size, index, r.link2.base)
        && fits(size, index, r.link3.base)
        && fits(size, index, r.link4.base)
}

#[tactic(auto, unfolding(crate::specs::Connection::numbers_ok))]
fn numbers_ok(rec: Record) -> bool
    ensures { result ≡ numbers_ok rec }
{
    rec.id.own != 0
        && rec.id.peer != 0
        && 1 <= rec.id.link
        && rec.id.link <= MOST_LINK
        && !(rec.marks.sent.closed & rec.marks.heard.closed)
        && remote_ok(rec.remote)
}

#[tactic(auto, unfolding(crate::specs::Connection::offsets_ok))]
fn offsets_ok(n: u32, rec: Record) -> bool
    ensures { result ≡ offsets_ok n rec }
{
    let size = rec.remote.size;
    cursor::in_range(n, rec.inbound.producer)
        & (cursor::in_range(n, rec.inbound.consumer)
            & (cursor::in_range(n, rec.inbound.told)
                & (cursor::in_range(size, rec.outbound.producer)
                    & cursor::in_range(size, rec.outbound.consumer))))
}

#[tactic(auto, unfolding(crate::specs::Connection::distances_ok))]
fn distances_ok(n: u32, rec: Record) -> bool
    ensures { result ≡ distances_ok n rec }
{
    let d = cursor::data_size(n);
    let e = cursor::data_size(rec.remote.size);
    cursor::good(d, rec.inbound.told, rec.inbound.consumer)
        & (cursor::good(d, rec.inbound.consumer, rec.inbound.producer)
            & ((cursor::gap(d, rec.inbound.told, rec.inbound.consumer)
                + cursor::gap(d, rec.inbound.consumer, rec.inbound.producer)
                <= (d as u64))
                & cursor::good(e, rec.outbound.consumer, rec.outbound.producer)))
}

// Whether an urgent place lies after `from` up to `to`, in an element of n bytes.
#[tactic(auto, unfolding(crate::specs::Connection::place_ok))]
fn place_ok(n: u32, from: Cursor, to: Cursor, u: Urgent) -> bool
    ensures { result ≡ place_ok n from to u }
{
    if !u.standing {
        return true;
    }
    let at = u.place;
    let d = cursor::data_size(n);
    let far = cursor::gap(d, from, at);
    cursor::in_range(n, at)
        & (cursor::good(d, from, at) & ((1 <= far) & (far <= cursor::gap(d, from, to))))
}

#[tactic(auto, unfolding(crate::specs::Connection::places_ok))]
fn places_ok(n: u32, rec: Record) -> bool
    ensures { result ≡ places_ok n rec }
{
    let i = rec.inbound;
    let o = rec.outbound;
    place_ok(n, i.consumer, i.producer, i.urgent)
        && place_ok(rec.remote.size, o.consumer, o.producer, o.urgent)
}

// Whether an open record is coherent, in a memory whose elements have n bytes.
#[tactic(auto, unfolding(crate::specs::Connection::coherent_b))]
pub fn coherent(n: u32, rec: Record) -> bool
    ensures { result ≡ coherent_b n rec }
{
    numbers_ok(rec) && offsets_ok(n, rec) && distances_ok(n, rec) && places_ok(n, rec)
}

// Whether a cursor on its way to `to`, now at `at`, has reached or passed an urgent place that stands.
#[tactic(auto, unfolding(crate::specs::Connection::reached_b))]
pub fn reached(n: u32, at: Cursor, to: Cursor, u: Urgent) -> bool
    ensures { result ≡ reached_b n at to u }
{
    if u.standing {
        let place = u.place;
        let d = cursor::data_size(n);
        cursor::gap(d, at, to) <= cursor::gap(d, place, to)
    } else {
        false
    }
}

// The place is cleared then.
#[tactic(auto, unfolding(crate::specs::Connection::passed_by))]
pub fn passed_by(n: u32, at: Cursor, to: Cursor, u: Urgent) -> Urgent
    ensures { result ≡ passed_by n at to u }
{
    if reached(n, at, to, u) { no_place() } else { u }
}

// The refusal that every call on a connection tests: 3, then 6, then 7 where `forbids`; 0 for none.
#[tactic(auto, unfolding(crate::specs::Connection::refusal_of))]
pub fn refusal(n: u32, active: bool, rec: Record, forbids: bool) -> u8
    ensures { result ≡ refusal_of n active rec forbids }
{
    if !coherent(n, rec) {
        3
    } else if !active {
        6
    } else if forbids {
        7
    } else {
        0
    }
}

// The record with other marks.
#[tactic(auto, unfolding(crate::specs::Connection::marks_to))]
pub fn marks_to(rec: Record, marks: Marks) -> Record
    ensures { result ≡ marks_to rec marks }
{
    let mut next = rec;
    next.marks = marks;
    next
}
