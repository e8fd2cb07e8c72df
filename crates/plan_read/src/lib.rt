// A read of one record and its element, with a small answer (document 01, "Calls of a connection"; document 02, 2026-11): what crate
// `c_read` does where the record lies. The record's changed fields alone are put back: a record by value through each step costs more
// than the step (docs/SPEED.md).
#![tactic(auto)]

ghost use Rattle.std.specs.Prelude.{◌≡◌};
ghost use Rattle.flow.specs.Flow.{taken_of};
ghost use Rattle.element.specs.Element.{base_of, intact_at};
ghost use Rattle.plan_read.specs.Reading.{unread_in, due_in, took_of, torn_reading, reading_of, refused_answer, refused_reading};
ghost use Rattle.plan_read.specs.Reading.{inbound_left, outbound_left, record_left, moved_of, message_left, copied_by};

use conn_record::{Inbound, Outbound, Record};
use cursor::Cursor;

// A refusal's number, or 0; whether the element was torn; whether a message was made; how many bytes were read.
#[repr(C)]
#[derive(Clone, Copy)]
pub struct ReadAnswer {
    pub refusal: u8,
    pub torn: bool,
    pub made: bool,
    pub count: u32,
}

// What a read does with its record: the answer, C after it, whether the urgent place is cleared, and the offset that C had.
#[derive(Clone, Copy)]
pub struct Reading {
    pub said: ReadAnswer,
    pub consumer: Cursor,
    pub cleared: bool,
    pub from: u32,
}

pub fn refused(j: u8) -> ReadAnswer
    ensures { result ≡ refused_answer j }
{
    ReadAnswer {
        refusal: j,
        torn: false,
        made: false,
        count: 0,
    }
}

// Of a record that stays as it is.
fn kept(j: u8, c: Cursor) -> Reading
    ensures { result ≡ refused_reading j c }
{
    Reading {
        said: refused(j),
        consumer: c,
        cleared: false,
        from: c.offset,
    }
}

// How many bytes are taken: of those unread, so many as there is room for.
fn taken(n: u32, i: Inbound, room: usize) -> u32
    ensures { result ≡ taken_of (unread_in n i) room }
{
    let c = i.consumer;
    let p = i.producer;
    let d = cursor::data_size(n);
    let free = flow::window(n, c, p);
    flow::taken(d - free, room)
}

// Whether a message is made, once k bytes are read and C is `c`.
fn due(n: u32, i: Inbound, c: Cursor, k: u32, reached: bool) -> bool
    ensures { result ≡ due_in n i c k reached }
{
    if k == 0 {
        return false;
    }
    if i.blocked {
        return true;
    }
    if i.request {
        return true;
    }
    if reached {
        return true;
    }
    let t = i.told;
    let p = i.producer;
    flow::update_due(n, t, p, c)
}

fn took(n: u32, i: Inbound, room: usize) -> Reading
    ensures { result ≡ took_of n i room }
{
    let c = i.consumer;
    let p = i.producer;
    let u = i.urgent;
    let k = taken(n, i, room);
    let moved = cursor::step(n, c, k);
    let reached = conn_record::reached(n, moved, p, u);
    let tells = due(n, i, moved, k, reached);
    let said = ReadAnswer {
        refusal: 0,
        torn: false,
        made: tells,
        count: k,
    };
    Reading {
        said: said,
        consumer: moved,
        cleared: reached,
        from: c.offset,
    }
}

fn torn(c: Cursor) -> Reading
    ensures { result ≡ torn_reading c }
{
    let said = ReadAnswer {
        refusal: 0,
        torn: true,
        made: true,
        count: 0,
    };
    Reading {
        said: said,
        consumer: c,
        cleared: false,
        from: c.offset,
    }
}

// A read of the slot's record, into `room` bytes.
pub fn read_record(n: u32, mem: &[u8], slot: u32, rec: Record, room: usize) -> Reading
    ensures { result ≡ reading_of n (intact_at mem.now (base_of n slot)) rec room }
{
    let c = rec.inbound.consumer;
    if rec.marks.sent.closed | rec.marks.abort {
        return kept(7, c);
    }
    let base = element::base_of(n, slot);
    if element::intact(mem, base) {
        took(n, rec.inbound, room)
    } else {
        torn(c)
    }
}

fn inbound_left(i: Inbound, t: Reading) -> Inbound
    ensures { result ≡ inbound_left i t }
{
    let c = t.consumer;
    let told = plan::told_left(i.told, c, t.said.made);
    let u = plan::place_left(i.urgent, t.cleared);
    let mut next = i;
    next.consumer = c;
    next.told = told;
    next.urgent = u;
    next
}

fn outbound_left(o: Outbound, made: bool) -> Outbound
    ensures { result ≡ outbound_left o made }
{
    let s = plan::next_left(o.next, made);
    let mut next = o;
    next.next = s;
    next
}

// The record that a read leaves.
pub fn left(rec: Record, t: Reading) -> Record
    ensures { result ≡ record_left rec t }
{
    let i = inbound_left(rec.inbound, t);
    let o = outbound_left(rec.outbound, t.said.made);
    let m = plan::marks_left(rec.marks, t.said.torn);
    let mut next = rec;
    next.inbound = i;
    next.outbound = o;
    next.marks = m;
    next
}

// The record with C moved and the abort mark set where the element is torn: what a message tells.
fn moved(rec: Record, t: Reading) -> Record
    ensures { result ≡ moved_of rec t }
{
    let c = t.consumer;
    let m = plan::marks_left(rec.marks, t.said.torn);
    let mut i = rec.inbound;
    i.consumer = c;
    let mut next = rec;
    next.inbound = i;
    next.marks = m;
    next
}

// The record's message, as a read leaves it, in the buffer, where one is made.
pub fn tell(rec: Record, t: Reading, to: &mut [u8; 44])
    ensures { to.new ≡ message_left rec t to.old }
{
    if t.said.made {
        let bytes = cdc::encode(conn_answer::message_of(moved(rec, t)));
        *to = bytes;
    }
}

pub fn copy(n: u32, mem: &[u8], slot: u32, t: Reading, out: &mut [u8])
    ensures { out.new ≡ copied_by n mem.now slot t out.old }
{
    let base = element::base_of(n, slot);
    element::read(
        mem,
        base,
        n as usize,
        t.from as usize,
        t.said.count as usize,
        out,
    );
}
