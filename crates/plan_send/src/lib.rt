// A send or an urgent send on one record, as the code takes it apart for the calls on the lent table (crate `c_send`): what it answers
// and does with its record, in few values; then the record and the message that it leaves by these.
#![tactic(auto)]

ghost use Rattle.std.specs.Prelude.{◌≡◌, ◌||◌};
ghost use Rattle.conn_send.specs.Transmit.{rtoken_of, no_placing};
ghost use Rattle.plan_send.specs.Transmitting.{taken_in_of, placing_in, tells_in, said, named_in, unsent_answer, unsent, sent_by};
ghost use Rattle.plan_send.specs.Transmitting.{sending_of};
ghost use Rattle.plan_send.specs.Transmitted.{inbound_left, place_left, outbound_moved, outbound_left, record_left, moved_of, pending_if};
ghost use Rattle.plan_send.specs.Transmitted.{message_left};

use cdc::Message;
use conn_answer::Placing;
use conn_record::{Inbound, Outbound, RToken, Record, Urgent};
use cursor::Cursor;
use flow::{Stretch, Stretches};

// A refusal's number, or 0; whether a message was made; how many placings are named; how many bytes were taken; the placings, all zeros
// where they are not named.
#[repr(C)]
#[derive(Clone, Copy)]
pub struct SendAnswer {
    pub refusal: u8,
    pub made: bool,
    pub placings: u8,
    pub taken: u32,
    pub first: Placing,
    pub second: Placing,
}

// What a send does with its record: the answer, and Q and B after it.
#[derive(Clone, Copy)]
pub struct Sending {
    pub said: SendAnswer,
    pub producer: Cursor,
    pub blocked: bool,
}

// All zeros, where no placing is named.
pub fn no_placing() -> Placing
    ensures { result ≡ no_placing }
{
    Placing {
        key: 0,
        address: 0,
        start: 0,
        len: 0,
    }
}

// Nothing is sent: a refusal's number, or 0.
pub fn refused(j: u8) -> SendAnswer
    ensures { result ≡ unsent_answer j }
{
    SendAnswer {
        refusal: j,
        made: false,
        placings: 0,
        taken: 0,
        first: no_placing(),
        second: no_placing(),
    }
}

// The same of a record that stays as it is, by its outbound half.
pub fn nothing(j: u8, o: Outbound) -> Sending
    ensures { result ≡ unsent j o }
{
    let stays = o.producer;
    let said = refused(j);
    Sending {
        said: said,
        producer: stays,
        blocked: o.blocked,
    }
}

// How many of `len` bytes are taken, by an element of `size` bytes.
fn taken(size: u32, o: Outbound, len: usize) -> u32
    ensures { result ≡ taken_in_of size o len }
{
    let q = o.producer;
    let r = o.consumer;
    let room = flow::room(size, r, q);
    flow::taken(room, len)
}

// The peer's memory as the connection's own link reaches it.
pub fn rtoken_of(rec: Record) -> RToken
    ensures { result ≡ rtoken_of rec }
{
    match rec.id.link {
        1 => rec.remote.link1,
        2 => rec.remote.link2,
        3 => rec.remote.link3,
        _ => rec.remote.link4,
    }
}

// A stretch of element number `index`, of `size` bytes, in the memory t.
pub fn placing(size: u32, index: u32, t: RToken, s: Stretch) -> Placing
    ensures { result ≡ placing_in size index t s }
{
    let before = (index.saturating_sub(1) as u64) * (size as u64);
    let at = before + (s.offset as u64);
    Placing {
        key: t.key,
        address: t.base.wrapping_add(at),
        start: s.start,
        len: s.len,
    }
}

fn answer(k: u32, tells: bool, count: u8, first: Placing, second: Placing) -> SendAnswer
    ensures { result ≡ said k tells count first second }
{
    SendAnswer {
        refusal: 0,
        made: tells,
        placings: count,
        taken: k,
        first: first,
        second: second,
    }
}

// The answer of k bytes taken, that go to Q on.
fn named(size: u32, index: u32, t: RToken, q: Cursor, k: u32, tells: bool) -> SendAnswer
    ensures { result ≡ named_in size index t q k tells }
{
    match flow::stretches_of(size, q, k) {
        Stretches::Nowhere => answer(k, tells, 0, no_placing(), no_placing()),
        Stretches::One(one) => answer(k, tells, 1, placing(size, index, t, one), no_placing()),
        Stretches::Two(one, two) => {
            let first = placing(size, index, t, one);
            let second = placing(size, index, t, two);
            answer(k, tells, 2, first, second)
        }
    }
}

// Whether a message is made: by an urgent send always.
fn tells(urgent: bool, o: Outbound, k: u32, len: usize) -> bool
    ensures { result ≡ urgent || tells_in o k len }
{
    urgent | ((0 < k) | (((k as usize) < len) & !o.blocked))
}

// Bytes are offered.
fn sent(urgent: bool, rec: Record, len: usize) -> Sending
    ensures { result ≡ sent_by urgent rec len }
{
    let size = rec.remote.size;
    let q = rec.outbound.producer;
    let k = taken(size, rec.outbound, len);
    let moved = cursor::step(size, q, k);
    let left = (k as usize) < len;
    let made = tells(urgent, rec.outbound, k, len);
    let t = rtoken_of(rec);
    let said = named(size, rec.remote.index, t, q, k, made);
    Sending {
        said: said,
        producer: moved,
        blocked: left,
    }
}

// A send of `len` bytes on the record, or an urgent one.
pub fn send_record(urgent: bool, rec: Record, len: usize) -> Sending
    ensures { result ≡ sending_of urgent rec len }
{
    let m = rec.marks;
    if m.sent.done | (m.sent.closed | (m.abort | m.heard.closed)) {
        return nothing(7, rec.outbound);
    }
    if rec.outbound.urgent.standing | (len == 0) {
        return nothing(0, rec.outbound);
    }
    sent(urgent, rec, len)
}

// THE RECORD AND THE MESSAGE that a send or an urgent send leaves, by what it does with its record.

fn inbound_left(i: Inbound, made: bool) -> Inbound
    ensures { result ≡ inbound_left i made }
{
    let told = plan::told_left(i.told, i.consumer, made);
    let mut next = i;
    next.told = told;
    next
}

// The urgent place of an urgent send that is taken whole is Q.
fn place_left(urgent: bool, old: Urgent, t: Sending) -> Urgent
    ensures { result ≡ place_left urgent old t }
{
    let q = t.producer;
    if t.said.made & (urgent & !t.blocked) {
        return Urgent {
            standing: true,
            place: q,
        };
    }
    old
}

// The outbound half with Q moved, our B and the urgent place: what a message tells.
fn outbound_moved(urgent: bool, o: Outbound, t: Sending) -> Outbound
    ensures { result ≡ outbound_moved urgent o t }
{
    let q = t.producer;
    let u = place_left(urgent, o.urgent, t);
    let mut next = o;
    next.producer = q;
    next.blocked = t.blocked;
    next.urgent = u;
    next
}

fn outbound_left(urgent: bool, o: Outbound, t: Sending) -> Outbound
    ensures { result ≡ outbound_left urgent o t }
{
    let s = plan::next_left(o.next, t.said.made);
    let mut next = outbound_moved(urgent, o, t);
    next.next = s;
    next
}

// The record that a send leaves.
pub fn left(urgent: bool, rec: Record, t: Sending) -> Record
    ensures { result ≡ record_left urgent rec t }
{
    let i = inbound_left(rec.inbound, t.said.made);
    let o = outbound_left(urgent, rec.outbound, t);
    let mut next = rec;
    next.inbound = i;
    next.outbound = o;
    next
}

fn moved(urgent: bool, rec: Record, t: Sending) -> Record
    ensures { result ≡ moved_of urgent rec t }
{
    let mut next = rec;
    next.outbound = outbound_moved(urgent, rec.outbound, t);
    next
}

// An urgent send's message has P, whether it was cut short or not.
fn pending_if(urgent: bool, m: Message) -> Message
    ensures { result ≡ pending_if urgent m }
{
    if urgent {
        return conn_answer::pending(m);
    }
    m
}

// The record's message, as a send leaves it, in the buffer, where one is made.
pub fn tell(urgent: bool, rec: Record, t: Sending, to: &mut [u8; 44])
    ensures { to.new ≡ message_left urgent rec t to.old }
{
    if t.said.made {
        let bytes = cdc::encode(pending_if(urgent, conn_answer::message_of(moved(urgent, rec, t))));
        *to = bytes;
    }
}
