// Send and urgent send, as steps of one record (document 01, "Calls of a connection"; document 02, 2026-04).
#![tactic(auto)]

ghost use Rattle.std.specs.Prelude.{◌≡◌, true, ◌+◌, ◌≤◌, ◌<◌};
ghost use Rattle.conn_send.specs.Produced.{send_forbids, n_of, produced_out, produced_of, tells_of, urged_out, urged_of, waits_b};
ghost use Rattle.cursor.specs.Cursor.{in_range};
ghost use Rattle.flow.specs.Flow.{stretches_of, all_placed};
ghost use Rattle.conn_record.specs.Connection.{remote_ok};
ghost use Rattle.conn_send.specs.Transmit.{rtoken_of, placing_of, placing_at, placings_of, sent_reply, sent_of, urgent_of, nothing_sent};
ghost use Rattle.conn_send.specs.Transmit.{send_of, urgent_send_of};

use closing::Marks;
use conn_answer::{Outcome, Placing, Placings, Reply};
use conn_record::{Outbound, RToken, Record, Urgent};
use flow::{Stretch, Stretches};

// What a send of some bytes makes of one record, and when (document 01, "Calls of a connection"; document 02, 2026-04).

// Whether the marks forbid a send.
#[tactic(auto, unfolding(crate::specs::Produced::send_forbids))]
pub fn forbids(m: Marks) -> bool
    ensures { result ≡ send_forbids m }
{
    m.sent.done | (m.sent.closed | (m.abort | m.heard.closed))
}

// The outbound half with k of len bytes taken, for an element of `size` bytes.
#[tactic(auto, unfolding(crate::specs::Produced::produced_out))]
fn produced_out(size: u32, o: Outbound, k: u32, len: usize) -> Outbound
    ensures { result ≡ produced_out size o k len }
{
    let q = o.producer;
    let moved = cursor::step(size, q, k);
    let left = (k as usize) < len;
    let mut next = o;
    next.producer = moved;
    next.blocked = left;
    next
}

#[tactic(auto, unfolding(crate::specs::Produced::produced_of))]
pub fn produced(rec: Record, k: u32, len: usize) -> Record
    ensures { result ≡ produced_of rec k len }
{
    let mut next = rec;
    next.outbound = produced_out(rec.remote.size, rec.outbound, k, len);
    next
}

// How many of len bytes are taken.
#[tactic(auto, unfolding(crate::specs::Produced::n_of))]
pub fn taken(rec: Record, len: usize) -> u32
    ensures { result ≡ n_of rec len }
{
    let size = rec.remote.size;
    let room = flow::room(size, rec.outbound.consumer, rec.outbound.producer);
    flow::taken(room, len)
}

// Whether a message is made.
#[tactic(auto, unfolding(crate::specs::Produced::tells_of))]
pub fn tells(rec: Record, k: u32, len: usize) -> bool
    ensures { result ≡ tells_of rec k len }
{
    (0 < k) | (((k as usize) < len) & !rec.outbound.blocked)
}

#[tactic(auto, unfolding(crate::specs::Produced::urged_out))]
fn urged_out(o: Outbound) -> Outbound
    ensures { result ≡ urged_out o }
{
    let q = o.producer;
    let here = Urgent {
        standing: true,
        place: q,
    };
    let mut next = o;
    next.urgent = here;
    next
}

// The record with Q for its urgent place.
#[tactic(auto, unfolding(crate::specs::Produced::urged_of))]
pub fn urged(rec: Record) -> Record
    ensures { result ≡ urged_of rec }
{
    let mut next = rec;
    next.outbound = urged_out(rec.outbound);
    next
}

// Whether nothing is sent: an urgent place of our own stands, or nothing is offered.
#[tactic(auto, unfolding(crate::specs::Produced::waits_b))]
pub fn waits(rec: Record, len: usize) -> bool
    ensures { result ≡ waits_b rec len }
{
    rec.outbound.urgent.standing | (len == 0)
}

// The peer's memory as the connection's own link reaches it.
#[tactic(auto, unfolding(crate::specs::Transmit::rtoken_of))]
fn rtoken_of(rec: Record) -> RToken
    ensures { result ≡ rtoken_of rec }
{
    let r = rec.remote;
    match rec.id.link {
        1 => r.link1,
        2 => r.link2,
        3 => r.link3,
        _ => r.link4,
    }
}

// The one place where an offset becomes a key and an address.
fn placing_of(rec: Record, s: Stretch) -> Placing
    requires { (remote_ok rec.remote ≡ true) × (s.offset < rec.remote.size) }
    ensures { result ≡ placing_of rec s }
{
    let index = rec.remote.index;
    let peer_size = rec.remote.size;
    let t = rtoken_of(rec);
    let before = (index as u64 - 1) * (peer_size as u64);
    let first = t.base + before;
    let address = first + (s.offset as u64);
    Placing {
        key: t.key,
        address: address,
        start: s.start,
        len: s.len,
    }
}

// The same of any record and any stretch: all zeros where the peer's element, or the offset in it, is out of range.
pub fn placing_at(rec: Record, s: Stretch) -> Placing
    ensures { result ≡ placing_at rec s }
{
    let ok = conn_record::remote_ok(rec.remote) & (s.offset < rec.remote.size);
    if ok {
        return placing_of(rec, s);
    }
    Placing {
        key: 0,
        address: 0,
        start: 0,
        len: 0,
    }
}

fn placings_of(rec: Record, s: Stretches) -> Placings
    requires { (remote_ok rec.remote ≡ true) × all_placed rec.remote.size s }
    ensures { result ≡ placings_of rec s }
{
    match s {
        Stretches::Nowhere => Placings::Nowhere,
        Stretches::One(a) => Placings::One(placing_of(rec, a)),
        Stretches::Two(a, b) => Placings::Two(placing_of(rec, a), placing_of(rec, b)),
    }
}

// What the answer names.
fn sent_reply(rec: Record, k: u32) -> Reply
    requires { (remote_ok rec.remote ≡ true) × all_placed rec.remote.size (stretches_of rec.remote.size rec.outbound.producer k) }
    ensures { result ≡ sent_reply rec k }
{
    let q = rec.outbound.producer;
    let size = rec.remote.size;
    let placings = placings_of(rec, flow::stretches_of(size, q, k));
    Reply::Sent(k, placings)
}

// Bytes are offered.
fn sent(rec: Record, len: usize) -> Outcome
    requires { (remote_ok rec.remote ≡ true) × (in_range rec.remote.size rec.outbound.producer ≡ true) }
    ensures { result ≡ sent_of rec len }
{
    let k = taken(rec, len);
    let reply = sent_reply(rec, k);
    let next = produced(rec, k, len);
    conn_answer::outcome_of(reply, tells(rec, k, len), next)
}

// Urgent bytes are offered: they are cut short, or taken whole.
fn urgent(rec: Record, len: usize) -> Outcome
    requires { (remote_ok rec.remote ≡ true) × (in_range rec.remote.size rec.outbound.producer ≡ true) }
    ensures { result ≡ urgent_of rec len }
{
    let k = taken(rec, len);
    let answer = sent_reply(rec, k);
    let next = produced(rec, k, len);
    if (k as usize) < len {
        let m = conn_answer::pending(conn_answer::message_of(next));
        return conn_answer::urgent_outcome(answer, m, next);
    }
    let whole = urged(next);
    let m = conn_answer::message_of(whole);
    conn_answer::urgent_outcome(answer, m, whole)
}

fn nothing_sent(rec: Record) -> Outcome
    ensures { result ≡ nothing_sent rec }
{
    conn_answer::outcome_of(Reply::Sent(0, Placings::Nowhere), false, rec)
}

// Send of `len` bytes, in a group whose elements have n bytes, on a link that is active or not.
pub fn send(n: u32, active: bool, rec: Record, len: usize) -> Outcome
    ensures { result ≡ send_of n active rec len }
{
    let no = conn_record::refusal(n, active, rec, forbids(rec.marks));
    if no != 0 {
        return conn_answer::refused(no, rec);
    }
    if waits(rec, len) {
        return nothing_sent(rec);
    }
    sent(rec, len)
}

// Urgent send of `len` bytes, likewise. Beside `send` and not one function with it: what differs is the call at the end, and a closure for
// it would need a contract longer than these lines.
pub fn urgent_send(n: u32, active: bool, rec: Record, len: usize) -> Outcome
    ensures { result ≡ urgent_send_of n active rec len }
{
    let no = conn_record::refusal(n, active, rec, forbids(rec.marks));
    if no != 0 {
        return conn_answer::refused(no, rec);
    }
    if waits(rec, len) {
        return nothing_sent(rec);
    }
    urgent(rec, len)
}
