// Place and read, as steps of one record (document 01, "Calls of a connection").
#![tactic(auto)]

ghost use Rattle.std.specs.Prelude.{◌≡◌, ◌-◌, ◌≤◌, ◌<◌};
ghost use Rattle.conn_receive.specs.Receive.{place_forbids, may_place, place_of};
ghost use Rattle.conn_receive.specs.Receive.{read_forbids, unread_of, consumed_in, cleared_in, consumed_of, update_of, torn_of, take_of, read_of};

use closing::Marks;
use conn_answer::{Outcome, Reply};
use conn_record::{Inbound, Record};

#[tactic(auto, unfolding(crate::specs::Receive::place_forbids))]
fn place_forbids(m: Marks) -> bool
    ensures { result ≡ place_forbids m }
{
    m.abort | (m.heard.done | m.heard.closed)
}

// Whether k bytes from offset `at` on lie in the data and are free.
#[tactic(auto, unfolding(crate::specs::Receive::may_place, element::specs::Element::in_data))]
fn may_place(n: u32, i: Inbound, at: u32, k: usize) -> bool
    ensures { result ≡ may_place n i at k }
{
    if k == 0 {
        return true;
    }
    let t = i.told; // what the peer was told, not C
    let d = cursor::data_size(n);
    4 <= at
        && at <= n
        && k <= (n - at) as usize
        && element::all_free(d, i.producer.offset, flow::window(n, t, i.producer), at, k)
}

// Place of k bytes at offset `at`: accepted, or refused. The record stays as it is.
#[tactic(auto, unfolding(crate::specs::Receive::place_of))]
pub fn place(n: u32, active: bool, rec: Record, at: u32, k: usize) -> Outcome
    ensures { result ≡ place_of n active rec at k }
{
    let no = conn_record::refusal(n, active, rec, place_forbids(rec.marks));
    if no != 0 {
        return conn_answer::refused(no, rec);
    }
    if may_place(n, rec.inbound, at, k) {
        conn_answer::outcome_of(Reply::Accepted, false, rec)
    } else {
        conn_answer::refused(9, rec)
    }
}

#[tactic(auto, unfolding(crate::specs::Receive::read_forbids))]
fn read_forbids(m: Marks) -> bool
    ensures { result ≡ read_forbids m }
{
    m.sent.closed | m.abort
}

// How many bytes are unread.
fn unread(n: u32, i: Inbound) -> u32
    requires { unread_of n i ≤ n - 4 }
    ensures { result ≡ unread_of n i }
{
    let c = i.consumer;
    let p = i.producer;
    let d = cursor::data_size(n);
    cursor::gap(d, c, p) as u32
}

#[tactic(auto, unfolding(crate::specs::Receive::consumed_in))]
fn consumed_in(n: u32, i: Inbound, k: u32) -> Inbound
    ensures { result ≡ consumed_in n i k }
{
    let c = i.consumer;
    let moved = cursor::step(n, c, k);
    let mut next = i;
    next.consumer = moved;
    next
}

// The urgent place is cleared, if C has reached or passed it.
#[tactic(auto, unfolding(crate::specs::Receive::cleared_in))]
fn cleared_in(n: u32, i: Inbound) -> Inbound
    ensures { result ≡ cleared_in n i }
{
    let c = i.consumer;
    let p = i.producer;
    let old = i.urgent;
    let u = conn_record::passed_by(n, c, p, old);
    let mut next = i;
    next.urgent = u;
    next
}

#[tactic(auto, unfolding(crate::specs::Receive::consumed_of))]
fn consumed(n: u32, rec: Record, k: u32) -> Record
    ensures { result ≡ consumed_of n rec k }
{
    let i = cleared_in(n, consumed_in(n, rec.inbound, k));
    let mut next = rec;
    next.inbound = i;
    next
}

// Whether a message is made, once k bytes are read and the inbound half is `i`, its urgent place not cleared yet.
#[tactic(auto, unfolding(crate::specs::Receive::update_of))]
fn updates(n: u32, i: Inbound, k: u32) -> bool
    ensures { result ≡ update_of n i k }
{
    let t = i.told;
    let p = i.producer;
    let c = i.consumer;
    let u = i.urgent;
    let reached = conn_record::reached(n, c, p, u);
    (0 < k) & ((i.blocked | i.request) | (reached | flow::update_due(n, t, p, c)))
}

// A damaged eye catcher: an abort message is made, and the abort mark is set.
#[tactic(auto, unfolding(crate::specs::Receive::torn_of))]
fn torn(rec: Record) -> Outcome
    ensures { result ≡ torn_of rec }
{
    let marks = closing::abort_sent(rec.marks);
    let next = conn_record::marks_to(rec, marks);
    conn_answer::outcome_of(Reply::Torn, true, next)
}

fn take(n: u32, rec: Record, room: usize) -> Outcome
    requires { unread_of n rec.inbound ≤ n - 4 }
    ensures { result ≡ take_of n rec room }
{
    let k = flow::taken(unread(n, rec.inbound), room);
    let tells = updates(n, consumed_in(n, rec.inbound, k), k);
    let next = consumed(n, rec, k);
    conn_answer::outcome_of(Reply::Read(k), tells, next)
}

// Read into an out buffer of `room` bytes, of an element whose eye catcher is intact or not.
pub fn read(n: u32, active: bool, rec: Record, intact: bool, room: usize) -> Outcome
    ensures { result ≡ read_of n active rec intact room }
{
    let no = conn_record::refusal(n, active, rec, read_forbids(rec.marks));
    if no != 0 {
        return conn_answer::refused(no, rec);
    }
    if intact {
        take(n, rec, room)
    } else {
        torn(rec)
    }
}
