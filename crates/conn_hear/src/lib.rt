// Hear, as a step of one record (document 01, "Calls of a connection").
#![tactic(auto)]

ghost use Rattle.std.specs.Prelude.{◌≡◌};
ghost use Rattle.conn_hear.specs.Heard.{producer_b, consumer_b, moved_by, urges_b, urgent_in, heard_in, heard_out, heard_record, answers_b, next_b};
ghost use Rattle.conn_hear.specs.Hear.{aborted_of, accepted_of, ruled_of, validated_of, followed_of, hear_of};

use cdc::Message;
use closing::State;
use conn_answer::{Outcome, Reply};
use conn_record::{Inbound, Outbound, Record, Urgent};
use cursor::Cursor;

// A message heard, against one record: its rules, and the record with what it says (document 01, "Calls of a connection").

// Whether the heard producer may replace P.
#[tactic(auto, unfolding(crate::specs::Heard::producer_b))]
pub fn producer_ok(n: u32, rec: Record, p: Cursor) -> bool
    ensures { result ≡ producer_b n rec p }
{
    let t = rec.inbound.told; // what the peer was told, not C
    let old = rec.inbound.producer;
    let d = cursor::data_size(n);
    cursor::in_range(n, p)
        & (cursor::good(d, t, p)
            & ((cursor::gap(d, t, old) <= cursor::gap(d, t, p))
                & (!(rec.marks.heard.done | rec.marks.heard.closed) | (old == p))))
}

// Whether the heard consumer may replace R.
#[tactic(auto, unfolding(crate::specs::Heard::consumer_b))]
pub fn consumer_ok(rec: Record, r: Cursor) -> bool
    ensures { result ≡ consumer_b rec r }
{
    let size = rec.remote.size;
    let q = rec.outbound.producer;
    let old = rec.outbound.consumer;
    let e = cursor::data_size(size);
    cursor::in_range(size, r)
        & (cursor::good(e, r, q) & (cursor::gap(e, r, q) <= cursor::gap(e, old, q)))
}

// How far P moves.
pub fn moved_by(n: u32, i: Inbound, m: Message) -> u64
    ensures { result ≡ moved_by n i m }
{
    let old = i.producer;
    let p = m.producer;
    let d = cursor::data_size(n);
    cursor::gap(d, old, p)
}

// Whether the message has U and moves P.
#[tactic(auto, unfolding(crate::specs::Heard::urges_b))]
fn urges(n: u32, i: Inbound, m: Message) -> bool
    ensures { result ≡ urges_b n i m }
{
    let moved = moved_by(n, i, m);
    m.flags.urgent & (0 < moved)
}

// The urgent place of our element: the new P then.
#[tactic(auto, unfolding(crate::specs::Heard::urgent_in))]
fn urgent_in(n: u32, i: Inbound, m: Message) -> Urgent
    ensures { result ≡ urgent_in n i m }
{
    let p = m.producer;
    if urges(n, i, m) {
        Urgent {
            standing: true,
            place: p,
        }
    } else {
        i.urgent
    }
}

#[tactic(auto, unfolding(crate::specs::Heard::heard_in))]
fn heard_in(n: u32, i: Inbound, m: Message) -> Inbound
    ensures { result ≡ heard_in n i m }
{
    let p = m.producer;
    let u = urgent_in(n, i, m);
    let mut next = i;
    next.producer = p;
    next.last = m.sequence;
    next.blocked = m.flags.blocked;
    next.request = m.flags.request;
    next.urgent = u;
    next
}

#[tactic(auto, unfolding(crate::specs::Heard::heard_out))]
fn heard_out(size: u32, o: Outbound, m: Message) -> Outbound
    ensures { result ≡ heard_out size o m }
{
    let r = m.consumer;
    let q = o.producer;
    let old = o.urgent;
    let u = conn_record::passed_by(size, r, q, old);
    let mut next = o;
    next.consumer = r;
    next.urgent = u;
    next
}

// The record with what the message says.
#[tactic(auto, unfolding(crate::specs::Heard::heard_record, conn_record::specs::Connection::marks_to))]
pub fn heard(n: u32, rec: Record, m: Message) -> Record
    ensures { result ≡ heard_record n rec m }
{
    let mut next = rec;
    next.inbound = heard_in(n, rec.inbound, m);
    next.outbound = heard_out(rec.remote.size, rec.outbound, m);
    next.marks = closing::marks_heard(rec.marks, m.flags.done, m.flags.closed);
    next
}

// Whether a message is made in answer: the urgent place is a new one, or the R flag is on and T differs from C.
#[tactic(auto, unfolding(crate::specs::Heard::answers_b))]
pub fn answers(n: u32, i: Inbound, m: Message) -> bool
    ensures { result ≡ answers_b n i m }
{
    let t = i.told;
    let c = i.consumer;
    let urged = urges(n, i, m);
    urged | (m.flags.request & (t != c))
}

// Whether the message carries the last number heard plus one, 65,535 going on to 0.
#[tactic(auto, unfolding(crate::specs::Heard::next_b))]
pub fn is_next(rec: Record, m: Message) -> bool
    ensures { result ≡ next_b rec m }
{
    m.sequence == rec.inbound.last.wrapping_add(1)
}

// A message with A: one abort message is made if we had not sent A, and the slot is closed.
#[tactic(auto, unfolding(crate::specs::Hear::aborted_of))]
fn aborted(rec: Record) -> Outcome
    ensures { result ≡ aborted_of rec }
{
    let tells = !rec.marks.abort;
    let marks = closing::abort_sent(rec.marks);
    let next = conn_record::marks_to(rec, marks);
    let o = conn_answer::outcome_of(Reply::Heard(0, State::Closed), tells, next);
    conn_answer::closed_if(true, o)
}

// A message whose cursors keep the rules.
#[tactic(auto, unfolding(crate::specs::Hear::accepted_of))]
fn accepted(n: u32, rec: Record, m: Message) -> Outcome
    ensures { result ≡ accepted_of n rec m }
{
    let moved = moved_by(n, rec.inbound, m);
    let next = heard(n, rec, m);
    let marks = next.marks;
    let state = closing::state_of(marks);
    let tells = answers(n, rec.inbound, m);
    let o = conn_answer::outcome_of(Reply::Heard(moved, state), tells, next);
    let shut = marks.heard.closed & marks.sent.closed;
    conn_answer::closed_if(shut, o)
}

// A message without A, before our A.
#[tactic(auto, unfolding(crate::specs::Hear::followed_of))]
fn followed(n: u32, rec: Record, m: Message) -> Outcome
    ensures { result ≡ followed_of n rec m }
{
    if rec.marks.abort {
        return conn_answer::outcome_of(Reply::Heard(0, State::PeerAbortWait), false, rec);
    }
    let failover = m.flags.failover;
    if failover {
        return validated(rec, m);
    }
    if is_next(rec, m) {
        return ruled(n, rec, m);
    }
    conn_answer::refused(16, rec)
}

// A message with F: it carries the last number heard, or an abort message is made.
#[tactic(auto, unfolding(crate::specs::Hear::validated_of))]
fn validated(rec: Record, m: Message) -> Outcome
    ensures { result ≡ validated_of rec m }
{
    if m.sequence == rec.inbound.last {
        let state = closing::state_of(rec.marks);
        return conn_answer::outcome_of(Reply::Heard(0, state), false, rec);
    }
    let marks = closing::abort_sent(rec.marks);
    let next = conn_record::marks_to(rec, marks);
    conn_answer::outcome_of(Reply::Heard(0, State::PeerAbortWait), true, next)
}

// A message whose number is next: its cursors keep the rules, or not.
#[tactic(auto, unfolding(crate::specs::Hear::ruled_of))]
fn ruled(n: u32, rec: Record, m: Message) -> Outcome
    ensures { result ≡ ruled_of n rec m }
{
    let p = m.producer;
    let r = m.consumer;
    let ok = producer_ok(n, rec, p) & consumer_ok(rec, r);
    if ok {
        return accepted(n, rec, m);
    }
    conn_answer::refused(8, rec)
}

// Hear of a message for this connection.
#[tactic(auto, unfolding(crate::specs::Hear::hear_of))]
pub fn hear(n: u32, active: bool, rec: Record, m: Message) -> Outcome
    ensures { result ≡ hear_of n active rec m }
{
    let no = conn_record::refusal(n, active, rec, false);
    if no != 0 {
        return conn_answer::refused(no, rec);
    }
    let abort = m.flags.abort;
    if abort {
        return aborted(rec);
    }
    followed(n, rec, m)
}
