// What a call on one record answers and leaves, and making a message (document 01, "The 44-byte message").
#![tactic(auto)]

ghost use Rattle.std.specs.Prelude.{◌≡◌, Bool};
ghost use Rattle.conn_answer.specs.Outcome.{message_of, pending_of, told_in, used_in, told_of, silent_of, outcome_of, urgent_outcome, refused_of};
ghost use Rattle.conn_answer.specs.Outcome.{closed_if};

use cdc::{Flags, Message};
use closing::State;
use conn_record::{Inbound, Outbound, Record};
use gauge::Health;

// Bytes for the card to write: the peer's memory key and an address, a start in the bytes sent, and a length.
#[repr(C)]
#[derive(Clone, Copy)]
pub struct Placing {
    pub key: u32,
    pub address: u64,
    pub start: u32,
    pub len: u32,
}

#[derive(Clone, Copy)]
pub enum Placings {
    Nowhere,
    One(Placing),
    Two(Placing, Placing),
}

// What a call's line names, beside the message.
#[derive(Clone, Copy)]
pub enum Reply {
    // one numbered refusal
    Refused(u8),
    // a call for which nothing else is named
    Accepted,
    Sent(u32, Placings),
    Read(u32),
    Torn,
    Heard(u64, State),
    // a close with unread bytes
    Reset,
    // a sample: the health of its link
    Sampled(Health),
}

// What a call on one record answers and leaves: the message's bytes where one was made, else zeros.
#[derive(Clone, Copy)]
pub struct Outcome {
    pub reply: Reply,
    pub made: bool,
    pub message: [u8; 44],
    pub after: Record,
}

// The message that tells the record's present state.
#[tactic(auto, unfolding(crate::specs::Outcome::message_of))]
pub fn message_of(rec: Record) -> Message
    ensures { result ≡ message_of rec }
{
    let q = rec.outbound.producer;
    let c = rec.inbound.consumer;
    let flags = Flags {
        blocked: rec.outbound.blocked,
        pending: rec.outbound.urgent.standing,
        urgent: rec.outbound.urgent.standing,
        request: false,
        failover: false,
        done: rec.marks.sent.done,
        closed: rec.marks.sent.closed,
        abort: rec.marks.abort,
    };
    Message {
        sequence: rec.outbound.next,
        token: rec.id.peer,
        producer: q,
        consumer: c,
        flags: flags,
    }
}

// The message with P.
#[tactic(auto, unfolding(crate::specs::Outcome::pending_of))]
pub fn pending(m: Message) -> Message
    ensures { result ≡ pending_of m }
{
    let mut next = m;
    next.flags.pending = true;
    next
}

#[tactic(auto, unfolding(crate::specs::Outcome::told_in))]
fn told_in(i: Inbound) -> Inbound
    ensures { result ≡ told_in i }
{
    Inbound {
        told: i.consumer,
        ..i
    }
}

#[tactic(auto, unfolding(crate::specs::Outcome::used_in))]
fn used_in(o: Outbound) -> Outbound
    ensures { result ≡ used_in o }
{
    Outbound {
        next: o.next.wrapping_add(1),
        ..o
    }
}

// The record once a message is made: T is C, and the next sequence number is used.
#[tactic(auto, unfolding(crate::specs::Outcome::told_of))]
fn told(rec: Record) -> Record
    ensures { result ≡ told_of rec }
{
    Record {
        inbound: told_in(rec.inbound),
        outbound: used_in(rec.outbound),
        ..rec
    }
}

// An outcome without a message.
fn silent(reply: Reply, rec: Record) -> Outcome
    ensures { result ≡ silent_of reply rec }
{
    Outcome {
        reply,
        made: false,
        message: [0u8; 44],
        after: rec,
    }
}

// The outcome of an accepted call that left the record rec: with a message where `tells`.
#[tactic(auto, unfolding(crate::specs::Outcome::outcome_of, crate::specs::Outcome::urgent_outcome))]
pub fn outcome_of(reply: Reply, tells: bool, rec: Record) -> Outcome
    ensures { result ≡ outcome_of reply tells rec }
{
    if tells {
        urgent_outcome(reply, message_of(rec), rec)
    } else {
        silent(reply, rec)
    }
}

// The outcome of an urgent send that left the record rec: with the message m.
#[tactic(auto, unfolding(crate::specs::Outcome::urgent_outcome))]
pub fn urgent_outcome(reply: Reply, m: Message, rec: Record) -> Outcome
    ensures { result ≡ urgent_outcome reply m rec }
{
    let message = cdc::encode(m);
    Outcome {
        reply,
        made: true,
        message,
        after: told(rec),
    }
}

// A refusal: its number, and the record as it was.
#[tactic(auto, unfolding(crate::specs::Outcome::refused_of))]
pub fn refused(k: u8, rec: Record) -> Outcome
    ensures { result ≡ refused_of k rec }
{
    silent(Reply::Refused(k), rec)
}

// The outcome with its slot closed where `shut`.
#[tactic(auto, unfolding(crate::specs::Outcome::closed_if))]
pub fn closed_if(shut: bool, o: Outcome) -> Outcome
    ensures { result ≡ closed_if shut o }
{
    let mut next = o;
    if shut {
        next.after = conn_record::zero_record();
    }
    next
}
