// A hear of one record, as the code takes it apart for the hear on the lent table (crate `c_hear`): what bytes are read as, what is
// tested, what the hear answers and does with its record in few values, and the record and the message by these.
#![tactic(auto)]

ghost use Rattle.std.specs.Prelude.{◌≡◌, cond};
ghost use Rattle.conn_record.specs.Connection.{place_at};
ghost use Rattle.group_table.specs.Table.{active_b};
ghost use Rattle.plan_hear.specs.Hearing.{no_heard, parsed_in, refused_before, refused_answer, refused_hearing, abort_hearing, kept_hearing};
ghost use Rattle.plan_hear.specs.Hearing.{break_hearing, validated_hearing, accepted_hearing, ruled_hearing, hearing_of, none_hearing, inbound_left};
ghost use Rattle.plan_hear.specs.Hearing.{outbound_left, record_left, abort_left, ended_of, told_by, message_left};

use cdc::{Decoded, Flags, Message};
use conn_record::{Inbound, Outbound, Record, Urgent};
use cursor::Cursor;
use plan::LinkStates;

// A refusal's number, or 0; whether a message was made; the state's number; how far P moved.
#[repr(C)]
#[derive(Clone, Copy)]
pub struct HearAnswer {
    pub refusal: u8,
    pub made: bool,
    pub state: u8,
    pub moved: u64,
}

// What bytes are read as: whether they are a message, and which; zeros where they are none. A flag beside the message, no Option: callers may
// lend any two, and `token_of` answers of the message alone (docs/DESIGN-PASS.md).
#[derive(Clone, Copy)]
pub struct Parsed {
    pub good: bool,
    pub message: Message,
}

// What a hear does with its record: the answer; whether what the message says is put into it, or the slot closed; whether the urgent place
// of our element is a new one, and our own cleared; whether A is sent: a slot that is not closed then breaks, its record takes A alone.
#[derive(Clone, Copy)]
pub struct Hearing {
    pub said: HearAnswer,
    pub takes: bool,
    pub closes: bool,
    pub urged: bool,
    pub passed: bool,
    pub aborts: bool,
}

fn no_message() -> Message
    ensures { result ≡ no_heard }
{
    let at = Cursor { offset: 0, wrap: 0 };
    let flags = Flags {
        blocked: false,
        pending: false,
        urgent: false,
        request: false,
        failover: false,
        done: false,
        closed: false,
        abort: false,
    };
    Message {
        sequence: 0,
        token: 0,
        producer: at,
        consumer: at,
        flags,
    }
}

pub fn parse(bytes: &[u8]) -> Parsed
    ensures { result ≡ parsed_in bytes.now }
{
    match cdc::decode(bytes) {
        Decoded::Good(m) => Parsed {
            good: true,
            message: m,
        },
        Decoded::Malformed => Parsed {
            good: false,
            message: no_message(),
        },
    }
}

pub fn token_of(p: Parsed) -> u32
    ensures { result ≡ p.message.token }
{
    p.message.token
}

// What is tested before the record is looked at: 1, then 4, then 5; 0 for none.
pub fn before(s: u32, n: u32, len: usize, count: usize, p: Parsed, slot: usize) -> u8
    ensures { result ≡ refused_before s n len count p.good slot }
{
    if !group_table::sizes_ok(s, n, len, count) {
        return 1;
    }
    if !p.good {
        return 4;
    }
    if slot == 0 { 5 } else { 0 }
}

// What is answered where `j` refuses.
pub fn refused(j: u8) -> HearAnswer
    ensures { result ≡ refused_answer j }
{
    HearAnswer {
        refusal: j,
        made: false,
        state: 0,
        moved: 0,
    }
}

fn stays(j: u8) -> Hearing
    ensures { result ≡ refused_hearing j }
{
    Hearing {
        said: refused(j),
        takes: false,
        closes: false,
        urged: false,
        passed: false,
        aborts: false,
    }
}

// A message with A: one abort message is made if we had not sent A, and the slot is closed.
fn aborted(sent: bool) -> Hearing
    ensures { result ≡ abort_hearing sent }
{
    let said = HearAnswer {
        refusal: 0,
        made: !sent,
        state: 6,
        moved: 0,
    };
    Hearing {
        said: said,
        takes: false,
        closes: true,
        urged: false,
        passed: false,
        aborts: true,
    }
}

// A message that changes nothing: once we have sent A, or with F and the last number heard.
fn kept(state: u8) -> Hearing
    ensures { result ≡ kept_hearing state }
{
    let said = HearAnswer {
        refusal: 0,
        made: false,
        state: state,
        moved: 0,
    };
    Hearing {
        said: said,
        takes: false,
        closes: false,
        urged: false,
        passed: false,
        aborts: false,
    }
}

// A message with F and any other number: an abort message is made, and the slot stays open.
fn broken() -> Hearing
    ensures { result ≡ break_hearing }
{
    let said = HearAnswer {
        refusal: 0,
        made: true,
        state: 5,
        moved: 0,
    };
    Hearing {
        said: said,
        takes: false,
        closes: false,
        urged: false,
        passed: false,
        aborts: true,
    }
}

// A message with F: it carries the last number heard, or an abort message is made.
fn validated(rec: Record, m: Message) -> Hearing
    ensures { result ≡ validated_hearing rec m }
{
    if m.sequence == rec.inbound.last {
        return kept(u8::from(closing::state_of(rec.marks)));
    }
    broken()
}

// A message whose cursors keep the rules.
fn accepted(n: u32, rec: Record, m: Message) -> Hearing
    ensures { result ≡ accepted_hearing n rec m }
{
    let i = rec.inbound;
    let told = i.told;
    let c = i.consumer;
    let p = m.consumer;
    let q = rec.outbound.producer;
    let u = rec.outbound.urgent;
    let moved = conn_hear::moved_by(n, i, m);
    let marks = closing::marks_heard(rec.marks, m.flags.done, m.flags.closed);
    let state = u8::from(closing::state_of(marks));
    let passed = conn_record::reached(rec.remote.size, p, q, u);
    let same = told == c;
    let urged = m.flags.urgent & (0 < moved);
    let shut = marks.heard.closed & marks.sent.closed;
    let said = HearAnswer {
        refusal: 0,
        made: urged | (m.flags.request & !same),
        state: state,
        moved: moved,
    };
    Hearing {
        said: said,
        takes: !shut,
        closes: shut,
        urged: urged,
        passed: passed,
        aborts: false,
    }
}

// A message whose number is next: its cursors keep the rules, or not.
fn ruled(n: u32, rec: Record, m: Message) -> Hearing
    ensures { result ≡ ruled_hearing n rec m }
{
    let p = m.producer;
    let r = m.consumer;
    let ok = conn_hear::producer_ok(n, rec, p) & conn_hear::consumer_ok(rec, r);
    if ok {
        return accepted(n, rec, m);
    }
    stays(8)
}

// A hear of the record, where `j` is what was refused before.
pub fn hear_record(n: u32, links: LinkStates, rec: Record, m: Message, j: u8) -> Hearing
    ensures { result ≡ hearing_of n (active_b links.active rec.id.link) rec m j }
{
    if j != 0 {
        return stays(j);
    }
    let active = plan::link_active(links, rec.id.link);
    let no = conn_record::refusal(n, active, rec, false);
    if no != 0 {
        return stays(no);
    }
    let abort = m.flags.abort;
    if abort {
        return aborted(rec.marks.abort);
    }
    if rec.marks.abort {
        return kept(5);
    }
    let failover = m.flags.failover;
    if failover {
        return validated(rec, m);
    }
    if conn_hear::is_next(rec, m) {
        return ruled(n, rec, m);
    }
    stays(16)
}

// A hear of a slot outside the table, whose record is all zeros: incoherent. (It is not `hear_record`, which has one caller and so is
// inlined.)
pub fn hear_none(j: u8) -> Hearing
    ensures { result ≡ none_hearing j }
{
    if j == 0 { stays(3) } else { stays(j) }
}

fn urgent_left(u: Urgent, at: Cursor, urged: bool) -> Urgent
    ensures { result ≡ cond urged (place_at at) u }
{
    let new = Urgent {
        standing: true,
        place: at,
    };
    if urged { new } else { u }
}

fn inbound_left(i: Inbound, m: Message, t: Hearing) -> Inbound
    ensures { result ≡ inbound_left i m t }
{
    let p = m.producer;
    let c = i.consumer;
    let told = plan::told_left(i.told, c, t.said.made);
    let u = urgent_left(i.urgent, p, t.urged);
    let mut next = i;
    next.producer = p;
    next.told = told;
    next.last = m.sequence;
    next.blocked = m.flags.blocked;
    next.request = m.flags.request;
    next.urgent = u;
    next
}

fn outbound_left(o: Outbound, m: Message, t: Hearing) -> Outbound
    ensures { result ≡ outbound_left o m t }
{
    let r = m.consumer;
    let s = plan::next_left(o.next, t.said.made);
    let u = plan::place_left(o.urgent, t.passed);
    let mut next = o;
    next.consumer = r;
    next.next = s;
    next.urgent = u;
    next
}

// The record with what the message says.
pub fn left(rec: Record, m: Message, t: Hearing) -> Record
    ensures { result ≡ record_left rec m t }
{
    let i = inbound_left(rec.inbound, m, t);
    let o = outbound_left(rec.outbound, m, t);
    let marks = closing::marks_heard(rec.marks, m.flags.done, m.flags.closed);
    let mut next = rec;
    next.inbound = i;
    next.outbound = o;
    next.marks = marks;
    next
}

// The record with A, once the abort message is made.
fn abort_left(rec: Record) -> Record
    ensures { result ≡ abort_left rec }
{
    let mut i = rec.inbound;
    let c = i.consumer;
    i.told = c;
    let mut o = rec.outbound;
    o.next = plan::next_left(o.next, true);
    let marks = closing::abort_sent(rec.marks);
    let mut next = rec;
    next.inbound = i;
    next.outbound = o;
    next.marks = marks;
    next
}

// The record of a slot that is closed, or breaks.
pub fn ended(rec: Record, t: Hearing) -> Record
    ensures { result ≡ ended_of rec t }
{
    if t.closes {
        return conn_record::zero_record();
    }
    abort_left(rec)
}

// What a message tells of the record.
fn told_by(rec: Record, t: Hearing) -> Record
    ensures { result ≡ told_by rec t }
{
    let u = plan::place_left(rec.outbound.urgent, t.passed);
    let marks = plan::marks_left(rec.marks, t.aborts);
    let mut o = rec.outbound;
    o.urgent = u;
    let mut next = rec;
    next.outbound = o;
    next.marks = marks;
    next
}

// The record's message in the buffer, where one is made.
pub fn tell(rec: Record, t: Hearing, to: &mut [u8; 44])
    ensures { to.new ≡ message_left rec t to.old }
{
    if t.said.made {
        let bytes = cdc::encode(conn_answer::message_of(told_by(rec, t)));
        *to = bytes;
    }
}
