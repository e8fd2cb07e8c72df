// Shutdown, close and abort, on the lent table itself (document 01, "Calls of a connection"): one function for the exported calls (crates
// `c_shutdown`, `c_close`, `c_abort`) and for a call by its number (crate `group_make`). It is given the links' states in place of
// the links.
//
// The record is read where it is needed and its changed fields alone are put back: a record by value through each step costs more than the
// step (docs/SPEED.md).
#![tactic(auto)]

ghost use Rattle.std.specs.Prelude.{◌≡◌, cond, ltb};
ghost use Rattle.conn_answer.specs.Outcome.{told_in, used_in};
ghost use Rattle.conn_receive.specs.Receive.{unread_of};
ghost use Rattle.group_table.specs.declared.Links.{Links};
ghost use Rattle.group_table.specs.Table.{record_at, with_record};
ghost use Rattle.group_rules.specs.Rules.{group_of};
ghost use Rattle.plan.specs.DirectMade.{InEveryGroup};
ghost use Rattle.plan_finish.specs.Finishing.{refused_answer, refused_plan, marked, shutdown_plan, close_plan, abort_plan, plan_of};
ghost use Rattle.plan_finish.specs.Finishing.{marked_record, leaves_of, silently, telling};
ghost use Rattle.plan_finish.specs.DirectFinish.{request_of, LeftBy, Finishes};

use closing::Marks;
use conn_record::{Inbound, Outbound, Record};
use plan::LinkStates;

// A refusal's number, or 0; whether a message was made; whether a close met unread bytes.
#[repr(C)]
#[derive(Clone, Copy)]
pub struct FinishAnswer {
    pub refusal: u8,
    pub made: bool,
    pub reset: bool,
}

// Which of the three.
#[derive(Clone, Copy)]
pub enum Ending {
    Shutdown,
    Close,
    Abort,
}

// What one of them does with its record: the answer, the marks after it, and whether the slot is closed.
#[derive(Clone, Copy)]
pub struct Finishing {
    pub said: FinishAnswer,
    pub marks: Marks,
    pub closes: bool,
}

// The small answer, and the message, zeros where none is made.
#[derive(Clone, Copy)]
pub struct Finished {
    pub said: FinishAnswer,
    pub message: [u8; 44],
}

fn refused(j: u8) -> FinishAnswer
    ensures { result ≡ refused_answer j }
{
    FinishAnswer {
        refusal: j,
        made: false,
        reset: false,
    }
}

// A refusal, and the marks as they were.
fn stays(j: u8, m: Marks) -> Finishing
    ensures { result ≡ refused_plan j m }
{
    Finishing {
        said: refused(j),
        marks: m,
        closes: false,
    }
}

// A message is made of the marks m.
fn marks(m: Marks, reset: bool, closes: bool) -> Finishing
    ensures { result ≡ marked m reset closes }
{
    let said = FinishAnswer {
        refusal: 0,
        made: true,
        reset: reset,
    };
    Finishing {
        said: said,
        marks: m,
        closes: closes,
    }
}

// Shutdown sends D.
fn shutdown_plan(m: Marks) -> Finishing
    ensures { result ≡ shutdown_plan m }
{
    if m.sent.done | (m.sent.closed | m.abort) {
        return stays(7, m);
    }
    marks(closing::done_sent(m), false, false)
}

// Whether bytes are unread: the distance C to P is above 0.
fn has_unread(n: u32, i: Inbound) -> bool
    ensures { result ≡ ltb 0 (unread_of n i) }
{
    let c = i.consumer;
    let p = i.producer;
    let d = cursor::data_size(n);
    0 < cursor::gap(d, c, p)
}

// Close looks at the unread bytes first: with any it sends A, and the slot stays open; with none it sends C, and the slot is closed if C
// was heard.
fn close_plan(n: u32, rec: Record) -> Finishing
    ensures { result ≡ close_plan n rec }
{
    let m = rec.marks;
    if m.sent.closed | m.abort {
        return stays(7, m);
    }
    if has_unread(n, rec.inbound) {
        return marks(closing::abort_sent(m), true, false);
    }
    marks(closing::closed_sent(m), false, m.heard.closed)
}

// Abort sends A.
fn abort_plan(m: Marks) -> Finishing
    ensures { result ≡ abort_plan m }
{
    if m.abort {
        return stays(7, m);
    }
    marks(closing::abort_sent(m), false, false)
}

fn plan(what: Ending, n: u32, rec: Record) -> Finishing
    ensures { result ≡ plan_of what n rec }
{
    match what {
        Ending::Shutdown => shutdown_plan(rec.marks),
        Ending::Close => close_plan(n, rec),
        Ending::Abort => abort_plan(rec.marks),
    }
}

fn silent(said: FinishAnswer) -> Finished
    ensures { result ≡ silently said }
{
    Finished {
        said: said,
        message: [0u8; 44],
    }
}

// With the message that tells the record.
fn told(rec: Record, t: Finishing) -> Finished
    ensures { result ≡ telling rec t }
{
    let m = t.marks;
    let said = t.said;
    let bytes = cdc::encode(conn_answer::message_of(conn_record::marks_to(rec, m)));
    Finished {
        said: said,
        message: bytes,
    }
}

fn told_in(i: Inbound) -> Inbound
    ensures { result ≡ told_in i }
{
    let c = i.consumer;
    let mut next = i;
    next.told = c;
    next
}

fn used_in(o: Outbound) -> Outbound
    ensures { result ≡ used_in o }
{
    let s = plan::next_left(o.next, true);
    let mut next = o;
    next.next = s;
    next
}

// The record with these marks, once its message is made.
fn left(rec: Record, marks: Marks) -> Record
    ensures { result ≡ marked_record rec marks }
{
    let i = told_in(rec.inbound);
    let o = used_in(rec.outbound);
    let mut next = rec;
    next.inbound = i;
    next.outbound = o;
    next.marks = marks;
    next
}

// What a call leaves in its slot: nothing, or the record with these marks.
fn leave(table: &mut [Record], slot: u32, marks: Marks, closes: bool)
    ensures { table.new ≡ with_record table.old slot (leaves_of (record_at table.old slot) marks closes) }
{
    if closes {
        group_table::put_record(table, slot as usize, conn_record::zero_record());
        return;
    }
    let rec = group_table::record_at(table, slot as usize);
    group_table::put_record(table, slot as usize, left(rec, marks));
}

// One of the three that 1, 2, 3 and 6 do not refuse.
fn finish_on(what: Ending, n: u32, table: &mut [Record], slot: u32) -> Finished
    ensures { LeftBy what n table.old slot result table.new }
{
    let t = plan(what, n, group_table::record_at(table, slot as usize));
    if 0 < t.said.refusal {
        return silent(t.said);
    }
    let f = told(group_table::record_at(table, slot as usize), t);
    leave(table, slot, t.marks, t.closes);
    f
}

// Any of the three. What refuses comes first, so that the compiler knows in what follows all that the tests have shown.
pub fn finish(
    what: Ending,
    s: u32,
    n: u32,
    mem: &[u8],
    table: &mut [Record],
    links: LinkStates,
    slot: u32,
) -> Finished
    ensures { InEveryGroup links.active (λ (ls : Links).
        Finishes (request_of what) (group_of s n table.old ls mem.now) slot result
        (group_of s n table.new ls mem.now)) }
{
    match plan::refusal_at(s, n, mem.len(), table, links, slot) {
        Some(j) => silent(refused(j)),
        None => finish_on(what, n, table, slot),
    }
}

// What the caller sees of it: the small answer, and the message in a lent buffer, where one is made.
pub fn answer(f: Finished, message: &mut [u8; 44]) -> FinishAnswer
    ensures { (result ≡ f.said) × (message.new ≡ cond f.said.made f.message message.old) }
{
    let said = f.said;
    let bytes = f.message;
    if said.made {
        *message = bytes;
    }
    said
}
