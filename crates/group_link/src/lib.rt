// Link change, link message and link send as calls of a group (document 01, "Desk calls"; document 02, 2026-01 and 2026-13). They see the
// links with their gauges, role, exchange and queue; and where links go down, connections move and their messages stand in a lent buffer.
//
// `make` is the lent form. What a call does to the links is in `work`, one connection's move in crate `link_failover`, the loop over the table in
// `move_all`. It has no test of its own: a refused call leaves the links as they were, and then nothing moves.
#![tactic(auto)]

ghost use Rattle.std.specs.Prelude.{◌≡◌};
ghost use Rattle.group_table.specs.Table.{record_at, with_record};
ghost use Rattle.link_failover.specs.Failover.{moved_of, standing, told_by, told_all, moved_all, some_b};
ghost use Rattle.group_rules.specs.Rules.{Did, group_of};
ghost use Rattle.group_link.specs.LinkDesk.{reply_by, work_of, bare_of, lent_b, lent_of, done_by, call_of, answer_in};
ghost use Rattle.group_link.specs.LinkRows.{OnRows};

use conn_answer::Reply;
use conn_record::Record;
use group_table::{Answered, Links};
use link_calls::{Fields, TakenUp};
use link_exchange::Fate;
use link_failover::Plan;
use link_message::Kind;

// FAILOVER over the lent table (document 02, 2026-13): every connection that moves is put on its new link, and the messages with F stand in
// slot order at the front of a lent buffer.

// One slot: its record moves or stays, and its message goes into the buffer after those written; how many bytes are written then.
fn turn(table: &mut [Record], slot: usize, n: u32, p: Plan, out: &mut [u8], written: usize) -> usize
    ensures { (table.new ≡ with_record table.old slot (moved_of n p (record_at table.old slot)))
        × ((result ≡ (told_by n p (record_at table.old slot) (standing written out.old)).at)
        × (out.new ≡ (told_by n p (record_at table.old slot) (standing written out.old)).buffer)) }
{
    let rec = group_table::record_at(table, slot);
    let goes = link_failover::moves(n, p, rec);
    let after = link_failover::linked(goes, p, rec);
    group_table::put_record(table, slot, after);
    link_failover::tell(goes, rec, out, written)
}

// Every slot, from the front of the buffer on; how many bytes the messages have.
fn move_each(table: &mut [Record], n: u32, p: Plan, out: &mut [u8]) -> usize
    ensures { (table.new ≡ moved_all n p table.old)
        × ((result ≡ (told_all n p table.old out.old).at)
        × (out.new ≡ (told_all n p table.old out.old).buffer)) }
{
    let mut written = 0;
    // by number, not by `iter_mut`: the wrong programs of `turn` store and tell by its slot
    for slot in 0..table.len() {
        written = turn(table, slot + 1, n, p, out, written);
    }
    written
}

// The same; no slot is looked at where nothing can move.
pub fn move_all(table: &mut [Record], n: u32, p: Plan, out: &mut [u8]) -> usize
    ensures { (table.new ≡ moved_all n p table.old)
        × ((result ≡ (told_all n p table.old out.old).at)
        × (out.new ≡ (told_all n p table.old out.old).buffer)) }
{
    if link_failover::some(p) {
        move_each(table, n, p, out)
    } else {
        0
    }
}

// One of the three calls, with its numbers; the bytes of a message heard, and the values of one sent, are lent beside it.
#[derive(Clone, Copy)]
pub enum LinkCommand {
    // a link, and whether it is active now
    Change(u8, bool),
    // a link
    Message(u8),
    // a link, and a kind
    Send(u8, Kind),
}

// A message's values, in row order.
#[derive(Clone, Copy)]
pub struct Values {
    pub values: [u64; 12],
}

// What a call does to the links, before connections move; refusal 0: none. A number, as `link_calls::Heard` and `Sent` have it, and as the
// rule edits failover_13_first and failover_1_last quote it.
#[derive(Clone, Copy)]
pub struct Work {
    pub refusal: u8,
    pub made: bool,
    pub message: [u8; 44],
    pub links: Links,
    pub fields: Fields,
    pub fate: Fate,
    pub up: TakenUp,
}

// What a call answers: a reply or the message sent, the links that it leaves; of a message heard its fields and fate; the message taken up;
// and how many messages with F stand in the buffer.
#[derive(Clone, Copy)]
pub struct LinkDone {
    pub answer: Answered,
    pub fields: Fields,
    pub fate: Fate,
    pub up: TakenUp,
    pub count: usize,
}

// A refusal's number, 0 for none, as a reply. No `From`: `Reply` is conn_answer's.
fn reply_of(no: u8) -> Reply
    ensures { result ≡ reply_by no }
{
    if no == 0 {
        Reply::Accepted
    } else {
        Reply::Refused(no)
    }
}

// These links, and nothing made, heard or taken up.
fn bare(refusal: u8, links: Links) -> Work
    ensures { result ≡ bare_of refusal links }
{
    Work {
        refusal,
        made: false,
        message: [0; 44],
        links,
        fields: link_calls::no_fields(),
        fate: Fate::Dropped,
        up: link_calls::none_up(),
    }
}

// What the call does, of the links alone.
fn work_on(links: Links, command: LinkCommand, bytes: &[u8], given: Values) -> Work
    ensures { result ≡ work_of links command bytes.now given.values }
{
    match command {
        LinkCommand::Change(link, up) => {
            let no = group_table::refusal_if(group_table::link_ok(link), 0, 13);
            bare(no, link_calls::change(links, link, up).after)
        }
        LinkCommand::Message(link) => {
            let h = link_calls::message(links, link, bytes);
            let message = h.reply;
            Work {
                refusal: h.refusal,
                made: h.replies,
                message,
                links: h.settled.after,
                fields: h.fields,
                fate: h.fate,
                up: h.settled.up,
            }
        }
        LinkCommand::Send(link, kind) => {
            let values = given.values;
            let s = link_calls::send(links, link, kind, values);
            let message = s.message;
            Work {
                made: s.refusal == 0,
                message,
                up: s.settled.up,
                ..bare(s.refusal, s.settled.after)
            }
        }
    }
}

// Refusal 1's case is the opposite: S, N, the memory's length and the table's are right, and the buffer holds S messages.
fn lent_ok(s: u32, n: u32, len: usize, count: usize, room: usize) -> bool
    ensures { result ≡ lent_b s n len count room }
{
    let needed = 44 * (s as usize);
    group_table::sizes_ok(s, n, len, count) & (needed <= room)
}

// The same, with 1 tested first.
fn tested(
    s: u32,
    n: u32,
    len: usize,
    count: usize,
    room: usize,
    links: Links,
    command: LinkCommand,
    bytes: &[u8],
    given: Values,
) -> Work
    ensures { result ≡ lent_of (lent_b s n len count room) links (work_of links command bytes.now given.values) }
{
    if lent_ok(s, n, len, count, room) {
        work_on(links, command, bytes, given)
    } else {
        bare(1, links)
    }
}

// What the caller sees of it, where the messages have so many bytes.
fn done(w: Work, written: usize) -> LinkDone
    ensures { result ≡ done_by w written }
{
    let message = w.message;
    let answer = Answered {
        reply: reply_of(w.refusal),
        made: w.made,
        message,
        links: w.links,
    };
    LinkDone {
        answer,
        fields: w.fields,
        fate: w.fate,
        up: w.up,
        count: written / 44,
    }
}

// Makes one of the three calls. Many records of the table may change; of each its link at most.
// S, N, memory, table and links apart, as in `group_make::make`.
pub fn make(
    s: u32,
    n: u32,
    mem: &[u8],
    table: &mut [Record],
    links: Links,
    command: LinkCommand,
    bytes: &[u8],
    given: Values,
    out: &mut [u8],
) -> LinkDone
    ensures { Did (group_of s n table.old links mem.now)
        (call_of command bytes.now given.values out.old)
        (answer_in command result out.new)
        (group_of s n table.new result.answer.links mem.now) }
{
    let w = tested(
        s,
        n,
        mem.len(),
        table.len(),
        out.len(),
        links,
        command,
        bytes,
        given,
    );
    let p = link_failover::plan_of(links, w.links);
    let written = move_all(table, n, p, out);
    done(w, written)
}

// Link change, link message and link send on the first rows of a replayed table, an array of 300 records of which a line of the replay format
// lends as many as it says.

// A table, and what a call on its rows answered; as `group_make::Made`.
#[derive(Clone, Copy)]
pub struct LinkMade {
    pub table: [Record; 300],
    pub done: LinkDone,
}

// Makes the call on the first `count` rows, which are lent.
pub fn on_rows(
    table: [Record; 300],
    count: usize,
    s: u32,
    n: u32,
    mem: &[u8],
    links: Links,
    command: LinkCommand,
    bytes: &[u8],
    given: Values,
    out: &mut [u8],
) -> LinkMade
    ensures { OnRows table count s n mem.now links command bytes.now given.values out.old result
        out.new }
{
    let k = count.min(300);
    let mut rows = table;
    let done = make(s, n, mem, &mut rows[..k], links, command, bytes, given, out);
    LinkMade { table: rows, done }
}
