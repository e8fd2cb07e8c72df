// Sizes, slots, and the links with their gauges and exchange, by value; and what a call on one record answers (document 01, "The memory and
// the tables", "When the desk says no").
#![tactic(auto)]

ghost use Rattle.std.specs.Prelude.{◌≡◌, cond, ℕ, ◌+◌, ◌-◌, ◌*◌, ◌≤◌, ◌<◌, Some, None};
ghost use Rattle.group_table.specs.Table.{sizes_b, slot_b, link_in, active_b, gauge_at, active_set, gauge_set, link_set, found_of_all, refused_by};
ghost use Rattle.group_table.specs.Table.{kept_by_of, turned_by, settled_by, index_of, record_at, holds_b, holder_in, with_record};

use conn_answer::{Outcome, Reply};
use conn_record::Record;
use gauge::Gauge;
use link_exchange::{Exchange, Queue, Role};

pub const MOST_SLOTS: usize = 255;

// The four links, active or down, and a gauge for each; our role, the exchange that runs, and the messages that wait for its end.
#[derive(Clone, Copy)]
pub struct Links {
    pub active: [bool; 4],
    pub gauges: [Gauge; 4],
    pub role: Role,
    pub exchange: Exchange,
    pub queue: Queue,
}

// What a call answers: what its line names, the message's bytes where one was made (else zeros), and the links that it leaves.
#[derive(Clone, Copy)]
pub struct Answered {
    pub reply: Reply,
    pub made: bool,
    pub message: [u8; 44],
    pub links: Links,
}

// What a call on one record answers, and the record that it leaves.
#[derive(Clone, Copy)]
pub struct Turned {
    pub after: Record,
    pub answer: Answered,
}

// Refusal 1's case is the opposite: S, N, the memory's length and the table's are right.
#[tactic(auto, unfolding(crate::specs::Table::sizes_b))]
pub fn sizes_ok(s: u32, n: u32, len: usize, count: usize) -> bool
    ensures { result ≡ sizes_b s n len count }
{
    let (s, n) = (s as usize, n as usize);
    1 <= s
        && s <= MOST_SLOTS
        && conn_record::LEAST_SIZE as usize <= n
        && n <= conn_record::MOST_SIZE as usize
        && len == s * n
        && count == s
}

// Whether the slot is one of 1 to s.
#[tactic(auto, unfolding(crate::specs::Table::slot_b))]
pub fn slot_ok(s: u32, slot: u32) -> bool
    ensures { result ≡ slot_b s slot }
{
    (1 <= slot) & (slot <= s)
}

// Whether the link is one of 1 to 4.
pub fn link_ok(link: u8) -> bool
    ensures { result ≡ link_in link }
{
    (1 <= link) & (link <= conn_record::MOST_LINK)
}

// Where a link from 1 to 4 stands among the four; none for a link outside them.
pub fn link_index(link: u8) -> Option<usize>
    ensures { result ≡ cond (link_in link) (Some (link - 1)) None }
{
    if link_ok(link) {
        Some(link as usize - 1)
    } else {
        None
    }
}

// Whether the link is one of 1 to 4, and active.
#[tactic(auto, unfolding(crate::specs::Table::active_b))]
pub fn link_active(links: Links, link: u8) -> bool
    ensures { result ≡ active_b links.active link }
{
    match link_index(link) {
        Some(k) => links.active[k],
        None => false,
    }
}

// The links with one from 1 to 4 active or down, and every gauge as it was.
#[tactic(auto, unfolding(crate::specs::Table::with_link))]
fn set_active(links: Links, link: u8, up: bool) -> Links
    ensures { result ≡ active_set links link up }
{
    let mut next = links;
    if let Some(i) = link_index(link) {
        next.active[i] = up;
    }
    next
}

// The gauge of a link; a cleared one for a link outside 1 to 4.
#[tactic(auto, unfolding(crate::specs::Table::gauge_at))]
pub fn gauge_of(links: Links, link: u8) -> Gauge
    ensures { result ≡ gauge_at links.gauges link }
{
    match link_index(link) {
        Some(j) => links.gauges[j],
        None => gauge::cleared(),
    }
}

// Another gauge for a link; nothing changes for a link outside 1 to 4.
#[tactic(auto, unfolding(crate::specs::Table::with_gauge))]
pub fn set_gauge(links: Links, link: u8, g: Gauge) -> Links
    ensures { result ≡ gauge_set links link g }
{
    let mut next = links;
    if let Some(at) = link_index(link) {
        next.gauges[at] = g;
    }
    next
}

// The links with one from 1 to 4 set; one that is set down loses its gauge.
#[tactic(auto, unfolding(crate::specs::Table::link_set))]
pub fn set_link(links: Links, link: u8, up: bool) -> Links
    ensures { result ≡ link_set links link up }
{
    let next = set_active(links, link, up);
    if up {
        next
    } else {
        set_gauge(next, link, gauge::cleared())
    }
}

// A refusal's number where the test holds, else what is refused otherwise.
pub fn refusal_if(test: bool, number: u8, otherwise: u8) -> u8
    ensures { result ≡ cond test number otherwise }
{
    if test { number } else { otherwise }
}

// What a call on a slot with the record c tests first: 1, then 2; 0 for neither.
#[tactic(auto, unfolding(crate::specs::Table::found_of_all))]
pub fn found(s: u32, n: u32, len: usize, count: usize, slot: u32, c: Record) -> u8
    ensures { result ≡ found_of_all s n len count slot c }
{
    if !sizes_ok(s, n, len, count) {
        1
    } else if !(slot_ok(s, slot) & c.id.opened) {
        2
    } else {
        0
    }
}

// A refusal: its number, and the links as they were.
#[tactic(auto, unfolding(crate::specs::Table::refused_by))]
pub fn refuse(k: u8, links: Links) -> Answered
    ensures { result ≡ refused_by k links }
{
    Answered {
        reply: Reply::Refused(k),
        made: false,
        message: [0u8; 44],
        links,
    }
}

// An answer, and the record as it was.
#[tactic(auto, unfolding(crate::specs::Table::kept_by_of))]
pub fn kept(c: Record, answer: Answered) -> Turned
    ensures { result ≡ kept_by_of c answer }
{
    Turned { after: c, answer }
}

// What the step of one record gave, beside the links.
#[tactic(auto, unfolding(crate::specs::Table::turned_by))]
fn turned_by(links: Links, o: Outcome) -> Turned
    ensures { result ≡ turned_by links o }
{
    let message = o.message;
    let answer = Answered {
        reply: o.reply,
        made: o.made,
        message,
        links,
    };
    Turned {
        after: o.after,
        answer,
    }
}

// Refusal `no`, the record c as it was; or, where that is 0, what the step of the record gave.
#[tactic(auto, unfolding(crate::specs::Table::settled_by))]
pub fn settled(no: u8, links: Links, c: Record, o: Outcome) -> Turned
    ensures { result ≡ settled_by no links c o }
{
    if no == 0 {
        turned_by(links, o)
    } else {
        kept(c, refuse(no, links))
    }
}

// THE LENT TABLE, a slice of records: the record of a slot, putting one back, and the search by token.

// Where the record of a slot stands in a table of `count` records; `count` for a slot outside it.
#[tactic(auto, unfolding(crate::specs::Table::index_of))]
pub fn index(slot: usize, count: usize) -> usize
    ensures { result ≡ index_of slot count }
{
    if (1 <= slot) & (slot <= count) {
        slot - 1
    } else {
        count
    }
}

// The record of a slot; all zeros for a slot outside the table.
#[tactic(auto, unfolding(crate::specs::Table::record_at, crate::specs::Table::index_of))]
pub fn record_at(table: &[Record], slot: usize) -> Record
    ensures { result ≡ record_at table.now slot }
{
    let i = index(slot, table.len());
    if i < table.len() {
        table[i]
    } else {
        conn_record::zero_record()
    }
}

// Another record in a slot; nothing changes for a slot outside the table.
#[tactic(auto, unfolding(crate::specs::Table::with_record, crate::specs::Table::index_of))]
pub fn put_record(table: &mut [Record], slot: usize, c: Record)
    ensures { table.new ≡ with_record table.old slot c }
{
    let at = index(slot, table.len());
    if at < table.len() {
        table[at] = c;
    }
}

// Whether the record is open and has the token.
#[tactic(auto, unfolding(crate::specs::Table::holds_b))]
fn holds(c: Record, token: u32) -> bool
    ensures { result ≡ holds_b token c }
{
    c.id.opened & (c.id.own == token)
}

// The lowest slot that is open with this token; 0 for none, and for the token 0. No Option: slots count from 1, and `holder_in` says 0.
pub fn find(table: &[Record], token: u32) -> usize
    ensures { result ≡ holder_in table.now token }
{
    if token == 0 {
        return 0;
    }
    for (i, c) in table.iter().enumerate() {
        if holds(*c, token) {
            return i + 1;
        }
    }
    0
}
