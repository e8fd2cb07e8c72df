// What the fast calls share, which change a record where it lies in the lent table (document 02, 2026-11): which links are active, what a
// call on a slot tests first, and what it leaves of T, the sequence number, the marks and an urgent place. What each promises is
// specs/DirectMade.antt. The one law of all calls of a connection, a record that a message then tells or not, perhaps closed, is
// specs/Step.antt; what the rules answer and leave by it, proofs/Does.antt.
#![tactic(auto)]

ghost use Rattle.std.specs.Prelude.{◌≡◌, cond};
ghost use Rattle.conn_record.specs.Connection.{no_place};
ghost use Rattle.conn_answer.specs.Outcome.{sequence_after};
ghost use Rattle.group_table.specs.Table.{active_b};
ghost use Rattle.plan.specs.Direct.{held_of, refusal_at, refusal_in, marks_left};

use closing::Marks;
use conn_record::{Record, Urgent};
use cursor::Cursor;

// The four links, active or down.
#[repr(C)]
#[derive(Clone, Copy)]
pub struct LinkStates {
    pub active: [bool; 4],
}

// Whether the link is one of 1 to 4, and active.
pub fn link_active(links: LinkStates, link: u8) -> bool
    ensures { result ≡ active_b links.active link }
{
    if link < 1 {
        return false;
    }
    if conn_record::MOST_LINK < link {
        return false;
    }
    let k = link as usize - 1;
    links.active[k]
}

// What a call on a slot with the record rec is refused by, after 1: 2, then 3, then 6.
fn held(s: u32, n: u32, links: LinkStates, slot: u32, rec: Record) -> Option<u8>
    ensures { result ≡ refusal_in (held_of s n links.active slot rec) }
{
    if !(group_table::slot_ok(s, slot) & rec.id.opened) {
        return Some(2);
    }
    match conn_record::refusal(n, link_active(links, rec.id.link), rec, false) {
        0 => None,
        j => Some(j),
    }
}

// And 1 before it. A slot outside the table shows all zeros, and so is closed.
pub fn refusal_at(
    s: u32,
    n: u32,
    len: usize,
    table: &[Record],
    links: LinkStates,
    slot: u32,
) -> Option<u8>
    ensures { result ≡ refusal_in (refusal_at s n len table.now links.active slot) }
{
    if !group_table::sizes_ok(s, n, len, table.len()) {
        return Some(1);
    }
    let rec = group_table::record_at(table, slot as usize);
    held(s, n, links, slot, rec)
}

// T after a call: C where a message told the peer.
pub fn told_left(t: Cursor, c: Cursor, made: bool) -> Cursor
    ensures { result ≡ cond made c t }
{
    if made { c } else { t }
}

// The next sequence number after a call: used where a message was made.
pub fn next_left(s: u16, made: bool) -> u16
    ensures { result ≡ cond made (sequence_after s) s }
{
    if made { s.wrapping_add(1) } else { s }
}

// The marks after a call that sends A, or one that does not.
pub fn marks_left(m: Marks, aborts: bool) -> Marks
    ensures { result ≡ marks_left m aborts }
{
    let a = m.abort | aborts;
    let mut next = m;
    next.abort = a;
    next
}

// An urgent place after a call that passes it, or one that does not.
pub fn place_left(u: Urgent, passed: bool) -> Urgent
    ensures { result ≡ cond passed no_place u }
{
    let at = Cursor { offset: 0, wrap: 0 };
    let none = Urgent {
        standing: false,
        place: at,
    };
    if passed { none } else { u }
}
