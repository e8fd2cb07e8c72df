// Failover, one connection at a time (document 02, 2026-13): which links went down, whether a record moves and tells, and its message with F.
// The loop over the lent table is in the crate `group_link`.
#![tactic(auto)]

ghost use Rattle.std.specs.Prelude.{◌≡◌, cond};
ghost use Rattle.link_failover.specs.Failover.{target_of, plan_of, gone_b, moves_b, link_to, sequence_before, failover_of, standing, told_if, any_gone, some_b};

use cdc::Message;
use conn_record::Record;
use group_table::Links;

// Which links were active before a call and which are after it, and the lowest of these; 0 for none.
#[derive(Clone, Copy)]
pub struct Plan {
    pub before: [bool; 4],
    pub after: [bool; 4],
    pub target: u8,
}

#[tactic(auto, unfolding(crate::specs::Failover::target_of))]
fn lowest_active(links: Links) -> u8
    ensures { result ≡ target_of links.active }
{
    if group_table::link_active(links, 1) {
        1
    } else if group_table::link_active(links, 2) {
        2
    } else if group_table::link_active(links, 3) {
        3
    } else if group_table::link_active(links, 4) {
        4
    } else {
        0
    }
}

// What moves, of the links before a call and those that it leaves.
#[tactic(auto, unfolding(crate::specs::Failover::plan_of))]
pub fn plan_of(before: Links, after: Links) -> Plan
    ensures { result ≡ plan_of before.active after.active }
{
    let (b, a) = (before.active, after.active);
    Plan {
        before: b,
        after: a,
        target: lowest_active(after),
    }
}

// Whether the link was active before and is down after.
#[tactic(auto, unfolding(crate::specs::Failover::gone_b, group_table::specs::Table::active_b))]
fn gone(p: Plan, link: u8) -> bool
    ensures { result ≡ gone_b p link }
{
    match group_table::link_index(link) {
        Some(k) => p.before[k] & !p.after[k],
        None => false,
    }
}

// Whether the connection moves.
#[tactic(auto, unfolding(crate::specs::Failover::moves_b))]
pub fn moves(n: u32, p: Plan, rec: Record) -> bool
    ensures { result ≡ moves_b n p rec }
{
    0 < p.target && rec.id.opened && gone(p, rec.id.link) && conn_record::coherent(n, rec)
}

// The record that is left: on the target link where it moves.
pub fn linked(goes: bool, p: Plan, rec: Record) -> Record
    ensures { result ≡ cond goes (link_to rec p.target) rec }
{
    let mut next = rec;
    if goes {
        next.id.link = p.target;
    }
    next
}

// The number before s; before 0 comes 65,535.
fn sequence_before(s: u16) -> u16
    ensures { result ≡ sequence_before s }
{
    s.wrapping_sub(1)
}

// The message with F: the last number sent, and the record stays as it is.
#[tactic(auto, unfolding(crate::specs::Failover::failover_of))]
fn failover_of(rec: Record) -> Message
    ensures { result ≡ failover_of rec }
{
    let mut next = conn_answer::message_of(rec);
    next.sequence = sequence_before(rec.outbound.next);
    next.flags.failover = true;
    next
}

// The message of a record that moves at byte `at` of the buffer, where one is made and the buffer holds it; where the next one goes.
#[tactic(auto, unfolding(crate::specs::Failover::told_if, crate::specs::Failover::writes_b))]
pub fn tell(goes: bool, rec: Record, out: &mut [u8], at: usize) -> usize
    ensures { (result ≡ (told_if goes rec (standing at out.old)).at)
        × (out.new ≡ (told_if goes rec (standing at out.old)).buffer) }
{
    if goes && !rec.marks.abort && 44 <= out.len() && at <= out.len() - 44 {
        layout::put_bytes(out, at, &cdc::encode(failover_of(rec)));
        return at + 44;
    }
    at
}

#[tactic(auto, unfolding(crate::specs::Failover::any_gone))]
fn any_gone(p: Plan) -> bool
    ensures { result ≡ any_gone p }
{
    gone(p, 1) | (gone(p, 2) | (gone(p, 3) | gone(p, 4)))
}

// Whether anything can move.
#[tactic(auto, unfolding(crate::specs::Failover::some_b))]
pub fn some(p: Plan) -> bool
    ensures { result ≡ some_b p }
{
    (0 < p.target) & any_gone(p)
}
