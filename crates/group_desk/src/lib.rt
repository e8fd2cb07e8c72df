// The calls of management, document 01's desk calls ("Desk calls"): open, free and sample. The three
// calls on links answer more: see the crate `group_link`.
#![tactic(auto)]

ghost use Rattle.group_rules.specs.Rules as Rules;
ghost use Rattle.std.specs.Prelude.{◌≡◌, []};
ghost use Rattle.group_rules.specs.Rules.{Call, sample_refusal, bad_opening};
ghost use Rattle.group_rules.specs.Promises.{DidLinks, shown_by, open_number, free_number};
ghost use Rattle.group_desk.specs.Linkstate.{health_by};
ghost use Rattle.group_desk.specs.Management.{token_of, slot_of_all, open_view, free_view, manage_view};

use conn_answer::Reply;
use conn_record::Opening;
use gauge::Health;
use group_calls::View;
use group_table::{Answered, Links, Turned};

// SAMPLE (request 2026-10): it sees the links with their gauges alone.

// The refusal that sample gives: 13, 6, 17; 0 for none. Numbers, no enum: document 01's, which `settled` and thm_refusals take so.
fn sample_refusal(links: Links, link: u8, ms: u32) -> u8
    ensures { result ≡ sample_refusal links.active link ms }
{
    if !group_table::link_ok(link) {
        13
    } else if !group_table::link_active(links, link) {
        6
    } else if !gauge::is_sample(ms) {
        17
    } else {
        0
    }
}

// A sample's answer: the health, no message, and the links with the gauge that it leaves.
fn health_answer(health: Health, links: Links) -> Answered
    ensures { result ≡ health_by health links }
{
    Answered {
        reply: Reply::Sampled(health),
        made: false,
        message: [0; 44],
        links,
    }
}

pub fn sample(links: Links, link: u8, ms: u32) -> Answered
    ensures { DidLinks links (Call.manage (Rules.Management.sample link ms)) result }
{
    let no = sample_refusal(links, link, ms);
    if no == 0 {
        let after = gauge::sampled(group_table::gauge_of(links, link), ms);
        let next = group_table::set_gauge(links, link, after);
        health_answer(gauge::health_of(after), next)
    } else {
        group_table::refuse(no, links)
    }
}

// OPEN AND FREE, on one record, given as the calls of a connection are.

// Whether what open is given is refused with 12: a zero token, or what is fixed about the peer out of range.
fn bad_opening(given: Opening) -> bool
    ensures { result ≡ bad_opening given }
{
    let ok = conn_record::remote_ok(given.remote);
    (given.own == 0) | ((given.peer == 0) | !ok)
}

// The refusal that open gives: 1, 2, 10, 12, 13, 6, 11; 0 for none. `holder` is the slot that holds the own token.
fn open_refusal(view: &View, len: usize, holder: usize, slot: u32, given: Opening) -> u8
    ensures { result ≡ open_number view.now.s view.now.n len view.now.count view.now.links holder slot view.now.rec given }
{
    if !group_table::sizes_ok(view.s, view.n, len, view.count) {
        1
    } else if !group_table::slot_ok(view.s, slot) {
        2
    } else if view.rec.id.opened {
        10
    } else if bad_opening(given) {
        12
    } else if !group_table::link_ok(given.link) {
        13
    } else if !group_table::link_active(view.links, given.link) {
        6
    } else if 0 < holder {
        11
    } else {
        0
    }
}

// `holder` is the slot that holds the own token, 0 for none.
pub fn open(view: &View, mem: &mut [u8], holder: usize, slot: u32, given: Opening) -> Turned
    ensures { shown_by result [] mem.new ≡ open_view view.now mem.old holder slot given }
{
    let no = open_refusal(view, mem.len(), holder, slot, given);
    let after = conn_record::opened_record(given);
    let o = conn_answer::outcome_of(Reply::Accepted, false, after);
    let d = group_table::settled(no, view.links, view.rec, o);
    if no == 0 {
        let base = element::base_of(view.n, slot);
        element::clear(mem, base, view.n as usize);
    }
    d
}

// The refusal that free gives: 1, 2, 3, 7; 0 for none.
fn free_refusal(view: &View, len: usize, slot: u32) -> u8
    ensures { result ≡ free_number view.now.s view.now.n len view.now.count slot view.now.rec }
{
    if !group_table::sizes_ok(view.s, view.n, len, view.count) {
        1
    } else if !(group_table::slot_ok(view.s, slot) & view.rec.id.opened) {
        2
    } else if !conn_record::coherent(view.n, view.rec) {
        3
    } else if !view.rec.marks.abort {
        7
    } else {
        0
    }
}

pub fn free(view: &View, mem: &[u8], slot: u32) -> Turned
    ensures { shown_by result [] mem.now ≡ free_view view.now mem.now slot }
{
    let no = free_refusal(view, mem.len(), slot);
    let z = conn_record::zero_record();
    let o = conn_answer::outcome_of(Reply::Accepted, false, z);
    group_table::settled(no, view.links, view.rec, o)
}

// A call of management, with its numbers.
#[derive(Clone, Copy)]
pub enum Management {
    // a slot, and what its connection is given
    Open(u32, Opening),
    // a slot
    Free(u32),
    // a link, and an answer time in milliseconds
    Sample(u8, u32),
}

// The own token that an open looks for in the table; 0 for none, no `Option`: `group_table::find` and `holder_in` say so.
pub fn token_of(call: Management) -> u32
    ensures { result ≡ token_of call }
{
    match call {
        Management::Open(_, given) => given.own,
        Management::Free(_) => 0,
        Management::Sample(_, _) => 0,
    }
}

// The slot whose record a call may change; 0 for none.
pub fn slot_of(call: Management) -> u32
    ensures { result ≡ slot_of_all call }
{
    match call {
        Management::Open(slot, _) => slot,
        Management::Free(slot) => slot,
        Management::Sample(_, _) => 0,
    }
}

// Any one of the calls of management; `holder` is the slot that holds the token that it looks for, 0 for none.
pub fn manage(view: &View, mem: &mut [u8], holder: usize, call: Management) -> Turned
    ensures { shown_by result [] mem.new ≡ manage_view view.now mem.old holder call }
{
    match call {
        Management::Open(slot, given) => open(view, mem, holder, slot, given),
        Management::Free(slot) => free(view, mem, slot),
        Management::Sample(link, ms) => {
            group_table::kept(view.rec, sample(view.links, link, ms))
        }
    }
}
