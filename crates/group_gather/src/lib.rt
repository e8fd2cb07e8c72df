// A head and a body, in two lent buffers, sent as if joined (document 02, 2026-08). As every call it is lent S, N, the memory, the table
// and the links, whatever they hold. Its pieces are handed out one at a time afterwards, by `conn_gather::piece` and `conn_gather::placing`, from the
// record that it found.
#![tactic(auto)]

ghost use Rattle.std.specs.Prelude.{◌≡◌, [], ◌++◌};
ghost use Rattle.group_rules.specs.Rules.{Request, group_of};
ghost use Rattle.group_rules.specs.Promises.{shown_by};
ghost use Rattle.group_calls.specs.Calls.{on_view};
ghost use Rattle.group_gather.specs.Gathering.{DidGather};

use conn_record::Record;
use group_calls::View;
use group_table::{Answered, Links, Turned};

// What a gather answers: where it is not refused, `reply` has n, and the placings of a plain send of the joined bytes; and the record of
// the slot as the call found it, which cuts n bytes into pieces.
#[derive(Clone, Copy)]
pub struct Gathered {
    pub answer: Answered,
    pub found: Record,
}

// The step of one record: that of a send of the joined bytes.
fn turn(view: &View, mem: &[u8], slot: u32, head: &[u8], body: &[u8]) -> Turned
    ensures { shown_by result [] mem.now
        ≡ on_view view.now mem.now slot (Request.send (head.now ++ body.now)) }
{
    let o = conn_send::send(view.n, view.active(), view.rec, head.len() + body.len());
    view.settled(mem.len(), slot, o)
}

// Sends a head and a body. At most the slot's record changes. S, N, memory, table and links apart, as in `group_make::make`.
pub fn gather(
    s: u32,
    n: u32,
    mem: &[u8],
    table: &mut [Record],
    links: Links,
    slot: u32,
    head: &[u8],
    body: &[u8],
) -> Gathered
    ensures { DidGather (group_of s n table.old links mem.now) slot head.now body.now result
        (group_of s n table.new result.answer.links mem.now) }
{
    let k = slot as usize;
    let found = group_table::record_at(table, k);
    let count = table.len();
    let view = View {
        s,
        n,
        count,
        links,
        rec: found,
    };
    let d = turn(&view, mem, slot, head, body);
    group_table::put_record(table, k, d.after);
    Gathered {
        answer: d.answer,
        found,
    }
}
