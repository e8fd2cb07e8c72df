// One call of a group, whichever it is (document 01). It is lent S, N, the memory, the table and the links, whatever they hold, and answers
// with the links, what its line names, and the message's bytes. `Did` says that the answer and what is left are what the rules say.
//
// `make` is the lent form: it finds the record, has the call act on it (`turn`), and puts it back. It has no test of its own: a refused call
// leaves its record as it was, and a slot outside the table reads as zeros and is put nowhere. What a call does to its record is in the
// crates `group_calls` and `group_desk`.
#![tactic(auto)]

ghost use Rattle.std.specs.Prelude.{◌≡◌, ◌≤◌, min};
ghost use Rattle.group_rules.specs.Rules.{Did, group_of, answer_of};
ghost use Rattle.group_rules.specs.Promises.{shown_by};
ghost use Rattle.group_make.specs.Group.{call_of, token_of, slot_of_all, out_left, OutKept, command_view};
ghost use Rattle.group_make.specs.Rows.{OnRows};

use conn_record::Record;
use group_calls::{Request, View};
use group_desk::Management;
use group_table::{Answered, Links, Turned};

// Any one of the calls, with its numbers; its bytes are lent beside it.
#[derive(Clone, Copy)]
pub enum Command {
    // on a slot
    On(u32, Request),
    Hear,
    Manage(Management),
}

// The token that a call looks for in the table; 0 for none, no `Option`: `group_table::find` and `holder_in` say so.
fn token_of(command: Command, bytes: &[u8]) -> u32
    ensures { result ≡ token_of command bytes.now }
{
    match command {
        Command::On(_, _) => 0,
        Command::Hear => group_calls::token_in(bytes),
        Command::Manage(call) => group_desk::token_of(call),
    }
}

// The slot whose record a call may change, where the slot `holder` has the token; 0 for none.
fn slot_of(command: Command, holder: usize) -> usize
    ensures { result ≡ slot_of_all command holder }
{
    match command {
        Command::On(slot, _) => slot as usize,
        Command::Hear => holder,
        Command::Manage(call) => group_desk::slot_of(call) as usize,
    }
}

// One call, on the record of its slot: the whole of the rules but for the table.
fn turn(
    view: &View,
    mem: &mut [u8],
    holder: usize,
    command: Command,
    bytes: &[u8],
    out: &mut [u8],
) -> Turned
    ensures { (shown_by result (out_left command out.new) mem.new
        ≡ command_view view.now mem.old holder command bytes.now out.old)
        × OutKept command out.old out.new }
{
    match command {
        Command::On(slot, request) => view.on(mem, slot, request, bytes, out),
        Command::Hear => view.hear(mem, holder, bytes),
        Command::Manage(call) => group_desk::manage(view, mem, holder, call),
    }
}

// Makes one call. At most one record of the table changes. A call that has no use for an out buffer leaves `out` as it is.
// S, N, memory, table and links apart, no struct: README and docs/CALLING.md name it so, and each is lent or goes on its own.
pub fn make(
    s: u32,
    n: u32,
    mem: &mut [u8],
    table: &mut [Record],
    links: Links,
    command: Command,
    bytes: &[u8],
    out: &mut [u8],
) -> Answered
    ensures { Did (group_of s n table.old links mem.old)
        (call_of command bytes.now out.old)
        (answer_of result (out_left command out.new))
        (group_of s n table.new result.links mem.new)
        × OutKept command out.old out.new }
{
    let token = token_of(command, bytes);
    let holder = group_table::find(table, token);
    let slot = slot_of(command, holder);
    let rec = group_table::record_at(table, slot);
    let count = table.len();
    let view = View {
        s,
        n,
        count,
        links,
        rec,
    };
    let d = turn(&view, mem, holder, command, bytes, out);
    group_table::put_record(table, slot, d.after);
    d.answer
}

// A call on the first rows of a replayed table: an array of 300 records, more than any S, of which a line of the replay format lends as
// many as it says.

// A table, and what a call on its rows answered. No `Rows<T>` with `group_link::LinkMade`: the text program's definitions name both.
#[derive(Clone, Copy)]
pub struct Made {
    pub table: [Record; 300],
    pub answer: Answered,
}

// Makes the call on the first `count` rows, which are lent.
pub fn on_rows(
    table: [Record; 300],
    count: usize,
    s: u32,
    n: u32,
    mem: &mut [u8],
    links: Links,
    command: Command,
    bytes: &[u8],
    out: &mut [u8],
) -> Made
    ensures { OnRows table count s n mem.old links command bytes.now out.old result mem.new
        out.new
        × OutKept command out.old out.new }
{
    let k = count.min(300);
    let mut rows = table;
    let answer = make(s, n, mem, &mut rows[..k], links, command, bytes, out);
    Made {
        table: rows,
        answer,
    }
}
