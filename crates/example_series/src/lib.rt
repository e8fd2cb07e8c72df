// Calls one after the other: any two, the second on the group as the first left it. Lists are made so, piece by piece: what two pieces made
// is made by the list that joins them (specs/Series.antt, `Joined`).
#![tactic(auto)]

ghost use Rattle.group_rules.specs.Rules.{group_of, answer_of};
ghost use Rattle.group_make.specs.Group.{call_of, out_left, OutKept};
ghost use Rattle.example_series.specs.Series.{MadeTwo};

use conn_record::Record;
use group_make::Command;
use group_table::{Answered, Links};

// What the two calls answered.
#[derive(Clone, Copy)]
pub struct Two {
    pub first: Answered,
    pub second: Answered,
}

// Makes the call c, lent `given` and `out`, then the call d, lent `also` and `into`.
pub fn make_two(
    s: u32,
    n: u32,
    mem: &mut [u8],
    table: &mut [Record],
    links: Links,
    c: Command,
    given: &[u8],
    out: &mut [u8],
    d: Command,
    also: &[u8],
    into: &mut [u8],
) -> Two
    ensures { MadeTwo (group_of s n table.old links mem.old)
        (call_of c given.now out.old) (call_of d also.now into.old)
        (answer_of result.first (out_left c out.new)) (answer_of result.second (out_left d into.new))
        (group_of s n table.new result.second.links mem.new)
        × OutKept c out.old out.new × OutKept d into.old into.new }
{
    let first = group_make::make(s, n, mem, table, links, c, given, out);
    let second = group_make::make(s, n, mem, table, first.links, d, also, into);
    Two { first, second }
}
