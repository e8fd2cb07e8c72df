// A caller of the core: it sends its last bytes and says that it is done. The table is lent to both calls, and the links that the first one
// leaves go into the second.
#![tactic(auto)]

ghost use Rattle.group_rules.specs.Rules.{group_of};
ghost use Rattle.example_send.specs.Example.{LastWords};

use conn_record::Record;
use group_calls::Request;
use group_make::Command;
use group_table::{Answered, Links};

#[derive(Clone, Copy)]
pub struct Said {
    sent: Answered,
    done: Answered,
}

pub fn last_words(
    s: u32,
    n: u32,
    mem: &mut [u8],
    table: &mut [Record],
    links: Links,
    slot: u32,
    bytes: &[u8],
    out: &mut [u8],
) -> Said
    ensures { LastWords (group_of s n table.old links mem.old) slot bytes.now result
        table.new mem.new }
{
    let send = Command::On(slot, Request::Send);
    let sent = group_make::make(s, n, mem, table, links, send, bytes, out);
    let shutdown = Command::On(slot, Request::Shutdown);
    let done = group_make::make(s, n, mem, table, sent.links, shutdown, bytes, out);
    Said { sent, done }
}
