// The calls on links, for a program in C or Rust (document 02, 2026-13): apart from `exports`, so that the loop over the table is compiled
// with one caller of the coherence test.
#![tactic(auto)]

ghost use Rattle.group_rules.specs.Rules.{group_of};
ghost use Rattle.c_call.specs.Flat.{links_in};
ghost use Rattle.c_call_link.specs.FlatLink.{LinkMade};

use c_call::FlatLinks;
use c_call_link::{FlatLinkAnswer, FlatLinkCommand};
use conn_record::Record;
use group_table::Links;

// Makes the call on the links that a number names: link change, link message or link send. Where links go down, connections move.
#[unsafe(no_mangle)]
pub extern "C" fn fordlinnet_make_link(
    s: u32,
    n: u32,
    mem: &[u8],
    table: &mut [Record],
    links: FlatLinks,
    command: FlatLinkCommand,
    bytes: &[u8],
    out: &mut [u8],
) -> FlatLinkAnswer
    ensures { LinkMade (group_of s n table.old (links_in links) mem.now) command bytes.now out.old result
        (group_of s n table.new (links_in result.links) mem.now) out.new }
{
    let own = Links::from(links);
    let named = c_call_link::command_of(command);
    let given = c_call_link::values_of(command);
    let d = group_link::make(s, n, mem, table, own, named, bytes, given, out);
    c_call_link::told(command, links, d)
}
