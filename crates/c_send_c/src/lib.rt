// Send under C's name: what a program in C or Rust links of crate `c_send`, which other crates use and so is no static library itself.
#![tactic(auto)]

ghost use Rattle.group_table.specs.declared.Links.{Links};
ghost use Rattle.group_rules.specs.Rules.{group_of};
ghost use Rattle.plan.specs.DirectMade.{InEveryGroup};
ghost use Rattle.c_send.specs.DirectSend.{SendMade};

use conn_record::Record;
use plan::LinkStates;
use plan_send::SendAnswer;

#[unsafe(no_mangle)]
pub extern "C" fn fordlinnet_make_send(
    s: u32,
    n: u32,
    mem: &[u8],
    table: &mut [Record],
    links: LinkStates,
    slot: u32,
    bytes: &[u8],
    message: &mut [u8; 44],
) -> SendAnswer
    ensures { InEveryGroup links.active (λ (ls : Links).
        SendMade (group_of s n table.old ls mem.now) slot bytes.now message.old result
        (group_of s n table.new ls mem.now) message.new) }
{
    c_send::fordlinnet_make_send(s, n, mem, table, links, slot, bytes, message)
}
