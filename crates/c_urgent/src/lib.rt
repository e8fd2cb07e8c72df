// Urgent send for a program in C or Rust, on the lent table itself (crate `c_send`): compiled apart from all others, which is what
// makes it fast.
#![tactic(auto)]

ghost use Rattle.group_table.specs.declared.Links.{Links};
ghost use Rattle.group_rules.specs.Rules.{group_of};
ghost use Rattle.plan.specs.DirectMade.{InEveryGroup};
ghost use Rattle.c_send.specs.DirectSend.{UrgentMade};

use conn_record::Record;
use plan::LinkStates;
use plan_send::SendAnswer;

#[unsafe(no_mangle)]
pub extern "C" fn fordlinnet_make_urgent_send(
    s: u32,
    n: u32,
    mem: &[u8],
    table: &mut [Record],
    links: LinkStates,
    slot: u32,
    bytes: &[u8],
    message: &mut [u8; 44],
) -> SendAnswer
    ensures { InEveryGroup links.active (λ (ls : Links).
        UrgentMade (group_of s n table.old ls mem.now) slot bytes.now message.old result
        (group_of s n table.new ls mem.now) message.new) }
{
    c_send::send(true, s, n, mem, table, links, slot, bytes, message)
}
