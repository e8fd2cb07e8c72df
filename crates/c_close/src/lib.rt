// Close, for a program in C or Rust, compiled apart from all others (docs/SPEED.md): crate `plan_finish`'s function, with a lent buffer for
// the message.
#![tactic(auto)]

ghost use Rattle.group_table.specs.declared.Links.{Links};
ghost use Rattle.group_rules.specs.Rules.{group_of, close};
ghost use Rattle.plan.specs.DirectMade.{InEveryGroup};
ghost use Rattle.plan_finish.specs.DirectFinish.{FinishMade};

use conn_record::Record;
use plan::LinkStates;
use plan_finish::{Ending, FinishAnswer};

#[unsafe(no_mangle)]
pub extern "C" fn fordlinnet_make_close(
    s: u32,
    n: u32,
    mem: &[u8],
    table: &mut [Record],
    links: LinkStates,
    slot: u32,
    message: &mut [u8; 44],
) -> FinishAnswer
    ensures { InEveryGroup links.active (λ (ls : Links).
        FinishMade close (group_of s n table.old ls mem.now) slot message.old
        result (group_of s n table.new ls mem.now) message.new) }
{
    let f = plan_finish::finish(Ending::Close, s, n, mem, table, links, slot);
    plan_finish::answer(f, message)
}
