// Read, on the lent table itself and with a small answer, for a program in C or Rust (document 01, "Calls of a connection"; document 02,
// 2026-11). It is given the links' states in place of the links, and writes a message that it makes into a lent buffer.
#![tactic(auto)]

ghost use Rattle.group_table.specs.declared.Links.{Links};
ghost use Rattle.group_rules.specs.Rules.{group_of};
ghost use Rattle.plan.specs.DirectMade.{InEveryGroup};
ghost use Rattle.c_read.specs.ReadLeft.{LeftBy};
ghost use Rattle.c_read.specs.DirectRead.{ReadMade};

use conn_record::Record;
use plan::LinkStates;
use plan_read::ReadAnswer;

// A read that 1, 2, 3 and 6 do not refuse. The record is read anew where it is needed, and its changed fields alone are put back.
fn read_on(
    n: u32,
    mem: &[u8],
    table: &mut [Record],
    slot: u32,
    out: &mut [u8],
    message: &mut [u8; 44],
) -> ReadAnswer
    ensures { LeftBy n mem.now table.old slot out.old message.old
        result table.new out.new message.new }
{
    let at = slot as usize;
    let t = plan_read::read_record(n, mem, slot, group_table::record_at(table, at), out.len());
    plan_read::tell(group_table::record_at(table, at), t, message);
    let next = plan_read::left(group_table::record_at(table, at), t);
    group_table::put_record(table, at, next);
    plan_read::copy(n, mem, slot, t, out);
    t.said
}

// Reads. What refuses comes first, so that the compiler knows in what follows all that the tests have shown.
#[unsafe(no_mangle)]
pub extern "C" fn fordlinnet_make_read(
    s: u32,
    n: u32,
    mem: &[u8],
    table: &mut [Record],
    links: LinkStates,
    slot: u32,
    out: &mut [u8],
    message: &mut [u8; 44],
) -> ReadAnswer
    ensures { InEveryGroup links.active (λ (ls : Links).
        ReadMade (group_of s n table.old ls mem.now) slot out.old message.old result
        (group_of s n table.new ls mem.now) out.new message.new) }
{
    match plan::refusal_at(s, n, mem.len(), table, links, slot) {
        Some(j) => plan_read::refused(j),
        None => read_on(n, mem, table, slot, out, message),
    }
}
