// Hear, on the lent table itself and with a small answer, for a program in C or Rust (document 01, "Calls of a connection"; document 02,
// 2026-11). It is given the links' states in place of the links, and writes a message that it makes into a lent buffer.
//
// The record is read where it is needed and its changed fields alone are put back, as in crate `c_read`.
#![tactic(auto)]

ghost use Rattle.std.specs.Prelude.{◌≡◌};
ghost use Rattle.group_table.specs.declared.Links.{Links};
ghost use Rattle.group_rules.specs.Rules.{group_of};
ghost use Rattle.plan.specs.DirectMade.{InEveryGroup};
ghost use Rattle.c_hear.specs.DirectHear.{HearMade};
ghost use Rattle.c_hear.specs.TableLeft.{HeardBy, table_left};

use cdc::Message;
use conn_record::Record;
use plan::LinkStates;
use plan_hear::{HearAnswer, Hearing};

// The record that a hear leaves: A or zeros, where the slot breaks or is closed; or what the message says.
fn put(table: &mut [Record], slot: usize, m: Message, t: Hearing)
    ensures { table.new ≡ table_left table.old slot m t }
{
    let rec = group_table::record_at(table, slot);
    if t.closes | t.aborts {
        group_table::put_record(table, slot, plan_hear::ended(rec, t));
        return;
    }
    if t.takes {
        group_table::put_record(table, slot, plan_hear::left(rec, m, t));
    }
}

// A hear of the slot's record.
fn hear_at(
    n: u32,
    table: &mut [Record],
    links: LinkStates,
    slot: usize,
    m: Message,
    message: &mut [u8; 44],
) -> HearAnswer
    ensures { HeardBy n table.old links.active slot m message.old result table.new message.new }
{
    let t = plan_hear::hear_record(n, links, group_table::record_at(table, slot), m, 0);
    plan_hear::tell(group_table::record_at(table, slot), t, message);
    put(table, slot, m, t);
    t.said
}

// A hear that 1, 4 and 5 do not refuse. A slot outside the table has a branch of its own: the compiler then knows in the other that the slot
// has a record, and inlines `hear_record`, with one caller.
fn hear_on(
    n: u32,
    table: &mut [Record],
    links: LinkStates,
    slot: usize,
    m: Message,
    message: &mut [u8; 44],
) -> HearAnswer
    ensures { HeardBy n table.old links.active slot m message.old result table.new message.new }
{
    let i = group_table::index(slot, table.len());
    if i < table.len() {
        hear_at(n, table, links, slot, m, message)
    } else {
        plan_hear::hear_none(0).said
    }
}

// Hears. What refuses comes first, as in `c_read`.
#[unsafe(no_mangle)]
pub extern "C" fn fordlinnet_make_hear(
    s: u32,
    n: u32,
    mem: &[u8],
    table: &mut [Record],
    links: LinkStates,
    bytes: &[u8],
    message: &mut [u8; 44],
) -> HearAnswer
    ensures { InEveryGroup links.active (λ (ls : Links).
        HearMade (group_of s n table.old ls mem.now) bytes.now message.old result
        (group_of s n table.new ls mem.now) message.new) }
{
    let heard = plan_hear::parse(bytes);
    let slot = group_table::find(table, plan_hear::token_of(heard));
    match plan_hear::before(s, n, mem.len(), table.len(), heard, slot) {
        0 => hear_on(n, table, links, slot, heard.message, message),
        j => plan_hear::refused(j),
    }
}
