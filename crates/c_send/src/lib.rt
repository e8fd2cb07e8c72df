// Send, on the lent table itself and with a small answer, for a program in C or Rust (document 01, "Calls of a connection"; document 02,
// 2026-11). It is given the links' states in place of the links, and writes a message that it makes into a lent buffer. The urgent send
// (crate `c_urgent`) is the same function with a bit that tells it apart.
//
// The record is read where it is needed and its changed fields alone are put back: a record by value through each step costs more than the
// step (docs/SPEED.md).
#![tactic(auto)]

ghost use Rattle.std.specs.Prelude.{◌≡◌};
ghost use Rattle.group_table.specs.declared.Links.{Links};
ghost use Rattle.group_table.specs.Table.{record_at, with_record};
ghost use Rattle.group_rules.specs.Rules.{group_of};
ghost use Rattle.plan.specs.DirectMade.{InEveryGroup};
ghost use Rattle.plan_send.specs.Transmitted.{record_left, message_left};
ghost use Rattle.c_send.specs.TableLeft.{LeftBy};
ghost use Rattle.c_send.specs.DirectSend.{Sends, SendMade};

use conn_record::Record;
use plan::LinkStates;
use plan_send::{SendAnswer, Sending};

// Stores what the send changed.
pub fn put(urgent: bool, table: &mut [Record], slot: u32, t: Sending)
    ensures { table.new ≡ with_record table.old slot (record_left urgent (record_at table.old slot) t) }
{
    let rec = group_table::record_at(table, slot as usize);
    let next = plan_send::left(urgent, rec, t);
    group_table::put_record(table, slot as usize, next);
}

// The message, where one is made.
pub fn tell_at(urgent: bool, table: &[Record], slot: u32, t: Sending, to: &mut [u8; 44])
    ensures { to.new ≡ message_left urgent (record_at table.now slot) t to.old }
{
    let from = group_table::record_at(table, slot as usize);
    plan_send::tell(urgent, from, t, to);
}

// A send that 1, 2, 3 and 6 do not refuse.
fn send_on(
    urgent: bool,
    table: &mut [Record],
    slot: u32,
    bytes: &[u8],
    message: &mut [u8; 44],
) -> SendAnswer
    ensures { LeftBy urgent table.old slot bytes.now message.old result table.new
        message.new }
{
    let rec = group_table::record_at(table, slot as usize);
    let t = plan_send::send_record(urgent, rec, bytes.len());
    tell_at(urgent, table, slot, t, message);
    put(urgent, table, slot, t);
    t.said
}

// Either. What refuses comes first, so that the compiler knows in what follows all that the tests have shown.
pub fn send(
    urgent: bool,
    s: u32,
    n: u32,
    mem: &[u8],
    table: &mut [Record],
    links: LinkStates,
    slot: u32,
    bytes: &[u8],
    message: &mut [u8; 44],
) -> SendAnswer
    ensures { InEveryGroup links.active (λ (ls : Links).
        Sends urgent (group_of s n table.old ls mem.now) slot bytes.now message.old result
        (group_of s n table.new ls mem.now) message.new) }
{
    match plan::refusal_at(s, n, mem.len(), table, links, slot) {
        Some(j) => plan_send::refused(j),
        None => send_on(urgent, table, slot, bytes, message),
    }
}

// A library exports nothing: crate `c_send_c` has this one for C, under the same name.
#[unsafe(no_mangle)]
pub extern "C" fn fordlinnet_make_send(
    s: u32,
    n: u32,
    mem: &[u8],
    table: &mut [Record],
    links: LinkStates,
    slot: u32,
    bytes: &[u8],
    message: &mut [u8; 44],
) -> SendAnswer
    ensures { InEveryGroup links.active (λ (ls : Links).
        SendMade (group_of s n table.old ls mem.now) slot bytes.now message.old result
        (group_of s n table.new ls mem.now) message.new) }
{
    send(false, s, n, mem, table, links, slot, bytes, message)
}
