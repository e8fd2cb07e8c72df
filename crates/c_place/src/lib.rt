// Place, on the lent table itself and with a small answer, for a program in C or Rust (document 01, "Calls of a connection"; document 02,
// 2026-11). It is given the links' states in place of the links.
//
// The tests leave one by one, and the record is read where they need it (docs/SPEED.md).
#![tactic(auto)]

ghost use Rattle.std.specs.Prelude.{◌≡◌};
ghost use Rattle.conn_receive.specs.Receive.{may_place};
ghost use Rattle.group_table.specs.declared.Links.{Links};
ghost use Rattle.group_rules.specs.Rules.{group_of};
ghost use Rattle.plan.specs.Direct.{refusal_in};
ghost use Rattle.plan.specs.DirectMade.{InEveryGroup};
ghost use Rattle.c_place.specs.Placing.{placing_of, stored_by};
ghost use Rattle.c_place.specs.DirectPlace.{PlaceMade};

use conn_record::{Inbound, Record};
use plan::LinkStates;

// Whether len bytes from offset `at` on lie in the data and are free.
fn may_place(n: u32, i: Inbound, at: u32, len: usize) -> bool
    ensures { result ≡ may_place n i at len }
{
    if len == 0 {
        return true;
    }
    if at < 4 {
        return false;
    }
    if n < at {
        return false;
    }
    if ((n - at) as usize) < len {
        return false;
    }
    let t = i.told; // what the peer was told, not C
    let p = i.producer;
    let d = cursor::data_size(n);
    let w = flow::window(n, t, p);
    element::all_free(d, p.offset, w, at, len)
}

// What a place on the record is refused by, after 1, 2, 3 and 6: 7, then 9.
fn placing(n: u32, rec: Record, offset: u32, len: usize) -> Option<u8>
    ensures { result ≡ refusal_in (placing_of n rec 0 offset len) }
{
    if rec.marks.abort | (rec.marks.heard.done | rec.marks.heard.closed) {
        return Some(7);
    }
    if may_place(n, rec.inbound, offset, len) {
        None
    } else {
        Some(9)
    }
}

// The bytes in the slot's element.
fn store(n: u32, mem: &mut [u8], slot: u32, offset: u32, bytes: &[u8])
    ensures { mem.new ≡ stored_by n mem.old slot 0 offset bytes.now }
{
    let from = element::base_of(n, slot) + (offset as usize);
    element::store(mem, from, bytes);
}

// Places: the refusal's number, or 0 where the bytes are stored.
#[unsafe(no_mangle)]
pub extern "C" fn fordlinnet_make_place(
    s: u32,
    n: u32,
    mem: &mut [u8],
    table: &[Record],
    links: LinkStates,
    slot: u32,
    offset: u32,
    bytes: &[u8],
) -> u8
    ensures { InEveryGroup links.active (λ (ls : Links).
        PlaceMade (group_of s n table.now ls mem.old) slot offset bytes.now result
        (group_of s n table.now ls mem.new)) }
{
    match plan::refusal_at(s, n, mem.len(), table, links, slot) {
        Some(j) => j,
        None => {
            let rec = group_table::record_at(table, slot as usize);
            match placing(n, rec, offset, bytes.len()) {
                Some(no) => no,
                None => {
                    store(n, mem, slot, offset, bytes);
                    0
                }
            }
        }
    }
}
