// Gather, a head and a body sent as if joined, on the lent table itself and with a small answer, for a program in C or Rust (document 02,
// 2026-08 and 2026-11). It is the send of the joined length (crate `c_send`); its pieces are that send's placings, cut where the head
// ends (crate `plan_gather`), so that no record is in its answer.
#![tactic(auto)]

ghost use Rattle.std.specs.Prelude.{◌≡◌, ◌+◌, length};
ghost use Rattle.group_table.specs.declared.Links.{Links};
ghost use Rattle.group_rules.specs.Rules.{group_of};
ghost use Rattle.plan.specs.Direct.{refusal_at};
ghost use Rattle.plan.specs.DirectMade.{InEveryGroup};
ghost use Rattle.c_gather.specs.GatherLeft.{last_by, refused_answer, GatherBy, GatherUnless};
ghost use Rattle.c_gather.specs.DirectGather.{GatherMade};

use conn_answer::Placing;
use conn_record::Record;
use flow::Stretch;
use plan::LinkStates;
use plan_gather::{GatherAnswer, Joined};
use plan_send::Sending;

// The empty placing where Q is after the sending.
fn last_of(rec: Record, t: Sending) -> Placing
    ensures { result ≡ last_by rec t }
{
    if 0 < t.said.refusal {
        return plan_send::no_placing();
    }
    let token = plan_send::rtoken_of(rec);
    let end = Stretch {
        offset: t.producer.offset,
        start: t.said.taken,
        len: 0,
    };
    plan_send::placing(rec.remote.size, rec.remote.index, token, end)
}

// The joined bytes' length.
fn joined(head: &[u8], body: &[u8]) -> usize
    ensures { result ≡ length head.now + length body.now }
{
    head.len() + body.len()
}

fn refused(j: u8) -> Joined
    ensures { result ≡ refused_answer j }
{
    Joined {
        sent: plan_send::refused(j),
        last: plan_send::no_placing(),
    }
}

// A gather that 1, 2, 3 and 6 do not refuse.
fn gather_on(
    table: &mut [Record],
    slot: u32,
    head: &[u8],
    body: &[u8],
    message: &mut [u8; 44],
) -> Joined
    ensures { GatherBy table.old slot head.now body.now message.old result table.new
        message.new }
{
    let rec = group_table::record_at(table, slot as usize);
    let t = plan_send::send_record(false, rec, joined(head, body));
    let last = last_of(rec, t);
    c_send::tell_at(false, table, slot, t, message);
    c_send::put(false, table, slot, t);
    Joined { sent: t.said, last }
}

// The same, and one that they refuse.
fn gathered(
    s: u32,
    n: u32,
    mem: &[u8],
    table: &mut [Record],
    links: LinkStates,
    slot: u32,
    head: &[u8],
    body: &[u8],
    message: &mut [u8; 44],
) -> Joined
    ensures { GatherUnless (refusal_at s n (length mem.now) table.old links.active slot) table.old slot
        head.now body.now message.old result table.new message.new }
{
    match plan::refusal_at(s, n, mem.len(), table, links, slot) {
        Some(j) => refused(j),
        None => gather_on(table, slot, head, body, message),
    }
}

// Sends a head and a body as if joined. What refuses comes first, as in the send.
#[unsafe(no_mangle)]
pub extern "C" fn fordlinnet_make_gather(
    s: u32,
    n: u32,
    mem: &[u8],
    table: &mut [Record],
    links: LinkStates,
    slot: u32,
    head: &[u8],
    body: &[u8],
    message: &mut [u8; 44],
) -> GatherAnswer
    ensures { InEveryGroup links.active (λ (ls : Links).
        GatherMade (group_of s n table.old ls mem.now) slot head.now body.now
        message.old result (group_of s n table.new ls mem.now) message.new) }
{
    let a = gathered(s, n, mem, table, links, slot, head, body, message);
    plan_gather::in_pieces(a, head.len())
}
