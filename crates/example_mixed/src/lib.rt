// A caller of the core that mixes the forms of its calls: a direct send, a gather, a link message, and any other by `make`. Each gets the
// table, the links and the memory as the last one left them, so they are a list of calls made (demand 3).
#![tactic(auto)]

ghost use Rattle.group_link.specs.declared.LinkCommand.TheVariants.{Message};
ghost use Rattle.group_link.specs.LinkDesk.{answer_in};
ghost use Rattle.group_rules.specs.Rules.{Did, group_of, link_message, manage};
ghost use Rattle.example_mixed.specs.Mixed.{MadeFour};

use conn_record::Record;
use group_gather::Gathered;
use group_link::{LinkCommand, LinkDone, Values};
use group_make::Command;
use group_table::{Answered, Links};
use plan::LinkStates;
use plan_send::SendAnswer;

// What the four calls answered.
#[derive(Clone, Copy)]
pub struct Four {
    pub sent: SendAnswer,
    pub gathered: Gathered,
    pub heard: LinkDone,
    pub made: Answered,
}

// A link message heard; the values are a link send's.
fn hear_link(
    s: u32,
    n: u32,
    mem: &[u8],
    table: &mut [Record],
    links: Links,
    link: u8,
    told: &[u8],
    buffer: &mut [u8],
) -> LinkDone
    ensures { Did (group_of s n table.old links mem.now)
        (manage (link_message link told.now buffer.old))
        (answer_in (Message link) result buffer.new)
        (group_of s n table.new result.answer.links mem.now) }
{
    let none = Values { values: [0; 12] };
    let command = LinkCommand::Message(link);
    group_link::make(s, n, mem, table, links, command, told, none, buffer)
}

// Sends the bytes on one slot, directly; a head and a body on another; hears a link message, lent a buffer for what moves; and makes the
// call that the command names.
pub fn make_four(
    s: u32,
    n: u32,
    mem: &mut [u8],
    table: &mut [Record],
    links: Links,
    slot: u32,
    bytes: &[u8],
    message: &mut [u8; 44],
    other: u32,
    head: &[u8],
    body: &[u8],
    link: u8,
    told: &[u8],
    buffer: &mut [u8],
    command: Command,
    lent: &[u8],
    out: &mut [u8],
) -> Four
    ensures { MadeFour (group_of s n table.old links mem.old) slot bytes.now other head.now
        body.now link told.now command lent.now message.old message.new
        buffer.old buffer.new out.old out.new result
        (group_of s n table.new result.made.links mem.new) }
{
    let active = links.active;
    let states = LinkStates { active };
    let sent = c_send::fordlinnet_make_send(s, n, mem, table, states, slot, bytes, message);
    let gathered = group_gather::gather(s, n, mem, table, links, other, head, body);
    let second = gathered.answer.links;
    let heard = hear_link(s, n, mem, table, second, link, told, buffer);
    let third = heard.answer.links;
    let made = group_make::make(s, n, mem, table, third, command, lent, out);
    Four {
        sent,
        gathered,
        heard,
        made,
    }
}
