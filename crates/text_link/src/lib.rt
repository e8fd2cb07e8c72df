// The lines of the replay format on links (requests 2026-01 and 2026-13): what is laid in, what is printed of a call, and the last lines of
// `table`. What follows a line's first word is read by `text_link_read`, a call on the rows of a table made by `group_link`.
#![tactic(auto)]

ghost use Rattle.std.specs.Prelude.{◌≡◌, ◌≤◌, length};
ghost use Rattle.text_link.specs.LinkText.{values_in, waiting_in, queue_in, left_of, room_of};

use conn_answer::Reply;
use group_link::{LinkCommand, LinkDone, Values};
use group_table::{Answered, Links};
use link_calls::{Fields, TakenUp};
use link_exchange::{Exchange, Fate, Queue, Role, Waiting};
use text_link_read::LinkLine;
use text_stream::output::Output;

// Fields: a kind and its values, `-` for none.
fn fields(out: &mut Output, f: &Fields) {
    if !f.named {
        out.byte(b'-');
        return;
    }
    out.hex(&[link_message::code_of(f.kind)]);
    for (k, v) in f
        .values
        .iter()
        .take(link_message::count(f.kind))
        .enumerate()
    {
        out.byte(if k == 0 { b':' } else { b',' });
        out.decimal(*v);
    }
}

fn fate(out: &mut Output, f: Fate) {
    out.text(match f {
        Fate::Taken => " taken",
        Fate::Queued => " queued",
        Fate::Denied => " denied",
        Fate::Dropped => " dropped",
    });
}

// The message taken up, if one was.
fn then(out: &mut Output, up: &TakenUp) {
    if up.some {
        out.text(" then");
        out.field(up.link as u64);
        out.byte(b' ');
        fields(out, &up.fields);
        fate(out, up.fate);
    }
}

// The message's bytes, or `-`.
fn message(out: &mut Output, said: &Answered) {
    if said.made {
        out.hex(&said.message);
    } else {
        out.byte(b'-');
    }
}

// A buffer without the A5 bytes at its end.
fn shown(buffer: &[u8]) -> &[u8]
    ensures { length result.now ≤ length buffer.now }
{
    match buffer.iter().rposition(|b| *b != 0xA5) {
        Some(last) => &buffer[..last + 1],
        None => &buffer[..0],
    }
}

// What a call's line names before the count.
fn named(out: &mut Output, command: LinkCommand, d: &LinkDone) {
    match command {
        LinkCommand::Change(_, _) => out.text("link"),
        LinkCommand::Message(_) => {
            out.text("linkmsg ");
            fields(out, &d.fields);
            fate(out, d.fate);
            out.text(" reply ");
            message(out, &d.answer);
            then(out, &d.up);
        }
        LinkCommand::Send(_, _) => {
            out.text("linksend ");
            message(out, &d.answer);
            then(out, &d.up);
        }
    }
}

fn accepted(out: &mut Output, command: LinkCommand, d: &LinkDone) {
    named(out, command, d);
    out.text(" count");
    out.field(d.count as u64);
}

fn refused(out: &mut Output, k: u8) {
    out.text("refused");
    out.field(k as u64);
}

// What is printed of a call, with the buffer as it left it.
pub fn answer(out: &mut Output, command: LinkCommand, d: LinkDone, buffer: &[u8])
    ensures { out.new.at ≤ 65536 }
{
    match d.answer.reply {
        Reply::Refused(k) => refused(out, k),
        _ => accepted(out, command, &d),
    }
    out.text(" out ");
    out.hex(shown(buffer));
    out.byte(b'\n');
}

// How many bytes of buffer a call is lent: those that its line names, or 44 for each slot, of which a replayed table has at most 300.
pub fn room_of(s: u32, room: Option<usize>) -> usize
    ensures { result ≡ room_of s room }
{
    match room {
        None => 44 * s.min(300) as usize,
        Some(n) => n,
    }
}

// The values that were read.
pub fn values_in(b: &[u8]) -> Values
    ensures { result.values ≡ values_in b.now }
{
    let mut values = [0u64; 12];
    for k in 0..12 {
        values[k] = layout::number(b, 8 * k, 8);
    }
    Values { values }
}

fn waiting_in(b: &[u8], at: usize) -> Waiting
    requires { at ≤ 136 }
    ensures { result ≡ waiting_in b.now at }
{
    let mut bytes = [0u8; 44];
    layout::bytes(b, at + 1, &mut bytes);
    Waiting {
        link: layout::number(b, at, 1) as u8,
        bytes,
    }
}

// The queue that was read. (Four places, four lines: a loop over them is no plainer.)
fn queue_in(b: &[u8]) -> Queue
    ensures { result ≡ queue_in b.now }
{
    let w1 = waiting_in(b, 1);
    let w2 = waiting_in(b, 46);
    let w3 = waiting_in(b, 91);
    let w4 = waiting_in(b, 136);
    Queue {
        count: layout::number(b, 0, 1) as u8,
        places: [w1, w2, w3, w4],
    }
}

// Lays in what the line names, and prints its word.
pub fn act(out: &mut Output, links: &mut Links, given: &[u8], line: LinkLine)
    ensures { links.new ≡ left_of links.old given.now line }
{
    match line {
        LinkLine::Role(role) => {
            links.role = role;
            out.text("role\n");
        }
        LinkLine::States(a, b, c, d) => {
            links.active = [a, b, c, d];
            out.text("links\n");
        }
        LinkLine::Exchange(x) => {
            links.exchange = x;
            out.text("exchange\n");
        }
        LinkLine::Queue => {
            let q = queue_in(given);
            links.queue = q;
            out.text("queue\n");
        }
    }
}

// L M
fn waiting(out: &mut Output, w: &Waiting) {
    out.field(w.link as u64);
    out.byte(b' ');
    if w.bytes.iter().all(|b| *b == 0) {
        out.byte(b'-');
    } else {
        out.hex(&w.bytes);
    }
}

fn queue(out: &mut Output, q: &Queue) {
    out.text("queue");
    out.field(q.count as u64);
    for w in &q.places {
        waiting(out, w);
    }
    out.byte(b'\n');
}

fn exchange(out: &mut Output, x: Exchange) {
    out.text("exchange");
    out.field(x.stage as u64);
    out.field(x.v as u64);
    out.field(x.w as u64);
    out.byte(b'\n');
}

// The three last lines of `table`, as they would be laid.
pub fn lines(out: &mut Output, links: &Links)
    ensures { out.new.at ≤ 65536 }
{
    out.text(match links.role {
        Role::Client => "role client\n",
        Role::Server => "role server\n",
    });
    exchange(out, links.exchange);
    queue(out, &links.queue);
}
