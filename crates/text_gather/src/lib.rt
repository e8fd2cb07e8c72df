// The line of the replay format that sends a head and a body: what follows its first word, the call on the rows of a replayed table, and
// what is printed of it.
#![tactic(auto)]

ghost use Rattle.std.specs.Prelude.{◌≡◌, ◌-◌, ◌≤◌};
ghost use Rattle.text_gather.specs.GatherText.{OnRows};

use conn_answer::Reply;
use conn_record::Record;
use group_gather::Gathered;
use group_table::Links;
use text_stream::input::Input;
use text_stream::output::Output;
use text_stream::why::Why;

// A slot, and how many bytes the head and the body have (counts beside buffers that are lent to every line: no heap, so no Vec).
#[derive(Clone, Copy)]
pub struct GatherLine {
    pub slot: u32,
    pub head: usize,
    pub body: usize,
}

// A table, and what a gather on its rows answered. (By value, as Made and LinkMade: one form of the three on_rows.)
#[derive(Clone, Copy)]
pub struct GatherMade {
    pub table: [Record; 300],
    pub gathered: Gathered,
}

// SLOT HEAD BODY: each of the two is read into a buffer of its own.
pub fn parse(input: &mut Input, head: &mut [u8], body: &mut [u8]) -> Result<GatherLine, Why>
    ensures { input.new.left ≤ input.old.left }
{
    let slot = input.number(4294967295);
    let head = input.bytes(head);
    let body = input.bytes(body);
    Ok(GatherLine {
        slot: slot? as u32,
        head: head?,
        body: body?,
    })
}

// Makes the call on the first `count` rows, which are lent.
pub fn on_rows(
    mut table: [Record; 300],
    count: usize,
    s: u32,
    n: u32,
    mem: &[u8],
    links: Links,
    slot: u32,
    head: &[u8],
    body: &[u8],
) -> GatherMade
    ensures { OnRows table count s n mem.now links slot head.now body.now result }
{
    let k = count.min(300);
    let gathered = group_gather::gather(s, n, mem, &mut table[..k], links, slot, head, body);
    GatherMade { table, gathered }
}

// One piece, after the first k of n bytes: key, address and bytes. How long it is.
fn piece(out: &mut Output, found: Record, head: &[u8], body: &[u8], n: u32, k: u32) -> u32
    ensures { result ≤ n - k }
{
    let part = conn_gather::piece(head, body, found.remote.size, found.outbound.producer, n, k);
    let len = part.len() as u32;
    let p = conn_gather::placing(found, k, len);
    out.decimal(p.key as u64);
    out.byte(b',');
    out.decimal(p.address);
    out.byte(b',');
    out.hex(part);
    len
}

// All pieces, one at a time, up to the empty one. (No index is counted: it goes by pieces, so no `for`.)
fn list(out: &mut Output, found: Record, head: &[u8], body: &[u8], n: u32) {
    let mut k = 0;
    let mut len = piece(out, found, head, body, n, k);
    while 0 < len {
        k += len;
        out.byte(b';');
        len = piece(out, found, head, body, n, k);
    }
}

// n and the pieces; then the message's bytes, or `-`.
fn gathered(out: &mut Output, g: Gathered, head: &[u8], body: &[u8], n: u32) {
    out.text("gather ");
    out.decimal(n as u64);
    out.text(" pieces ");
    list(out, g.found, head, body, n);
    out.text(" message ");
    if g.answer.made {
        out.hex(&g.answer.message);
    } else {
        out.byte(b'-');
    }
    out.byte(b'\n');
}

fn refused(out: &mut Output, k: u8) {
    out.text("refused");
    out.field(k as u64);
    out.byte(b'\n');
}

// Prints what the call answered: n and the pieces, or a refusal. It answers nothing else.
pub fn answer(out: &mut Output, g: Gathered, head: &[u8], body: &[u8])
    ensures { out.new.at ≤ 65536 }
{
    match g.answer.reply {
        Reply::Sent(n, _) => gathered(out, g, head, body, n),
        Reply::Refused(k) => refused(out, k),
        _ => out.text("bad line\n"),
    }
}
