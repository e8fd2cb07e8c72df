// The tables as the answer of a `table` line: a line for each slot, the links, and a line for each gauge.
ghost use Rattle.std.specs.Prelude.{◌≤◌};

use conn_record::{RToken, Record, Urgent};
use cursor::Cursor;
use group_table::Links;
use text_stream::output::Output;

fn cursor(out: &mut Output, c: Cursor) {
    out.field(c.offset as u64);
    out.field(c.wrap as u64);
}

// The sum of the marks' weights.
fn marks(rec: &Record) -> u64 {
    let m = rec.marks;
    m.sent.done as u64
        + 2 * m.sent.closed as u64
        + 4 * m.heard.done as u64
        + 8 * m.heard.closed as u64
        + 16 * m.first as u64
        + 32 * m.abort as u64
        + 64 * rec.outbound.blocked as u64
        + 128 * rec.inbound.blocked as u64
        + 256 * rec.inbound.request as u64
}

// OPEN OWN PEER LINK SIZE
fn who(out: &mut Output, rec: &Record) {
    out.field(rec.id.opened as u64);
    out.field(rec.id.own as u64);
    out.field(rec.id.peer as u64);
    out.field(rec.id.link as u64);
    out.field(rec.remote.size as u64);
}

// P C T Q R
fn cursors(out: &mut Output, rec: &Record) {
    cursor(out, rec.inbound.producer);
    cursor(out, rec.inbound.consumer);
    cursor(out, rec.inbound.told);
    cursor(out, rec.outbound.producer);
    cursor(out, rec.outbound.consumer);
}

// KEY BASE
fn token(out: &mut Output, t: RToken) {
    out.field(t.key as u64);
    out.field(t.base);
}

// INDEX KEY1 BASE1 KEY2 BASE2 KEY3 BASE3 KEY4 BASE4
fn element(out: &mut Output, rec: &Record) {
    out.field(rec.remote.index as u64);
    token(out, rec.remote.link1);
    token(out, rec.remote.link2);
    token(out, rec.remote.link3);
    token(out, rec.remote.link4);
}

// An urgent place, `-` for none.
fn urgent(out: &mut Output, u: Urgent) {
    if u.standing {
        out.field(u.place.offset as u64);
        out.byte(b':');
        out.decimal(u.place.wrap as u64);
    } else {
        out.text(" -");
    }
}

// A slot's line, as `record` has it, but for the first word.
fn slot(out: &mut Output, k: u64, rec: &Record) {
    out.text("slot");
    out.field(k);
    who(out, rec);
    cursors(out, rec);
    out.field(rec.outbound.next as u64);
    out.field(rec.inbound.last as u64);
    out.field(marks(rec));
    element(out, rec);
    urgent(out, rec.outbound.urgent);
    urgent(out, rec.inbound.urgent);
    out.byte(b'\n');
}

// The lines of the slots, whether each link is up, and the gauges.
pub fn tables(out: &mut Output, table: &[Record], links: &Links)
    ensures { out.new.at ≤ 65536 }
{
    for (k, rec) in table.iter().enumerate() {
        slot(out, k as u64 + 1, rec);
    }
    out.text("links");
    for up in &links.active {
        out.field(*up as u64);
    }
    out.byte(b'\n');
    text_gauge::lines(out, &links.gauges);
}
