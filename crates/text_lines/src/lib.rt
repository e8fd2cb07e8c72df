// A line of the input: a call with its numbers, a send of a head and a body, one of the seven lines that are no calls, a line of the pool,
// one on setting up or one on links.
#![tactic(auto)]

ghost use Rattle.std.specs.Prelude.{◌≡◌, ◌-◌, ◌≤◌};
ghost use Rattle.text_lines.specs.Why.{no_slot_of, outside_of, why_of};

use conn_record::Record;
use gauge::Gauge;
use group_link::LinkCommand;
use group_make::Command;
use text_calls::CallVerb;
use text_link_read::{LinkCallVerb, LinkLine, LinkVerb};
use text_pool::{PoolLine, PoolVerb};
use text_records::{ROWS, read};
use text_setup::{SetupLine, SetupVerb};
use text_stream::input::Input;
use text_stream::why::Why;

// Bytes are named by how many were read to the front of a buffer, as what a call is lent is promised (`Lent` of text_replay).
#[derive(Clone, Copy)]
pub enum Line {
    // empty, or a comment
    Skipped,
    // S, N, LEN, COUNT
    Group(u32, u32, usize, usize),
    // how many bytes are lent beside the call, and how many of out
    Call(Command, usize, usize),
    // a slot, and how many bytes of the head and of the body
    Gather(u32, usize, usize),
    // a slot, and what to lay there
    Record(usize, Record),
    // where, and how many bytes
    Poke(usize, usize),
    Table,
    Memory(usize, usize),
    // a link, 1 to 4
    Health(u8),
    // a link, and the gauge to lay there
    Gauge(u8, Gauge),
    // a line of the pool
    Pool(PoolLine),
    // a line on setting up
    Setup(SetupLine),
    // a line that lays something of the links in
    Link(LinkLine),
    // a call on links: how many bytes are lent beside it, and how many of buffer where the line says it
    LinkCall(LinkCommand, usize, Option<usize>),
}

const MOST: u64 = 4294967295;

#[derive(Clone, Copy)]
enum Verb {
    Group,
    Call(CallVerb),
    Gather,
    Record,
    Poke,
    Table,
    Memory,
    Health,
    Gauge,
    Pool(PoolVerb),
    Setup(SetupVerb),
    Link(LinkVerb),
    LinkCall(LinkCallVerb),
}

impl TryFrom<&[u8]> for Verb {
    type Error = Why;

    fn try_from(word: &[u8]) -> Result<Verb, Why> {
        match word {
            b"group" => Ok(Verb::Group),
            b"record" => Ok(Verb::Record),
            b"poke" => Ok(Verb::Poke),
            b"table" => Ok(Verb::Table),
            b"memory" => Ok(Verb::Memory),
            b"health" => Ok(Verb::Health),
            b"gauge" => Ok(Verb::Gauge),
            // the desk calls
            b"open" => Ok(Verb::Call(CallVerb::Open)),
            b"free" => Ok(Verb::Call(CallVerb::Free)),
            b"sample" => Ok(Verb::Call(CallVerb::Sample)),
            // a connection's calls
            b"send" => Ok(Verb::Call(CallVerb::Send)),
            b"urgent" => Ok(Verb::Call(CallVerb::Urgent)),
            b"gather" => Ok(Verb::Gather),
            b"place" => Ok(Verb::Call(CallVerb::Place)),
            b"read" => Ok(Verb::Call(CallVerb::Read)),
            b"hear" => Ok(Verb::Call(CallVerb::Hear)),
            b"shutdown" => Ok(Verb::Call(CallVerb::Shutdown)),
            b"close" => Ok(Verb::Call(CallVerb::Close)),
            b"abort" => Ok(Verb::Call(CallVerb::Abort)),
            // the pool
            b"pool" => Ok(Verb::Pool(PoolVerb::Pool)),
            b"take" => Ok(Verb::Pool(PoolVerb::Take)),
            b"return" => Ok(Verb::Pool(PoolVerb::Return)),
            b"books" => Ok(Verb::Pool(PoolVerb::Books)),
            // setting up
            b"settings" => Ok(Verb::Setup(SetupVerb::Settings)),
            b"setup" => Ok(Verb::Setup(SetupVerb::Setup)),
            b"clc" => Ok(Verb::Setup(SetupVerb::Clc)),
            // links
            b"link" => Ok(Verb::LinkCall(LinkCallVerb::Change)),
            b"linkmsg" => Ok(Verb::LinkCall(LinkCallVerb::Message)),
            b"linksend" => Ok(Verb::LinkCall(LinkCallVerb::Send)),
            b"links" => Ok(Verb::Link(LinkVerb::States)),
            b"role" => Ok(Verb::Link(LinkVerb::Role)),
            b"exchange" => Ok(Verb::Link(LinkVerb::Exchange)),
            b"queue" => Ok(Verb::Link(LinkVerb::Queue)),
            _ => Err(Why::Word),
        }
    }
}

fn unknown(input: &mut Input) -> Result<Line, Why>
    ensures { input.new.left ≤ input.old.left - 1 }
{
    input.next_line();
    Err(Why::Word)
}

// S N LEN, and COUNT, or what stands for it where the line has none: S, as far as there are rows.
fn group_line(input: &mut Input) -> Result<Line, Why>
    ensures { input.new.left ≤ input.old.left }
{
    let s = input.number(MOST);
    let n = input.number(MOST);
    let len = input.number(1048704);
    let count = if input.byte == b' ' {
        input.number(ROWS as u64)
    } else {
        s
    };
    Ok(Line::Group(
        s? as u32,
        n? as u32,
        len? as usize,
        (count? as usize).min(ROWS),
    ))
}

// Numbers and bytes, after the verb, up to where the line should end.
fn line_of(input: &mut Input, given: &mut [u8], body: &mut [u8], verb: Verb) -> Result<Line, Why>
    ensures { input.new.left ≤ input.old.left }
{
    match verb {
        Verb::Group => group_line(input),
        Verb::Call(verb) => {
            let call = text_calls::parse(input, given, verb)?;
            Ok(Line::Call(call.command, call.count, call.room))
        }
        Verb::Gather => {
            let p = text_gather::parse(input, given, body)?;
            Ok(Line::Gather(p.slot, p.head, p.body))
        }
        Verb::Record => {
            let (slot, record) = read::record(input)?;
            Ok(Line::Record(slot, record))
        }
        Verb::Poke => {
            let at = input.number(MOST);
            let count = input.bytes(given);
            Ok(Line::Poke(at? as usize, count?))
        }
        Verb::Table => Ok(Line::Table),
        Verb::Memory => {
            let at = input.number(MOST);
            let count = input.number(65600);
            Ok(Line::Memory(at? as usize, count? as usize))
        }
        Verb::Health => Ok(Line::Health(text_gauge::link_of(input)?)),
        Verb::Gauge => {
            let (link, gauge) = text_gauge::gauge_of(input, given)?;
            Ok(Line::Gauge(link, gauge))
        }
        Verb::Pool(verb) => Ok(Line::Pool(text_pool::parse(input, given, verb)?)),
        Verb::Setup(verb) => Ok(Line::Setup(text_setup::parse(input, given, verb)?)),
        Verb::Link(verb) => Ok(Line::Link(text_link_read::parse(input, given, verb)?)),
        Verb::LinkCall(verb) => {
            let call = text_link_read::call(input, given, verb)?;
            Ok(Line::LinkCall(call.command, call.count, call.room))
        }
    }
}

// The line that begins here; then the input is at the next. Its bytes go to `given`, from its start on, and its second bytes to `body`.
pub fn parse(input: &mut Input, given: &mut [u8], body: &mut [u8]) -> Result<Line, Why>
    ensures { input.new.left ≤ input.old.left - 1 }
{
    if matches!(input.byte, b'\n' | b'#') {
        input.next_line();
        return Ok(Line::Skipped);
    }
    let mut letters = [0; 8];
    let verb = Verb::try_from(input.word(&mut letters));
    match verb {
        Ok(verb) if matches!(input.byte, b' ' | b'\n') => {
            let line = line_of(input, given, body, verb);
            input.end_line(line)
        }
        _ => unknown(input),
    }
}

// The slot of a `record` line is one of the table's, of which a replay has at most 300 rows.
fn no_slot(slot: usize, count: usize) -> Option<Why>
    ensures { result ≡ no_slot_of slot count }
{
    if 1 <= slot && slot <= count && slot <= ROWS {
        None
    } else {
        Some(Why::Slot)
    }
}

// The bytes of a `poke` or `memory` line lie within the memory.
fn outside(at: usize, n: usize, len: usize) -> Option<Why>
    ensures { result ≡ outside_of at n len }
{
    if at <= len && n <= len - at {
        None
    } else {
        Some(Why::Memory)
    }
}

// Why a line is bad: by its words, or by the group that it meets, whose table has `count` rows and whose memory `len` bytes.
pub fn why(line: Result<Line, Why>, count: usize, len: usize) -> Option<Why>
    ensures { result ≡ why_of line count len }
{
    match line {
        Err(why) => Some(why),
        Ok(Line::Record(slot, _)) => no_slot(slot, count),
        Ok(Line::Poke(at, n)) => outside(at, n, len),
        Ok(Line::Memory(at, n)) => outside(at, n, len),
        Ok(_) => None,
    }
}
