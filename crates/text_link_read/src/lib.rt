// The lines of the replay format on links (requests 2026-01 and 2026-13): what follows their first word. A message's fields are
// `KK:V1,V2,..`: its kind, and all its values in row order. What a line names is read to the front of `given`, numbers high byte first:
// twelve values of eight bytes; or a queue's count, and a link and 44 bytes for each place. (Bytes, and no values in the line: text_link's
// values_in and queue_in promise what they read from them, and their edits are refused by it.)
#![tactic(auto)]

ghost use Rattle.std.specs.Prelude.{◌≤◌};

use group_link::LinkCommand;
use link_exchange::{Exchange, Role};
use link_message::Kind;
use text_stream::input::Input;
use text_stream::why::Why;

// The first word of a line that lays something in.
#[derive(Clone, Copy)]
pub enum LinkVerb {
    Role,
    States,
    Exchange,
    Queue,
}

// The first word of a call.
#[derive(Clone, Copy)]
pub enum LinkCallVerb {
    Change,
    Message,
    Send,
}

#[derive(Clone, Copy)]
pub enum LinkLine {
    // lay a role in
    Role(Role),
    // lay the states of links 1 to 4 in
    States(bool, bool, bool, bool),
    // lay an exchange in
    Exchange(Exchange),
    // lay the queue in that was read
    Queue,
}

// `count` bytes are lent beside the call; the values of a message to send were read. `room`: how many bytes of buffer the call is lent, where
// its line names it.
#[derive(Clone, Copy)]
pub struct LinkCallLine {
    pub command: LinkCommand,
    pub count: usize,
    pub room: Option<usize>,
}

// A space, and `client` or `server`.
fn role_line(input: &mut Input) -> Result<LinkLine, Why>
    ensures { input.new.left ≤ input.old.left }
{
    let space = input.take(b' ');
    let (role, word) = match input.byte {
        b'c' => (Role::Client, input.spelled(b"client")),
        _ => (Role::Server, input.spelled(b"server")),
    };
    space?;
    word?;
    Ok(LinkLine::Role(role))
}

// A B C D
fn states_line(input: &mut Input) -> Result<LinkLine, Why>
    ensures { input.new.left ≤ input.old.left }
{
    let a = input.number(1);
    let b = input.number(1);
    let c = input.number(1);
    let d = input.number(1);
    Ok(LinkLine::States(a? == 1, b? == 1, c? == 1, d? == 1))
}

// STAGE V W
fn exchange_line(input: &mut Input) -> Result<LinkLine, Why>
    ensures { input.new.left ≤ input.old.left }
{
    let stage = input.number(11);
    let v = input.number(255);
    let w = input.number(255);
    Ok(LinkLine::Exchange(Exchange {
        stage: stage? as u8,
        v: v? as u8,
        w: w? as u8,
    }))
}

// L M, of which M is 44 bytes, or `-` for zeros: laid at their place.
fn read_waiting(input: &mut Input, given: &mut [u8], at: usize) -> Result<(), Why>
    requires { at ≤ 136 }
    ensures { input.new.left ≤ input.old.left }
{
    let link = input.number(255);
    let mut bytes = [0u8; 44];
    let count = input.bytes(&mut bytes);
    layout::put_number(given, at, 1, link?);
    layout::put_bytes(given, at + 1, &bytes);
    match count? {
        0 | 44 => Ok(()),
        _ => Err(Why::Bytes),
    }
}

// COUNT, and the places L1 M1 L2 M2 L3 M3 L4 M4.
fn queue_line(input: &mut Input, given: &mut [u8]) -> Result<LinkLine, Why>
    ensures { input.new.left ≤ input.old.left }
{
    let count = input.number(255);
    let first = read_waiting(input, given, 1);
    let second = read_waiting(input, given, 46);
    let third = read_waiting(input, given, 91);
    let fourth = read_waiting(input, given, 136);
    layout::put_number(given, 0, 1, count?);
    first?;
    second?;
    third?;
    fourth?;
    Ok(LinkLine::Queue)
}

// ROOM, where the line has it.
fn room_of(input: &mut Input) -> Result<Option<usize>, Why>
    ensures { input.new.left ≤ input.old.left }
{
    if input.byte != b' ' {
        return Ok(None);
    }
    Ok(Some(input.number(65600)? as usize))
}

// LINK UP
fn change_line(input: &mut Input) -> Result<LinkCallLine, Why>
    ensures { input.new.left ≤ input.old.left }
{
    let link = input.number(255);
    let up = input.number(1);
    let room = room_of(input);
    Ok(LinkCallLine {
        command: LinkCommand::Change(link? as u8, up? == 1),
        count: 0,
        room: room?,
    })
}

// LINK HEX
fn message_line(input: &mut Input, given: &mut [u8]) -> Result<LinkCallLine, Why>
    ensures { input.new.left ≤ input.old.left }
{
    let link = input.number(255);
    let count = input.bytes(given);
    let room = room_of(input);
    Ok(LinkCallLine {
        command: LinkCommand::Message(link? as u8),
        count: count?,
        room: room?,
    })
}

// A kind of link messages that is named: the second digit of its first byte, the first is 0 of every one.
fn kind_of(input: &mut Input) -> Result<Kind, Why>
    ensures { input.new.left ≤ input.old.left }
{
    let code = match input.byte {
        b'0'..=b'9' => input.byte - b'0',
        _ => 0,
    };
    if !link_message::is_named(code) {
        return Err(Why::Kind);
    }
    input.next();
    Ok(link_message::kind_of(code))
}

// V1,V2,.., as many as the kind has: each laid at its place, zeros behind them.
fn read_values(input: &mut Input, given: &mut [u8], kind: Kind) -> Result<(), Why>
    ensures { input.new.left ≤ input.old.left }
{
    layout::put_zeros(given, 0, 96);
    let mut taken = Ok(());
    for k in 0..link_message::count(kind) {
        if 0 < k {
            taken = taken.and(input.take(b','));
        }
        match input.bare_number(u64::MAX) {
            Ok(v) => layout::put_number(given, 8 * k, 8, v),
            Err(why) => taken = taken.and(Err(why)),
        }
    }
    taken
}

// LINK FIELDS. Where no kind is named, values are taken as of the last.
fn send_line(input: &mut Input, given: &mut [u8]) -> Result<LinkCallLine, Why>
    ensures { input.new.left ≤ input.old.left }
{
    let link = input.number(255);
    let space = input.take(b' ');
    let zero = input.take(b'0');
    let kind = kind_of(input);
    let colon = input.take(b':');
    let values = read_values(input, given, kind.unwrap_or(Kind::DeleteRkey));
    let room = room_of(input);
    let link = link? as u8;
    space?;
    zero?;
    let kind = kind?;
    colon?;
    values?;
    Ok(LinkCallLine {
        command: LinkCommand::Send(link, kind),
        count: 0,
        room: room?,
    })
}

// What follows the verb, up to where the line should end.
pub fn parse(input: &mut Input, given: &mut [u8], verb: LinkVerb) -> Result<LinkLine, Why>
    ensures { input.new.left ≤ input.old.left }
{
    match verb {
        LinkVerb::Role => role_line(input),
        LinkVerb::States => states_line(input),
        LinkVerb::Exchange => exchange_line(input),
        LinkVerb::Queue => queue_line(input, given),
    }
}

// The same of a call.
pub fn call(input: &mut Input, given: &mut [u8], verb: LinkCallVerb) -> Result<LinkCallLine, Why>
    ensures { input.new.left ≤ input.old.left }
{
    match verb {
        LinkCallVerb::Change => change_line(input),
        LinkCallVerb::Message => message_line(input, given),
        LinkCallVerb::Send => send_line(input, given),
    }
}
