// The lines of calls, but for their first word and their end: a call with its numbers, and what is lent beside it.
#![tactic(auto)]

ghost use Rattle.std.specs.Prelude.{◌≤◌};

use conn_record::{Opening, Remote};
use group_calls::Request;
use group_desk::Management;
use group_make::Command;
use text_records::read;
use text_stream::input::Input;
use text_stream::why::Why;

#[derive(Clone, Copy)]
pub enum CallVerb {
    Open,
    Free,
    Sample,
    Send,
    Urgent,
    Place,
    Read,
    Hear,
    Shutdown,
    Close,
    Abort,
}

// `count` bytes are lent beside the call, and `room` bytes of out.
// Counts, not slices: what is lent is the first bytes of `given`, as ReplayCalls.Lent says.
#[derive(Clone, Copy)]
pub struct CallLine {
    pub command: Command,
    pub count: usize,
    pub room: usize,
}

const MOST: u64 = 4294967295;

// A call with nothing lent beside it.
fn alone(command: Command) -> CallLine {
    CallLine {
        command,
        count: 0,
        room: 0,
    }
}

// SLOT OWN PEER LINK SIZE, and the rest of what is fixed about the peer
fn open_line(input: &mut Input) -> Result<CallLine, Why>
    ensures { input.new.left ≤ input.old.left }
{
    let slot = input.number(MOST);
    let own = input.number(MOST);
    let peer = input.number(MOST);
    let link = input.number(255);
    let size = input.number(MOST);
    let remote = read::remote(input, u32::MAX);
    let slot = slot? as u32;
    let opening = Opening {
        own: own? as u32,
        peer: peer? as u32,
        link: link? as u8,
        remote: Remote {
            size: size? as u32,
            ..remote?
        },
    };
    Ok(alone(Command::Manage(Management::Open(slot, opening))))
}

// SLOT
fn free_line(input: &mut Input) -> Result<CallLine, Why>
    ensures { input.new.left ≤ input.old.left }
{
    let slot = input.number(MOST)? as u32;
    Ok(alone(Command::Manage(Management::Free(slot))))
}

// LINK MS
fn sample_line(input: &mut Input) -> Result<CallLine, Why>
    ensures { input.new.left ≤ input.old.left }
{
    let link = input.number(255);
    let ms = input.number(MOST);
    let sample = Management::Sample(link? as u8, ms? as u32);
    Ok(alone(Command::Manage(sample)))
}

// SLOT HEX, of a plain send or an urgent one.
fn send_line(input: &mut Input, given: &mut [u8], request: Request) -> Result<CallLine, Why>
    ensures { input.new.left ≤ input.old.left }
{
    let slot = input.number(MOST);
    let count = input.bytes(given);
    Ok(CallLine {
        command: Command::On(slot? as u32, request),
        count: count?,
        room: 0,
    })
}

// SLOT OFFSET HEX
fn place_line(input: &mut Input, given: &mut [u8]) -> Result<CallLine, Why>
    ensures { input.new.left ≤ input.old.left }
{
    let slot = input.number(MOST);
    let offset = input.number(MOST);
    let count = input.bytes(given);
    Ok(CallLine {
        command: Command::On(slot? as u32, Request::Place(offset? as u32)),
        count: count?,
        room: 0,
    })
}

// SLOT ROOM
fn read_line(input: &mut Input) -> Result<CallLine, Why>
    ensures { input.new.left ≤ input.old.left }
{
    let slot = input.number(MOST);
    let room = input.number(65600);
    Ok(CallLine {
        command: Command::On(slot? as u32, Request::Read),
        count: 0,
        room: room? as usize,
    })
}

// HEX
fn hear_line(input: &mut Input, given: &mut [u8]) -> Result<CallLine, Why>
    ensures { input.new.left ≤ input.old.left }
{
    let count = input.bytes(given)?;
    Ok(CallLine {
        command: Command::Hear,
        count,
        room: 0,
    })
}

// SLOT, of a request that has nothing else.
fn slot_line(input: &mut Input, request: Request) -> Result<CallLine, Why>
    ensures { input.new.left ≤ input.old.left }
{
    let slot = input.number(MOST)? as u32;
    Ok(alone(Command::On(slot, request)))
}

// The rest of a call's line, after its verb; its bytes go to `given`, from its start on.
pub fn parse(input: &mut Input, given: &mut [u8], verb: CallVerb) -> Result<CallLine, Why>
    ensures { input.new.left ≤ input.old.left }
{
    match verb {
        CallVerb::Open => open_line(input),
        CallVerb::Free => free_line(input),
        CallVerb::Sample => sample_line(input),
        CallVerb::Send => send_line(input, given, Request::Send),
        CallVerb::Urgent => send_line(input, given, Request::Urgent),
        CallVerb::Place => place_line(input, given),
        CallVerb::Read => read_line(input),
        CallVerb::Hear => hear_line(input, given),
        CallVerb::Shutdown => slot_line(input, Request::Shutdown),
        CallVerb::Close => slot_line(input, Request::Close),
        CallVerb::Abort => slot_line(input, Request::Abort),
    }
}
