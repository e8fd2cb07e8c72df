// Link change, link message and link send with flat structs, for callers in C and Rust (requests 2026-01 and 2026-13). A call is named by a
// number, and what an answer says is a number with the fields that it names; every other field is zero.
#![tactic(auto)]

ghost use Rattle.std.specs.Prelude.{◌≡◌};
ghost use Rattle.c_call_link.specs.FlatLink.{fate_number, kind_number, flat_fields, up_fate, flat_up, link_bare, link_named, said_number, refusal_number, link_told};
ghost use Rattle.c_call_link.specs.FlatLink.{LinkNames, link_command_of, values_of, accepted_of, link_told_of};

use c_call::FlatLinks;
use conn_answer::Reply;
use group_link::{LinkCommand, LinkDone, Values};
use link_calls::{Fields, TakenUp};
use link_exchange::Fate;

// What an answer says: no enum, as the numbers are C's (fordlinnet.h).
const UNKNOWN: u32 = 0;

const ACCEPTED: u32 = 2;

const LINK_HEARD: u32 = 13;

const LINK_SENT: u32 = 14;

const LINK_CHANGED: u32 = 15;

// A link message's kind, which is its byte 0, and its values; zeros where none is named.
#[repr(C)]
#[derive(Clone, Copy)]
pub struct FlatFields {
    pub kind: u8,
    pub values: [u64; 12],
}

// A message taken up from the queue: the link that it came over, its fate, its kind and values.
#[repr(C)]
#[derive(Clone, Copy)]
pub struct FlatTakenUp {
    pub some: bool,
    pub link: u8,
    pub fate: u32,
    pub fields: FlatFields,
}

// One of the three calls by its number; what the number does not name is not looked at.
#[repr(C)]
#[derive(Clone, Copy)]
pub struct FlatLinkCommand {
    pub number: u32,
    pub link: u8,
    pub up: bool,
    pub fields: FlatFields,
}

// What a call answers, the message taken up from the queue, how many messages with F stand in the buffer, and the links that it leaves.
#[repr(C)]
#[derive(Clone, Copy)]
pub struct FlatLinkAnswer {
    pub said: u32,
    pub refusal: u32,
    pub fate: u32,
    pub fields: FlatFields,
    pub up: FlatTakenUp,
    pub count: u32,
    pub made: bool,
    pub message: [u8; 44],
    pub links: FlatLinks,
}

// No From: Fate and u32 are both others' types.
fn fate_number(fate: Fate) -> u32
    ensures { result ≡ fate_number fate }
{
    match fate {
        Fate::Taken => 1,
        Fate::Queued => 2,
        Fate::Denied => 3,
        Fate::Dropped => 4,
    }
}

fn kind_number(f: Fields) -> u8
    ensures { result ≡ kind_number f }
{
    let kind = f.kind;
    let code = link_message::code_of(kind);
    if f.named { code } else { 0 }
}

impl From<Fields> for FlatFields {
    ghost from_gives = { λ f flat. flat ≡ flat_fields f };

    fn from(f: Fields) -> FlatFields {
        let values = f.values;
        FlatFields {
            kind: kind_number(f),
            values,
        }
    }
}

fn up_fate(up: TakenUp) -> u32
    ensures { result ≡ up_fate up }
{
    let fate = up.fate;
    let number = fate_number(fate);
    if up.some { number } else { 0 }
}

impl From<TakenUp> for FlatTakenUp {
    ghost from_gives = { λ up flat. flat ≡ flat_up up };

    fn from(up: TakenUp) -> FlatTakenUp {
        FlatTakenUp {
            some: up.some,
            link: up.link,
            fate: up_fate(up),
            fields: FlatFields::from(up.fields),
        }
    }
}

const NO_FIELDS: FlatFields = FlatFields {
    kind: 0,
    values: [0; 12],
};

// An answer that names at most a refusal and a count, beside the message. Made, message and links are no struct: each would be taken out of
// it again here and below, and built at each call.
fn link_bare(
    said: u32,
    refusal: u32,
    count: u32,
    made: bool,
    message: [u8; 44],
    links: FlatLinks,
) -> FlatLinkAnswer
    ensures { result ≡ link_bare said refusal count made message links }
{
    FlatLinkAnswer {
        said,
        refusal,
        fate: 0,
        fields: NO_FIELDS,
        up: FlatTakenUp {
            some: false,
            link: 0,
            fate: 0,
            fields: NO_FIELDS,
        },
        count,
        made,
        message,
        links,
    }
}

// One that names a fate and fields, the message taken up, and a count.
fn link_named(
    said: u32,
    fate: u32,
    fields: FlatFields,
    up: TakenUp,
    count: u32,
    made: bool,
    message: [u8; 44],
    links: FlatLinks,
) -> FlatLinkAnswer
    ensures { result ≡ link_named said fate fields up count made message links }
{
    FlatLinkAnswer {
        said,
        refusal: 0,
        fate,
        fields,
        up: FlatTakenUp::from(up),
        count,
        made,
        message,
        links,
    }
}

// A number that names none of the calls, or a kind to send that is none of the messages'.
#[derive(Clone, Copy)]
pub struct UnknownLinkCall(pub u32);

// The call of a number.
impl TryFrom<FlatLinkCommand> for LinkCommand {
    type Error = UnknownLinkCall;

    ghost try_from_gives = { LinkNames };

    fn try_from(q: FlatLinkCommand) -> Result<LinkCommand, UnknownLinkCall> {
        let kind = link_message::kind_of(q.fields.kind);
        let sendable = link_message::is_named(q.fields.kind);
        match q.number {
            3 => Ok(LinkCommand::Change(q.link, q.up)),
            13 => Ok(LinkCommand::Message(q.link)),
            14 if sendable => Ok(LinkCommand::Send(q.link, kind)),
            _ => Err(UnknownLinkCall(q.number)),
        }
    }
}

// The call that is made: for an unknown number one that changes nothing.
pub fn command_of(q: FlatLinkCommand) -> LinkCommand
    ensures { result ≡ link_command_of q }
{
    match LinkCommand::try_from(q) {
        Ok(command) => command,
        Err(_) => LinkCommand::Change(0, false),
    }
}

// The values of a message to send.
pub fn values_of(q: FlatLinkCommand) -> Values
    ensures { result ≡ values_of q }
{
    let values = q.fields.values;
    Values { values: values }
}

// What a call that is not refused names.
fn accepted(
    c: LinkCommand,
    d: LinkDone,
    count: u32,
    made: bool,
    message: [u8; 44],
    links: FlatLinks,
) -> FlatLinkAnswer
    ensures { result ≡ accepted_of c d count made message links }
{
    match c {
        LinkCommand::Change(_, _) => link_bare(LINK_CHANGED, 0, count, made, message, links),
        LinkCommand::Message(_) => link_named(
            LINK_HEARD,
            fate_number(d.fate),
            FlatFields::from(d.fields),
            d.up,
            count,
            made,
            message,
            links,
        ),
        LinkCommand::Send(_, _) => {
            link_named(LINK_SENT, 0, NO_FIELDS, d.up, count, made, message, links)
        }
    }
}

// What a reply says in a number, and its refusal's number; 0 for none. No From: Reply and u32 are both others' types.
fn said_number(reply: Reply) -> u32
    ensures { result ≡ said_number reply }
{
    match reply {
        Reply::Refused(_) => 1,
        Reply::Accepted => 2,
        Reply::Sent(_, _) => 3,
        Reply::Read(_) => 5,
        Reply::Torn => 6,
        Reply::Reset => 8,
        Reply::Heard(_, _) => 7,
        Reply::Sampled(_) => 9,
    }
}

fn refusal_number(reply: Reply) -> u32
    ensures { result ≡ refusal_number reply }
{
    match reply {
        Reply::Refused(k) => k as u32,
        Reply::Accepted => 0,
        Reply::Sent(_, _) => 0,
        Reply::Read(_) => 0,
        Reply::Torn => 0,
        Reply::Reset => 0,
        Reply::Heard(_, _) => 0,
        Reply::Sampled(_) => 0,
    }
}

// The answer, flat: what the call names where it is accepted. A count is at most a table's length.
fn link_told(c: LinkCommand, d: LinkDone) -> FlatLinkAnswer
    ensures { result ≡ link_told c d }
{
    let answer = d.answer;
    let reply = answer.reply;
    let message = answer.message;
    let links = FlatLinks::from(answer.links);
    let said = said_number(reply);
    let count = (d.count % 4294967296) as u32;
    if said == ACCEPTED {
        accepted(c, d, count, answer.made, message, links)
    } else {
        link_bare(said, refusal_number(reply), 0, answer.made, message, links)
    }
}

// What the caller is told: the answer, or that the number is unknown, with the links as they were handed in.
pub fn told(q: FlatLinkCommand, links: FlatLinks, d: LinkDone) -> FlatLinkAnswer
    ensures { result ≡ link_told_of q links d }
{
    match LinkCommand::try_from(q) {
        Ok(c) => link_told(c, d),
        Err(_) => link_bare(UNKNOWN, 0, 0, false, [0u8; 44], links),
    }
}
