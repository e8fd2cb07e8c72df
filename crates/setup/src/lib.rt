// Setting up a connection: our settings, the message due and the peer's bytes give the message to send, an open's arguments or a decline.
#![tactic(auto)]

ghost use Rattle.std.specs.Prelude.{◌≡◌, cond, Some};
ghost use Rattle.setup.specs.Setup.{due_type, refusal_number, our_proposal, ours, our_decline, arguments_of, silent, saying};
ghost use Rattle.setup.specs.Setup.{plain, opens, declines, taken_b, answered_of, heard_of, setup_of};

use setup_read::{Kind, Message};

#[repr(C)]
#[derive(Clone, Copy)]
pub struct Settings {
    // N, our element size
    pub size: u32,
    pub peer: [u8; 8],
    pub gid: [u8; 16],
    pub mac: [u8; 6],
    pub mask: [u8; 4],
    pub masklen: u8,
    pub count: u8,
    // eight times a prefix and its length, of which the first count are sent: C's layout
    pub prefixes: [u8; 136],
    pub first: bool,
    pub qp: u32,
    pub mtu: u8,
    pub psn: u32,
    pub key: u32,
    pub base: u64,
    pub slot: u8,
    pub own: u32,
    pub link: u8,
    // a key and a base of each link, not an array of pairs: C's layout (fordlinnet.h)
    pub key1: u32,
    pub base1: u64,
    pub key2: u32,
    pub base2: u64,
    pub key3: u32,
    pub base3: u64,
    pub key4: u32,
    pub base4: u64,
}

// The message due.
#[derive(Clone, Copy)]
pub enum Due {
    Proposal,
    Accept,
    Confirm,
}

// The arguments of an open.
#[repr(C)]
#[derive(Clone, Copy, Default)]
pub struct Arguments {
    pub slot: u8,
    pub own: u32,
    pub token: u32,
    pub link: u8,
    pub size: u32,
    pub index: u8,
    // as in Settings
    pub key1: u32,
    pub base1: u64,
    pub key2: u32,
    pub base2: u64,
    pub key3: u32,
    pub base3: u64,
    pub key4: u32,
    pub base4: u64,
}

// An open, a decline's diagnosis, or neither.
#[derive(Clone, Copy)]
pub struct Answered {
    pub opening: Option<Arguments>,
    pub diagnosis: Option<u32>,
}

#[derive(Clone, Copy)]
pub enum Refusal {
    // N has no code
    Uncoded,
    // the bytes are no message
    NoMessage,
    // the message is neither the one that is due nor a Decline
    NotDue,
}

impl From<Refusal> for u8 {
    ghost from_gives = { λ refusal n. n ≡ refusal_number refusal };

    fn from(refusal: Refusal) -> u8 {
        match refusal {
            Refusal::Uncoded => 1,
            Refusal::NoMessage => 2,
            Refusal::NotDue => 3,
        }
    }
}

// The answer: beside its outcome the message to send, its count of bytes and zeros behind; count 0 is none. Bytes with a count and no Vec:
// no heap.
#[derive(Clone, Copy)]
pub struct Answer {
    pub outcome: Result<Answered, Refusal>,
    pub count: usize,
    pub message: [u8; 188],
}

// The type of the message that is due. No public From for what is used once.
fn due_type(due: Due) -> u8
    ensures { result ≡ due_type (Some due) }
{
    match due {
        Due::Proposal => 1,
        Due::Accept => 2,
        Due::Confirm => 3,
    }
}

fn quiet(outcome: Result<Answered, Refusal>) -> Answer
    ensures { result ≡ silent outcome }
{
    Answer {
        outcome,
        count: 0,
        message: [0; 188],
    }
}

fn say(m: Message, outcome: Result<Answered, Refusal>) -> Answer
    ensures { result ≡ saying m outcome }
{
    let mut message = [0; 188];
    let count = setup_write::write(m, &mut message);
    Answer {
        outcome,
        count,
        message,
    }
}

fn proposal(s: Settings) -> Message
    ensures { result ≡ our_proposal s }
{
    let peer = s.peer;
    let gid = s.gid;
    let mac = s.mac;
    let prefixes = s.prefixes;
    let given = s.mask;
    let mask = if s.count == 0 { given } else { [0; 4] };
    let masklen = if s.count == 0 { s.masklen } else { 0 };
    Message {
        kind: Some(Kind::Proposal),
        version: 1,
        peer,
        gid,
        mac,
        mask,
        masklen,
        count: s.count.min(8),
        prefixes,
        ..setup_read::no_message()
    }
}

// Our Accept or Confirm.
fn endpoint(s: Settings, kind: Kind, first: bool) -> Message
    ensures { result ≡ ours kind first s }
{
    let peer = s.peer;
    let gid = s.gid;
    let mac = s.mac;
    Message {
        kind: Some(kind),
        version: 1,
        first,
        peer,
        gid,
        mac,
        qp: s.qp % 16777216,
        key: s.key,
        index: s.slot,
        token: s.own,
        code: setup_read::code_of(s.size),
        mtu: s.mtu % 16,
        base: s.base,
        psn: s.psn % 16777216,
        ..setup_read::no_message()
    }
}

fn decline(s: Settings) -> Message
    ensures { result ≡ our_decline s }
{
    let peer = s.peer;
    Message {
        kind: Some(Kind::Decline),
        version: 1,
        peer,
        diagnosis: 1,
        ..setup_read::no_message()
    }
}

// A key and base: those heard at the link that the peer speaks of, else the settings'.
fn pair(here: bool, heard: (u32, u64), other: (u32, u64)) -> (u32, u64)
    ensures { (result.0 ≡ cond here heard.0 other.0) × (result.1 ≡ cond here heard.1 other.1) }
{
    if here { heard } else { other }
}

fn arguments_of(s: Settings, m: Message) -> Arguments
    ensures { result ≡ arguments_of s m }
{
    let heard = (m.key, m.base);
    let (key1, base1) = pair(s.link == 1, heard, (s.key1, s.base1));
    let (key2, base2) = pair(s.link == 2, heard, (s.key2, s.base2));
    let (key3, base3) = pair(s.link == 3, heard, (s.key3, s.base3));
    let (key4, base4) = pair(s.link == 4, heard, (s.key4, s.base4));
    Arguments {
        slot: s.slot,
        own: s.own,
        token: m.token,
        link: s.link,
        size: setup_read::size_of(m.code),
        index: m.index,
        key1,
        base1,
        key2,
        base2,
        key3,
        base3,
        key4,
        base4,
    }
}

// Whether a code from the peer means some bytes and at most 65,540.
fn taken(code: u8) -> bool
    ensures { result ≡ taken_b code }
{
    let n = setup_read::size_of(code);
    (1 <= n) & (n <= 65540)
}

fn plain() -> Result<Answered, Refusal>
    ensures { result ≡ plain }
{
    Ok(Answered {
        opening: None,
        diagnosis: None,
    })
}

fn opens(s: Settings, m: Message) -> Result<Answered, Refusal>
    ensures { result ≡ opens s m }
{
    Ok(Answered {
        opening: Some(arguments_of(s, m)),
        diagnosis: None,
    })
}

fn declines(diagnosis: u32) -> Result<Answered, Refusal>
    ensures { result ≡ declines diagnosis }
{
    Ok(Answered {
        opening: None,
        diagnosis: Some(diagnosis),
    })
}

// What the message that was due is answered by.
fn answer_due(s: Settings, m: Message, due: Due) -> Answer
    ensures { result ≡ answered_of s m (due_type (Some due)) }
{
    let fits = taken(m.code);
    match due {
        Due::Proposal => say(endpoint(s, Kind::Accept, s.first), plain()),
        Due::Accept if fits => say(endpoint(s, Kind::Confirm, false), opens(s, m)),
        Due::Confirm if fits => quiet(opens(s, m)),
        _ => say(decline(s), declines(1)),
    }
}

fn heard(s: Settings, due: Due, m: Message) -> Answer
    ensures { result ≡ heard_of s (due_type (Some due)) m }
{
    let Some(kind) = m.kind else {
        return quiet(Err(Refusal::NoMessage));
    };
    match kind {
        Kind::Decline => quiet(declines(m.diagnosis)),
        _ => {
            if setup_read::type_of(m.kind) == due_type(due) {
                answer_due(s, m, due)
            } else {
                quiet(Err(Refusal::NotDue))
            }
        }
    }
}

// The message to send, an open's arguments and a diagnosis, or a refusal: of our settings, the message that may be due, and the peer's
// bytes.
pub fn setup(s: Settings, due: Option<Due>, bytes: &[u8]) -> Answer
    ensures { result ≡ setup_of s due bytes.now }
{
    if setup_read::code_of(s.size) == 16 {
        return quiet(Err(Refusal::Uncoded));
    }
    match due {
        None => say(proposal(s), plain()),
        Some(due) => heard(s, due, setup_read::read(bytes)),
    }
}
