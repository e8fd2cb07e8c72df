// A call and its answer as flat structs, for callers in C and Rust: an exported function takes and returns no enum. A call is named by a
// number, and what an answer says is a number with the fields that it names; every other field is zero.
#![tactic(auto)]

ghost use Rattle.std.specs.Prelude.{◌≡◌, []};
ghost use Rattle.group_rules.specs.Rules.{placing_list, says_of, answer_of};
ghost use Rattle.c_call.specs.Flat.{role_of, links_in, flat_links, Names, command_of, bare, with_placings, with_health, with_heard};
ghost use Rattle.c_call.specs.Flat.{flat_says, flat_of, told_of};
ghost use Rattle.c_call.specs.View.{word_number, flat_view};
ghost use Rattle.gauge.specs.Gauge.{health_of, view_of};
ghost use Rattle.group_table.specs.Table.{gauge_at};

use closing::State;
use conn_answer::{Placing, Placings, Reply};
use conn_record::Opening;
use gauge::{Gauge, Health, Word};
use group_calls::Request;
use group_desk::Management;
use group_make::Command;
use group_table::{Answered, Links};
use link_exchange::{Exchange, Queue, Role};

// What an answer says: no enum, as the numbers are C's (fordlinnet.h).
const UNKNOWN: u32 = 0;

const REFUSED: u32 = 1;

const ACCEPTED: u32 = 2;

const SENT: u32 = 3;

const WAS_READ: u32 = 5;

const TORN: u32 = 6;

const HEARD: u32 = 7;

const RESET: u32 = 8;

const SAMPLED: u32 = 9;

// The health of a link.
const UNHEARD: u32 = 1;

const STEADY: u32 = 2;

const LATE: u32 = 3;

// One of the calls by its number; what the number does not name is not looked at.
#[repr(C)]
#[derive(Clone, Copy)]
pub struct FlatCommand {
    pub number: u32,
    pub slot: u32,
    pub offset: u32,
    pub ms: u32,
    pub link: u8,
    pub opening: Opening,
}

// The links with their gauges, our role, the exchange that runs and the messages that wait for its end.
#[repr(C)]
#[derive(Clone, Copy)]
pub struct FlatLinks {
    pub active: [bool; 4],
    pub gauges: [Gauge; 4],
    pub server: bool,
    pub exchange: Exchange,
    pub queue: Queue,
}

// What a call answers, and the links that it leaves.
#[repr(C)]
#[derive(Clone, Copy)]
pub struct FlatAnswer {
    pub said: u32,
    pub refusal: u32,
    pub n: u32,
    pub state: u32,
    pub moved: u64,
    pub health: u32,
    pub placings: u32,
    pub first: Placing,
    pub second: Placing,
    pub mean: f64,
    pub worst: f64,
    pub made: bool,
    pub message: [u8; 44],
    pub links: FlatLinks,
}

// No From: bool and Role are both others' types.
fn role_of(server: bool) -> Role
    ensures { result ≡ role_of server }
{
    if server { Role::Server } else { Role::Client }
}

// The links that a caller hands in, and those that it gets.
impl From<FlatLinks> for Links {
    ghost from_gives = { λ f links. links ≡ links_in f };

    fn from(f: FlatLinks) -> Links {
        let active = f.active;
        let gauges = f.gauges;
        Links {
            active,
            gauges,
            role: role_of(f.server),
            exchange: f.exchange,
            queue: f.queue,
        }
    }
}

impl From<Links> for FlatLinks {
    ghost from_gives = { λ links f. f ≡ flat_links links };

    fn from(links: Links) -> FlatLinks {
        let active = links.active;
        let gauges = links.gauges;
        FlatLinks {
            active,
            gauges,
            server: !link_exchange::is_client(links.role),
            exchange: links.exchange,
            queue: links.queue,
        }
    }
}

// A number that names none of the calls.
#[derive(Clone, Copy)]
pub struct UnknownCall(pub u32);

// The call of a number; 3 names one of crate `c_call_link`.
impl TryFrom<FlatCommand> for Command {
    type Error = UnknownCall;

    ghost try_from_gives = { Names };

    fn try_from(q: FlatCommand) -> Result<Command, UnknownCall> {
        match q.number {
            1 => Ok(Command::Manage(Management::Open(q.slot, q.opening))),
            2 => Ok(Command::Manage(Management::Free(q.slot))),
            4 => Ok(Command::Manage(Management::Sample(q.link, q.ms))),
            5 => Ok(Command::On(q.slot, Request::Send)),
            6 => Ok(Command::On(q.slot, Request::Urgent)),
            7 => Ok(Command::On(q.slot, Request::Place(q.offset))),
            8 => Ok(Command::On(q.slot, Request::Read)),
            9 => Ok(Command::On(q.slot, Request::Shutdown)),
            10 => Ok(Command::On(q.slot, Request::Close)),
            11 => Ok(Command::On(q.slot, Request::Abort)),
            12 => Ok(Command::Hear),
            _ => Err(UnknownCall(q.number)),
        }
    }
}

// The call that is made: for an unknown number one that changes nothing.
pub fn command_of(q: FlatCommand) -> Command
    ensures { result ≡ command_of q }
{
    match Command::try_from(q) {
        Ok(command) => command,
        Err(_) => Command::Manage(Management::Sample(0, 0)),
    }
}

// An answer that names at most a refusal and a count, beside the message; no struct for made, message and links, as in `c_call_link`.
pub fn bare_answer(
    said: u32,
    refusal: u32,
    n: u32,
    made: bool,
    message: [u8; 44],
    links: FlatLinks,
) -> FlatAnswer
    ensures { result ≡ bare said refusal n made message links }
{
    let nowhere = Placing {
        key: 0,
        address: 0,
        start: 0,
        len: 0,
    };
    FlatAnswer {
        said,
        refusal,
        n,
        state: 0,
        moved: 0,
        health: 0,
        placings: 0,
        first: nowhere,
        second: nowhere,
        mean: 0.0,
        worst: 0.0,
        made,
        message,
        links,
    }
}

fn with_placings(placings: Placings, f: FlatAnswer) -> FlatAnswer
    ensures { result ≡ with_placings (placing_list placings) f }
{
    let mut a = f;
    match placings {
        Placings::Nowhere => {}
        Placings::One(p) => {
            a.placings = 1;
            a.first = p;
        }
        Placings::Two(p, q) => {
            a.placings = 2;
            a.first = p;
            a.second = q;
        }
    }
    a
}

fn with_health(health: Health, f: FlatAnswer) -> FlatAnswer
    ensures { result ≡ with_health health f }
{
    let mut a = f;
    match health {
        Health::Unheard => {
            a.health = UNHEARD;
        }
        Health::Steady(m) => {
            a.health = STEADY;
            a.mean = m;
        }
        Health::Late(m, w) => {
            a.health = LATE;
            a.mean = m;
            a.worst = w;
        }
    }
    a
}

fn with_heard(moved: u64, state: State, f: FlatAnswer) -> FlatAnswer
    ensures { result ≡ with_heard moved state f }
{
    let number = u8::from(state);
    let mut a = f;
    a.moved = moved;
    a.state = number as u32;
    a
}

fn answer_with(a: Answered, links: FlatLinks) -> FlatAnswer
    ensures { result ≡ flat_says (says_of a.reply) a.made a.message links }
{
    let reply = a.reply;
    let made = a.made;
    let message = a.message;
    match reply {
        Reply::Refused(k) => bare_answer(REFUSED, k as u32, 0, made, message, links),
        Reply::Accepted => bare_answer(ACCEPTED, 0, 0, made, message, links),
        Reply::Sent(n, placings) => with_placings(
            placings,
            bare_answer(SENT, 0, n, made, message, links),
        ),
        Reply::Read(n) => bare_answer(WAS_READ, 0, n, made, message, links),
        Reply::Torn => bare_answer(TORN, 0, 0, made, message, links),
        Reply::Heard(moved, state) => with_heard(
            moved,
            state,
            bare_answer(HEARD, 0, 0, made, message, links),
        ),
        Reply::Reset => bare_answer(RESET, 0, 0, made, message, links),
        Reply::Sampled(health) => with_health(
            health,
            bare_answer(SAMPLED, 0, 0, made, message, links),
        ),
    }
}

// The answer, flat.
impl From<Answered> for FlatAnswer {
    ghost from_gives = { λ a f. f ≡ flat_of (answer_of a []) a.links };

    fn from(a: Answered) -> FlatAnswer {
        answer_with(a, FlatLinks::from(a.links))
    }
}

// What the caller is told: the answer, or that the number is unknown, with the links as they were handed in.
pub fn told(q: FlatCommand, links: FlatLinks, a: Answered) -> FlatAnswer
    ensures { result ≡ told_of q links a }
{
    match Command::try_from(q) {
        Ok(_) => FlatAnswer::from(a),
        Err(_) => bare_answer(UNKNOWN, 0, 0, false, [0u8; 44], links),
    }
}

// What a console shows of a link: the health's number, how many numbers are shown (the mean, then the worst), and the numbers.
#[repr(C)]
#[derive(Clone, Copy)]
pub struct FlatView {
    pub health: u32,
    pub shown: u32,
    pub mean: f64,
    pub worst: f64,
}

// No From: Word and u32 are both others' types.
fn word_number(word: Word) -> u32
    ensures { result ≡ word_number word }
{
    match word {
        Word::Unheard => UNHEARD,
        Word::Steady => STEADY,
        Word::Late => LATE,
    }
}

// A link outside 1 to 4 is shown as one with no sample.
pub fn view(links: FlatLinks, link: u8) -> FlatView
    ensures { result ≡ flat_view (view_of (health_of (gauge_at links.gauges link))) }
{
    let g = group_table::gauge_of(Links::from(links), link);
    let v = gauge::view_of(gauge::health_of(g));
    FlatView {
        health: word_number(v.word),
        shown: v.shown as u32,
        mean: v.mean,
        worst: v.worst,
    }
}
