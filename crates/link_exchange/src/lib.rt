// The exchanges of a link group (request 2026-01, parts 2, 3 and 6; RFC 7609, 3.5.5): what a link message says, the stages, the queue, the
// fates of arriving messages, and what the links' going down ends.
#![tactic(auto)]

ghost use Rattle.std.specs.Prelude.{◌≡◌, cond, ◌-◌, ◌<◌, min};
ghost use Rattle.link_message.specs.Layouts.{code_of};
ghost use Rattle.link_exchange.specs.Exchange.{places_of, flag_at, byte_at, client_b, said_of, no_exchange, sort_of, adding_b, due_b, next_stage, went_on, due_touch, no_waiting, empty_queue, full_b, queued, oldest, without_oldest, runs_over, ends_b};
ghost use Rattle.link_exchange.specs.Fates.{arriving_of, fate_at, fate_number, fate_named, bad_mtu, fate_of, outside_b, taken_exchange, taken_touch, may_send, sent_exchange, sent_touch};

use link_message::Kind;

#[derive(Clone, Copy, PartialEq)]
pub enum Role {
    Client,
    Server,
}

// v: the link it is run over; w: the link it names. Stage 0: none runs.
#[repr(C)]
#[derive(Clone, Copy)]
pub struct Exchange {
    pub stage: u8,
    pub v: u8,
    pub w: u8,
}

// A message that waits, as it was heard.
#[repr(C)]
#[derive(Clone, Copy)]
pub struct Waiting {
    pub link: u8,
    pub bytes: [u8; 44],
}

// Oldest first.
#[repr(C)]
#[derive(Clone, Copy)]
pub struct Queue {
    pub count: u8,
    pub places: [Waiting; 4],
}

// What a call does to the links.
#[derive(Clone, Copy)]
pub enum Touch {
    Nothing,
    Up(u8),
    Down(u8),
    // all four go down
    All,
}

// What a message says: its kind's byte 0, and those of its fields that the rules look at.
#[derive(Clone, Copy)]
pub struct Said {
    pub kind: u8,
    // heard, or sent by us
    pub heard: bool,
    // from the client
    pub client: bool,
    // R
    pub reply: bool,
    // Z, negative or rejected
    pub z: bool,
    // A, the whole group
    pub a: bool,
    pub link: u8,
    pub num: u8,
    pub mtu: u8,
}

// With the numbers that the definitions count them by.
#[derive(Clone, Copy, PartialEq)]
pub enum Fate {
    Taken = 0,
    Queued = 1,
    Denied = 2,
    Dropped = 3,
}

impl From<Fate> for u8 {
    ghost from_gives = { λ fate number. number ≡ fate_number fate };

    fn from(fate: Fate) -> u8
        ensures { result ≡ fate_number fate }
    {
        fate as u8
    }
}

// Exchange against arriving message; columns none, add, delete, rkey.
const FATES: [[Fate; 4]; 11] = [
    [Fate::Dropped, Fate::Dropped, Fate::Dropped, Fate::Queued], // 01 request
    [Fate::Taken, Fate::Dropped, Fate::Queued, Fate::Queued], // 02 request from client
    [Fate::Taken, Fate::Dropped, Fate::Dropped, Fate::Taken], // 02 request from server
    [Fate::Taken, Fate::Queued, Fate::Queued, Fate::Queued], // 04 request without A from client
    [Fate::Taken, Fate::Dropped, Fate::Dropped, Fate::Taken], // 04 request without A from server
    [Fate::Taken, Fate::Taken, Fate::Taken, Fate::Taken], // 04 request with A
    [Fate::Taken, Fate::Denied, Fate::Denied, Fate::Taken], // 06, 08 request from client
    [Fate::Taken, Fate::Dropped, Fate::Dropped, Fate::Taken], // 06, 08 request from server
    [Fate::Taken, Fate::Dropped, Fate::Dropped, Fate::Taken], // 09 request
    [Fate::Taken, Fate::Taken, Fate::Taken, Fate::Taken], // 07
    [Fate::Dropped, Fate::Dropped, Fate::Dropped, Fate::Dropped], // all else
];

pub fn is_client(role: Role) -> bool
    ensures { result ≡ client_b role }
{
    role == Role::Client
}

// Where a kind has Z, A, its link, num and mtu; 12: nowhere.
#[derive(Clone, Copy)]
pub struct Places(pub usize, pub usize, pub usize, pub usize, pub usize);

fn places_of(kind: Kind) -> Places
    ensures { result ≡ places_of kind }
{
    match kind {
        Kind::ConfirmLink => Places(12, 12, 5, 12, 12),
        Kind::AddLink => Places(1, 12, 7, 12, 8),
        Kind::AddLinkContinuation => Places(12, 12, 1, 12, 12),
        Kind::DeleteLink => Places(12, 1, 3, 12, 12),
        Kind::ConfirmRkey => Places(1, 12, 12, 3, 12),
        Kind::TestLink => Places(12, 12, 12, 12, 12),
        Kind::ConfirmRkeyContinuation => Places(1, 12, 12, 2, 12),
        Kind::DeleteRkey => Places(1, 12, 12, 12, 12),
    }
}

#[tactic(auto, unfolding(crate::specs::Exchange::flag_at))]
fn flag_at(vs: [u64; 12], i: usize) -> bool
    ensures { result ≡ flag_at vs i }
{
    if i < 12 { vs[i] == 1 } else { false }
}

#[tactic(auto, unfolding(crate::specs::Exchange::byte_at))]
fn byte_at(vs: [u64; 12], i: usize) -> u8
    ensures { result ≡ byte_at vs i }
{
    if i < 12 { (vs[i] % 256) as u8 } else { 0 }
}

// What a message says that is heard, or sent by us.
#[tactic(auto, unfolding(crate::specs::Exchange::said_of))]
pub fn what_is_said(role: Role, heard: bool, kind: Kind, vs: [u64; 12]) -> Said
    ensures { result ≡ said_of role heard kind vs }
{
    let ours = is_client(role);
    let p = places_of(kind);
    Said {
        kind: link_message::code_of(kind),
        heard,
        client: (heard & !ours) | (!heard & ours),
        reply: flag_at(vs, 0),
        z: flag_at(vs, p.0),
        a: flag_at(vs, p.1),
        link: byte_at(vs, p.2),
        num: byte_at(vs, p.3),
        mtu: byte_at(vs, p.4),
    }
}

// An exchange that ends is written so.
pub fn no_exchange() -> Exchange
    ensures { result ≡ no_exchange }
{
    Exchange {
        stage: 0,
        v: 0,
        w: 0,
    }
}

// 0: none, 1: add, 2: delete, 3: rkey. A number and no enum: it is the column of FATES, and `sort_of` counts it.
#[tactic(auto, unfolding(crate::specs::Exchange::sort_of))]
pub fn sort(x: Exchange) -> u8
    ensures { result ≡ sort_of x }
{
    match x.stage {
        0 => 0,
        1..=4 => 1,
        5 => 2,
        _ => 3,
    }
}

// Whether a link is being added.
#[tactic(auto, unfolding(crate::specs::Exchange::adding_b))]
pub fn adding(x: Exchange, link: u8) -> bool
    ensures { result ≡ adding_b x link }
{
    (sort(x) == 1) & (link == x.w)
}

// Whether a message is due that is heard or sent over a link.
#[tactic(auto, unfolding(crate::specs::Exchange::due_b, crate::specs::Exchange::stages))]
pub fn due(x: Exchange, link: u8, m: Said) -> bool
    ensures { result ≡ due_b x link m }
{
    let over_v = link == x.v;
    let over_w = link == x.w;
    let is_w = m.link == x.w;
    match (x.stage, m.kind) {
        (1, 2) => m.reply & m.client & over_v & (m.z | is_w),
        (2, 3) => !m.reply & !m.client & over_v & is_w,
        (2, 1) => !m.reply & !m.client & over_w & is_w,
        (3, 3) => m.reply & m.client & over_v & is_w,
        (4, 1) => m.reply & m.client & over_w & is_w,
        (5, 4) => m.reply & m.heard & over_v & !m.a & is_w,
        (6 | 7, 6) | (9 | 10, 8) | (11, 9) => m.reply & m.heard & over_v,
        (8, 8) => !m.reply & !m.heard & over_v,
        _ => false,
    }
}

// The stage that a due message brings.
#[tactic(auto, unfolding(crate::specs::Exchange::next_stage))]
fn next_stage(x: Exchange, m: Said) -> u8
    ensures { result ≡ next_stage x m }
{
    match x.stage {
        1 => if m.z { 0 } else { 2 },
        2 => if m.kind == 3 { 3 } else { 4 },
        3 => 2,
        7 | 10 => if m.z { 0 } else { 8 },
        8 => if m.num <= 3 { 9 } else { 10 },
        _ => 0,
    }
}

// The exchange that a due message leaves.
#[tactic(auto, unfolding(crate::specs::Exchange::went_on))]
pub fn went_on(x: Exchange, m: Said) -> Exchange
    ensures { result ≡ went_on x m }
{
    let stage = next_stage(x, m);
    if stage == 0 {
        no_exchange()
    } else {
        Exchange {
            stage,
            v: x.v,
            w: x.w,
        }
    }
}

// What a due message does to the links.
#[tactic(auto, unfolding(crate::specs::Exchange::due_touch))]
pub fn due_touch(x: Exchange) -> Touch
    ensures { result ≡ due_touch x }
{
    match x.stage {
        4 => Touch::Up(x.w),
        5 => Touch::Down(x.w),
        _ => Touch::Nothing,
    }
}

fn no_waiting() -> Waiting
    ensures { result ≡ no_waiting }
{
    Waiting {
        link: 0,
        bytes: [0u8; 44],
    }
}

#[tactic(auto, unfolding(crate::specs::Exchange::empty_queue))]
pub fn empty_queue() -> Queue
    ensures { result ≡ empty_queue }
{
    Queue {
        count: 0,
        places: [no_waiting(); 4],
    }
}

#[tactic(auto, unfolding(crate::specs::Exchange::full_b))]
pub fn is_full(q: Queue) -> bool
    ensures { result ≡ full_b q }
{
    4 <= q.count
}

// The queue with one more message; a full one stays.
#[tactic(auto, unfolding(crate::specs::Exchange::queued, crate::specs::Exchange::full_b))]
pub fn queue_up(q: Queue, m: Waiting) -> Queue
    ensures { result ≡ queued q m }
{
    if 4 <= q.count {
        return q;
    }
    let mut places = q.places;
    places[q.count as usize] = m;
    Queue {
        count: q.count + 1,
        places,
    }
}

#[tactic(auto, unfolding(crate::specs::Exchange::oldest))]
pub fn oldest_of(q: Queue) -> Waiting
    ensures { result ≡ oldest q }
{
    q.places[0]
}

// The queue once its oldest is taken up.
#[tactic(auto, unfolding(crate::specs::Exchange::without_oldest))]
pub fn without_oldest(q: Queue) -> Queue
    ensures { result ≡ without_oldest q }
{
    Queue {
        count: q.count.min(4).saturating_sub(1),
        places: [q.places[1], q.places[2], q.places[3], no_waiting()],
    }
}

#[tactic(auto, unfolding(crate::specs::Exchange::runs_over))]
fn runs_over(x: Exchange, link: u8) -> bool
    ensures { result ≡ runs_over x link }
{
    !(x.stage == 0) & ((link == x.v) | adding(x, link))
}

// Whether what a call does to the links ends the exchange and empties the queue.
#[tactic(auto, unfolding(crate::specs::Exchange::ends_b))]
pub fn ends(x: Exchange, t: Touch) -> bool
    ensures { result ≡ ends_b x t }
{
    match t {
        Touch::Nothing => false,
        Touch::Up(_) => false,
        Touch::Down(link) => runs_over(x, link),
        Touch::All => true,
    }
}

// The table's line of a message: a number and no enum, as `arriving_of` counts the lines of FATES.
#[tactic(auto, unfolding(crate::specs::Fates::arriving_of))]
pub fn arriving(m: Said) -> u8
    ensures { result ≡ arriving_of m }
{
    if m.kind == 7 {
        9
    } else if m.reply {
        10
    } else {
        match m.kind {
            1 => 0,
            2 => if m.client { 1 } else { 2 },
            4 => if m.a {
                5
            } else if m.client {
                3
            } else {
                4
            },
            6 | 8 => if m.client { 6 } else { 7 },
            9 => 8,
            _ => 10,
        }
    }
}

// The table's entry, of a message and a sort.
#[tactic(auto, unfolding(crate::specs::Fates::fate_at, crate::specs::Fates::fates))]
fn entry(k: u8, sort: u8) -> Fate
    requires { (k < 11) × (sort < 4) }
    ensures { result ≡ fate_at k sort }
{
    FATES[k as usize][sort as usize]
}

// The fate of a number, as the definitions count them. Kept for its promise (`fate_named`): this crate's callers have the enum.
#[tactic(auto, unfolding(crate::specs::Fates::fate_named))]
pub fn fate_named(k: u8) -> Fate
    ensures { result ≡ fate_named k }
{
    match k {
        0 => Fate::Taken,
        1 => Fate::Queued,
        2 => Fate::Denied,
        _ => Fate::Dropped,
    }
}

#[tactic(auto, unfolding(crate::specs::Fates::bad_mtu))]
fn bad_mtu(m: Said) -> bool
    ensures { result ≡ bad_mtu m }
{
    (arriving(m) == 2) & !((1 <= m.mtu) & (m.mtu <= 5))
}

// An arriving message's fate.
#[tactic(auto, using(crate::proofs::Table::arriving_less, crate::proofs::Table::sort_less), unfolding(crate::specs::Fates::fate_of))]
pub fn fate_of(x: Exchange, link: u8, m: Said) -> Fate
    ensures { result ≡ fate_of x link m }
{
    if due(x, link, m) {
        return Fate::Taken;
    }
    let fate = entry(arriving(m), sort(x));
    if bad_mtu(m) & (fate == Fate::Taken) {
        Fate::Denied
    } else {
        fate
    }
}

// 14's test, of a message that acts on its link.
#[tactic(auto, unfolding(crate::specs::Fates::outside_b, crate::specs::Fates::acts_b))]
pub fn outside(m: Said) -> bool
    ensures { result ≡ outside_b m }
{
    let none_02 = (m.reply & m.z) | (!m.reply & m.client);
    let acts = (m.kind == 1)
        | (((m.kind == 2) & !none_02) | ((m.kind == 3) | ((m.kind == 4) & !m.a)));
    acts & !((1 <= m.link) & (m.link <= 4))
}

// The exchange that an arriving message leaves that is not due; f: its fate's number.
#[tactic(auto, unfolding(crate::specs::Fates::taken_exchange))]
pub fn taken_exchange(x: Exchange, link: u8, m: Said, f: u8) -> Exchange
    ensures { result ≡ taken_exchange x link m f }
{
    if (arriving(m) == 2) & (f == 0) {
        Exchange {
            stage: 1,
            v: link,
            w: m.link,
        }
    } else {
        x
    }
}

// What it does to the links.
#[tactic(auto, unfolding(crate::specs::Fates::taken_touch))]
pub fn taken_touch(m: Said, f: u8) -> Touch
    ensures { result ≡ taken_touch m f }
{
    if f != 0 {
        return Touch::Nothing;
    }
    match arriving(m) {
        4 => Touch::Down(m.link),
        5 => Touch::All,
        _ => Touch::Nothing,
    }
}

// 15's test: whether a message that is not due may be sent.
#[tactic(auto, unfolding(crate::specs::Fates::may_send))]
pub fn may_send(x: Exchange, m: Said) -> bool
    ensures { result ≡ may_send x m }
{
    let idle = (m.kind == 2) | ((m.kind == 4) | ((m.kind == 6) | (m.kind == 9)));
    !m.reply
        & ((m.kind == 7)
            | (((m.kind == 4) & (m.a | m.client))
                | (((m.kind == 2) & (m.client & (sort(x) != 1))) | ((x.stage == 0) & idle))))
}

// The exchange that it leaves.
#[tactic(auto, unfolding(crate::specs::Fates::sent_exchange))]
pub fn sent_exchange(x: Exchange, link: u8, m: Said) -> Exchange
    ensures { result ≡ sent_exchange x link m }
{
    let (stage, w) = match m.kind {
        2 if !m.client => (1, m.link),
        4 if !(m.a | m.client) => (5, m.link),
        6 => (if m.num <= 2 { 6 } else { 7 }, 0),
        9 => (11, 0),
        _ => return x,
    };
    Exchange { stage, v: link, w }
}

// What it does to the links.
#[tactic(auto, unfolding(crate::specs::Fates::sent_touch))]
pub fn sent_touch(m: Said) -> Touch
    ensures { result ≡ sent_touch m }
{
    match m.kind {
        4 if m.a => Touch::All,
        _ => Touch::Nothing,
    }
}
