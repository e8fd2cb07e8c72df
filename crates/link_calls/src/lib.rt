// Link message, link send and link change on the links, the role, the exchange and the queue of a group (request 2026-01, parts 4 to 6).
#![tactic(auto)]

ghost use Rattle.std.specs.Prelude.{◌≡◌, cond, length, get_or, Some, None};
ghost use Rattle.link_exchange.specs.Fates.{fate_number};
ghost use Rattle.link_calls.specs.Calls.{no_fields, fields_in, touched, up_taken, none_up, taken_up, settled_of, unchanged, changed_of, down_b, optional_b, message_b, message_refusal, replies_b, reply_values, message_work, heard_work, nothing_heard, heard_of, send_refusal, sent_work, sent_of};

use group_table::Links;
use link_exchange::{Exchange, Fate, Queue, Said, Touch, Waiting};
use link_message::Kind;

// A message's kind and values; where none is named, zeros.
#[derive(Clone, Copy)]
pub struct Fields {
    pub named: bool,
    pub kind: Kind,
    pub values: [u64; 12],
}

// A message taken up from the queue, or none.
#[derive(Clone, Copy)]
pub struct TakenUp {
    pub some: bool,
    pub link: u8,
    pub fields: Fields,
    pub fate: Fate,
}

// What a call leaves, what it did to the links, and the message that it took up.
#[derive(Clone, Copy)]
pub struct Settled {
    pub up: TakenUp,
    pub touch: Touch,
    pub after: Links,
}

// Link message's answer; refusal 0: none.
#[derive(Clone, Copy)]
pub struct Heard {
    pub refusal: u8,
    pub fields: Fields,
    pub fate: Fate,
    pub replies: bool,
    pub reply: [u8; 44],
    pub settled: Settled,
}

// Link send's answer; refusal 0: none.
#[derive(Clone, Copy)]
pub struct Sent {
    pub refusal: u8,
    pub message: [u8; 44],
    pub settled: Settled,
}

#[tactic(auto, unfolding(crate::specs::Calls::no_fields))]
pub fn no_fields() -> Fields
    ensures { result ≡ no_fields }
{
    Fields {
        named: false,
        kind: Kind::ConfirmLink,
        values: [0u64; 12],
    }
}

// The i-th byte; 0 past the end.
fn byte(s: &[u8], i: usize) -> u8
    ensures { result ≡ get_or s.now i 0 }
{
    if i < s.len() { s[i] } else { 0 }
}

// The fields of bytes.
#[tactic(auto, unfolding(crate::specs::Calls::fields_in))]
fn fields_in(s: &[u8]) -> Fields
    ensures { result ≡ fields_in s.now }
{
    let first = byte(s, 0);
    if !link_message::is_named(first) {
        return no_fields();
    }
    let kind = link_message::kind_of(first);
    Fields {
        named: true,
        kind,
        values: link_message::read(kind, s),
    }
}

// The links once a call has touched them.
#[tactic(auto, unfolding(crate::specs::Calls::touched))]
fn touch_links(g: Links, t: Touch) -> Links
    ensures { result ≡ touched g t }
{
    match t {
        Touch::Nothing => g,
        Touch::Up(link) => group_table::set_link(g, link, true),
        Touch::Down(link) => group_table::set_link(g, link, false),
        Touch::All => {
            let without_1 = group_table::set_link(g, 1, false);
            let without_2 = group_table::set_link(without_1, 2, false);
            let without_3 = group_table::set_link(without_2, 3, false);
            group_table::set_link(without_3, 4, false)
        }
    }
}

// Whether a message taken up is taken.
#[tactic(auto, unfolding(crate::specs::Calls::up_taken))]
fn up_taken(g: Links, m: Said) -> bool
    ensures { result ≡ up_taken g m }
{
    let active = group_table::link_active(g, m.link);
    !link_exchange::is_client(g.role)
        & (!m.reply & ((m.kind == 2) | ((m.kind == 4) & (!m.a & active))))
}

#[tactic(auto, unfolding(crate::specs::Calls::none_up))]
pub fn none_up() -> TakenUp
    ensures { result ≡ none_up }
{
    TakenUp {
        some: false,
        link: 0,
        fields: no_fields(),
        fate: Fate::Dropped,
    }
}

#[tactic(auto, unfolding(crate::specs::Calls::taken_up))]
fn take_up(g: Links, q: Waiting) -> TakenUp
    ensures { result ≡ taken_up g q }
{
    let fields = fields_in(&q.bytes);
    let m = link_exchange::what_is_said(g.role, true, fields.kind, fields.values);
    TakenUp {
        some: true,
        link: q.link,
        fields,
        fate: if fields.named & up_taken(g, m) {
            Fate::Taken
        } else {
            Fate::Dropped
        },
    }
}

// What follows in every call: links, exchange ended by links, taking up.
#[tactic(auto, unfolding(crate::specs::Calls::settled_of))]
fn settle(g: Links, x: Exchange, t: Touch, q: Queue, due: bool) -> Settled
    ensures { result ≡ settled_of g x t q due }
{
    let links = touch_links(g, t);
    let ended = link_exchange::ends(x, t);
    let rest = if ended {
        link_exchange::empty_queue()
    } else {
        q
    };
    let takes = due & ((x.stage == 0) & (0 < rest.count));
    Settled {
        up: if takes {
            take_up(links, link_exchange::oldest_of(rest))
        } else {
            none_up()
        },
        touch: t,
        after: Links {
            exchange: if ended {
                link_exchange::no_exchange()
            } else {
                x
            },
            queue: if takes {
                link_exchange::without_oldest(rest)
            } else {
                rest
            },
            ..links
        },
    }
}

#[tactic(auto, unfolding(crate::specs::Calls::unchanged))]
fn keep(g: Links) -> Settled
    ensures { result ≡ unchanged g }
{
    Settled {
        up: none_up(),
        touch: Touch::Nothing,
        after: g,
    }
}

// Link change; outside 1 to 4 nothing is changed (13).
#[tactic(auto, unfolding(crate::specs::Calls::changed_of, crate::specs::Calls::change_touch))]
pub fn change(g: Links, link: u8, up: bool) -> Settled
    ensures { result ≡ changed_of g link up }
{
    if !group_table::link_ok(link) {
        return keep(g);
    }
    let touch = if up {
        Touch::Up(link)
    } else {
        Touch::Down(link)
    };
    settle(g, g.exchange, touch, g.queue, false)
}

// 6's test, of a link and the first byte.
#[tactic(auto, unfolding(crate::specs::Calls::down_b))]
fn is_down(g: Links, link: u8, first: u8) -> bool
    ensures { result ≡ down_b g link first }
{
    let added = link_exchange::adding(g.exchange, link);
    !(group_table::link_active(g, link) | (added & (first == 1)))
}

#[tactic(auto, unfolding(crate::specs::Calls::optional_b))]
fn is_optional(s: &[u8]) -> bool
    ensures { result ≡ optional_b s.now }
{
    link_message::class(byte(s, 0)) == 3
}

#[tactic(auto, unfolding(crate::specs::Calls::message_b))]
fn is_message(s: &[u8]) -> bool
    ensures { result ≡ message_b s.now }
{
    link_message::is_named(byte(s, 0)) & (byte(s, 1) == 44)
}

// The refusal of link message: 13, 6, 4, 14, 15; 0 for none. f: the message's fate.
#[tactic(auto, unfolding(crate::specs::Calls::message_refusal))]
fn message_refusal(g: Links, link: u8, s: &[u8], m: Said, f: Fate) -> u8
    ensures { result ≡ message_refusal g link s.now m (fate_number f) }
{
    if !group_table::link_ok(link) {
        13
    } else if is_down(g, link, byte(s, 0)) {
        6
    } else if s.len() != 44 {
        4
    } else if is_optional(s) {
        0
    } else if !is_message(s) {
        4
    } else if ((f == Fate::Taken) | (f == Fate::Queued)) & link_exchange::outside(m) {
        14
    } else if (f == Fate::Queued) & link_exchange::is_full(g.queue) {
        15
    } else {
        0
    }
}

// The values of the reply to a message that is not due, line after line of the page: those heard with R 1 and what is named. down: the
// link that the message names is down.
#[tactic(auto, unfolding(crate::specs::Calls::replies_b, crate::specs::Calls::reply_values, crate::specs::Calls::replies, crate::specs::Calls::named, link_message::specs::Layouts::kind_of))]
fn reply_values(m: Said, f: Fate, down: bool, vs: [u64; 12]) -> Option<[u64; 12]>
    ensures { result ≡ cond (replies_b m (fate_number f) down) (Some (reply_values m (fate_number f) down vs)) None }
{
    if m.reply {
        return None;
    }
    let mut r = vs;
    r[0] = 1;
    match (m.kind, f) {
        (2, Fate::Denied) if !m.client => {
            r[1] = 1;
            r[2] = 2;
        }
        (4, Fate::Taken) if !m.a & (down | !m.client) => r[4] = if down { 1048576 } else { 0 },
        (6, Fate::Taken) => {
            r[1] = 0;
            r[2] = 0;
        }
        (6, Fate::Denied) => {
            r[1] = 1;
            r[2] = 1;
        }
        (8, Fate::Taken) => r[1] = 0,
        (8, Fate::Denied) => r[1] = 1,
        (9, Fate::Taken) => {
            r[1] = 0;
            r[3] = 0;
        }
        (7, Fate::Taken) => {}
        _ => return None,
    }
    Some(r)
}

// What a message does.
#[tactic(auto, unfolding(crate::specs::Calls::message_work))]
fn message_work(g: Links, link: u8, bytes: [u8; 44], m: Said, due: bool, f: Fate) -> Settled
    ensures { result ≡ message_work g link bytes m due (fate_number f) }
{
    let x = g.exchange;
    let queue = if f == Fate::Queued {
        link_exchange::queue_up(g.queue, Waiting { link, bytes })
    } else {
        g.queue
    };
    if due {
        settle(
            g,
            link_exchange::went_on(x, m),
            link_exchange::due_touch(x),
            queue,
            true,
        )
    } else {
        let number = u8::from(f);
        let next = link_exchange::taken_exchange(x, link, m, number);
        settle(g, next, link_exchange::taken_touch(m, number), queue, false)
    }
}

#[tactic(auto, unfolding(crate::specs::Calls::nothing_heard, crate::specs::Calls::no_reply))]
fn nothing_heard(g: Links, no: u8) -> Heard
    ensures { result ≡ nothing_heard g no }
{
    Heard {
        refusal: no,
        fields: no_fields(),
        fate: Fate::Dropped,
        replies: false,
        reply: [0u8; 44],
        settled: keep(g),
    }
}

// The 44 bytes of a slice.
fn copy_of(s: &[u8]) -> [u8; 44]
    requires { length s.now ≡ 44 }
    ensures { result ≡ s.now }
{
    let mut out = [0u8; 44];
    layout::bytes(s, 0, &mut out);
    out
}

// A message that is not refused.
#[tactic(auto, using(crate::proofs::Laws::fate_back), unfolding(crate::specs::Calls::heard_work, crate::specs::Calls::no_reply))]
fn hear_message(g: Links, link: u8, s: &[u8], fields: Fields, m: Said, due: bool, f: Fate) -> Heard
    requires { (length s.now ≡ 44) × (fields ≡ fields_in s.now) }
    ensures { result ≡ heard_work g link s.now m due (fate_number f) }
{
    let down = !group_table::link_active(g, m.link);
    let values = if due {
        None
    } else {
        reply_values(m, f, down, fields.values)
    };
    let reply = match values {
        Some(vs) => link_message::write(fields.kind, vs),
        None => [0u8; 44],
    };
    Heard {
        refusal: 0,
        fields,
        fate: f,
        replies: values.is_some(),
        reply,
        settled: message_work(g, link, copy_of(s), m, due, f),
    }
}

#[tactic(auto, unfolding(crate::specs::Calls::heard_of))]
pub fn message(g: Links, link: u8, s: &[u8]) -> Heard
    ensures { result ≡ heard_of g link s.now }
{
    let fields = fields_in(s);
    let m = link_exchange::what_is_said(g.role, true, fields.kind, fields.values);
    let due = link_exchange::due(g.exchange, link, m);
    let f = link_exchange::fate_of(g.exchange, link, m);
    let no = message_refusal(g, link, s, m, f);
    if (no == 0) & !is_optional(s) {
        hear_message(g, link, s, fields, m, due, f)
    } else {
        nothing_heard(g, no)
    }
}

// The refusal of link send: 13, 6, 14, 15; 0 for none.
#[tactic(auto, unfolding(crate::specs::Calls::send_refusal))]
fn send_refusal(g: Links, link: u8, m: Said, due: bool) -> u8
    ensures { result ≡ send_refusal g link m due }
{
    if !group_table::link_ok(link) {
        13
    } else if is_down(g, link, m.kind) {
        6
    } else if link_exchange::outside(m) {
        14
    } else if !(due | link_exchange::may_send(g.exchange, m)) {
        15
    } else {
        0
    }
}

#[tactic(auto, unfolding(crate::specs::Calls::sent_work))]
fn sent_work(g: Links, link: u8, m: Said, due: bool) -> Settled
    ensures { result ≡ sent_work g link m due }
{
    let x = g.exchange;
    if due {
        settle(
            g,
            link_exchange::went_on(x, m),
            link_exchange::due_touch(x),
            g.queue,
            true,
        )
    } else {
        let next = link_exchange::sent_exchange(x, link, m);
        settle(g, next, link_exchange::sent_touch(m), g.queue, false)
    }
}

#[tactic(auto, unfolding(crate::specs::Calls::sent_of, crate::specs::Calls::no_reply))]
pub fn send(g: Links, link: u8, kind: Kind, vs: [u64; 12]) -> Sent
    ensures { result ≡ sent_of g link kind vs }
{
    let values = link_message::reduce(kind, vs);
    let m = link_exchange::what_is_said(g.role, false, kind, values);
    let due = link_exchange::due(g.exchange, link, m);
    let no = send_refusal(g, link, m, due);
    if no != 0 {
        return Sent {
            refusal: no,
            message: [0u8; 44],
            settled: keep(g),
        };
    }
    Sent {
        refusal: 0,
        message: link_message::write(kind, vs),
        settled: sent_work(g, link, m, due),
    }
}
