// Close marks, and the state that they name (document 01, "State names"; RFC 7609, Figure 22).
#![tactic(auto)]

ghost use Rattle.std.specs.Prelude.{◌≡◌, cond, ◌≤◌, ◌<◌};
ghost use Rattle.closing.specs.Closing.{packed_of, number_of, close_state_of, state_at, state_of, first_of, done_sent, closed_sent, abort_sent, marks_heard};

// One side's marks: D done writing, C closed.
#[repr(C)]
#[derive(Clone, Copy)]
pub struct Side {
    pub done: bool,
    pub closed: bool,
}

// `first`: ours came first, set with our first D or C if none was heard. `abort`: A sent.
#[repr(C)]
#[derive(Clone, Copy)]
pub struct Marks {
    pub sent: Side,
    pub heard: Side,
    pub first: bool,
    pub abort: bool,
}

// With the numbers that C and the answers' rows have.
#[derive(Clone, Copy, PartialEq, Eq)]
pub enum State {
    Active = 0,
    PeerCloseWait1 = 1,
    PeerCloseWait2 = 2,
    AppCloseWait1 = 3,
    AppCloseWait2 = 4,
    PeerAbortWait = 5,
    Closed = 6,
}

impl From<State> for u8 {
    ghost from_gives = { λ state number. number ≡ number_of state };

    fn from(state: State) -> u8
        ensures { result ≡ number_of state }
    {
        state as u8
    }
}

// The state's number for each value of the packed close marks: D sent 16, C sent 8, D heard 4, C heard 2, ours first 1.
const STATES: [u8; 32] = [
    0, // no mark
    0, 3, 3, 3, 3, 3, 3, 1, // C sent
    1, 6, 6, 2, 2, 6, 6, 1, // D sent
    1, 4, 4, 4, // D each
    2, // D each, ours first
    4, 4, 1, // D and C sent
    1, 6, 6, 2, 2, 6, 6,
];

// The place in the table.
fn packed(m: Marks) -> usize
    ensures { (result ≡ packed_of m) × (result < 32) }
{
    usize::from(m.sent.done) * 16
        + usize::from(m.sent.closed) * 8
        + usize::from(m.heard.done) * 4
        + usize::from(m.heard.closed) * 2
        + usize::from(m.first)
}

// The number of the close state, by the table.
fn number(m: Marks) -> u8
    ensures { result ≡ number_of (close_state_of m) }
{
    STATES[packed(m)]
}

// The state of a number.
#[tactic(auto, unfolding(crate::specs::Closing::state_at))]
fn named(k: u8) -> State
    ensures { result ≡ state_at k }
{
    match k {
        0 => State::Active,
        1 => State::PeerCloseWait1,
        2 => State::PeerCloseWait2,
        3 => State::AppCloseWait1,
        4 => State::AppCloseWait2,
        5 => State::PeerAbortWait,
        _ => State::Closed,
    }
}

// The state that the marks name.
pub fn state_of(m: Marks) -> State
    ensures { result ≡ state_of m }
{
    if m.abort {
        State::PeerAbortWait
    } else {
        named(number(m))
    }
}

// Ours came first, once D or C is sent with these marks.
fn ours_first(m: Marks) -> bool
    ensures { result ≡ first_of m }
{
    m.first | !((m.sent.done | m.sent.closed) | (m.heard.done | m.heard.closed))
}

// The marks once D is sent.
pub fn done_sent(m: Marks) -> Marks
    ensures { result ≡ done_sent m }
{
    let first = ours_first(m);
    let mut next = m;
    next.sent.done = true;
    next.first = first;
    next
}

// The marks once C is sent.
pub fn closed_sent(m: Marks) -> Marks
    ensures { result ≡ closed_sent m }
{
    let first = ours_first(m);
    let mut next = m;
    next.sent.closed = true;
    next.first = first;
    next
}

// The marks once A is sent.
pub fn abort_sent(m: Marks) -> Marks
    ensures { result ≡ abort_sent m }
{
    let mut next = m;
    next.abort = true;
    next
}

// The marks once a message with or without D and C is heard.
pub fn marks_heard(m: Marks, done: bool, closed: bool) -> Marks
    ensures { result ≡ marks_heard m done closed }
{
    let d = m.heard.done | done;
    let c = m.heard.closed | closed;
    let mut next = m;
    next.heard.done = d;
    next.heard.closed = c;
    next
}
