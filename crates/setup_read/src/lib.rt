// The messages exchanged over TCP: Proposal, Accept, Confirm and Decline (RFC 7609, Appendix A.2): what they are, read from
// bytes, and the codes of element sizes.
#![tactic(auto)]

ghost use Rattle.std.specs.Prelude.{◌≡◌, ◌≤◌, length, eqb};
ghost use Rattle.layout.specs.Layout.{number_at};
ghost use Rattle.setup_read.specs.Codes.{bytes_of_code, code_of};
ghost use Rattle.setup_read.specs.Clc.{eye_catcher, type_of, count_at, begins_b, sized_b, message_b, read_of};
ghost use Rattle.setup_read.specs.Places.{no_message, proposal_at, endpoint_at, decline_at};

#[derive(Clone, Copy)]
pub enum Kind {
    Proposal,
    Accept,
    Confirm,
    Decline,
}

// The fields of a message, in the table's order; of no kind where bytes are no message. A field that has no place in the kind's column is
// zero in what is read, and is not looked at in what is written. Of the eight prefixes, 16 bytes and a length each, the first count are
// fields: an array and no Vec, as there is no heap.
#[derive(Clone, Copy)]
pub struct Message {
    pub kind: Option<Kind>,
    pub version: u8,
    // F, first contact
    pub first: bool,
    // S, out of sync
    pub sync: bool,
    pub peer: [u8; 8],
    pub gid: [u8; 16],
    pub mac: [u8; 6],
    pub qp: u32,
    pub key: u32,
    pub index: u8,
    pub token: u32,
    pub code: u8,
    pub mtu: u8,
    pub base: u64,
    pub psn: u32,
    pub offset: u16,
    pub mask: [u8; 4],
    pub masklen: u8,
    pub count: u8,
    pub prefixes: [u8; 136],
    pub diagnosis: u32,
}

// The bytes of each size code; 0 where it means nothing.
const SIZES: [u32; 16] = [
    16384, // 0
    32768, 65536, // 2
    131072, 262144, 524288, // 5
    0, 0, 0, 0, 0, 0, 0, 0, 0, 0,
];

// The bytes that a size code means; 0 where it means nothing. No Option: an open and our messages have the 0 and the 16 (arguments_of,
// ours).
pub fn size_of(code: u8) -> u32
    ensures { result ≡ bytes_of_code code }
{
    if code < 16 {
        let at = code as usize;
        SIZES[at]
    } else {
        0
    }
}

// The code of a size; 16 where it has none.
pub fn code_of(n: u32) -> u8
    ensures { result ≡ code_of n }
{
    match n {
        16384 => 0,
        32768 => 1,
        65536 => 2,
        131072 => 3,
        262144 => 4,
        524288 => 5,
        _ => 16,
    }
}

// The value of the row type; 0 of no kind. No From: an impl for u8 of Option<Kind> would be an impl of others' types.
pub fn type_of(kind: Option<Kind>) -> u8
    ensures { result ≡ type_of kind }
{
    match kind {
        None => 0,
        Some(Kind::Proposal) => 1,
        Some(Kind::Accept) => 2,
        Some(Kind::Confirm) => 3,
        Some(Kind::Decline) => 4,
    }
}

const EYE: u64 = 3805594585; // E2 D4 C3 D9

// One for each width: the casts differ, and a trait for the three types is longer than the four functions.
fn u8_at(s: &[u8], at: usize) -> u8
    ensures { result ≡ number_at s.now at 1 }
{
    layout::number(s, at, 1) as u8
}

fn u16_at(s: &[u8], at: usize) -> u16
    ensures { result ≡ number_at s.now at 2 }
{
    layout::number(s, at, 2) as u16
}

fn u24_at(s: &[u8], at: usize) -> u32
    ensures { result ≡ number_at s.now at 3 }
{
    layout::number(s, at, 3) as u32
}

fn u32_at(s: &[u8], at: usize) -> u32
    ensures { result ≡ number_at s.now at 4 }
{
    layout::number(s, at, 4) as u32
}

fn eye_at(s: &[u8], at: usize) -> bool
    ensures { result ≡ eqb (number_at s.now at 4) eye_catcher }
{
    layout::number(s, at, 4) == EYE
}

// Bytes 0 to 7 are those of a message.
fn begins(s: &[u8]) -> bool
    ensures { result ≡ begins_b s.now }
{
    let n = s.len();
    let kind = u8_at(s, 4);
    (28 <= n)
        & (eye_at(s, 0)
            & ((1 <= kind)
                & ((kind <= 4) & ((1 <= u8_at(s, 7) / 16) & ((u16_at(s, 5) as usize) == n)))))
}

// There are as many bytes as the type asks for.
fn sized(s: &[u8]) -> bool
    ensures { result ≡ sized_b s.now }
{
    let n = s.len();
    match u8_at(s, 4) {
        4 => n == 28,
        1 => {
            let o = u16_at(s, 38) as usize;
            let p = u8_at(s, 47 + o) as usize;
            (52 <= n) & ((52 + o <= n) & ((p <= 8) & (n == 52 + o + 17 * p)))
        }
        _ => n == 68,
    }
}

// Whether the bytes are a message of A.2.
pub fn is_message(s: &[u8]) -> bool
    ensures { result ≡ message_b s.now }
{
    if begins(s) {
        sized(s) & eye_at(s, s.len() - 4)
    } else {
        false
    }
}

// No message: all zero. What is left out of another is so.
pub fn no_message() -> Message
    ensures { result ≡ no_message }
{
    Message {
        kind: None,
        version: 0,
        first: false,
        sync: false,
        peer: [0u8; 8],
        gid: [0u8; 16],
        mac: [0u8; 6],
        qp: 0,
        key: 0,
        index: 0,
        token: 0,
        code: 0,
        mtu: 0,
        base: 0,
        psn: 0,
        offset: 0,
        mask: [0u8; 4],
        masklen: 0,
        count: 0,
        prefixes: [0u8; 136],
        diagnosis: 0,
    }
}

fn proposal(s: &[u8]) -> Message
    requires { count_at s.now ≤ 8 }
    ensures { result ≡ proposal_at s.now }
{
    let offset = u16_at(s, 38);
    let at = offset as usize;
    let count = u8_at(s, 47 + at);
    let n = 17 * (count as usize);
    let version = u8_at(s, 7) / 16;
    let masklen = u8_at(s, 44 + at);
    let mut peer = [0u8; 8];
    layout::bytes(s, 8, &mut peer);
    let mut gid = [0u8; 16];
    layout::bytes(s, 16, &mut gid);
    let mut mac = [0u8; 6];
    layout::bytes(s, 32, &mut mac);
    let mut mask = [0u8; 4];
    layout::bytes(s, 40 + at, &mut mask);
    let mut prefixes = [0u8; 136];
    layout::bytes(s, 48 + at, &mut prefixes[0..n]);
    Message {
        kind: Some(Kind::Proposal),
        version,
        peer,
        gid,
        mac,
        offset,
        mask,
        masklen,
        count,
        prefixes,
        ..no_message()
    }
}

// An Accept or a Confirm.
fn endpoint(s: &[u8], kind: Kind, first: bool) -> Message
    ensures { result ≡ endpoint_at kind first s.now }
{
    let version = u8_at(s, 7) / 16;
    let qp = u24_at(s, 38);
    let key = u32_at(s, 41);
    let index = u8_at(s, 45);
    let token = u32_at(s, 46);
    let sizes = u8_at(s, 50);
    let base = layout::number(s, 52, 8);
    let psn = u24_at(s, 61);
    let mut peer = [0u8; 8];
    layout::bytes(s, 8, &mut peer);
    let mut gid = [0u8; 16];
    layout::bytes(s, 16, &mut gid);
    let mut mac = [0u8; 6];
    layout::bytes(s, 32, &mut mac);
    Message {
        kind: Some(kind),
        version,
        first,
        peer,
        gid,
        mac,
        qp,
        key,
        index,
        token,
        code: sizes / 16,
        mtu: sizes % 16,
        base,
        psn,
        ..no_message()
    }
}

fn decline(s: &[u8]) -> Message
    ensures { result ≡ decline_at s.now }
{
    let b = u8_at(s, 7);
    let diagnosis = u32_at(s, 16);
    let mut peer = [0u8; 8];
    layout::bytes(s, 8, &mut peer);
    Message {
        kind: Some(Kind::Decline),
        version: b / 16,
        sync: b / 8 % 2 == 1,
        peer,
        diagnosis,
        ..no_message()
    }
}

// The message that the bytes are; of the kind None where they are none.
pub fn read(s: &[u8]) -> Message
    ensures { result ≡ read_of s.now }
{
    if !is_message(s) {
        return no_message();
    }
    match u8_at(s, 4) {
        1 => proposal(s),
        2 => endpoint(s, Kind::Accept, u8_at(s, 7) / 8 % 2 == 1),
        3 => endpoint(s, Kind::Confirm, false),
        _ => decline(s),
    }
}
