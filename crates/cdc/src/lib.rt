// The 44-byte Connection Data Control message (document 01, "The 44-byte message"; RFC 7609, Appendix A.4).
#![tactic(auto)]

ghost use Rattle.std.specs.Prelude.{◌≡◌, ◌+◌, ◌*◌, ◌≤◌, ◌<◌, length};
ghost use Rattle.cdc.specs.Cdc.{encode_of, decode_of, cursor_of, flags_of, fields_of, high_byte, low_byte};

use cursor::Cursor;

// B writer blocked, P urgent data pending, U urgent data present, R cursor update requested, F failover validation; D done writing,
// C closed, A abort.
#[derive(Clone, Copy)]
pub struct Flags {
    pub blocked: bool,
    pub pending: bool,
    pub urgent: bool,
    pub request: bool,
    pub failover: bool,
    pub done: bool,
    pub closed: bool,
    pub abort: bool,
}

#[derive(Clone, Copy)]
pub struct Message {
    pub sequence: u16,
    pub token: u32,
    pub producer: Cursor,
    pub consumer: Cursor,
    pub flags: Flags,
}

// What bytes are read as: a message, or refusal 4's case.
#[derive(Clone, Copy)]
pub enum Decoded {
    Good(Message),
    Malformed,
}

fn high_byte(f: Flags) -> u8
    ensures { result ≡ high_byte f }
{
    u8::from(f.blocked) * 128
        + u8::from(f.pending) * 64
        + u8::from(f.urgent) * 32
        + u8::from(f.request) * 16
        + u8::from(f.failover) * 8
}

fn low_byte(f: Flags) -> u8
    ensures { result ≡ low_byte f }
{
    u8::from(f.done) * 128 + u8::from(f.closed) * 64 + u8::from(f.abort) * 32
}

// The reserved bytes, 8 and 9, 16 and 17, and 26 to 43, stay zero.
pub fn encode(m: Message) -> [u8; 44]
    ensures { result ≡ encode_of m }
{
    let p = m.producer;
    let c = m.consumer;
    let mut out = [0; 44];
    out[0] = 254;
    out[1] = 44;
    out[2..4].copy_from_slice(&m.sequence.to_be_bytes());
    out[4..8].copy_from_slice(&m.token.to_be_bytes());
    out[10..12].copy_from_slice(&p.wrap.to_be_bytes());
    out[12..16].copy_from_slice(&p.offset.to_be_bytes());
    out[18..20].copy_from_slice(&c.wrap.to_be_bytes());
    out[20..24].copy_from_slice(&c.offset.to_be_bytes());
    out[24] = high_byte(m.flags);
    out[25] = low_byte(m.flags);
    out
}

// The cursor whose wrap number starts at i, with its offset after it.
fn cursor_at(s: &[u8], i: usize) -> Cursor
    requires { i + 6 ≤ length s.now }
    ensures { result ≡ cursor_of s.now i }
{
    Cursor {
        offset: u32::from_be_bytes([s[i + 2], s[i + 3], s[i + 4], s[i + 5]]),
        wrap: u16::from_be_bytes([s[i], s[i + 1]]),
    }
}

fn flags_from(h: u8, l: u8) -> Flags
    ensures { result ≡ flags_of h l }
{
    Flags {
        blocked: h / 128 % 2 == 1,
        pending: h / 64 % 2 == 1,
        urgent: h / 32 % 2 == 1,
        request: h / 16 % 2 == 1,
        failover: h / 8 % 2 == 1,
        done: l / 128 % 2 == 1,
        closed: l / 64 % 2 == 1,
        abort: l / 32 % 2 == 1,
    }
}

fn fields(s: &[u8]) -> Message
    requires { length s.now ≡ 44 }
    ensures { result ≡ fields_of s.now }
{
    Message {
        sequence: u16::from_be_bytes([s[2], s[3]]),
        token: u32::from_be_bytes([s[4], s[5], s[6], s[7]]),
        producer: cursor_at(s, 10),
        consumer: cursor_at(s, 18),
        flags: flags_from(s[24], s[25]),
    }
}

pub fn decode(s: &[u8]) -> Decoded
    ensures { result ≡ decode_of s.now }
{
    if s.len() != 44 {
        return Decoded::Malformed;
    }
    if s[0] != 254 {
        return Decoded::Malformed;
    }
    if s[1] != 44 {
        return Decoded::Malformed;
    }
    Decoded::Good(fields(s))
}
