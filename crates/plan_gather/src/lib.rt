// The answer of a gather on the lent table, and its pieces: the placings of a send of the joined bytes, cut where the head ends (document
// 02, 2026-08). It needs no record: what a piece is stands in the answer and in the head's length.
#![tactic(auto)]

ghost use Rattle.std.specs.Prelude.{◌≡◌};
ghost use Rattle.plan_gather.specs.Cutting.{placing_with, bound_of, cut_at, piece_in, piece_or_none, in_pieces};

use conn_answer::Placing;
use plan_send::SendAnswer;

// The buffers of a piece, numbers in the C struct.
const HEAD: u32 = 0;

const BODY: u32 = 1;

// The answer of a send of the joined bytes; and an empty placing where Q is after it, all zeros where it is refused.
#[derive(Clone, Copy)]
pub struct Joined {
    pub sent: SendAnswer,
    pub last: Placing,
}

// A piece for the card to write: a part of the head or of the body, to a key and an address.
#[repr(C)]
#[derive(Clone, Copy)]
pub struct GatherPiece {
    pub buffer: u32,
    pub start: u32,
    pub len: u32,
    pub key: u32,
    pub address: u64,
}

// A refusal's number, or 0; whether a message was made; how many bytes were taken; the pieces in their order, at most three, all zeros
// where there is none; and the last placing.
#[repr(C)]
#[derive(Clone, Copy)]
pub struct GatherAnswer {
    pub refusal: u8,
    pub made: bool,
    pub taken: u32,
    pub first: GatherPiece,
    pub second: GatherPiece,
    pub third: GatherPiece,
    pub last: Placing,
}

// The placing that has byte k of the joined bytes; after all of them, the last.
fn placing_with(a: Joined, k: u32) -> Placing
    ensures { result ≡ placing_with a k }
{
    if k < a.sent.first.len {
        return a.sent.first;
    }
    if k < a.sent.taken {
        return a.sent.second;
    }
    a.last
}

// As much of `left` bytes from byte k on as lies in byte k's own buffer, where the head has `head` bytes.
fn in_buffer(head: usize, k: u32, left: u32) -> u32
    ensures { result ≡ bound_of head k left }
{
    let at = k as usize;
    if at < head {
        (left as usize).min(head - at) as u32
    } else {
        left
    }
}

// The part of a placing from byte k on, up to the end of byte k's buffer.
fn cut(head: usize, k: u32, p: Placing) -> GatherPiece
    ensures { result ≡ cut_at head k p }
{
    let ahead = k.saturating_sub(p.start);
    let left = p.len.saturating_sub(ahead);
    let len = in_buffer(head, k, left);
    let address = p.address.wrapping_add(ahead as u64);
    if (k as usize) < head {
        return GatherPiece {
            buffer: HEAD,
            start: k,
            len: len,
            key: p.key,
            address: address,
        };
    }
    GatherPiece {
        buffer: BODY,
        start: (k as usize - head) as u32,
        len: len,
        key: p.key,
        address: address,
    }
}

// The next piece, where the head has `head` bytes and the pieces before held k: after the last, an empty one where Q is.
fn piece(a: Joined, head: usize, k: u32) -> GatherPiece
    ensures { result ≡ piece_in a head k }
{
    let n = a.sent.taken;
    let at = k.min(n);
    let p = placing_with(a, at);
    cut(head, at, p)
}

// The same, and none, all zeros, where nothing is left.
fn piece_or_none(a: Joined, head: usize, k: u32) -> GatherPiece
    ensures { result ≡ piece_or_none a head k }
{
    if k < a.sent.taken {
        return piece(a, head, k);
    }
    GatherPiece {
        buffer: 0,
        start: 0,
        len: 0,
        key: 0,
        address: 0,
    }
}

// The answer with its pieces.
pub fn in_pieces(a: Joined, head: usize) -> GatherAnswer
    ensures { result ≡ in_pieces a head }
{
    let n = a.sent.taken;
    let last = a.last;
    let first = piece_or_none(a, head, 0);
    let second = piece_or_none(a, head, first.len);
    let rest = n.saturating_sub(first.len).saturating_sub(second.len);
    let k = n.saturating_sub(rest);
    let third = piece_or_none(a, head, k);
    GatherAnswer {
        refusal: a.sent.refusal,
        made: a.sent.made,
        taken: n,
        first: first,
        second: second,
        third: third,
        last: last,
    }
}
