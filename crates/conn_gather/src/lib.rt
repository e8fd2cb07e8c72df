// A head and a body that are sent as if joined: the pieces for the card to write, handed out one at a time (document 02, 2026-08).
// Nothing is copied: a piece is a part of the head or a part of the body.
#![tactic(auto)]

ghost use Rattle.std.specs.Prelude.{◌≡◌, ◌-◌, ◌≤◌, min, length};
ghost use Rattle.conn_send.specs.Transmit.{placing_at};
ghost use Rattle.conn_gather.specs.Pieces.{allowed_of, bytes_of, stretch_of, place_of};

use conn_answer::Placing;
use conn_record::Record;
use cursor::Cursor;
use flow::Stretch;

// How long a piece may be by n and by the room before the element's end.
fn allowed(size: u32, q: Cursor, n: u32, k: u32) -> usize
    ensures { (result ≡ allowed_of size q n k) × (result ≤ n) }
{
    let at = cursor::step(size, q, k);
    let room = size.saturating_sub(at.offset);
    n.saturating_sub(k).min(room) as usize
}

// The next piece, where n bytes are taken, Q was q before the send, the peer's element has `size` bytes, and the pieces before held k
// bytes. For numbers that belong to no send it is an empty part.
pub fn piece<'a>(head: &'a [u8], body: &'a [u8], size: u32, q: Cursor, n: u32, k: u32) -> &'a [u8]
    ensures part { (result.now ≡ bytes_of head.now body.now size q n k) × (length result.now ≤ n) }
    ensures no_copy { result.ref_ptr ≡ place_of (length head.now) (length body.now) head.entry.ref_ptr body.entry.ref_ptr k }
{
    let most = allowed(size, q, n, k);
    let h = head.len();
    let at = k as usize;
    if at < h {
        let l = most.min(h - at);
        &head[at..at + l]
    } else {
        let b = body.len();
        let s = (at - h).min(b);
        let l = most.min(b - s);
        &body[s..s + l]
    }
}

// Where that piece goes, `len` bytes long, by the record before the send: a placing as a send's. All zeros where the peer's element, or
// the offset in it, is out of range.
pub fn placing(rec: Record, k: u32, len: u32) -> Placing
    ensures { result ≡ placing_at rec (stretch_of rec k len) }
{
    let q = rec.outbound.producer;
    let at = cursor::step(rec.remote.size, q, k);
    let s = Stretch {
        offset: at.offset,
        start: k,
        len: len,
    };
    conn_send::placing_at(rec, s)
}
