// The messages exchanged over TCP (RFC 7609, Appendix A.2), written.
#![tactic(auto)]

ghost use Rattle.std.specs.Prelude.{◌≡◌, cond, ◌+◌, ◌*◌, ◌≤◌, ◌<◌, length, Some, None};
ghost use Rattle.layout.specs.Layout.{laid_at};
ghost use Rattle.setup_read.specs.Clc.{type_of, fits_of, size_of, written_count, written_over};
ghost use Rattle.setup_write.specs.Pieces.{flag_of, head_of, port_of, rmb_of, networks_of, diagnosis_of};

use setup_read::{Kind, Message};

const EYE: u64 = 3805594585; // E2 D4 C3 D9

// The bytes of a message whose fields fit.
fn size(m: Message) -> Option<usize>
    ensures { result ≡ cond (fits_of m) (Some (size_of m)) None }
{
    let low = 1 <= m.version;
    let high = m.version < 16;
    match m.kind? {
        Kind::Proposal => {
            let n = 52 + (m.offset as usize) + 17 * (m.count as usize);
            if low & ((m.count <= 8) & ((n <= 65535) & high)) {
                Some(n)
            } else {
                None
            }
        }
        Kind::Accept | Kind::Confirm => {
            if low
                & (high
                    & ((m.qp < 16777216) & ((m.code < 16) & ((m.mtu < 16) & (m.psn < 16777216)))))
            {
                Some(68)
            } else {
                None
            }
        }
        Kind::Decline => if low & high { Some(28) } else { None },
    }
}

// F of an Accept, S of a Decline.
fn flag(m: Message) -> bool
    ensures { result ≡ flag_of (type_of m.kind) m }
{
    match m.kind {
        Some(Kind::Accept) => m.first,
        Some(Kind::Decline) => m.sync,
        _ => false,
    }
}

fn eight(b: bool) -> u64
    ensures { (result ≡ cond b 8 0) × (result < 9) }
{
    if b { 8 } else { 0 }
}

fn put_head(m: Message, n: usize, out: &mut [u8])
    requires { 16 ≤ length out.old }
    ensures { out.new ≡ laid_at out.old 0 (head_of (type_of m.kind) n m) }
{
    let kind = setup_read::type_of(m.kind);
    let byte = (m.version as u64) * 16 + eight(flag(m));
    layout::put_number(out, 0, 4, EYE);
    layout::put_number(out, 4, 1, kind as u64);
    layout::put_number(out, 5, 2, n as u64);
    layout::put_number(out, 7, 1, byte);
    layout::put_bytes(out, 8, &m.peer);
}

fn put_port(m: Message, out: &mut [u8])
    requires { 38 ≤ length out.old }
    ensures { out.new ≡ laid_at out.old 16 (port_of m) }
{
    layout::put_bytes(out, 16, &m.gid);
    layout::put_bytes(out, 32, &m.mac);
}

fn put_rmb(m: Message, out: &mut [u8])
    requires { 68 ≤ length out.old }
    ensures { out.new ≡ laid_at out.old 38 (rmb_of m) }
{
    let byte = (m.code as u64) * 16 + (m.mtu as u64);
    layout::put_number(out, 38, 3, m.qp as u64);
    layout::put_number(out, 41, 4, m.key as u64);
    layout::put_number(out, 45, 1, m.index as u64);
    layout::put_number(out, 46, 4, m.token as u64);
    layout::put_number(out, 50, 1, byte);
    layout::put_zeros(out, 51, 1);
    layout::put_number(out, 52, 8, m.base);
    layout::put_zeros(out, 60, 1);
    layout::put_number(out, 61, 3, m.psn as u64);
    layout::put_number(out, 64, 4, EYE);
}

fn put_networks(m: Message, out: &mut [u8])
    requires { (m.count ≤ 8) × (52 + m.offset + 17 * m.count ≤ length out.old) }
    ensures { out.new ≡ laid_at out.old 38 (networks_of m) }
{
    let o = m.offset as usize;
    let n = 17 * (m.count as usize);
    layout::put_number(out, 38, 2, m.offset as u64);
    layout::put_zeros(out, 40, o);
    layout::put_bytes(out, 40 + o, &m.mask);
    layout::put_number(out, 44 + o, 1, m.masklen as u64);
    layout::put_zeros(out, 45 + o, 2);
    layout::put_number(out, 47 + o, 1, m.count as u64);
    layout::put_bytes(out, 48 + o, &m.prefixes[0..n]);
    layout::put_number(out, 48 + o + n, 4, EYE);
}

fn put_diagnosis(m: Message, out: &mut [u8])
    requires { 28 ≤ length out.old }
    ensures { out.new ≡ laid_at out.old 16 (diagnosis_of m) }
{
    layout::put_number(out, 16, 4, m.diagnosis as u64);
    layout::put_zeros(out, 20, 4);
    layout::put_number(out, 24, 4, EYE);
}

// Writes a message to the front of out and answers its bytes; 0, with nothing written, where its fields do not fit or out is shorter.
// No Option: the page has it answer 0, and `saying` takes the count so.
pub fn write(m: Message, out: &mut [u8]) -> usize
    ensures { (result ≡ written_count m out.old) × (out.new ≡ written_over m out.old) }
{
    let Some(kind) = m.kind else {
        return 0;
    };
    let Some(n) = size(m) else {
        return 0;
    };
    if out.len() < n {
        return 0;
    }
    put_head(m, n, out);
    match kind {
        Kind::Proposal => {
            put_port(m, out);
            put_networks(m, out);
        }
        Kind::Accept | Kind::Confirm => {
            put_port(m, out);
            put_rmb(m, out);
        }
        Kind::Decline => put_diagnosis(m, out),
    }
    n
}
