// The link messages' fields (RFC 7609, Appendix A.3; request 2026-01, part 1): one table of rows, from which all eight kinds are read
// and written.
#![tactic(auto)]

ghost use Rattle.std.specs.Prelude.{◌≡◌, ◌+◌, ◌*◌, ◌/◌, ◌%◌, ◌^◌, ◌≤◌, ◌<◌, length, get_or};
ghost use Rattle.link_message.specs.Llc.{class_of};
ghost use Rattle.layout.specs.Layout.{number_at, laid_at, be_of};
ghost use Rattle.link_message.specs.Layouts.{code_of, kind_of, named_b, table_of, value_at, start_row, count_of, no_place, read_of, reduced_of};
ghost use Rattle.link_message.specs.Layouts.{encode_of};

// FIRST BYTES (document 01, "Desk calls").

// The class of each first byte: 0 unknown, 1 named, 2 cursor message, 3 optional.
const CLASSES: [u8; 256] = [
    0, // 00
    1, // 01
    1, 1, 1, // 04
    0, // 05
    1, // 06
    1, // 07
    1, 1, // 09
    0, 0, 0, 0, 0, 0, 0, 0, 0, 0, 0, 0, 0, 0, 0, 0, 0, 0, 0, 0, 0, 0, 0, 0, 0, 0, 0, 0, 0, 0, 0, 0,
    0, 0, 0, 0, 0, 0, 0, 0, 0, 0, 0, 0, 0, 0, 0, 0, 0, 0, 0, 0, 0, 0, 0, 0, 0, 0, 0, 0, 0, 0, 0, 0,
    0, 0, 0, 0, 0, 0, 0, 0, 0, 0, 0, 0, 0, 0, 0, 0, 0, 0, 0, 0, 0, 0, 0, 0, 0, 0, 0, 0, 0, 0, 0, 0,
    0, 0, 0, 0, 0, 0, 0, 0, 0, 0, 0, 0, 0, 0, 0, 0, 0, 0, 0, 0, 0, 0, 3, // 80
    3, 3, 3, 3, 3, 3, 3, 3, 3, 3, 3, 3, 3, 3, 3, 3, 3, 3, 3, 3, 3, 3, 3, 3, 3, 3, 3, 3, 3, 3, 3, 3,
    3, 3, 3, 3, 3, 3, 3, 3, 3, 3, 3, 3, 3, 3, 3, 3, 3, 3, 3, 3, 3, 3, 3, 3, 3, 3, 3, 3, 3, 3, 3, // BF
    0, 0, 0, 0, 0, 0, 0, 0, 0, 0, 0, 0, 0, 0, 0, 0, 0, 0, 0, 0, 0, 0, 0, 0, 0, 0, 0, 0, 0, 0, 0, 0,
    0, 0, 0, 0, 0, 0, 0, 0, 0, 0, 0, 0, 0, 0, 0, 0, 0, 0, 0, 0, 0, 0, 0, 0, 0, 0, 0, 0, 0, 0, 2, // FE
    0,
];

// A number and no enum: the contract says `class_of`'s number, and the claims of document 01 stand on it.
pub fn class(first: u8) -> u8
    ensures { result ≡ class_of first }
{
    CLASSES[first as usize]
}

#[derive(Clone, Copy)]
pub enum Kind {
    ConfirmLink,
    AddLink,
    AddLinkContinuation,
    DeleteLink,
    ConfirmRkey,
    TestLink,
    ConfirmRkeyContinuation,
    DeleteRkey,
}

// A row: first byte, bytes, low, bits. The field is (the number of those bytes / 2^low) mod 2^bits.
#[derive(Clone, Copy)]
pub struct Place(pub usize, pub usize, pub usize, pub usize);

// The same in bytes: where a row is looked up, the whole table is laid on the stack.
#[derive(Clone, Copy)]
pub struct Row(pub u8, pub u8, pub u8, pub u8);

// The rows, kind after kind.
const ROWS: [Row; 71] = [
    Row(3, 1, 7, 1), // 01 CONFIRM LINK: R
    Row(4, 6, 0, 48), // mac
    Row(10, 8, 0, 64), // gid1
    Row(18, 8, 0, 64), // gid2
    Row(26, 3, 0, 24), // qp
    Row(29, 1, 0, 8), // link
    Row(30, 4, 0, 32), // user
    Row(34, 1, 0, 8), // max
    Row(3, 1, 7, 1), // 02 ADD LINK: R
    Row(3, 1, 6, 1), // Z
    Row(2, 1, 0, 4), // reason
    Row(4, 6, 0, 48), // mac
    Row(10, 8, 0, 64), // gid1
    Row(18, 8, 0, 64), // gid2
    Row(26, 3, 0, 24), // qp
    Row(29, 1, 0, 8), // link
    Row(30, 1, 0, 4), // mtu
    Row(31, 3, 0, 24), // psn
    Row(3, 1, 7, 1), // 03 ADD LINK CONTINUATION: R
    Row(4, 1, 0, 8), // link
    Row(5, 1, 0, 8), // num
    Row(8, 4, 0, 32), // ref1
    Row(12, 4, 0, 32), // key1
    Row(16, 8, 0, 64), // addr1
    Row(24, 4, 0, 32), // ref2
    Row(28, 4, 0, 32), // key2
    Row(32, 8, 0, 64), // addr2
    Row(3, 1, 7, 1), // 04 DELETE LINK: R
    Row(3, 1, 6, 1), // A
    Row(3, 1, 5, 1), // O
    Row(4, 1, 0, 8), // link
    Row(5, 4, 0, 32), // reason
    Row(3, 1, 7, 1), // 06 CONFIRM RKEY: R
    Row(3, 1, 5, 1), // Z
    Row(3, 1, 4, 1), // C
    Row(4, 1, 0, 8), // num
    Row(5, 4, 0, 32), // key
    Row(9, 8, 0, 64), // addr
    Row(17, 1, 0, 8), // link1
    Row(18, 4, 0, 32), // key1
    Row(22, 8, 0, 64), // addr1
    Row(30, 1, 0, 8), // link2
    Row(31, 4, 0, 32), // key2
    Row(35, 8, 0, 64), // addr2
    Row(3, 1, 7, 1), // 07 TEST LINK: R
    Row(4, 8, 0, 64), // user1
    Row(12, 8, 0, 64), // user2
    Row(3, 1, 7, 1), // 08 CONFIRM RKEY CONTINUATION: R
    Row(3, 1, 5, 1), // Z
    Row(4, 1, 0, 8), // num
    Row(5, 1, 0, 8), // link1
    Row(6, 4, 0, 32), // key1
    Row(10, 8, 0, 64), // addr1
    Row(18, 1, 0, 8), // link2
    Row(19, 4, 0, 32), // key2
    Row(23, 8, 0, 64), // addr2
    Row(31, 1, 0, 8), // link3
    Row(32, 4, 0, 32), // key3
    Row(36, 8, 0, 64), // addr3
    Row(3, 1, 7, 1), // 09 DELETE RKEY: R
    Row(3, 1, 5, 1), // Z
    Row(4, 1, 0, 8), // count
    Row(5, 1, 0, 8), // mask
    Row(8, 4, 0, 32), // key1
    Row(12, 4, 0, 32), // key2
    Row(16, 4, 0, 32), // key3
    Row(20, 4, 0, 32), // key4
    Row(24, 4, 0, 32), // key5
    Row(28, 4, 0, 32), // key6
    Row(32, 4, 0, 32), // key7
    Row(36, 4, 0, 32), // key8
];

// The value of byte 0.
pub fn code_of(kind: Kind) -> u8
    ensures { result ≡ code_of kind }
{
    match kind {
        Kind::ConfirmLink => 1,
        Kind::AddLink => 2,
        Kind::AddLinkContinuation => 3,
        Kind::DeleteLink => 4,
        Kind::ConfirmRkey => 6,
        Kind::TestLink => 7,
        Kind::ConfirmRkeyContinuation => 8,
        Kind::DeleteRkey => 9,
    }
}

// The kind of a byte 0; where it is none, the last. No TryFrom: `kind_of` is promised of every byte.
#[tactic(auto, unfolding(crate::specs::Layouts::kind_of))]
pub fn kind_of(first: u8) -> Kind
    ensures { result ≡ kind_of first }
{
    match first {
        1 => Kind::ConfirmLink,
        2 => Kind::AddLink,
        3 => Kind::AddLinkContinuation,
        4 => Kind::DeleteLink,
        6 => Kind::ConfirmRkey,
        7 => Kind::TestLink,
        8 => Kind::ConfirmRkeyContinuation,
        _ => Kind::DeleteRkey,
    }
}

// Whether a byte 0 is that of a kind, by the table of classes.
#[tactic(auto, unfolding(crate::specs::Layouts::named_b))]
pub fn is_named(first: u8) -> bool
    ensures { result ≡ named_b first }
{
    class(first) == 1
}

// Where a kind's rows begin.
fn start(kind: Kind) -> usize
    ensures { result ≡ start_row kind }
{
    match kind {
        Kind::ConfirmLink => 0,
        Kind::AddLink => 8,
        Kind::AddLinkContinuation => 18,
        Kind::DeleteLink => 27,
        Kind::ConfirmRkey => 32,
        Kind::TestLink => 44,
        Kind::ConfirmRkeyContinuation => 47,
        Kind::DeleteRkey => 59,
    }
}

// How many rows a kind has.
pub fn count(kind: Kind) -> usize
    ensures { result ≡ count_of kind }
{
    match kind {
        Kind::ConfirmLink => 8,
        Kind::AddLink => 10,
        Kind::AddLinkContinuation => 9,
        Kind::DeleteLink => 5,
        Kind::ConfirmRkey => 12,
        Kind::TestLink => 3,
        Kind::ConfirmRkeyContinuation => 12,
        Kind::DeleteRkey => 12,
    }
}

// A kind's row.
fn place_of(kind: Kind, i: usize) -> Place
    requires { i < count_of kind }
    ensures { result ≡ get_or (table_of kind) i no_place }
{
    let row = ROWS[start(kind) + i];
    Place(
        row.0 as usize,
        row.1 as usize,
        row.2 as usize,
        row.3 as usize,
    )
}

// The low bits of a number.
fn low(x: u64, bits: usize) -> u64
    ensures { result ≡ x % 2 ^ bits }
{
    if bits < 64 { x & ((1 << bits) - 1) } else { x }
}

// What a row says.
fn value(s: &[u8], p: Place) -> u64
    requires { (p.1 ≤ 8) × (p.2 < 64) }
    ensures { result ≡ value_at s.now p }
{
    low(layout::number(s, p.0, p.1) >> p.2, p.3)
}

// The values of a kind's rows; zeros behind them.
pub fn read(kind: Kind, s: &[u8]) -> [u64; 12]
    ensures { result ≡ read_of kind s.now }
{
    let mut values = [0u64; 12];
    for i in 0..count(kind) {
        values[i] = value(s, place_of(kind, i));
    }
    values
}

// Values reduced to their rows' bits; zeros behind them.
pub fn reduce(kind: Kind, vs: [u64; 12]) -> [u64; 12]
    ensures { result ≡ reduced_of kind vs }
{
    let mut values = [0u64; 12];
    for i in 0..count(kind) {
        values[i] = low(vs[i], place_of(kind, i).3);
    }
    values
}

// Adds to the number of n bytes.
fn add(out: &mut [u8; 44], at: usize, n: usize, x: u64)
    requires { (n ≤ 8) × (number_at out.old at n + x < 2 ^ (8 * n)) }
    ensures { out.new ≡ laid_at out.old at (be_of n (number_at out.old at n + x)) }
{
    let before = layout::number(out, at, n);
    layout::put_number(out, at, n, before + x);
}

// The 44 bytes of a kind and its values, reduced to their rows' bits.
pub fn write(kind: Kind, vs: [u64; 12]) -> [u8; 44]
    ensures { result ≡ encode_of kind vs }
{
    let mut out = [0u8; 44];
    out[0] = code_of(kind);
    out[1] = 44;
    for i in 0..count(kind) {
        let p = place_of(kind, i);
        let x = low(vs[i], p.3) << p.2;
        add(&mut out, p.0, p.1, x);
    }
    out
}
