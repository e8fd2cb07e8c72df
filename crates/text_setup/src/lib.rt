// The lines of the replay format on setting up: what follows their first word, and what is printed of them. The bytes of a `setup` or `clc`
// line are read to the front of `given` (a buffer that is lent to every line, and a count: no heap, so no Vec).
#![tactic(auto)]

ghost use Rattle.std.specs.Prelude.{◌≡◌, ◌≤◌};
ghost use Rattle.text_setup.specs.SetupText.{no_settings, left_of};

use setup::{Answer, Arguments, Due, Settings};
use setup_read::{Kind, Message};
use text_stream::input::Input;
use text_stream::output::Output;
use text_stream::why::Why;

// The first word.
#[derive(Clone, Copy)]
pub enum SetupVerb {
    Settings,
    Setup,
    Clc,
}

#[derive(Clone, Copy)]
pub enum SetupLine {
    // lay in these settings
    Lay(Settings),
    // the call, and how many bytes are lent
    Call(Option<Due>, usize),
    // read so many bytes as a message, and write it again
    Again(usize),
}

const MOST: u64 = 4294967295;

// The settings before the first line that lays some in.
pub fn no_settings() -> Settings
    ensures { result ≡ no_settings }
{
    Settings {
        size: 0,
        peer: [0u8; 8],
        gid: [0u8; 16],
        mac: [0u8; 6],
        mask: [0u8; 4],
        masklen: 0,
        count: 0,
        prefixes: [0u8; 136],
        first: false,
        qp: 0,
        mtu: 0,
        psn: 0,
        key: 0,
        base: 0,
        slot: 0,
        own: 0,
        link: 0,
        key1: 0,
        base1: 0,
        key2: 0,
        base2: 0,
        key3: 0,
        base3: 0,
        key4: 0,
        base4: 0,
    }
}

// Just N bytes.
fn array_of<const N: usize>(input: &mut Input) -> Result<[u8; N], Why>
    ensures { input.new.left ≤ input.old.left }
{
    let mut bytes = [0u8; N];
    if input.bytes(&mut bytes)? != N {
        return Err(Why::Bytes);
    }
    Ok(bytes)
}

// N PEERID GID MAC
fn read_identity(input: &mut Input, s: &mut Settings) -> Result<(), Why>
    ensures { input.new.left ≤ input.old.left }
{
    let size = input.number(MOST);
    let peer = array_of::<8>(input);
    let gid = array_of::<16>(input);
    let mac = array_of::<6>(input);
    s.size = size? as u32;
    s.peer = peer?;
    s.gid = gid?;
    s.mac = mac?;
    Ok(())
}

// MASK MASKLEN COUNT PREFIXES: up to 136 bytes of prefixes, with zeros behind.
fn read_networks(input: &mut Input, s: &mut Settings) -> Result<(), Why>
    ensures { input.new.left ≤ input.old.left }
{
    let mask = array_of::<4>(input);
    let masklen = input.number(255);
    let count = input.number(255);
    let prefixes = input.bytes(&mut s.prefixes);
    s.mask = mask?;
    s.masklen = masklen? as u8;
    s.count = count? as u8;
    prefixes?;
    Ok(())
}

// FIRST QP MTU PSN
fn read_port(input: &mut Input, s: &mut Settings) -> Result<(), Why>
    ensures { input.new.left ≤ input.old.left }
{
    let first = input.number(1);
    let qp = input.number(MOST);
    let mtu = input.number(255);
    let psn = input.number(MOST);
    s.first = first? == 1;
    s.qp = qp? as u32;
    s.mtu = mtu? as u8;
    s.psn = psn? as u32;
    Ok(())
}

// A key and a base.
fn pair_of(input: &mut Input) -> Result<(u32, u64), Why>
    ensures { input.new.left ≤ input.old.left }
{
    let key = input.number(MOST);
    let base = input.number(u64::MAX);
    Ok((key? as u32, base?))
}

// KEY BASE SLOT OWN LINK
fn read_rmb(input: &mut Input, s: &mut Settings) -> Result<(), Why>
    ensures { input.new.left ≤ input.old.left }
{
    let pair = pair_of(input);
    let slot = input.number(255);
    let own = input.number(MOST);
    let link = input.number(255);
    (s.key, s.base) = pair?;
    s.slot = slot? as u8;
    s.own = own? as u32;
    s.link = link? as u8;
    Ok(())
}

// The peer's keys and bases.
fn read_pairs(input: &mut Input, s: &mut Settings) -> Result<(), Why>
    ensures { input.new.left ≤ input.old.left }
{
    let first = pair_of(input);
    let second = pair_of(input);
    let third = pair_of(input);
    let fourth = pair_of(input);
    (s.key1, s.base1) = first?;
    (s.key2, s.base2) = second?;
    (s.key3, s.base3) = third?;
    (s.key4, s.base4) = fourth?;
    Ok(())
}

fn settings_line(input: &mut Input) -> Result<SetupLine, Why>
    ensures { input.new.left ≤ input.old.left }
{
    let mut s = no_settings();
    let identity = read_identity(input, &mut s);
    let networks = read_networks(input, &mut s);
    let port = read_port(input, &mut s);
    let rmb = read_rmb(input, &mut s);
    let pairs = read_pairs(input, &mut s);
    identity?;
    networks?;
    port?;
    rmb?;
    pairs?;
    Ok(SetupLine::Lay(s))
}

// A space and the message due, which its first letter tells.
fn due_word(input: &mut Input) -> Result<Option<Due>, Why>
    ensures { input.new.left ≤ input.old.left }
{
    let space = input.take(b' ');
    let (due, word) = match input.byte {
        b'P' => (Some(Due::Proposal), input.spelled(b"Proposal")),
        b'A' => (Some(Due::Accept), input.spelled(b"Accept")),
        b'C' => (Some(Due::Confirm), input.spelled(b"Confirm")),
        _ => (None, input.spelled(b"none")),
    };
    space?;
    word?;
    Ok(due)
}

// What follows the verb, up to where the line should end.
pub fn parse(input: &mut Input, given: &mut [u8], verb: SetupVerb) -> Result<SetupLine, Why>
    ensures { input.new.left ≤ input.old.left }
{
    match verb {
        SetupVerb::Settings => settings_line(input),
        SetupVerb::Setup => {
            let due = due_word(input);
            let count = input.bytes(given);
            Ok(SetupLine::Call(due?, count?))
        }
        SetupVerb::Clc => Ok(SetupLine::Again(input.bytes(given)?)),
    }
}

// The fourteen numbers of an open.
fn arguments(out: &mut Output, a: Arguments) {
    out.decimal(u64::from(a.slot));
    let others = [
        u64::from(a.own),
        u64::from(a.token),
        u64::from(a.link),
        u64::from(a.size),
        u64::from(a.index),
        u64::from(a.key1),
        a.base1,
        u64::from(a.key2),
        a.base2,
        u64::from(a.key3),
        a.base3,
        u64::from(a.key4),
        a.base4,
    ];
    for n in others {
        out.byte(b',');
        out.decimal(n);
    }
}

fn answer(out: &mut Output, a: Answer) {
    match a.outcome {
        Err(refusal) => {
            out.text("refused");
            out.field(u64::from(u8::from(refusal)));
        }
        Ok(said) => {
            out.text("setup message ");
            out.hex(&a.message[..a.count.min(188)]);
            out.text(" open ");
            match said.opening {
                Some(numbers) => arguments(out, numbers),
                None => out.byte(b'-'),
            }
            out.text(" decline ");
            match said.diagnosis {
                Some(d) => out.decimal(u64::from(d)),
                None => out.byte(b'-'),
            }
        }
    }
    out.byte(b'\n');
}

// A space and bytes.
fn hex_field(out: &mut Output, s: &[u8]) {
    out.byte(b' ');
    out.hex(s);
}

// PEERID GID MAC
fn print_identity(out: &mut Output, m: &Message) {
    hex_field(out, &m.peer);
    hex_field(out, &m.gid);
    hex_field(out, &m.mac);
}

// QP KEY INDEX TOKEN CODE MTU BASE PSN
fn print_rmb(out: &mut Output, m: &Message) {
    out.field(u64::from(m.qp));
    out.field(u64::from(m.key));
    out.field(u64::from(m.index));
    out.field(u64::from(m.token));
    out.field(u64::from(m.code));
    out.field(u64::from(m.mtu));
    out.field(m.base);
    out.field(u64::from(m.psn));
}

// OFFSET MASK MASKLEN COUNT PREFIXES: of the prefixes those that are fields.
fn print_networks(out: &mut Output, m: &Message) {
    out.field(u64::from(m.offset));
    hex_field(out, &m.mask);
    out.field(u64::from(m.masklen));
    out.field(u64::from(m.count));
    let n = (17 * usize::from(m.count)).min(136);
    hex_field(out, &m.prefixes[..n]);
}

// The kind, and its fields in the table's order.
fn print_message(out: &mut Output, m: &Message) {
    match m.kind {
        Some(Kind::Proposal) => {
            out.text("clc Proposal");
            out.field(u64::from(m.version));
            print_identity(out, m);
            print_networks(out, m);
        }
        Some(Kind::Accept) => {
            out.text("clc Accept");
            out.field(u64::from(m.version));
            out.field(u64::from(m.first));
            print_identity(out, m);
            print_rmb(out, m);
        }
        Some(Kind::Confirm) => {
            out.text("clc Confirm");
            out.field(u64::from(m.version));
            print_identity(out, m);
            print_rmb(out, m);
        }
        Some(Kind::Decline) => {
            out.text("clc Decline");
            out.field(u64::from(m.version));
            out.field(u64::from(m.sync));
            hex_field(out, &m.peer);
            out.field(u64::from(m.diagnosis));
        }
        None => out.text("clc none"),
    }
}

fn again(out: &mut Output, bytes: &[u8], room: &mut [u8]) {
    let m = setup_read::read(bytes);
    print_message(out, &m);
    if m.kind.is_some() {
        let n = setup_write::write(m, room).min(room.len());
        out.text(" again ");
        out.hex(&room[..n]);
    }
    out.byte(b'\n');
}

// Makes the line's call, and prints its answer. A message is written again into `room`.
pub fn act(
    out: &mut Output,
    settings: &mut Settings,
    given: &[u8],
    room: &mut [u8],
    line: SetupLine,
)
    ensures { settings.new ≡ left_of settings.old line }
{
    match line {
        SetupLine::Lay(new) => {
            *settings = new;
            out.text("settings\n");
        }
        SetupLine::Call(due, count) => {
            let n = count.min(given.len());
            answer(out, setup::setup(*settings, due, &given[..n]));
        }
        SetupLine::Again(count) => {
            let n = count.min(given.len());
            again(out, &given[..n], room);
        }
    }
}
