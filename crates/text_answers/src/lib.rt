// What is printed of a call's answer and of the memory.
#![tactic(auto)]

ghost use Rattle.std.specs.Prelude.{◌≤◌};

use closing::State;
use conn_answer::{Placing, Placings, Reply};
use gauge::Health;
use group_calls::Request;
use group_desk::Management;
use group_make::Command;
use group_table::Answered;
use text_stream::output::Output;

// Words that lead up to the message, its bytes or `-`, and the line's end.
fn with_message(o: &mut Output, words: &str, said: Answered) {
    o.text(words);
    if said.made {
        o.hex(&said.message);
    } else {
        o.byte(b'-');
    }
    o.byte(b'\n');
}

fn placing(o: &mut Output, p: Placing) {
    o.decimal(p.key as u64);
    o.byte(b',');
    o.decimal(p.address);
    o.byte(b',');
    o.decimal(p.start as u64);
    o.byte(b',');
    o.decimal(p.len as u64);
}

fn placings(o: &mut Output, list: Placings) {
    match list {
        Placings::Nowhere => o.byte(b'-'),
        Placings::One(p) => placing(o, p),
        Placings::Two(p, q) => {
            placing(o, p);
            o.byte(b';');
            placing(o, q);
        }
    }
}

fn sent(o: &mut Output, command: Command, n: u32, list: Placings, said: Answered) {
    o.text(match command {
        Command::On(_, Request::Urgent) => "urgent ",
        _ => "send ",
    });
    o.decimal(n as u64);
    o.text(" placings ");
    placings(o, list);
    with_message(o, " message ", said);
}

fn was_read(o: &mut Output, n: u32, said: Answered, out: &[u8]) {
    o.text("read ");
    o.decimal(n as u64);
    o.text(" out ");
    o.hex(out);
    with_message(o, " message ", said);
}

fn torn(o: &mut Output, said: Answered, out: &[u8]) {
    o.text("torn out ");
    o.hex(out);
    with_message(o, " message ", said);
}

fn heard(o: &mut Output, moved: u64, s: State, said: Answered) {
    o.text("hear ");
    o.decimal(moved);
    // the format's words, fixed to the byte: no derived Debug of another crate prints them
    o.text(match s {
        State::Active => " Active",
        State::PeerCloseWait1 => " PeerCloseWait1",
        State::PeerCloseWait2 => " PeerCloseWait2",
        State::AppCloseWait1 => " AppCloseWait1",
        State::AppCloseWait2 => " AppCloseWait2",
        State::PeerAbortWait => " PeerAbortWait",
        State::Closed => " Closed",
    });
    with_message(o, " message ", said);
}

// Of a refused read the whole out buffer is printed too.
fn refused(o: &mut Output, command: Command, k: u8, out: &[u8]) {
    o.text("refused ");
    o.decimal(k as u64);
    if let Command::On(_, Request::Read) = command {
        o.text(" out ");
        o.hex(out);
    }
    o.byte(b'\n');
}

// The answer of a call that names nothing beside the message; a place and a call of management make none.
fn accepted(o: &mut Output, command: Command, said: Answered) {
    match command {
        Command::On(_, Request::Send) => with_message(o, "send message ", said),
        Command::On(_, Request::Urgent) => with_message(o, "urgent message ", said),
        Command::On(_, Request::Place(_)) => o.text("place\n"),
        Command::On(_, Request::Read) => with_message(o, "read message ", said),
        Command::On(_, Request::Shutdown) => with_message(o, "shutdown message ", said),
        Command::On(_, Request::Close) => with_message(o, "close message ", said),
        Command::On(_, Request::Abort) => with_message(o, "abort message ", said),
        Command::Hear => with_message(o, "hear message ", said),
        Command::Manage(Management::Open(_, _)) => o.text("open\n"),
        Command::Manage(Management::Free(_)) => o.text("free\n"),
        Command::Manage(Management::Sample(_, _)) => o.text("sample\n"),
    }
}

// A sample's health.
fn sampled(o: &mut Output, h: Health) {
    o.text("sample ");
    text_gauge::health(o, h);
}

pub fn answer(o: &mut Output, command: Command, said: Answered, out: &[u8])
    ensures { o.new.at ≤ 65536 }
{
    match said.reply {
        Reply::Refused(k) => refused(o, command, k, out),
        Reply::Accepted => accepted(o, command, said),
        Reply::Sent(n, list) => sent(o, command, n, list, said),
        Reply::Read(n) => was_read(o, n, said, out),
        Reply::Torn => torn(o, said, out),
        Reply::Heard(moved, s) => heard(o, moved, s, said),
        Reply::Reset => with_message(o, "reset message ", said),
        Reply::Sampled(h) => sampled(o, h),
    }
}

pub fn memory(o: &mut Output, part: &[u8])
    ensures { o.new.at ≤ 65536 }
{
    o.text("memory ");
    o.hex(part);
    o.byte(b'\n');
}
