// Replays calls on one group: reads a call from each line of the standard input, makes it, and prints its answer. What a line may be and
// what is printed is fixed by the replay format; what a call answers is the group's alone. Lines are parsed by `lines`, calls made by
// `text_replay`, and `text_state` has the group and the lines that are no calls; answers are printed by `answers`, all over the streams
// of `stream`; a record's numbers are read and printed by `records`, a gauge's by `text_gauge`, lines on links by `text_link_read` and
// `text_link`. On the standard error it says why a line is bad and, started with words or where the input cannot be read, how it is used:
// a Rattle program has no exit status (`examples/replay` gives one).
#![tactic(auto)]

use std::env::{Env, FillError};
use text_lines::Line;
use text_state::World;
use text_stream::input::Input;

// What is lent throughout: the receive memory, the bytes of a line and its second bytes, and the buffer of a read and of the calls on links.
#[derive(Drop)]
struct Buffers {
    mem: [u8; 1048704],
    given: [u8; 70000],
    body: [u8; 70000],
    out: [u8; 65600],
}

impl Buffers {
    fn act(&mut self, w: &mut World, line: Line) {
        match line {
            Line::Skipped => {}
            Line::Group(s, n, len, count) => {
                text_replay::start_over(w, &mut self.mem, s, n, len, count);
            }
            Line::Call(command, count, room) => {
                text_replay::lent(
                    w,
                    &mut self.mem,
                    &self.given,
                    &mut self.out,
                    command,
                    count,
                    room,
                );
            }
            Line::Gather(slot, h, b) => {
                text_replay::gather_line(w, &self.mem, &self.given, &self.body, slot, h, b);
            }
            Line::Record(slot, c) => w.lay_record(slot, c),
            Line::Poke(at, count) => w.poke(&mut self.mem, &self.given, at, count),
            Line::Table => w.table(),
            Line::Memory(at, count) => w.memory(&self.mem, at, count),
            Line::Health(link) => w.health(link),
            Line::Gauge(link, g) => w.lay_gauge(link, g),
            Line::Pool(l) => text_replay::pool_line(w, &self.given, l),
            Line::Setup(l) => text_replay::setup_line(w, &self.given, &mut self.out, l),
            Line::Link(l) => text_replay::link_line(w, &self.given, l),
            Line::LinkCall(command, count, room) => {
                text_replay::link_lent(
                    w,
                    &self.mem,
                    &self.given,
                    &mut self.out,
                    command,
                    count,
                    room,
                );
            }
        }
    }
}

fn usage(rt: HostRuntime) {
    let _ = rt.stderr().write_all(
        b"usage: replay < CALLS
reads calls from standard input, one a line, makes them on one group, and prints an answer for each;
docs/replay-format.md has the lines
",
    );
}

fn replay(rt: HostRuntime) {
    let mut buffers = Buffers {
        mem: [0; 1048704],
        given: [0; 70000],
        body: [0; 70000],
        out: [0; 65600],
    };
    let mut w = text_replay::first(rt);
    let mut input = Input::begin(rt);
    // of lines, from 1 on
    let mut number: u64 = 0;
    while 0 < input.left {
        let line = text_lines::parse(&mut input, &mut buffers.given, &mut buffers.body);
        number = number.saturating_add(1);
        if let Some(why) = text_lines::why(line, w.count, w.len) {
            let _ = eprintln!(rt; "line {number}: {why}");
        }
        match line {
            Ok(line) => buffers.act(&mut w, line),
            Err(_) => w.bad(),
        }
    }
    w.output.flush();
    if input.failed {
        usage(rt);
    }
}

// Whether the program was started with a word beside its own name, of any length.
fn has_words(rt: HostRuntime) -> bool {
    let mut start = [0u8; 1];
    !matches!(rt.arg(1, &mut start), Err(FillError::NotPresent))
}

fn main(rt: HostRuntime) {
    if has_words(rt) {
        usage(rt);
    } else {
        replay(rt);
    }
}
