// The numbers of a `record` line.
ghost use Rattle.std.specs.Prelude.{◌≤◌, IfOk};

use closing::{Marks, Side};
use conn_record::{Identity, Inbound, Outbound, RToken, Record, Remote, Urgent};
use cursor::Cursor;
use text_stream::input::Input;
use text_stream::why::Why;

const MOST: u64 = 4294967295;

// An offset and a wrap number.
fn cursor_of(input: &mut Input) -> Result<Cursor, Why>
    ensures { input.new.left ≤ input.old.left }
{
    let offset = input.number(MOST);
    let wrap = input.number(65535);
    Ok(Cursor {
        offset: offset? as u32,
        wrap: wrap? as u16,
    })
}

// OPEN OWN PEER LINK SIZE
fn who_of(input: &mut Input) -> Result<(Identity, u32), Why>
    ensures { input.new.left ≤ input.old.left }
{
    let opened = input.number(1);
    let own = input.number(MOST);
    let peer = input.number(MOST);
    let link = input.number(255);
    let size = input.number(MOST);
    let id = Identity {
        opened: opened? == 1,
        own: own? as u32,
        peer: peer? as u32,
        link: link? as u8,
    };
    Ok((id, size? as u32))
}

// KEY BASE
fn token_of(input: &mut Input) -> Result<RToken, Why>
    ensures { input.new.left ≤ input.old.left }
{
    let key = input.number(MOST);
    let base = input.number(conn_record::MOST_ADDRESS);
    Ok(RToken {
        key: key? as u32,
        base: base?,
    })
}

// INDEX KEY1 BASE1 KEY2 BASE2 KEY3 BASE3 KEY4 BASE4, after the size; the index is at most `most`. The size is left at 0.
pub fn remote(input: &mut Input, most: u32) -> Result<Remote, Why>
    ensures { input.new.left ≤ input.old.left }
{
    let index = input.number(most as u64);
    let link1 = token_of(input);
    let link2 = token_of(input);
    let link3 = token_of(input);
    let link4 = token_of(input);
    Ok(Remote {
        size: 0,
        index: index? as u32,
        link1: link1?,
        link2: link2?,
        link3: link3?,
        link4: link4?,
    })
}

// The five cursors, in the order P C T Q R.
fn cursors_of(input: &mut Input) -> Result<[Cursor; 5], Why>
    ensures { input.new.left ≤ input.old.left }
{
    let p = cursor_of(input);
    let c = cursor_of(input);
    let t = cursor_of(input);
    let q = cursor_of(input);
    let r = cursor_of(input);
    Ok([p?, c?, t?, q?, r?])
}

// NEXT HEARD MARKS
fn counts_of(input: &mut Input) -> Result<(u16, u16, u16), Why>
    ensures { input.new.left ≤ input.old.left }
{
    let next = input.number(65535);
    let heard = input.number(65535);
    let marks = input.number(511);
    Ok((next? as u16, heard? as u16, marks? as u16))
}

// OFFSET:WRAP
fn standing_of(input: &mut Input) -> Result<Urgent, Why>
    ensures { input.new.left ≤ input.old.left }
{
    let offset = input.bare_number(MOST);
    let colon = input.take(b':');
    let wrap = input.bare_number(65535);
    let offset = offset? as u32;
    colon?;
    Ok(Urgent {
        standing: true,
        place: Cursor {
            offset,
            wrap: wrap? as u16,
        },
    })
}

// A space and an urgent place, `-` for none.
fn place_of(input: &mut Input) -> Result<Urgent, Why>
    ensures { input.new.left ≤ input.old.left }
{
    let space = input.take(b' ');
    let place = if input.byte == b'-' {
        input.next();
        Ok(Urgent {
            standing: false,
            place: Cursor { offset: 0, wrap: 0 },
        })
    } else {
        standing_of(input)
    };
    space.and(place)
}

// Whether the mark of this weight is in the sum.
fn mark(marks: u16, weight: u16) -> bool {
    marks & weight != 0
}

fn marks_of(marks: u16) -> Marks {
    Marks {
        sent: Side {
            done: mark(marks, 1),
            closed: mark(marks, 2),
        },
        heard: Side {
            done: mark(marks, 4),
            closed: mark(marks, 8),
        },
        first: mark(marks, 16),
        abort: mark(marks, 32),
    }
}

// The line's numbers, in their order: a slot, and what to lay there.
pub fn record(input: &mut Input) -> Result<(usize, Record), Why>
    ensures left { input.new.left ≤ input.old.left }
    ensures slot { IfOk result (λ r. r.0 ≤ 300) }
{
    let slot = input.number(300);
    let who = who_of(input);
    let cursors = cursors_of(input);
    let counts = counts_of(input);
    let peer = remote(input, 255);
    let ours = place_of(input);
    let theirs = place_of(input);
    let slot = slot? as usize;
    let (id, size) = who?;
    let [p, c, t, q, r] = cursors?;
    let (next, last, marks) = counts?;
    let remote = Remote { size, ..peer? };
    let outbound = Outbound {
        producer: q,
        consumer: r,
        next,
        blocked: mark(marks, 64),
        urgent: ours?,
    };
    let inbound = Inbound {
        producer: p,
        consumer: c,
        told: t,
        last,
        blocked: mark(marks, 128),
        request: mark(marks, 256),
        urgent: theirs?,
    };
    let record = Record {
        id,
        remote,
        inbound,
        outbound,
        marks: marks_of(marks),
    };
    Ok((slot, record))
}
