// A fresh group of a replay, and the lines of the replay format that are calls: of the group, of a head and a body, of the pool, on setting
// up and on links. Each prints what it answers to the world's output.
#![tactic(auto)]

ghost use Rattle.std.specs.Prelude.{◌≡◌, ◌++◌, length, take, drop, replicate};
ghost use Rattle.pool.specs.Pool.{free_pool};
ghost use Rattle.text_pool.specs.PoolText.{Left};
ghost use Rattle.text_setup.specs.SetupText as Setup;
ghost use Rattle.text_setup.specs.SetupText.{no_settings};
ghost use Rattle.text_link.specs.LinkText as Link;
ghost use Rattle.text_state.specs.World.{links_to, books_to, settings_to, output_to};
ghost use Rattle.text_replay.specs.ReplayCalls.{fresh_of, no_links, Called, Lent, Gathered, LinkCalled, LinkLent};

use group_link::{LinkCommand, LinkMade, Values};
use group_make::{Command, Made};
use group_table::Links;
use link_exchange::Role;
use text_gather::GatherMade;
use text_link_read::LinkLine;
use text_pool::PoolLine;
use text_records::ROWS;
use text_setup::SetupLine;
use text_state::World;
use text_stream::output::Output;

// A buffer before a call.
fn mark_unused(buffer: &mut [u8])
    ensures { buffer.new ≡ replicate (length buffer.old) 165 }
{
    buffer.fill(0xA5);
}

// The links of a fresh group: every link down, every gauge cleared; a client, no exchange, none that waits.
fn fresh_links() -> Links
    ensures { result ≡ no_links }
{
    let cleared = gauge::cleared();
    Links {
        active: [false; 4],
        gauges: [cleared; 4],
        role: Role::Client,
        exchange: link_exchange::no_exchange(),
        queue: link_exchange::empty_queue(),
    }
}

// As if after `group 1 8 8` and `pool`, with settings all zero.
pub fn first(rt: HostRuntime) -> World
    ensures fresh { result ≡ fresh_of 1 8 8 1 free_pool no_settings result.output }
    ensures empty { result.output.at ≡ 0 }
{
    let zero = conn_record::zero_record();
    let books = pool::free_pool();
    let output = Output::new(rt);
    World {
        s: 1,
        n: 8,
        len: 8,
        table: [zero; ROWS],
        count: 1,
        links: fresh_links(),
        books,
        settings: text_setup::no_settings(),
        output,
    }
}

// A fresh group: every slot all zeros. The pool and the settings stay as they are.
pub fn start_over(w: &mut World, mem: &mut [u8], s: u32, n: u32, len: usize, count: usize)
    ensures world { w.new ≡ fresh_of s n len count w.old.books w.old.settings w.new.output }
    ensures memory { mem.new ≡ replicate (length (take len mem.old)) 0 ++ drop len mem.old }
{
    let most = len.min(mem.len());
    mem[..most].fill(0);
    let zero = conn_record::zero_record();
    w.s = s;
    w.n = n;
    w.len = len;
    w.table = [zero; ROWS];
    w.count = count;
    w.links = fresh_links();
    w.output.text("group\n");
}

// Makes the call, every byte of out A5 before it, and prints its answer.
fn call(w: &mut World, mem: &mut [u8], bytes: &[u8], out: &mut [u8], command: Command)
    ensures { Called w.old command mem.old bytes.now (replicate (length out.old) 165) w.new mem.new out.new }
{
    mark_unused(out);
    let Made { table, answer } = group_make::on_rows(
        w.table, w.count, w.s, w.n, mem, w.links, command, bytes, out,
    );
    w.table = table;
    w.links = answer.links;
    text_answers::answer(&mut w.output, command, answer, out);
}

// A call, with what it is lent: LEN bytes of memory, its bytes, and ROOM bytes of out.
pub fn lent(
    w: &mut World,
    mem: &mut [u8],
    given: &[u8],
    out: &mut [u8],
    command: Command,
    count: usize,
    room: usize,
)
    ensures { Lent w.old command count room mem.old given.now out.old w.new mem.new out.new }
{
    let len = w.len.min(mem.len());
    let k = count.min(given.len());
    let most = room.min(out.len());
    call(w, &mut mem[..len], &given[..k], &mut out[..most], command);
}

// Sends a head and a body, and prints its answer.
fn gather<'a>(w: &mut World, mem: &[u8], head: &'a [u8], body: &'a [u8], slot: u32)
    ensures { Gathered w.old slot mem.now head.now body.now w.new }
{
    let GatherMade { table, gathered } = text_gather::on_rows(
        w.table, w.count, w.s, w.n, mem, w.links, slot, head, body,
    );
    w.table = table;
    w.links = gathered.answer.links;
    text_gather::answer(&mut w.output, gathered, head, body);
}

// The same, with what it is lent: LEN bytes of memory, the head and the body.
pub fn gather_line<'a>(
    w: &mut World,
    mem: &[u8],
    given: &'a [u8],
    body: &'a [u8],
    slot: u32,
    h: usize,
    b: usize,
)
    ensures { Gathered w.old slot (take w.old.len mem.now) (take h given.now) (take b body.now) w.new }
{
    let len = w.len.min(mem.len());
    let k = h.min(given.len());
    let l = b.min(body.len());
    gather(w, &mem[..len], &given[..k], &body[..l], slot);
}

// The next three differ in what they lay in and what they promise of it: one generic function would be no plainer.

// A line of the pool, made on its books.
pub fn pool_line(w: &mut World, given: &[u8], line: PoolLine)
    ensures world { w.new ≡ output_to (books_to w.old w.new.books) w.new.output }
    ensures books { Left w.old.books given.now line w.new.books }
{
    text_pool::act(&mut w.output, &mut w.books, given, line);
}

// A line on setting up, made with the settings.
pub fn setup_line(w: &mut World, given: &[u8], out: &mut [u8], line: SetupLine)
    ensures { w.new ≡ output_to (settings_to w.old (Setup.left_of w.old.settings line)) w.new.output }
{
    text_setup::act(&mut w.output, &mut w.settings, given, out, line);
}

// A line that lays something of the links in.
pub fn link_line(w: &mut World, given: &[u8], line: LinkLine)
    ensures { w.new ≡ output_to (links_to w.old (Link.left_of w.old.links given.now line)) w.new.output }
{
    text_link::act(&mut w.output, &mut w.links, given, line);
}

// Makes one of the three calls on links, every byte of the buffer A5 before it, and prints its answer.
fn link_called(
    w: &mut World,
    mem: &[u8],
    bytes: &[u8],
    given: Values,
    buffer: &mut [u8],
    command: LinkCommand,
)
    ensures { LinkCalled w.old command mem.now bytes.now given.values (replicate (length buffer.old) 165) w.new
        buffer.new }
{
    mark_unused(buffer);
    let LinkMade { table, done } = group_link::on_rows(
        w.table, w.count, w.s, w.n, mem, w.links, command, bytes, given, buffer,
    );
    w.table = table;
    w.links = done.answer.links;
    text_link::answer(&mut w.output, command, done, buffer);
}

// The same, with what it is lent: LEN bytes of memory, its bytes or its values, and the buffer.
pub fn link_lent(
    w: &mut World,
    mem: &[u8],
    given: &[u8],
    out: &mut [u8],
    command: LinkCommand,
    count: usize,
    room: Option<usize>,
)
    ensures { LinkLent w.old command count room mem.now given.now out.old w.new out.new }
{
    let len = w.len.min(mem.len());
    let k = count.min(given.len());
    let most = text_link::room_of(w.s, room).min(out.len());
    let values = text_link::values_in(given);
    link_called(
        w,
        &mem[..len],
        &given[..k],
        values,
        &mut out[..most],
        command,
    );
}
