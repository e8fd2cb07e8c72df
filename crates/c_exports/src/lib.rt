// What a program in C or Rust links: the calls under C's names, with flat structs (bindings/c/fordlinnet.h). A slice is a pointer and a
// length. Nothing is asked of what is lent.
#![tactic(auto)]

ghost use Rattle.std.specs.Prelude.{◌≡◌};
ghost use Rattle.gauge.specs.Gauge.{health_of, view_of};
ghost use Rattle.conn_record.specs.Connection.{zero_record};
ghost use Rattle.group_table.specs.Table.{gauge_at};
ghost use Rattle.group_rules.specs.Rules.{group_of};
ghost use Rattle.group_fresh.specs.Fresh.{down_links};
ghost use Rattle.pool.specs.Pool.{free_pool, take, give_back};
ghost use Rattle.c_call.specs.Flat.{role_of, links_in, flat_links, CallMade};
ghost use Rattle.c_call.specs.View.{flat_view};
ghost use Rattle.c_pool.specs.FlatPool.{PoolMade};
ghost use Rattle.c_setup.specs.FlatSetup.{flat_setup};
ghost use Rattle.c_shapes.specs.Shapes.{shape_record, shape_links, shape_command, shape_link_command, shape_answer, shape_link_answer};
ghost use Rattle.c_shapes.specs.Shapes.{shape_view, shape_pool_answer, shape_settings, shape_setup_answer};

use c_call::{FlatAnswer, FlatCommand, FlatLinks, FlatView};
use c_call_link::{FlatLinkAnswer, FlatLinkCommand};
use c_pool::{Books, PoolAnswer};
use c_setup::SetupAnswer;
use conn_record::Record;
use group_table::Links;
use setup::Settings;

// Makes the call that a number names.
#[unsafe(no_mangle)]
pub extern "C" fn fordlinnet_make(
    s: u32,
    n: u32,
    mem: &mut [u8],
    table: &mut [Record],
    links: FlatLinks,
    command: FlatCommand,
    bytes: &[u8],
    out: &mut [u8],
) -> FlatAnswer
    ensures { CallMade (group_of s n table.old (links_in links) mem.old) command bytes.now out.old result
        (group_of s n table.new (links_in result.links) mem.new) out.new }
{
    let own = Links::from(links);
    let named = c_call::command_of(command);
    let a = group_make::make(s, n, mem, table, own, named, bytes, out);
    c_call::told(command, links, a)
}

// What a console shows of a link.
#[unsafe(no_mangle)]
pub extern "C" fn fordlinnet_view_link(links: FlatLinks, link: u8) -> FlatView
    ensures { result ≡ flat_view (view_of (health_of (gauge_at links.gauges link))) }
{
    c_call::view(links, link)
}

// A fresh group's record and links.
#[unsafe(no_mangle)]
pub extern "C" fn fordlinnet_closed_record() -> Record
    ensures { result ≡ zero_record }
{
    conn_record::zero_record()
}

#[unsafe(no_mangle)]
pub extern "C" fn fordlinnet_links_down(server: bool) -> FlatLinks
    ensures { result ≡ flat_links (down_links (role_of server)) }
{
    let unheard = gauge::cleared();
    let idle = link_exchange::no_exchange();
    let none = link_exchange::empty_queue();
    FlatLinks {
        active: [false; 4],
        gauges: [unheard; 4],
        server: server,
        exchange: idle,
        queue: none,
    }
}

// The pool.
#[unsafe(no_mangle)]
pub extern "C" fn fordlinnet_pool_free() -> Books
    ensures { result.sizes ≡ free_pool }
{
    c_pool::free_books()
}

#[unsafe(no_mangle)]
pub extern "C" fn fordlinnet_pool_take(books: Books, units: u32) -> PoolAnswer
    ensures { PoolMade books (take units) result }
{
    c_pool::take(books, units)
}

#[unsafe(no_mangle)]
pub extern "C" fn fordlinnet_pool_return(books: Books, start: u32, units: u32) -> PoolAnswer
    ensures { PoolMade books (give_back start units) result }
{
    c_pool::give_back(books, start, units)
}

// Set-up.
#[unsafe(no_mangle)]
pub extern "C" fn fordlinnet_make_setup(settings: Settings, due: u32, bytes: &[u8]) -> SetupAnswer
    ensures { result ≡ flat_setup settings due bytes.now }
{
    c_setup::setup(settings, due, bytes)
}

// The structs with known values, for a binding's test.
#[unsafe(no_mangle)]
pub extern "C" fn fordlinnet_shape_record(one: u32) -> Record
    ensures { result ≡ shape_record one }
{
    c_shapes::record(one)
}

#[unsafe(no_mangle)]
pub extern "C" fn fordlinnet_shape_links(one: u32) -> FlatLinks
    ensures { result ≡ shape_links one }
{
    c_shapes::links(one)
}

#[unsafe(no_mangle)]
pub extern "C" fn fordlinnet_shape_command() -> FlatCommand
    ensures { result ≡ shape_command }
{
    c_shapes::command()
}

#[unsafe(no_mangle)]
pub extern "C" fn fordlinnet_shape_link_command(one: u32) -> FlatLinkCommand
    ensures { result ≡ shape_link_command one }
{
    c_shapes::link_command(one)
}

#[unsafe(no_mangle)]
pub extern "C" fn fordlinnet_shape_answer(one: u32) -> FlatAnswer
    ensures { result ≡ shape_answer one }
{
    c_shapes::answer(one)
}

#[unsafe(no_mangle)]
pub extern "C" fn fordlinnet_shape_link_answer(one: u32) -> FlatLinkAnswer
    ensures { result ≡ shape_link_answer one }
{
    c_shapes::link_answer(one)
}

#[unsafe(no_mangle)]
pub extern "C" fn fordlinnet_shape_view() -> FlatView
    ensures { result ≡ shape_view }
{
    c_shapes::view()
}

#[unsafe(no_mangle)]
pub extern "C" fn fordlinnet_shape_pool_answer() -> PoolAnswer
    ensures { result ≡ shape_pool_answer }
{
    c_shapes::pool_answer()
}

#[unsafe(no_mangle)]
pub extern "C" fn fordlinnet_shape_settings(one: u32) -> Settings
    ensures { result ≡ shape_settings one }
{
    c_shapes::settings(one)
}

#[unsafe(no_mangle)]
pub extern "C" fn fordlinnet_shape_setup_answer(one: u32) -> SetupAnswer
    ensures { result ≡ shape_setup_answer one }
{
    c_shapes::setup_answer(one)
}
