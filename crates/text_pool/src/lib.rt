// The pool's lines of the replay format: what follows their first word, and what is printed of them. The books of a `books` line are
// read into the first 64 bytes of `given` (not into 64 bytes of their own: digits that are too many must be read too, so that the first
// mistake is told).
#![tactic(auto)]

ghost use Rattle.std.specs.Prelude.{◌≡◌, ℕ, ◌≤◌, ◌<◌, get_or};
ghost use Rattle.text_pool.specs.PoolText.{Left};

use pool::{Outcome, Reply};
use text_stream::input::Input;
use text_stream::output::Output;
use text_stream::why::Why;

// The first word.
#[derive(Clone, Copy)]
pub enum PoolVerb {
    Pool,
    Take,
    Return,
    Books,
}

#[derive(Clone, Copy)]
pub enum PoolLine {
    // start over with all units free
    Fresh,
    // UNITS
    Take(u32),
    // START UNITS
    Return(u32, u32),
    // lay in the books that were read
    Lay,
    // print the books
    Show,
}

const MOST: u64 = 4294967295;

// Alone it prints the books; with bytes it lays them in, and they must be 64.
fn books_line(input: &mut Input, given: &mut [u8]) -> Result<PoolLine, Why>
    ensures { input.new.left ≤ input.old.left }
{
    if input.byte == b'\n' {
        return Ok(PoolLine::Show);
    }
    if input.bytes(given)? != 64 {
        return Err(Why::Bytes);
    }
    Ok(PoolLine::Lay)
}

// What follows the verb, up to where the line should end.
pub fn parse(input: &mut Input, given: &mut [u8], verb: PoolVerb) -> Result<PoolLine, Why>
    ensures { input.new.left ≤ input.old.left }
{
    match verb {
        PoolVerb::Pool => Ok(PoolLine::Fresh),
        PoolVerb::Take => Ok(PoolLine::Take(input.number(MOST)? as u32)),
        PoolVerb::Return => {
            let start = input.number(MOST);
            let units = input.number(MOST);
            Ok(PoolLine::Return(start? as u32, units? as u32))
        }
        PoolVerb::Books => books_line(input, given),
    }
}

// The first 64 bytes, zeros past the end.
fn laid(given: &[u8]) -> [u8; 64]
    ensures { (k : ℕ) → k < 64 → get_or result k 0 ≡ get_or given.now k 0 }
{
    let mut books = [0u8; 64];
    for k in 0..64 {
        books[k] = given.get(k).copied().unwrap_or(0);
    }
    books
}

fn reply(out: &mut Output, r: Reply) {
    match r {
        Reply::Block(start) => {
            out.text("take");
            out.field(u64::from(start));
            out.byte(b'\n');
        }
        Reply::Returned => out.text("return\n"),
        Reply::Refused(k) => {
            out.text("refused");
            out.field(u64::from(k));
            out.byte(b'\n');
        }
    }
}

fn answered(out: &mut Output, books: &mut [u8; 64], said: Outcome)
    ensures { books.new ≡ said.books }
{
    let after = said.books;
    *books = after;
    reply(out, said.reply);
}

// Makes the line's call on the books, and prints its answer.
pub fn act(out: &mut Output, books: &mut [u8; 64], given: &[u8], line: PoolLine)
    ensures { Left books.old given.now line books.new }
{
    match line {
        PoolLine::Fresh => {
            *books = pool::free_pool();
            out.text("pool\n");
        }
        PoolLine::Take(units) => answered(out, books, pool::take(*books, units)),
        PoolLine::Return(start, units) => answered(
            out,
            books,
            pool::give_back(*books, start, units),
        ),
        PoolLine::Lay => {
            *books = laid(given);
            out.text("books\n");
        }
        PoolLine::Show => {
            out.text("books ");
            out.hex(&books[..]);
            out.byte(b'\n');
        }
    }
}
