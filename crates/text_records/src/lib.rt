// A record as numbers: as a `record` line has them (`read`), and as a `table` line is answered (`print`). A replayed table has up to ROWS
// records, more than any S, so that one of a wrong length can be lent.
#![tactic(auto)]

ghost use Rattle.std.specs.Prelude.{◌≤◌};

pub mod print;
pub mod read;

pub const ROWS: usize = 300;

// How many of `count` rows there are.
pub fn rows(count: usize) -> usize
    ensures { result ≤ 300 }
{
    count.min(ROWS)
}
