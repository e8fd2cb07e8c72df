// The pool's calls with flat structs, for callers in C and Rust: the books by value, and what a call says as a number.
#![tactic(auto)]

ghost use Rattle.std.specs.Prelude.{◌≡◌};
ghost use Rattle.pool.specs.Pool.{says_of, free_pool};
ghost use Rattle.pool.specs.Pool as Pool;
ghost use Rattle.c_pool.specs.FlatPool.{flat_of, PoolMade};

use pool::{Outcome, Reply};

// What an answer says: no enum, as the numbers are C's (fordlinnet.h).
const REFUSED: u32 = 1;

const BLOCK: u32 = 10;

const RETURNED: u32 = 11;

#[repr(C)]
#[derive(Clone, Copy)]
pub struct Books {
    pub sizes: [u8; 64],
}

// What a call says, with a refusal's number or a block's start, and the books that it leaves.
#[repr(C)]
#[derive(Clone, Copy)]
pub struct PoolAnswer {
    pub said: u32,
    pub refusal: u32,
    pub start: u32,
    pub books: Books,
}

// The answer, flat.
impl From<Outcome> for PoolAnswer {
    ghost from_gives = { λ o a. a ≡ flat_of (says_of o.reply) o.books };

    fn from(o: Outcome) -> PoolAnswer {
        let sizes = o.books;
        let books = Books { sizes };
        match o.reply {
            Reply::Block(start) => PoolAnswer {
                said: BLOCK,
                refusal: 0,
                start,
                books,
            },
            Reply::Returned => PoolAnswer {
                said: RETURNED,
                refusal: 0,
                start: 0,
                books,
            },
            Reply::Refused(k) => PoolAnswer {
                said: REFUSED,
                refusal: k as u32,
                start: 0,
                books,
            },
        }
    }
}

pub fn free_books() -> Books
    ensures { result.sizes ≡ free_pool }
{
    let sizes = pool::free_pool();
    Books { sizes }
}

pub fn take(books: Books, units: u32) -> PoolAnswer
    ensures { PoolMade books (Pool.Call.take units) result }
{
    let sizes = books.sizes;
    PoolAnswer::from(pool::take(sizes, units))
}

pub fn give_back(books: Books, start: u32, units: u32) -> PoolAnswer
    ensures { PoolMade books (Pool.Call.give_back start units) result }
{
    let sizes = books.sizes;
    PoolAnswer::from(pool::give_back(sizes, start, units))
}
