// The books of a pool of 64 units of 16 KiB (request 2026-12): byte u is the size of the block given out that starts at unit u, 0 where
// none starts. Any books and numbers may be handed in. A call answers with what it says and the books that it leaves.
#![tactic(auto)]

ghost use Rattle.std.specs.Prelude.{◌≡◌, ◌+◌, ◌≤◌, ◌<◌, true};
ghost use Rattle.pool.specs.Pool.{every, size_b, sound_b, fits_b, lowest, given_out_b};
ghost use Rattle.pool.specs.Pool.{free_pool, Call, Says, says_of, Did};
ghost use Rattle.pool.specs.Steps.{empty_b, place_b, alone_b, Part};

// What a call says.
#[derive(Clone, Copy)]
pub enum Reply {
    // take: where the block given out starts
    Block(u32),
    Returned,
    // the refusal's number
    Refused(u8),
}

#[derive(Clone, Copy)]
pub struct Outcome {
    pub reply: Reply,
    pub books: [u8; 64],
}

// 1, 2, 4, 8, 16, 32 or 64.
fn is_size(n: usize) -> bool
    ensures { result ≡ size_b n }
{
    (n == 1) | ((n == 2) | ((n == 4) | ((n == 8) | ((n == 16) | ((n == 32) | (n == 64))))))
}

// Whether no block starts among the n units from `start` on.
fn none_starts(b: &[u8; 64], start: usize, n: usize) -> bool
    requires { start + n ≤ 64 }
    ensures { result ≡ every (empty_b b.now) start n }
{
    for k in start..start + n {
        if b[k] != 0 {
            return false;
        }
    }
    true
}

// Whether a block of that size may start at i. (A remainder by a number that is known is no division.)
fn is_place(i: usize, size: usize) -> bool
    ensures { result ≡ place_b i size }
{
    match size {
        1 => true,
        2 => i % 2 == 0,
        4 => i % 4 == 0,
        8 => i % 8 == 0,
        16 => i % 16 == 0,
        32 => i % 32 == 0,
        64 => i % 64 == 0,
        _ => false,
    }
}

// Whether the block that starts at i, if one does, has a size, starts at a multiple of it, stays in the pool, and none starts further on
// in it.
fn is_alone(b: &[u8; 64], i: usize) -> bool
    requires { i < 64 }
    ensures { result ≡ alone_b b.now i }
{
    let size = usize::from(b[i]);
    if size == 0 {
        return true;
    }
    if !is_place(i, size) {
        return false;
    }
    if 64 < i + size {
        return false;
    }
    none_starts(b, i + 1, size - 1)
}

// Whether no block overlaps another, leaves the pool, has another size or starts off a multiple of it. Behind a block that is as it should
// be it goes on.
fn is_sound(b: &[u8; 64]) -> bool
    ensures { result ≡ sound_b b.now }
{
    let mut i = 0;
    // Kept: its step is each block's own size, and no range or iterator goes on so.
    while i < 64 {
        if !is_alone(b, i) {
            return false;
        }
        let size = usize::from(b[i]);
        if size == 0 {
            i += 1;
        } else {
            i += size;
        }
    }
    true
}

// Where the lowest block of the size asked starts that may be given out among the units from `at` on, `size` of them. These are halved,
// and halved again, the lower half tried first, until the halves have the size asked. What one block holds is not halved. No block from
// before `at` reaches further, so only what starts in a half is looked at.
fn find(b: &[u8; 64], mut at: usize, mut size: usize, want: usize) -> Option<usize>
    requires { Part b.now want at size }
    ensures { result ≡ lowest (fits_b b.now want) at size }
{
    // Kept: each turn has another place and size. The upper half is a turn and no call: an Option comes back through memory.
    while want < size {
        let held = usize::from(b[at]);
        if size <= held {
            return None;
        }
        let half = size / 2;
        let middle = at + half;
        let lower = find(b, at, half, want);
        if lower.is_some() {
            return lower;
        }
        at = middle;
        size = half;
    }
    if none_starts(b, at, want) {
        return Some(at);
    }
    None
}

// Whether a block of that size was given out in that place.
fn is_given_out(b: &[u8; 64], start: usize, size: usize) -> bool
    ensures { result ≡ given_out_b b.now start size }
{
    if start < 64 {
        let given = usize::from(b[start]);
        return (size != 0) & (given == size);
    }
    false
}

fn refused(books: [u8; 64], k: u8) -> Outcome
    ensures { (says_of result.reply ≡ Says.refusal k) × (result.books ≡ books) }
{
    Outcome {
        reply: Reply::Refused(k),
        books,
    }
}

// A pool with no block given out.
pub fn free_pool() -> [u8; 64]
    ensures { result ≡ free_pool }
{
    [0u8; 64]
}

// Gives out the lowest block of so many units that is wholly free and starts at a multiple of its size. Refused: 3, 18, 19.
pub fn take(books: [u8; 64], units: u32) -> Outcome
    ensures { Did books (Call.take units) (says_of result.reply) result.books }
{
    let mut after = books;
    let want = units as usize;
    if !is_sound(&books) {
        return refused(books, 3);
    }
    if !is_size(want) {
        return refused(books, 18);
    }
    match find(&books, 0, 64, want) {
        None => refused(books, 19),
        Some(start) => {
            let first = start as u32;
            after[start] = want as u8;
            Outcome {
                reply: Reply::Block(first),
                books: after,
            }
        }
    }
}

// Frees the units of a block that was given out in that place and size. Refused: 3, 20.
pub fn give_back(books: [u8; 64], start: u32, units: u32) -> Outcome
    ensures { Did books (Call.give_back start units) (says_of result.reply) result.books }
{
    let mut after = books;
    let at = start as usize;
    if !is_sound(&books) {
        return refused(books, 3);
    }
    if !is_given_out(&books, at, units as usize) {
        return refused(books, 20);
    }
    after[at] = 0;
    Outcome {
        reply: Reply::Returned,
        books: after,
    }
}
