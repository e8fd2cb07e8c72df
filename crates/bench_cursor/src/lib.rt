// The cursor step under C's names, for `bench/`: as it is, and as it was before request 2026-02, when the wrap number was a remainder.
#![tactic(auto)]

ghost use Rattle.std.specs.Prelude.{◌≡◌, ◌+◌, ◌≤◌, ◌<◌};
ghost use Rattle.cursor.specs.Cursor.{step_of, moved_of};
ghost use Rattle.bench_cursor.specs.Stepped.{cursor_of, stepped_of};

use cursor::Cursor;

// Kept beside `Cursor`, which has its fields: the C interface of the benchmark.
#[repr(C)]
#[derive(Clone, Copy)]
pub struct Stepped {
    pub offset: u32,
    pub wrap: u16,
}

#[unsafe(no_mangle)]
pub extern "C" fn cursor_step(n: u32, offset: u32, wrap: u16, k: u32) -> Stepped
    ensures { result ≡ stepped_of (step_of n (cursor_of offset wrap) k) }
{
    let c = Cursor { offset, wrap };
    let to = cursor::step(n, c, k);
    Stepped {
        offset: to.offset,
        wrap: to.wrap,
    }
}

// The step with the wrap number by a remainder.
#[unsafe(no_mangle)]
pub extern "C" fn cursor_step_by_remainder(n: u32, offset: u32, wrap: u16, k: u32) -> Stepped
    ensures { result ≡ stepped_of (step_of n (cursor_of offset wrap) k) }
{
    let c = Cursor { offset, wrap };
    let to = step(n, c, k);
    Stepped {
        offset: to.offset,
        wrap: to.wrap,
    }
}

// Kept, with `moved`, beside the cursor's own: the benchmark sets the old step's time beside the new one's.
fn step(n: u32, c: Cursor, k: u32) -> Cursor
    ensures { result ≡ step_of n c k }
{
    let size = n as u64;
    let ok = cursor::in_range(n, c) & ((k as u64) + 4 <= size);
    if ok { moved(n, c, k) } else { c }
}

fn moved(n: u32, c: Cursor, k: u32) -> Cursor
    requires { (c.offset < n) × (k + 4 ≤ n) }
    ensures { result ≡ moved_of n c k }
{
    let size = n as u64;
    let at = (c.offset as u64) + (k as u64);
    let w = c.wrap as u32;
    if at < size {
        Cursor {
            offset: at as u32,
            wrap: c.wrap,
        }
    } else {
        Cursor {
            offset: (at - size + 4) as u32,
            wrap: ((w + 1) % 65536) as u16,
        }
    }
}
