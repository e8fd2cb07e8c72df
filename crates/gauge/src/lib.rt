// A link's gauge: how long TEST LINK was unanswered, in milliseconds (request 2026-10). No call of a connection reads it.
#![tactic(auto)]

ghost use Rattle.std.specs.Prelude.{◌≡◌, cond, ◌≤◌, leb};
ghost use Rattle.std.specs.Float.Ieee.{lt};
ghost use Rattle.gauge.specs.Gauge.{most_ms, cleared_of, smoothed, late_at, larger_of, count_after, sampled_of, health_of, view_of};

// The mean and the worst answer time, how many samples there are (eight stands for eight or more), and whether the latest one was late.
// Any values may be handed in.
#[repr(C)]
#[derive(Clone, Copy)]
pub struct Gauge {
    pub mean: f64,
    pub worst: f64,
    pub count: u8,
    pub late: bool,
}

// The health of a link: unheard, or steady with its mean, or late with its mean and its worst.
#[derive(Clone, Copy)]
pub enum Health {
    Unheard,
    Steady(f64),
    Late(f64, f64),
}

// What a console shows of a link's health: a word, and the numbers that stand behind it.
#[derive(Clone, Copy)]
pub enum Word {
    Unheard,
    Steady,
    Late,
}

// The word, how many numbers are shown behind it (the mean, then the worst), and the numbers; one that is not shown is zero.
#[derive(Clone, Copy)]
pub struct View {
    pub word: Word,
    pub shown: u8,
    pub mean: f64,
    pub worst: f64,
}

// The longest answer time that is a sample.
const MOST_MS: u32 = 60000;

// A gauge with no sample.
pub fn cleared() -> Gauge
    ensures { result ≡ cleared_of }
{
    Gauge {
        mean: 0.0,
        worst: 0.0,
        count: 0,
        late: false,
    }
}

// Whether the number is a sample: 0 to 60,000 milliseconds.
pub fn is_sample(ms: u32) -> bool
    ensures { result ≡ leb ms most_ms }
{
    ms <= MOST_MS
}

// Three operations in that order, each rounded once.
fn smooth(m: f64, s: f64) -> f64
    ensures { result ≡ smoothed m s }
{
    m + (s - m) * 0.125
}

// Above four times the mean before it, plus twenty.
fn is_late(m: f64, s: f64) -> bool
    ensures { result ≡ late_at m s }
{
    s > 4.0 * m + 20.0
}

// Kept: `f64::max` drops what is no number, and `larger_of` of specs/Gauge.antt keeps it.
fn larger(a: f64, b: f64) -> f64
    ensures { result ≡ larger_of a b }
{
    if a < b { b } else { a }
}

// One sample more, up to eight.
fn one_more(c: u8) -> u8
    ensures { result ≡ count_after c }
{
    c.saturating_add(1).min(8)
}

// The gauge after one sample more; as it was where the number is no sample.
pub fn sampled(g: Gauge, ms: u32) -> Gauge
    ensures { result ≡ cond (leb ms most_ms) (sampled_of g ms) g }
{
    if is_sample(ms) { next(g, ms) } else { g }
}

fn next(g: Gauge, ms: u32) -> Gauge
    requires { ms ≤ most_ms }
    ensures { result ≡ sampled_of g ms }
{
    let s = ms as f64;
    let c = g.count;
    let m = g.mean;
    let w = g.worst;
    if c == 0 {
        return Gauge {
            mean: s,
            worst: s,
            count: 1,
            late: false,
        };
    }
    let mean = smooth(m, s);
    let late = is_late(m, s);
    let worst = larger(w, s);
    let count = one_more(c);
    Gauge {
        mean,
        worst,
        count,
        late,
    }
}

pub fn health_of(g: Gauge) -> Health
    ensures { result ≡ health_of g }
{
    if g.count == 0 {
        return Health::Unheard;
    }
    if g.late {
        Health::Late(g.mean, g.worst)
    } else {
        Health::Steady(g.mean)
    }
}

// What is shown of the health: the word, how many numbers, and the numbers.
pub fn view_of(h: Health) -> View
    ensures { result ≡ view_of h }
{
    match h {
        Health::Unheard => View {
            word: Word::Unheard,
            shown: 0,
            mean: 0.0,
            worst: 0.0,
        },
        Health::Steady(m) => View {
            word: Word::Steady,
            shown: 1,
            mean: m,
            worst: 0.0,
        },
        Health::Late(m, w) => View {
            word: Word::Late,
            shown: 2,
            mean: m,
            worst: w,
        },
    }
}
