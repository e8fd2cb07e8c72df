// The lines of the replay format about gauges: what follows `health` and `gauge`, and what is printed of a health and of a gauge. A double
// is the 16 digits of its bits.
#![tactic(auto)]

ghost use Rattle.std.specs.Prelude.{◌≤◌, IfOk};

use gauge::{Gauge, Health, Word};
use std::num::{f64_from_bits_with_nan, f64_to_bits_with_nan};
use text_stream::input::Input;
use text_stream::output::Output;
use text_stream::why::Why;

// MEAN or WORST: one that is not finite does not parse.
fn double_of(input: &mut Input, given: &mut [u8]) -> Result<f64, Why>
    ensures { input.new.left ≤ input.old.left }
{
    let count = input.bytes(given)?;
    let Ok(bytes) = <[u8; 8]>::try_from(&given[..count]) else {
        return Err(Why::Bytes);
    };
    let x = f64_from_bits_with_nan(u64::from_be_bytes(bytes));
    if x.is_finite() {
        Ok(x)
    } else {
        Err(Why::Field)
    }
}

// LINK, 1 to 4.
pub fn link_of(input: &mut Input) -> Result<u8, Why>
    ensures left { input.new.left ≤ input.old.left }
    ensures fits { IfOk result (λ k. k ≤ 4) }
{
    match input.number(4)? {
        0 => Err(Why::Field),
        k => Ok(k as u8),
    }
}

// LINK MEAN WORST COUNT LATE: a link, and the gauge to lay there.
pub fn gauge_of(input: &mut Input, given: &mut [u8]) -> Result<(u8, Gauge), Why>
    ensures { input.new.left ≤ input.old.left }
{
    let link = link_of(input);
    let mean = double_of(input, given);
    let worst = double_of(input, given);
    let count = input.number(255);
    let late = input.number(1);
    let link = link?;
    let gauge = Gauge {
        mean: mean?,
        worst: worst?,
        count: count? as u8,
        late: late? == 1,
    };
    Ok((link, gauge))
}

// A space and a double; what is no number has the bits of the quiet one.
fn double_field(out: &mut Output, x: f64) {
    out.byte(b' ');
    out.hex(&f64_to_bits_with_nan(x).to_be_bytes());
}

// A health, as the press room's view shows it, and the line's end.
pub fn health(out: &mut Output, h: Health)
    ensures { out.new.at ≤ 65536 }
{
    let v = gauge::view_of(h);
    out.text(match v.word {
        Word::Unheard => "unheard",
        Word::Steady => "steady",
        Word::Late => "late",
    });
    if 0 < v.shown {
        double_field(out, v.mean);
    }
    if 1 < v.shown {
        double_field(out, v.worst);
    }
    out.text("\n");
}

// A gauge's line of `table`, as `gauge` has it.
fn line(out: &mut Output, k: u64, g: &Gauge) {
    out.text("gauge");
    out.field(k);
    double_field(out, g.mean);
    double_field(out, g.worst);
    out.field(g.count as u64);
    out.field(g.late as u64);
    out.byte(b'\n');
}

// The four gauges' lines.
pub fn lines(out: &mut Output, gauges: &[Gauge; 4])
    ensures { out.new.at ≤ 65536 }
{
    for (k, g) in gauges.iter().enumerate() {
        line(out, k as u64 + 1, g);
    }
}
