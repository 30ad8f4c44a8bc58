// A bulge read, and millimetres spelled: what a profile's lines have that a job's have not.
//
// A bulge is in whole millionths: an optional minus, then 1 to 10 digits, at most 1,000,000,000 in size;
// converted, and divided by 1,000,000 with one rounding. Millimetres are spelled as the nearest whole
// micrometres.
ghost use Rattle.std.specs.Prelude.{◌≡◌, ◌+◌, ◌≤◌};
ghost use Rattle.text.specs.Wrote.{Wrote, line_room};
ghost use Rattle.chop_lines.specs.Words.{millionths, bulge_of};
ghost use Rattle.chop_lines.specs.Spelled.{micrometres, has_minus, micro_field, sag_up};

use text::{LINE_ROOM, read_whole};

fn in_millionths(v: u64) -> f64
    ensures { result ≡ millionths v }
{
    std::num::nearest_u64_to_f64(v) / 1000000.0
}

// A field as a bulge.
pub fn read_bulge(f: &[u8]) -> Option<f64>
    ensures { result ≡ bulge_of f.now }
{
    if f.len() < 1 {
        return None;
    }
    let b = f[0];
    if b == b'-' {
        match read_whole(&f[1..]) {
            Some(v) => Some(-in_millionths(v)),
            None => None,
        }
    } else {
        match read_whole(f) {
            Some(v) => Some(in_millionths(v)),
            None => None,
        }
    }
}

// The size of x in whole micrometres.
fn micrometres_of(x: f64) -> u64
    ensures { result ≡ micrometres x }
{
    numbers::whole_part(floats::abs(x) * 1000.0 + 0.5)
}

// Whether n micrometres of x have a minus.
fn has_minus(x: f64, n: u64) -> bool
    ensures { result ≡ has_minus x n }
{
    (x < 0.0) & (n != 0)
}

// A tab, and x in whole micrometres.
pub fn put_field(out: &mut [u8; LINE_ROOM], at: usize, x: f64) -> usize
    requires { at + 22 ≤ line_room }
    ensures { Wrote out.old at (micro_field x) out.new result }
{
    let n = micrometres_of(x);
    if has_minus(x, n) {
        let e = text::put(out, at, b"\t-");
        return text::put_decimal(out, e, n);
    }
    let e = text::put(out, at, b"\t");
    text::put_decimal(out, e, n)
}

// A sag in whole micrometres, rounded up, and one more.
pub fn sag_up(sag: f64) -> u64
    ensures { result ≡ sag_up sag }
{
    match numbers::whole_up(sag * 1000.0, 1000000000) {
        Some(n) => n + 1,
        None => u64::MAX,
    }
}
