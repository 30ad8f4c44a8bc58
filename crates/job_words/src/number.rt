// A field of a job line as a number: whole micrometres, read as millimetres.
//
// An optional minus, then 1 to 10 digits, at most 1,000,000,000 in size; converted, and divided by
// 1000 with one rounding.
ghost use Rattle.std.specs.Prelude.{◌≡◌, ◌≤◌, pos, neg_ℤ};
ghost use Rattle.job_words.specs.Number.{millimetres, field_number};

use text::read_whole;

// Micrometres as millimetres: converted, and divided by 1000 with one rounding.
fn over_zero(v: u64) -> f64
    ensures { result ≡ millimetres (pos v) }
{
    std::num::nearest_u64_to_f64(v) / 1000.0
}

fn under_zero(v: u64) -> f64
    requires { v ≤ 1000000000 }
    ensures { result ≡ millimetres (neg_ℤ (pos v)) }
{
    let n = v as i64;
    std::num::nearest_i64_to_f64(-n) / 1000.0
}

// A field as millimetres.
pub fn read_number(f: &[u8]) -> Option<f64>
    ensures { result ≡ field_number f.now }
{
    if f.len() < 1 {
        return None;
    }
    let b = f[0];
    if b == b'-' {
        let v = read_whole(&f[1..])?;
        return Some(under_zero(v));
    }
    let v = read_whole(f)?;
    Some(over_zero(v))
}
