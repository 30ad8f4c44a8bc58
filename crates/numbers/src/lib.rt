// Root, length, whole part: what the Rust takes from the C library, worked out here; and the lesser
// and the greater of two counts.
//
// The root is decided over whole numbers. Floats guess it, and nothing is promised of the guess: a
// test over whole numbers says whether it is the nearest. Where the test does not say so, it is asked
// of the whole numbers beside the guess, and where it says so of neither, the root is taken one binary
// digit at a time. Its definition speaks of squares of whole numbers alone, and of all values of f64
// the answer is the nearest one.
#![tactic(auto)]

ghost use Rattle.std.specs.Prelude.{◌≡◌, ◌*◌, ◌^◌, ◌<◌, ◌≤◌, min, max, true};
ghost use Rattle.refusals.specs.Number.{paper_of};
ghost use Rattle.numbers.specs.Root.{root_of};
ghost use Rattle.numbers.specs.RootBits.{nearest_root, aligned_root, Pattern};
ghost use Rattle.floats.specs.Numbers.{◌*₆₄◌};
ghost use Rattle.numbers.specs.Length.{scale_up, plain_length, scaled_back, length_of};
ghost use Rattle.numbers.specs.Whole.{whole_part, whole_up};

use refusals::Refusal;

// The whole number nearest to the square root of m * 2^52, one binary digit at a time: `rem` is
// what the square of `r` leaves of the digits of m that were taken, two at a time.
fn by_digits(m: u64) -> u64
    requires { m < 2 ^ 54 }
    ensures { result ≡ nearest_root (m * 2 ^ 52) }
{
    let mut w = m;
    let mut r: u64 = 0;
    let mut rem: u64 = 0;
    for _ in 0..53u64 {
        rem = rem * 4 + w / 0x10_0000_0000_0000;
        w = w % 0x10_0000_0000_0000 * 4;
        r = r * 2;
        if r * 2 < rem {
            rem = rem - (r * 2 + 1);
            r = r + 1;
        }
    }
    if r < rem { r + 1 } else { r }
}

// Whether u is the whole number nearest to the square root of m * 2^52, asked quickly: `false` says
// nothing. Were there no wrapping, u * (u + 1) - m * 2^52 would be e * 2^26 and less than 2^26 more.
fn is_nearest(m: u64, u: u64) -> bool
    requires { (m < 2 ^ 54) × (u ≤ 2 ^ 53) }
    ensures { result ≡ true → u ≡ nearest_root (m * 2 ^ 52) }
{
    let h = u / 0x400_0000;
    let l = u % 0x400_0000;
    let d = std::num::wrapping_sub_u64(m, h * h);
    if d < 0x2000_0000 {
        let e = std::num::wrapping_sub_u64(
            h * (2 * l + 1) + l * (l + 1) / 0x400_0000,
            d * 0x400_0000,
        );
        return e < 2 * h;
    }
    false
}

// About the root of f, which is from 1 to 4: nearly always the float nearest to it. Nothing is
// promised. A polynomial gives s, with 12 digits right; 3 * 2^26 is added to it and taken off, so
// that s has 26 digits and its square is exact. One step of the fifth order gives the rest.
fn guess(f: f64) -> f64 {
    let f2 = f * f;
    let a = (201326592.38090513 + f * 0.7731451153656295)
        + f2 * ((f * 0.03321394069862195 - 0.18448207977408917) - f2 * 0.002531119174832449);
    let s = a - 201326592.0;
    let q = s * s;
    let p = f + q;
    s + ((s * 0.8) * (f - q)) * p / (p * p - f2 * 0.8)
}

// The whole number nearest to the square root of m * 2^52, where a guess u failed the quick test: nearly
// always a number beside u passes it.
fn corrected(m: u64, u: u64) -> u64
    requires { (m < 2 ^ 54) × (0 < u) × (u < 2 ^ 53) }
    ensures { result ≡ nearest_root (m * 2 ^ 52) }
{
    if is_nearest(m, u - 1) {
        return u - 1;
    }
    if is_nearest(m, u + 1) {
        return u + 1;
    }
    by_digits(m)
}

// The whole number nearest to the square root of m * 2^52, where p is the pattern of about m / 2^52.
fn nearest_root(m: u64, p: u64) -> u64
    requires { (m < 2 ^ 54) × (p < 2047 * 2 ^ 52) }
    ensures { result ≡ nearest_root (m * 2 ^ 52) }
{
    let s = guess(f64::from_bits(p));
    if s < 2.0 {
        let u = f64::to_bits(s) % 0x10_0000_0000_0000 + 0x10_0000_0000_0000;
        if is_nearest(m, u) {
            return u;
        }
        return corrected(m, u);
    }
    by_digits(m)
}

// The pattern of a root. t is the pattern of what it is the root of, with 1021 added to the exponent's
// field: half of the field is the root's, and where it is odd, the digits are doubled first.
fn aligned_root(t: u64) -> u64
    ensures { result ≡ aligned_root t }
{
    let full = t % 0x10_0000_0000_0000 + 0x10_0000_0000_0000;
    let r = nearest_root(
        full << (t / 0x10_0000_0000_0000 % 2),
        t % 0x20_0000_0000_0000 + 1023 * 0x10_0000_0000_0000,
    );
    t / 0x20_0000_0000_0000 * 0x10_0000_0000_0000 + r
}

// The shift that brings m to 53 binary digits.
fn full_shift(m: u64) -> u64
    requires { (0 < m) × (m < 2 ^ 53) }
    ensures { (result ≤ 52) × (2 ^ 52 ≤ m * 2 ^ result) × (m * 2 ^ result < 2 ^ 53) }
{
    (u64::leading_zeros(m) - 11) as u64
}

// The pattern of the root of what b is the pattern of. A number too small for 53 binary digits is
// given them, as if the exponent's field went on below 1.
fn root_bits(b: u64) -> u64
    requires { (0 < b) × (b < 2047 * 2 ^ 52) }
    ensures { Pattern b result }
{
    if 0x10_0000_0000_0000 <= b {
        return aligned_root(b + 1021 * 0x10_0000_0000_0000);
    }
    let z = full_shift(b);
    aligned_root((b << z) + (1021 - z) * 0x10_0000_0000_0000)
}

// The value nearest to the square root of x. Of zero it is +0.0, also of -0.0. What is negative,
// infinite or no number is refused.
pub fn root(x: f64) -> Result<f64, Refusal>
    ensures { paper_of result ≡ root_of x }
{
    if x > 0.0 {
        let b = f64::to_bits(x);
        if b < 0x7ff0_0000_0000_0000 {
            return Ok(f64::from_bits(root_bits(b)));
        }
        return Err(Refusal::ArgumentOutside);
    }
    if x == 0.0 {
        return Ok(0.0);
    }
    Err(Refusal::ArgumentOutside)
}

// 2^-400: parts that are both below it in size are tiny.
const TINY_BELOW: f64 = 3.8725919148493183e-121;

// 2^600 and 2^-600: tiny parts are scaled up, and their length is scaled back.
const SCALE_UP: f64 = 4.149515568880993e180;

const SCALE_DOWN: f64 = 2.409919865102884e-181;

// The length of tiny parts, whose own squares may vanish. Scaling up is exact, and scaling back rounds
// once.
fn tiny_length(x: f64, y: f64) -> Result<f64, Refusal>
    ensures { paper_of result ≡ scaled_back (plain_length (x *₆₄ scale_up) (y *₆₄ scale_up)) }
{
    let u = x * SCALE_UP;
    let v = y * SCALE_UP;
    let scaled = root(u * u + v * v)?;
    Ok(scaled * SCALE_DOWN)
}

// The length of (x, y): the root of the rounded sum of the rounded squares, and of tiny parts the same
// on a larger scale. It is zero for zeros alone, and no part is larger.
pub fn length(x: f64, y: f64) -> Result<f64, Refusal>
    ensures { paper_of result ≡ length_of x y }
{
    if (floats::abs(x) < TINY_BELOW) & (floats::abs(y) < TINY_BELOW) {
        return tiny_length(x, y);
    }
    root(x * x + y * y)
}

// The whole part of q, as the Rust's cast to u64 has it.
pub fn whole_part(q: f64) -> u64
    ensures { result ≡ whole_part q }
{
    if (-1.0 < q) & (q < 18446744073709551616.0) {
        return std::num::truncating_f64_to_u64(q);
    }
    if 18446744073709551616.0 <= q {
        return 0xffff_ffff_ffff_ffff;
    }
    0
}

// The least whole number at or above q, if it is at most the limit.
pub fn whole_up(q: f64, limit: u64) -> Option<u64>
    ensures { result ≡ whole_up q limit }
{
    if q <= 0.0 {
        if q - q == 0.0 {
            return Some(0);
        }
        return None;
    }
    if q < 18446744073709551616.0 {
        let t = std::num::truncating_f64_to_u64(q);
        if limit < t {
            return None;
        }
        if std::num::nearest_u64_to_f64(t) < q {
            if t < limit {
                return Some(t + 1);
            }
            return None;
        }
        return Some(t);
    }
    None
}

pub fn lesser(a: usize, b: usize) -> usize
    ensures { result ≡ min a b }
{
    a.min(b)
}

pub fn greater(a: usize, b: usize) -> usize
    ensures { result ≡ max a b }
{
    a.max(b)
}
