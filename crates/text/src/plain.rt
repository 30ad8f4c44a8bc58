// Words and numbers for a person, put into a lent buffer: each call answers the place after what it
// put, and puts nothing past the buffer's end.
ghost use Rattle.std.specs.Prelude.{◌≡◌, ◌+◌, ◌*◌, ◌^◌, ◌<◌, ◌≤◌, length, take};
ghost use Rattle.text.specs.Nearest.{rounds_up, nearest_of};
ghost use Rattle.text.specs.Placed.{Placed};

use crate::digits::{LINE_ROOM, put_decimal};

// 2^42. What a length has behind its point is held as two whole numbers: so many of 2^-42, and so many
// of 2^-84 more.
const UNITS: u64 = 4398046511104;

const UNITS_F: f64 = 4398046511104.0;

// The place itself, or the end where it lies past it.
fn within(at: usize, room: usize) -> usize
    ensures { Placed room at result }
{
    at.min(room)
}

// Puts bytes at a place, as far as there is room.
pub fn put_text(out: &mut [u8], at: usize, bytes: &[u8]) -> usize
    ensures { Placed (length out.old) at result }
{
    let place = within(at, out.len());
    let n = bytes.len().min(out.len() - place);
    out[place..place + n].copy_from_slice(&bytes[..n]);
    place + n
}

// What was put: the first n bytes, all where there are fewer.
pub fn front(bytes: &[u8], n: usize) -> &[u8]
    ensures { result.now ≡ take n bytes.now }
{
    if bytes.len() < n {
        return bytes;
    }
    &bytes[..n]
}

// The digit of n at the place of value d.
fn digit(n: u64, d: u64) -> u8
    requires { 0 < d }
{
    48 + (n / d % 10) as u8
}

// Puts a whole number.
pub fn put_count(out: &mut [u8], at: usize, n: u64) -> usize
    ensures { Placed (length out.old) at result }
{
    let mut own = [0u8; LINE_ROOM];
    let k = put_decimal(&mut own, 0, n);
    put_text(out, at, front(&own, k))
}

// Puts a point and the digits of n / 10^9 to the last that is not 0; nothing for 0.
fn put_decimals(out: &mut [u8], at: usize, n: u64) -> usize
    ensures { Placed (length out.old) at result }
{
    if n == 0 {
        return within(at, out.len());
    }
    let mut o = put_text(out, at, b".");
    let mut rest = n;
    let mut d: u64 = 100000000;
    while 0 < d {
        if rest == 0 {
            return o;
        }
        o = put_text(out, o, &[digit(rest, d)]);
        rest %= d;
        d /= 10;
    }
    o
}

// Whether n and the fraction behind it round up.
fn is_up(high: u64, low: u64, n: u64) -> bool
    requires { low < 2 ^ 42 }
    ensures { result ≡ rounds_up (high * 2 ^ 42 + low) (2 ^ 84) n }
{
    if high != UNITS / 2 {
        return UNITS / 2 < high;
    }
    (0 < low) | (n % 2 == 1)
}

// A fraction in units of 10^-9: the nearest number of them, of two the even one.
fn nine_digits(high: u64, low: u64) -> u64
    requires { (high < 2 ^ 42) × (low < 2 ^ 42) }
    ensures { result ≡ nearest_of ((high * 2 ^ 42 + low) * 10 ^ 9) (2 ^ 84) }
{
    let mut h = high;
    let mut l = low;
    let mut n: u64 = 0;
    for _ in 0..9u64 {
        let below = l * 10;
        let above = h * 10 + below / UNITS;
        n = n * 10 + above / UNITS;
        h = above % UNITS;
        l = below % UNITS;
    }
    if is_up(h, l, n) {
        return n + 1;
    }
    n
}

// The same of f, which is below 1. Less than 2^-31 is less than half a unit; from there on an f64 has
// no digit below 2^-84, so that each step here is exact.
fn units_of(f: f64) -> u64 {
    if f < 0.0000000004656612873077392578125 {
        return 0;
    }
    let up = f * UNITS_F;
    let high = numbers::whole_part(up);
    let low = numbers::whole_part((up - std::num::nearest_u64_to_f64(high)) * UNITS_F);
    nine_digits(high % UNITS, low % UNITS)
}

// Puts a minus at the front, where there is one.
fn put_sign(out: &mut [u8], minus: bool) -> usize
    ensures { Placed (length out.old) 0 result }
{
    if minus {
        return put_text(out, 0, b"-");
    }
    0
}

// Puts a whole number and its decimals at the front, with a minus where they are not all 0.
fn put_parts(out: &mut [u8], minus: bool, whole: u64, units: u64) -> usize
    ensures { Placed (length out.old) 0 result }
{
    let a = put_sign(out, minus & ((whole != 0) | (units != 0)));
    let b = put_count(out, a, whole);
    put_decimals(out, b, units)
}

// x of at most 10^15 in size, at the front of a buffer.
fn put_rounded(out: &mut [u8], x: f64) -> usize
    ensures { Placed (length out.old) 0 result }
{
    let size = floats::abs(x);
    let whole = numbers::whole_part(size);
    let units = units_of(size - std::num::nearest_u64_to_f64(whole));
    if units < 1000000000 {
        return put_parts(out, x < 0.0, whole, units);
    }
    put_parts(out, x < 0.0, std::num::wrapping_add_u64(whole, 1), 0)
}

// Puts x in millimetres with at most nine decimals: the nearest multiple of 10^-9, of two the even
// one, zeros at its end left out. Puts nothing where it has no room; `?` for what is no number or
// over 10^15 in size.
pub fn put_millimetres(out: &mut [u8], at: usize, x: f64) -> usize
    ensures { Placed (length out.old) at result }
{
    if !(floats::abs(x) <= 1000000000000000.0) {
        return put_text(out, at, b"?");
    }
    let mut own = [0u8; 32];
    let n = put_rounded(&mut own, x);
    let place = within(at, out.len());
    if out.len() - place < n {
        return place;
    }
    put_text(out, place, &own[..n])
}
