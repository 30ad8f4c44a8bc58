// A length in decimal, rounded to 1e-4 mm.
ghost use Rattle.std.specs.Prelude.{◌≡◌, ◌+◌, ◌≤◌};
ghost use Rattle.text.specs.Wrote.{Wrote, PutsIn, WritesLine};
ghost use Rattle.picture.specs.Decimals.{units_of, tail_of, fraction_text, units_text, length_text};

use text::LINE_ROOM;

// The nearest number of 1e-4 mm.
fn units(x: f64) -> u64
    ensures { result ≡ units_of x }
{
    numbers::whole_part(x * 10000.0 + 0.5)
}

// How many digits, and of which number.
#[derive(Clone, Copy)]
struct Tail {
    places: usize,
    of: u64,
}

// The digits of f / 10^4 to the last that is not 0, at least one.
fn tail_of(f: u64) -> Tail
    ensures { (result ≡ tail_of f) × (result.places ≤ 4) }
{
    if f % 1000 == 0 {
        return Tail {
            places: 1,
            of: f / 1000,
        };
    }
    if f % 100 == 0 {
        return Tail {
            places: 2,
            of: f / 100,
        };
    }
    if f % 10 == 0 {
        return Tail {
            places: 3,
            of: f / 10,
        };
    }
    Tail { places: 4, of: f }
}

// Puts a point and these digits; nothing for 0.
fn put_fraction(out: &mut [u8; LINE_ROOM], at: usize, f: u64) -> usize
    requires { at ≤ 20 }
    ensures { Wrote out.old at (fraction_text f) out.new result × (result ≤ at + 5) }
{
    if f == 0 {
        return at;
    }
    let t = tail_of(f);
    let a = text::put(out, at, b".");
    text::put_digits(out, a, t.places, t.of)
}

// The digits of n / 10^4 at the front of a buffer.
fn put_units(out: &mut [u8; LINE_ROOM], n: u64) -> usize
    ensures { WritesLine out (units_text n) result }
{
    let a = text::put_decimal(out, 0, n / 10000);
    put_fraction(out, a, n % 10000)
}

// Puts a length that is not negative.
pub fn put_length(out: &mut [u8; LINE_ROOM], at: usize, x: f64) -> usize
    ensures { PutsIn out at (length_text x) result }
{
    let mut own = [0u8; LINE_ROOM];
    let n = put_units(&mut own, units(x));
    text::put(out, at, text::front(&own, n))
}
