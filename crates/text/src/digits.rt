// A line put together in a lent buffer: bytes, and numbers in decimal and in hexadecimal.
//
// Each call puts its text at a place, whole, and answers the place after it; where there is no room
// for all of it, it puts nothing and answers the place as it was.
ghost use Rattle.std.specs.Prelude.{◌≡◌, ◌+◌, ◌<◌, ◌≤◌, ◌∷◌, nat_le, to_bits};
ghost use Rattle.std.specs.Float.{binary64};
ghost use Rattle.text.specs.Digits.{glyph_of, digits, more, decimal_of};
ghost use Rattle.text.specs.Lines.{field, four_fields, ring_line};
ghost use Rattle.text.specs.Wrote.{Wrote, line_room, PutsIn, WritesLine};

// A line is put together in so many bytes.
pub const LINE_ROOM: usize = 128;

// The bits of what is no number.
const NAN_BITS: u64 = 0x7FF8000000000000;

fn glyph(d: u64) -> u8
    requires { d < 16 }
    ensures { result ≡ glyph_of d }
{
    if d < 10 {
        b'0' + d as u8
    } else {
        b'A' + (d - 10) as u8
    }
}

// Puts the last k digits of n at the place at, and answers the place after them.
fn spell(out: &mut [u8; LINE_ROOM], at: usize, base: u64, k: usize, n: u64) -> usize
    requires { (2 ≤ base) × (base ≤ 16) × (at + k ≤ line_room) }
    ensures { Wrote out.old at (digits base k n) out.new result }
{
    let mut rest = n;
    for i in (0..k).rev() {
        out[at + i] = glyph(rest % base);
        rest /= base;
    }
    at + k
}

// How many decimal digits n has, counted to 19.
fn places(n: u64) -> usize
    ensures { (result ≡ more 19 n) × (result ≤ 19) }
{
    let mut rest = n;
    for k in 0..19 {
        if rest == 0 {
            return k;
        }
        rest /= 10;
    }
    19
}

// Whether k bytes find room from a place on.
fn has_room(at: usize, k: usize) -> bool
    ensures { result ≡ nat_le (at + k) line_room }
{
    if LINE_ROOM < at {
        return false;
    }
    k <= LINE_ROOM - at
}

fn bits(x: f64) -> u64
    ensures { result ≡ to_bits binary64 x }
{
    if x == x { f64::to_bits(x) } else { NAN_BITS }
}

pub fn put(out: &mut [u8; LINE_ROOM], at: usize, s: &[u8]) -> usize
    ensures { PutsIn out at s.now result }
{
    if !has_room(at, s.len()) {
        return at;
    }
    let end = at + s.len();
    out[at..end].copy_from_slice(s);
    end
}

// The last k digits of n.
fn put_based(out: &mut [u8; LINE_ROOM], at: usize, base: u64, k: usize, n: u64) -> usize
    requires { (2 ≤ base) × (base ≤ 16) }
    ensures { PutsIn out at (digits base k n) result }
{
    if has_room(at, k) {
        return spell(out, at, base, k, n);
    }
    at
}

// The last k decimal digits of n.
pub fn put_digits(out: &mut [u8; LINE_ROOM], at: usize, k: usize, n: u64) -> usize
    ensures { PutsIn out at (digits 10 k n) result }
{
    put_based(out, at, 10, k, n)
}

// The 8 hexadecimal digits of n.
pub fn put_eight(out: &mut [u8; LINE_ROOM], at: usize, n: u32) -> usize
    ensures { PutsIn out at (digits 16 8 n) result }
{
    put_based(out, at, 16, 8, n as u64)
}

// A number in decimal, with no leading zeros.
pub fn put_decimal(out: &mut [u8; LINE_ROOM], at: usize, n: u64) -> usize
    ensures { PutsIn out at (decimal_of n) result }
{
    let k = places(n / 10);
    put_digits(out, at, k + 1, n)
}

// A tab, and the 16 hexadecimal digits of x's bits.
pub fn put_hex(out: &mut [u8; LINE_ROOM], at: usize, x: f64) -> usize
    ensures { PutsIn out at (field x) result }
{
    if !has_room(at, 17) {
        return at;
    }
    out[at] = b'\t';
    spell(out, at + 1, 16, 16, bits(x))
}

// Four numbers in hexadecimal, a tab before each, and a newline.
pub fn put_four(out: &mut [u8; LINE_ROOM], at: usize, a: f64, b: f64, c: f64, d: f64) -> usize
    ensures { PutsIn out at (four_fields a b c d) result }
{
    if !has_room(at, 69) {
        return at;
    }
    let e0 = put_hex(out, at, a);
    let e1 = put_hex(out, e0, b);
    let e2 = put_hex(out, e1, c);
    let e3 = put_hex(out, e2, d);
    put(out, e3, b"\n")
}

// `ring` and its four edges; answers how many bytes of the buffer hold the line.
pub fn ring_line(out: &mut [u8; LINE_ROOM], a: f64, b: f64, c: f64, d: f64) -> usize
    ensures { WritesLine out (ring_line a b c d) result }
{
    let e = put(out, 0, b"ring");
    put_four(out, e, a, b, c, d)
}
