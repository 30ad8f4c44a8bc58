// Hexadecimal digits in capitals: sixteen, read as the f64 whose bits they spell, and eight, read as a
// number of 32 bits.
//
// Every pattern of a NaN reads as one; the digits of -0.0 read as no number.
ghost use Rattle.std.specs.Prelude.{◌≡◌, ◌+◌, ◌≤◌, length, drop, from_bits};
ghost use Rattle.std.specs.Float.{binary64};
ghost use Rattle.text.specs.Hex.{nibble_of, number_at, hex_at, field_of, eight_of};

// The bits of -0.0.
const MINUS_ZERO_BITS: u64 = 0x8000000000000000;

// The value of a digit, and 16 for any other byte.
fn nibble(b: u8) -> u64
    ensures { result ≡ nibble_of b }
{
    match b {
        b'0'..=b'9' => u64::from(b - b'0'),
        b'A'..=b'F' => u64::from(b - b'A') + 10,
        _ => 16,
    }
}

// The f64 of these bits, a NaN for every pattern of one.
pub fn float(bits: u64) -> f64
    ensures { result ≡ from_bits binary64 bits }
{
    if bits % 0x8000_0000_0000_0000 <= 0x7ff0_0000_0000_0000 {
        return f64::from_bits(bits);
    }
    f64::NAN
}

// The k digits from a place on.
fn digits_at(s: &[u8], at: usize, k: usize) -> Option<u64>
    requires { (k ≤ 16) × (at + k ≤ length s.now) }
    ensures { result ≡ number_at k (drop at s.now) }
{
    let mut ok = true;
    let mut n: u64 = 0;
    for i in 0..k {
        let d = nibble(s[at + i]);
        ok = ok & (d < 16);
        n = n * 16 + d % 16;
    }
    if ok {
        return Some(n);
    }
    None
}

// The 16 digits from a place on.
fn hex_at(s: &[u8], at: usize) -> Option<f64>
    requires { at + 16 ≤ length s.now }
    ensures { result ≡ hex_at (drop at s.now) }
{
    let n = digits_at(s, at, 16)?;
    if n == MINUS_ZERO_BITS {
        return None;
    }
    Some(float(n))
}

// A tab and the 16 digits behind it, from a place on.
pub fn read_hex(s: &[u8], at: usize) -> Option<f64>
    ensures { result ≡ field_of (drop at s.now) }
{
    let n = s.len();
    if n < 17 {
        return None;
    }
    if n - 17 < at {
        return None;
    }
    if s[at] == b'\t' {
        return hex_at(s, at + 1);
    }
    None
}

// Eight digits and nothing else.
pub fn read_eight(s: &[u8]) -> Option<u32>
    ensures { result ≡ eight_of s.now }
{
    if s.len() != 8 {
        return None;
    }
    let n = digits_at(s, 0, 8)?;
    Some(n as u32)
}
