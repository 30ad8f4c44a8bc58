// What in a field is no number.
ghost use Rattle.std.specs.Prelude.{◌≤◌, length};

use text::{put_count, put_text};

// Whether a byte is among those of f.
pub fn has(f: &[u8], byte: u8) -> bool {
    1 < text::part_count(f, byte)
}

fn is_digit(byte: u8) -> bool {
    (b'0' <= byte) & (byte <= b'9')
}

// Whether there is a digit, and nothing else.
fn are_digits(f: &[u8]) -> bool {
    let mut ok = 0 < f.len();
    for b in f {
        ok = ok & is_digit(*b);
    }
    ok
}

// What follows a minus, or all.
fn unsigned(f: &[u8]) -> &[u8] {
    if f.len() == 0 {
        return f;
    }
    if f[0] == b'-' {
        return &f[1..];
    }
    f
}

// A field of digits with no point, which are too many or say too much, or one of something else.
fn say_size(out: &mut [u8], at: usize, f: &[u8]) -> usize
    ensures { result ≤ length out.old }
{
    let digits = unsigned(f);
    if !are_digits(digits) {
        return put_text(out, at, b" is not a number");
    }
    if 10 < digits.len() {
        return put_text(out, at, b" has more than 10 digits");
    }
    if digits.len() < f.len() {
        return put_text(out, at, b" is below -1000000000");
    }
    put_text(out, at, b" is over 1000000000")
}

fn say_fault(out: &mut [u8], at: usize, f: &[u8]) -> usize
    ensures { result ≤ length out.old }
{
    if f.len() == 0 {
        return put_text(out, at, b" is empty");
    }
    if has(f, b'.') {
        return put_text(out, at, b" has a point: lengths are whole micrometres");
    }
    if has(f, b',') {
        return put_text(out, at, b" has a comma: lengths are whole micrometres");
    }
    if has(f, b'+') {
        return put_text(out, at, b" has a plus sign");
    }
    if has(f, b' ') {
        return put_text(out, at, b" has a space");
    }
    say_size(out, at, f)
}

// Why the field at i is no number; the kind is field 1.
pub fn say_field(out: &mut [u8], at: usize, i: usize, f: &[u8]) -> usize
    ensures { result ≤ length out.old }
{
    let a = put_text(out, at, b"field ");
    let b = put_count(out, a, std::num::wrapping_add_u64(i as u64, 1));
    say_fault(out, b, f)
}

fn put_fields(out: &mut [u8], at: usize, count: usize) -> usize
    ensures { result ≤ length out.old }
{
    let a = put_count(out, at, count as u64);
    if count == 1 {
        return put_text(out, a, b" field");
    }
    put_text(out, a, b" fields")
}

// A line of so many fields that needs others, counted with its kind.
pub fn say_count(out: &mut [u8], at: usize, count: usize, needs: usize) -> usize
    ensures { result ≤ length out.old }
{
    let a = put_text(out, at, b"it has ");
    let b = put_fields(out, a, count);
    let c = put_text(out, b, b" and needs ");
    put_count(out, c, needs as u64)
}
