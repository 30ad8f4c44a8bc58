// Text in bytes: parts and numbers read, words and numbers put into a lent buffer.
//
// What is read is parted at a byte, a line at its tabs and a file at its newlines; a whole number is in
// decimal, an f64 in the 16 hexadecimal digits of its bits, and an edition in 8 (`sixteen`). A line is put together in a
// buffer of 128 bytes, each text whole or not at all (`digits`); what is for a person goes into any
// buffer as far as there is room (`plain`).
#![tactic(auto)]

mod digits;
mod plain;
mod sixteen;

ghost use Rattle.std.specs.Prelude.{◌≡◌, ◌+◌, ◌≤◌, [], length, drop, slice_index_or};
ghost use Rattle.text.specs.Parts.{parted_at};
ghost use Rattle.text.specs.Same.{same_bytes};
ghost use Rattle.text.specs.Whole.{whole_of};

pub use digits::{
    LINE_ROOM, put, put_decimal, put_digits, put_eight, put_four, put_hex, ring_line,
};
pub use plain::{front, put_count, put_millimetres, put_text};
pub use sixteen::{float, read_eight, read_hex};

// A whole number is at most so large.
const LARGEST: u64 = 1000000000;

// The end of the part that starts at a: the next p, or the end.
fn part_end(s: &[u8], p: u8, a: usize) -> usize
    requires { a ≤ length s.now }
    ensures { result ≡ a + length (slice_index_or (parted_at p (drop a s.now)) 0 []) }
{
    for e in a..s.len() {
        if s[e] == p {
            return e;
        }
    }
    s.len()
}

// The part at i, and nothing where there are fewer.
pub fn part(s: &[u8], p: u8, i: usize) -> &[u8]
    ensures { result.now ≡ slice_index_or (parted_at p s.now) i [] }
{
    let mut a = 0;
    for _ in 0..i {
        let e = part_end(s, p, a);
        if s.len() <= e {
            return &s[..0];
        }
        a = e + 1;
    }
    let e = part_end(s, p, a);
    &s[a..e]
}

pub fn part_count(s: &[u8], p: u8) -> usize
    ensures { result ≡ length (parted_at p s.now) }
{
    s.iter().filter(|b| **b == p).count() + 1
}

// The same bytes.
pub fn same(a: &[u8], b: &[u8]) -> bool
    ensures { result ≡ same_bytes a.now b.now }
{
    a == b
}

// 1 to 10 digits, at most 1,000,000,000.
pub fn read_whole(s: &[u8]) -> Option<u64>
    ensures { result ≡ whole_of s.now }
{
    if s.len() < 1 {
        return None;
    }
    if 10 < s.len() {
        return None;
    }
    let mut v: u64 = 0;
    for &b in s {
        if b < b'0' {
            return None;
        }
        if b'9' < b {
            return None;
        }
        v = v * 10 + u64::from(b - b'0');
        if LARGEST < v {
            return None;
        }
    }
    Some(v)
}
