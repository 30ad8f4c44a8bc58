// Numbers in columns: each column is as wide as its head and its widest number, and its points stand
// below each other.
//
// Of column c, `widths` has at 2 * c how far numbers reach before the point, and at 2 * c + 1 how far
// from it on. Heads are parted by tabs.
ghost use Rattle.std.specs.Prelude.{◌≤◌, length};

use text::{put_millimetres, put_text};

// So many columns a table has at most.
const COLUMNS: usize = 6;

// How far a number reaches before its point, and from it on.
#[derive(Clone, Copy)]
struct Extent {
    before: usize,
    after: usize,
}

fn extent_of(x: f64) -> Extent {
    let mut own = [0u8; 32];
    let n = put_millimetres(&mut own, 0, x);
    let before = text::part(text::part(&own, 0, 0), b'.', 0).len();
    Extent {
        before,
        after: n.saturating_sub(before),
    }
}

pub fn width_at(widths: &[usize], k: usize) -> usize {
    widths.get(k).copied().unwrap_or(0)
}

// Makes a width at least w.
pub fn widen(widths: &mut [usize], k: usize, w: usize) {
    if let Some(width) = widths.get_mut(k) {
        *width = (*width).max(w);
    }
}

// Makes the columns wide enough for a row.
pub fn widen_for(widths: &mut [usize], row: &[f64]) {
    for (c, x) in row.iter().take(COLUMNS).enumerate() {
        let e = extent_of(*x);
        widen(widths, 2 * c, e.before);
        widen(widths, 2 * c + 1, e.after);
    }
}

// Makes the columns wide enough for their heads.
pub fn widen_for_heads(widths: &mut [usize], heads: &[u8]) {
    for c in 0..COLUMNS {
        let n = text::part(heads, b'\t', c).len();
        let after = width_at(widths, 2 * c + 1);
        widen(widths, 2 * c, n.saturating_sub(after));
    }
}

// Puts k spaces, as far as there is room.
pub fn put_spaces(out: &mut [u8], at: usize, k: usize) -> usize
    ensures { result ≤ length out.old }
{
    let mut o = put_text(out, at, b"");
    for _ in 0..k {
        o = put_text(out, o, b" ");
    }
    o
}

// Puts a number into its column, two spaces before it.
fn put_number(out: &mut [u8], at: usize, before: usize, after: usize, x: f64) -> usize
    ensures { result ≤ length out.old }
{
    let e = extent_of(x);
    let a = put_text(out, at, b"  ");
    let b = put_spaces(out, a, before.saturating_sub(e.before));
    let c = put_millimetres(out, b, x);
    put_spaces(out, c, after.saturating_sub(e.after))
}

// Puts a row of numbers.
pub fn put_row(out: &mut [u8], at: usize, widths: &[usize], row: &[f64]) -> usize
    ensures { result ≤ length out.old }
{
    let mut o = put_text(out, at, b"");
    for (c, x) in row.iter().take(COLUMNS).enumerate() {
        let before = width_at(widths, 2 * c);
        let after = width_at(widths, 2 * c + 1);
        o = put_number(out, o, before, after, *x);
    }
    o
}

// Puts words at the end of so many places, two spaces before them.
fn put_head(out: &mut [u8], at: usize, before: usize, after: usize, head: &[u8]) -> usize
    ensures { result ≤ length out.old }
{
    let a = put_text(out, at, b"  ");
    let n = head.len();
    let b = put_spaces(out, a, before.saturating_sub(n.saturating_sub(after)));
    let c = put_spaces(out, b, after.saturating_sub(n));
    put_text(out, c, head)
}

// Puts the heads of the columns.
pub fn put_heads(out: &mut [u8], at: usize, widths: &[usize], heads: &[u8]) -> usize
    ensures { result ≤ length out.old }
{
    let mut o = put_text(out, at, b"");
    let n = text::part_count(heads, b'\t');
    for c in 0..n.min(COLUMNS) {
        let before = width_at(widths, 2 * c);
        let after = width_at(widths, 2 * c + 1);
        o = put_head(out, o, before, after, text::part(heads, b'\t', c));
    }
    o
}

// The place after the last byte before `at` that is no space.
pub fn trimmed(out: &[u8], at: usize) -> usize
    ensures { result ≤ at }
{
    let Some(front) = out.get(..at) else {
        return at;
    };
    let last = front.iter().rposition(|b| *b != b' ');
    last.map_or(0, |i| i + 1)
}
