// The lines of a chunk, put one behind the other into its buffer.
ghost use Rattle.std.specs.Prelude.{◌≡◌, ◌+◌, ◌*◌, ◌≤◌, length};
ghost use Rattle.text.specs.Lines.{ring_line};
ghost use Rattle.text.specs.Wrote.{Wrote};
ghost use Rattle.rings.specs.Store.{ring_at, rings_of};
ghost use Rattle.side_by_side.specs.Compared.{cell_text, bin_text, ring_texts};

use rings::Ring;
use stock::TurnCell;
use text::LINE_ROOM;

// A chunk has so many bytes at most: 256 rings, a line of 73 bytes each.
pub const CHUNK_ROOM: usize = 18688;

pub fn ring_at(rings: &[f64], i: usize) -> Ring
    requires { 4 * i + 4 ≤ length rings.now }
    ensures { result ≡ ring_at rings.now i }
{
    let at = 4 * i;
    Ring {
        z0: rings[at],
        z1: rings[at + 1],
        r0: rings[at + 2],
        r1: rings[at + 3],
    }
}

// Puts bytes at a place, and answers the place after them.
fn put_bytes(out: &mut [u8; CHUNK_ROOM], at: usize, s: &[u8]) -> usize
    requires { at + length s.now ≤ 18688 }
    ensures { Wrote out.old at s.now out.new result }
{
    let end = at + s.len();
    out[at..end].copy_from_slice(s);
    end
}

// Puts a ring's line.
fn put_ring(out: &mut [u8; CHUNK_ROOM], at: usize, q: Ring) -> usize
    requires { at + 73 ≤ 18688 }
    ensures { Wrote out.old at (ring_line q.z0 q.z1 q.r0 q.r1) out.new result }
{
    let mut line = [0; LINE_ROOM];
    let n = text::ring_line(&mut line, q.z0, q.z1, q.r0, q.r1);
    put_bytes(out, at, text::front(&line, n))
}

// Puts a line for each of the first n rings, at the front.
pub fn put_rings(out: &mut [u8; CHUNK_ROOM], rings: &[f64], n: usize) -> usize
    requires { (n ≤ 256) × (4 * n ≤ length rings.now) }
    ensures { Wrote out.old 0 (ring_texts (rings_of n rings.now)) out.new result }
{
    let mut e: usize = 0;
    for i in 0..n {
        e = put_ring(out, e, ring_at(rings, i));
    }
    e
}

// Puts the line of bin i's cell, of so many bins in all.
fn put_cell(out: &mut [u8; CHUNK_ROOM], at: usize, all: usize, i: usize, c: TurnCell) -> usize
    requires { at ≤ 128 }
    ensures { Wrote out.old at (cell_text all i c) out.new result }
{
    let mut line = [0; LINE_ROOM];
    let n = stock_lines::kept_cell_line(
        &mut line,
        all,
        i as u64,
        c.outer.lower_mm,
        c.outer.upper_mm,
        c.inner.lower_mm,
        c.inner.upper_mm,
    );
    put_bytes(out, at, text::front(&line, n))
}

// Puts both lines of bin i, of so many bins in all, where its cells are unequal.
pub fn put_bin(
    out: &mut [u8; CHUNK_ROOM],
    all: usize,
    first: &[f64],
    second: &[f64],
    i: usize,
) -> usize
    ensures { Wrote out.old 0 (bin_text all first.now second.now i) out.new result }
{
    let a = stock::cell_at(first, i);
    let b = stock::cell_at(second, i);
    if stock::same_cell(a, b) {
        return 0;
    }
    let e = put_cell(out, 0, all, i, a);
    put_cell(out, e, all, i, b)
}
