// What a job line says: its kind by the first field, its numbers by the others.
//
// A line's fields are parted by tabs. A line that is not of the form of its kind is bad; an arc is
// one whatever follows its first field. A number is one of whole micrometres, read as millimetres
// (`number`), and is read once.
#![tactic(auto)]

mod number;

ghost use Rattle.std.specs.Prelude.{◌≡◌, ◌+◌, ◌<◌, [], slice_index_or};
ghost use Rattle.job_words.specs.Kind.{fields_of, NumbersRead, bar_of, nose_on, nose_of, thread_of, thread_inner_of, drill_of, ring_of, line_of};

use cuts::Cut;
pub use number::read_number;
use rings::Ring;
use stock::{TurnSide, TurnStockSpec};

// A job's bar has so many cells at most.
pub const MAX_CELLS: usize = 512;

#[derive(Clone, Copy)]
pub enum Line {
    Bar(TurnStockSpec),
    Cutting(Cut),
    Removing(Ring),
    Arc,
    Bad,
}

// The field at i. It is not inlined: in a loop over a fixed number of fields the compiler takes up to three times
// the instructions for each byte that is passed over.
#[inline(never)]
fn field(s: &[u8], i: usize) -> &[u8]
    ensures { result.now ≡ slice_index_or (fields_of s.now) i [] }
{
    text::part(s, b'\t', i)
}

// The N numbers of the fields from the one at k on, where there are exactly so many and every one is a
// number.
fn read_numbers<const N: usize>(s: &[u8], k: usize) -> Option<[f64; N]>
    requires { k + N < 16 }
    ensures { NumbersRead (fields_of s.now) k N result }
{
    if text::part_count(s, b'\t') != k + N {
        return None;
    }
    let mut xs = [0.0f64; N];
    for i in 0..N {
        xs[i] = read_number(field(s, k + i))?;
    }
    Some(xs)
}

fn read_bar(s: &[u8]) -> Line
    ensures { result ≡ bar_of (fields_of s.now) }
{
    let Some(xs) = read_numbers::<5>(s, 1) else {
        return Line::Bad;
    };
    Line::Bar(TurnStockSpec {
        z_min_mm: xs[0],
        z_max_mm: xs[1],
        outer_radius_mm: xs[2],
        bore_radius_mm: xs[3],
        cell_mm: xs[4],
        max_cells: MAX_CELLS,
    })
}

fn read_nose_on(s: &[u8], side: TurnSide) -> Line
    ensures { result ≡ nose_on (fields_of s.now) side }
{
    let Some(xs) = read_numbers::<6>(s, 2) else {
        return Line::Bad;
    };
    Line::Cutting(Cut::Line {
        side,
        rn: xs[0],
        sag: xs[1],
        a_r: xs[2],
        a_z: xs[3],
        b_r: xs[4],
        b_z: xs[5],
    })
}

fn read_nose(s: &[u8]) -> Line
    ensures { result ≡ nose_of (fields_of s.now) }
{
    let w = text::part(s, b'\t', 1);
    if text::same(w, b"outer") {
        return read_nose_on(s, TurnSide::Outer);
    }
    if text::same(w, b"inner") {
        return read_nose_on(s, TurnSide::Inner);
    }
    Line::Bad
}

fn read_thread(s: &[u8]) -> Line
    ensures { result ≡ thread_of (fields_of s.now) }
{
    let Some(xs) = read_numbers::<3>(s, 1) else {
        return Line::Bad;
    };
    Line::Cutting(Cut::Thread {
        z0: xs[0],
        z1: xs[1],
        radius: xs[2],
    })
}

fn read_thread_inner(s: &[u8]) -> Line
    ensures { result ≡ thread_inner_of (fields_of s.now) }
{
    let Some(xs) = read_numbers::<3>(s, 1) else {
        return Line::Bad;
    };
    Line::Cutting(Cut::ThreadInner {
        z0: xs[0],
        z1: xs[1],
        radius: xs[2],
    })
}

fn read_drill(s: &[u8]) -> Line
    ensures { result ≡ drill_of (fields_of s.now) }
{
    let Some(xs) = read_numbers::<3>(s, 1) else {
        return Line::Bad;
    };
    Line::Cutting(Cut::Drill {
        tip_z: xs[0],
        radius: xs[1],
        cone: xs[2],
    })
}

fn read_ring(s: &[u8]) -> Line
    ensures { result ≡ ring_of (fields_of s.now) }
{
    let Some(xs) = read_numbers::<4>(s, 1) else {
        return Line::Bad;
    };
    Line::Removing(Ring {
        z0: xs[0],
        z1: xs[1],
        r0: xs[2],
        r1: xs[3],
    })
}

// A job line without its newline.
pub fn read_line(s: &[u8]) -> Line
    ensures { result ≡ line_of s.now }
{
    let kind = text::part(s, b'\t', 0);
    if text::same(kind, b"arc") {
        return Line::Arc;
    }
    if text::same(kind, b"bar") {
        return read_bar(s);
    }
    if text::same(kind, b"line") {
        return read_nose(s);
    }
    if text::same(kind, b"thread_cut") {
        return read_thread(s);
    }
    if text::same(kind, b"thread_cut_inner") {
        return read_thread_inner(s);
    }
    if text::same(kind, b"drill") {
        return read_drill(s);
    }
    if text::same(kind, b"ring") {
        return read_ring(s);
    }
    Line::Bad
}
