// What a job leaves, as a page for a person: a row for each bin, a row for each ring, the generation.
//
// Nothing is worked out here: a bin's radii are the job's, its z range is `stock::bin`'s, and only
// their decimals are rounded.
ghost use Rattle.std.specs.Prelude.{◌≡◌, ◌≤◌, length};

use crate::column::{
    put_heads, put_row, put_spaces, trimmed, widen, widen_for, widen_for_heads, width_at,
};
use stock::{RadiusBounds, TurnStockSpec, ZRange};
use text::{put_count, put_millimetres, put_text};

// Two widths for each of six columns, and one for what is certainly metal.
pub const WIDTHS: usize = 13;

const METAL: usize = 12;

// How long the words `certainly metal` are.
const METAL_HEAD: usize = 15;

const BIN_HEADS: [u8; 59] = *b"z from\tz to\touter lower\touter upper\tinner lower\tinner upper";

const RING_HEADS: [u8; 23] = *b"z from\tz to\tr from\tr to";

// Where an index ends.
const INDEX_END: usize = 4;

// The z range of bin i.
fn range_of(spec: TurnStockSpec, i: usize) -> ZRange {
    stock::bin(spec, i).unwrap_or(ZRange { za: 0.0, zb: 0.0 })
}

// The six numbers of bin i.
fn bin_row(spec: TurnStockSpec, cells: &[f64], i: usize) -> [f64; 6]
    ensures { 6 ≡ length result }
{
    let z = range_of(spec, i);
    let cell = stock::cell_at(cells, i);
    let outer = cell.outer;
    let inner = cell.inner;
    [
        z.za,
        z.zb,
        outer.lower_mm,
        outer.upper_mm,
        inner.lower_mm,
        inner.upper_mm,
    ]
}

// The four numbers of ring i, which lie as those of a cell do.
fn ring_row(rings: &[f64], i: usize) -> [f64; 4]
    ensures { 4 ≡ length result }
{
    let cell = stock::cell_at(rings, i);
    let z = cell.outer;
    let r = cell.inner;
    [z.lower_mm, z.upper_mm, r.lower_mm, r.upper_mm]
}

fn put_range(out: &mut [u8], at: usize, a: f64, b: f64) -> usize
    ensures { result ≤ length out.old }
{
    let c = put_millimetres(out, at, a);
    let d = put_text(out, c, b" .. ");
    put_millimetres(out, d, b)
}

// Where there certainly is metal.
fn put_metal(out: &mut [u8], at: usize, outer: RadiusBounds, inner: RadiusBounds) -> usize
    ensures { result ≤ length out.old }
{
    if inner.upper_mm < outer.lower_mm {
        return put_range(out, at, inner.upper_mm, outer.lower_mm);
    }
    put_text(out, at, b"none")
}

// Where there may be metal.
fn put_doubt(out: &mut [u8], at: usize, outer: RadiusBounds, inner: RadiusBounds) -> usize
    ensures { result ≤ length out.old }
{
    if outer.upper_mm <= inner.lower_mm {
        return put_text(out, at, b"empty");
    }
    if outer.lower_mm < outer.upper_mm {
        let a = put_range(out, at, outer.lower_mm, outer.upper_mm);
        if inner.lower_mm < inner.upper_mm {
            let b = put_text(out, a, b", ");
            return put_range(out, b, inner.lower_mm, inner.upper_mm);
        }
        return a;
    }
    if inner.lower_mm < inner.upper_mm {
        return put_range(out, at, inner.lower_mm, inner.upper_mm);
    }
    put_text(out, at, b"-")
}

// How long the words for a bin's metal are.
fn metal_width(cells: &[f64], i: usize) -> usize {
    let mut own = [0u8; 64];
    let cell = stock::cell_at(cells, i);
    put_metal(&mut own, 0, cell.outer, cell.inner)
}

// The widths for all bins.
pub fn bin_widths(widths: &mut [usize], spec: TurnStockSpec, cells: &[f64]) {
    let n = cells.len() / 4;
    for i in 0..n {
        widen_for(widths, &bin_row(spec, cells, i));
        widen(widths, METAL, metal_width(cells, i));
    }
    widen_for_heads(widths, &BIN_HEADS);
    widen(widths, METAL, METAL_HEAD);
}

// The widths for all rings.
pub fn ring_widths(widths: &mut [usize], rings: &[f64]) {
    let n = rings.len() / 4;
    for i in 0..n {
        widen_for(widths, &ring_row(rings, i));
    }
    widen_for_heads(widths, &RING_HEADS);
}

// Puts an index so that it ends at its place.
fn put_index(out: &mut [u8], i: usize) -> usize
    ensures { result ≤ length out.old }
{
    let mut own = [0u8; 32];
    let n = put_count(&mut own, 0, i as u64);
    let a = put_spaces(out, 0, INDEX_END.saturating_sub(n));
    put_count(out, a, i as u64)
}

// The heads of the bins' columns.
fn bins_head(out: &mut [u8], widths: &[usize]) -> usize
    ensures { result ≤ length out.old }
{
    let a = put_text(out, 0, b" bin");
    let b = put_heads(out, a, widths, &BIN_HEADS);
    let c = put_text(out, b, b"  certainly metal");
    let d = put_spaces(out, c, width_at(widths, METAL).saturating_sub(METAL_HEAD));
    put_text(out, d, b"  uncertain\n")
}

// Puts the columns of words: where there certainly is metal, and where there may be some.
fn put_words(
    out: &mut [u8],
    at: usize,
    width: usize,
    outer: RadiusBounds,
    inner: RadiusBounds,
) -> usize
    ensures { result ≤ length out.old }
{
    let a = put_text(out, at, b"  ");
    let b = put_metal(out, a, outer, inner);
    let c = put_spaces(out, b, width.saturating_sub(b.saturating_sub(a)));
    let d = put_text(out, c, b"  ");
    put_doubt(out, d, outer, inner)
}

// The row of bin i.
fn bin_line(out: &mut [u8], widths: &[usize], spec: TurnStockSpec, cells: &[f64], i: usize) -> usize
    ensures { result ≤ length out.old }
{
    let cell = stock::cell_at(cells, i);
    let a = put_index(out, i);
    let b = put_row(out, a, widths, &bin_row(spec, cells, i));
    let c = put_words(out, b, width_at(widths, METAL), cell.outer, cell.inner);
    put_text(out, c, b"\n")
}

// The heads of the rings' columns.
fn rings_head(out: &mut [u8], widths: &[usize]) -> usize
    ensures { result ≤ length out.old }
{
    let a = put_text(out, 0, b"ring");
    let b = put_heads(out, a, widths, &RING_HEADS);
    put_text(out, b, b"\n")
}

// The row of ring i.
fn ring_line(out: &mut [u8], widths: &[usize], rings: &[f64], i: usize) -> usize
    ensures { result ≤ length out.old }
{
    let a = put_index(out, i);
    let b = put_row(out, a, widths, &ring_row(rings, i));
    put_text(out, trimmed(out, b), b"\n")
}

fn generation_line(out: &mut [u8], generation: u64) -> usize
    ensures { result ≤ length out.old }
{
    let a = put_text(out, 0, b"generation ");
    let b = put_count(out, a, generation);
    put_text(out, b, b"\n")
}

// Line j behind the rings.
fn last_line(out: &mut [u8], generation: u64, j: usize) -> usize
    ensures { result ≤ length out.old }
{
    if j == 0 {
        return generation_line(out, generation);
    }
    0
}

// Line j behind the bins.
fn later_line(out: &mut [u8], widths: &[usize], rings: &[f64], generation: u64, j: usize) -> usize
    ensures { result ≤ length out.old }
{
    let n = rings.len() / 4;
    if n == 0 {
        return last_line(out, generation, j);
    }
    if j == 0 {
        return rings_head(out, widths);
    }
    let i = j - 1;
    if i < n {
        return ring_line(out, widths, rings, i);
    }
    last_line(out, generation, i - n)
}

// The first line. Where there are rings, the bins do not tell all.
fn first_line(out: &mut [u8], rings: &[f64]) -> usize
    ensures { result ≤ length out.old }
{
    let a = put_text(out, 0, b"lengths are in millimetres, rounded to 1e-9");
    if rings.len() == 0 {
        return put_text(out, a, b"\n");
    }
    put_text(out, a, b"; the rings below are taken out of the bins\n")
}

// Puts line k of the page, and answers its length; past the last line, 0.
pub fn page_line(
    out: &mut [u8],
    bin_widths: &[usize],
    ring_widths: &[usize],
    spec: TurnStockSpec,
    cells: &[f64],
    rings: &[f64],
    generation: u64,
    k: usize,
) -> usize
    ensures { result ≤ length out.old }
{
    if k == 0 {
        return first_line(out, rings);
    }
    if k == 1 {
        return bins_head(out, bin_widths);
    }
    let i = k - 2;
    let n = cells.len() / 4;
    if i < n {
        return bin_line(out, bin_widths, spec, cells, i);
    }
    later_line(out, ring_widths, rings, generation, i - n)
}
