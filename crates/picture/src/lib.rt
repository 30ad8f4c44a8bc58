// What a picture of a stock shows of each bin, and the decimals that it is drawn by.
//
// Both bands of a bin are those of the volume: what certainly remains, and what may remain. Of two
// stocks of one bar a band is what both have; of one stock, both are the same. Neighbours of which the
// same is to be seen are a stretch; its contour goes along the outer radii and back along the bores, and
// neighbours at one radius are one step of it. Nothing is worked out here: a radius is a bound of a
// cell, and a place along z is a bin's end, told from z_min on; both are rounded to 1e-4 mm.
#![tactic(auto)]

mod decimals;

ghost use Rattle.std.specs.Prelude.{◌≡◌, not, min, ◌/◌, ◌≤◌, length};
ghost use Rattle.floats.specs.Pick.{pick};
ghost use Rattle.text.specs.Wrote.{Wrote};
ghost use Rattle.picture.specs.Drawn.{common_of, band_of, metal_at, looks_so, looks_at};
ghost use Rattle.picture.specs.Runs.{FirstSo, NextStretch, RunEnds};
ghost use Rattle.picture.specs.Steps.{long_of, bin_on, edge_of, far_end, near_end, start_text, radius_text, turn_text, along_text, StepsOn};

pub use decimals::put_length;
use queries::{Band, most, sure};
use stock::{TurnCell, TurnSide, TurnStockSpec, ZRange};
use text::LINE_ROOM;

// What is looked for in a bin.
#[derive(Clone, Copy)]
pub enum Look {
    // certainly metal
    Metal,
    // there may be metal
    May,
    // no metal may remain
    Gone,
    // the two cells are unequal
    Unlike,
}

// Neighbours, from one bin to before another.
#[derive(Clone, Copy)]
pub struct Stretch {
    pub from: usize,
    pub to: usize,
}

// A step of a contour: so many bytes hold it, and the next begins at so many bins.
#[derive(Clone, Copy)]
pub struct Step {
    pub len: usize,
    pub next: usize,
}

// What two bands have in common.
fn common(a: Band, b: Band) -> Band
    ensures { result ≡ common_of a b }
{
    Band {
        bore: floats::greatest(a.bore, b.bore),
        outer: floats::least(a.outer, b.outer),
    }
}

// The band of a bin that is drawn.
fn band_of(look: Look, a: TurnCell, b: TurnCell) -> Band
    ensures { result ≡ band_of look a b }
{
    match look {
        Look::Metal => common(sure(a), sure(b)),
        Look::May => common(most(a), most(b)),
        Look::Gone => common(most(a), most(b)),
        Look::Unlike => common(most(a), most(b)),
    }
}

// A bin has some length, and a band some metal.
fn has(z: ZRange, b: Band) -> bool
    ensures { result ≡ metal_at z b }
{
    (z.za < z.zb) & (b.bore < b.outer)
}

// A bin is as it is looked for.
fn is_so(look: Look, z: ZRange, a: TurnCell, b: TurnCell) -> bool
    ensures { result ≡ looks_so look z a b }
{
    let band = band_of(look, a, b);
    match look {
        Look::Metal => has(z, band),
        Look::May => has(z, band),
        Look::Gone => !(band.bore < band.outer),
        Look::Unlike => !stock::same_cell(a, b),
    }
}

// Two answers are the same.
fn agree(a: bool, b: bool) -> bool
    ensures { result ≡ pick a b (not b) }
{
    if a {
        return b;
    }
    !b
}

// The first bin from i on that is as it is looked for, or is not; n where there is none.
fn first_so(
    look: Look,
    wanted: bool,
    spec: TurnStockSpec,
    cells1: &[f64],
    cells2: &[f64],
    n: usize,
    i: usize,
) -> usize
    ensures { FirstSo (looks_at look spec cells1.now cells2.now) wanted n i result }
{
    for j in i..n {
        let a = stock::cell_at(cells1, j);
        let b = stock::cell_at(cells2, j);
        let so = is_so(look, stock::bin_of(spec, j), a, b);
        if agree(so, wanted) {
            return j;
        }
    }
    n
}

// The next stretch from bin i on.
pub fn next_stretch(
    look: Look,
    spec: TurnStockSpec,
    cells1: &[f64],
    cells2: &[f64],
    i: usize,
) -> Stretch
    ensures { NextStretch (looks_at look spec cells1.now cells2.now) (min (length cells1.now / 4) (length cells2.now / 4)) i result }
{
    let n = numbers::lesser(cells1.len() / 4, cells2.len() / 4);
    let from = first_so(look, true, spec, cells1, cells2, n, i);
    Stretch {
        from,
        to: first_so(look, false, spec, cells1, cells2, n, from),
    }
}

// How many bins a stretch has.
fn bins(s: Stretch) -> usize
    ensures { result ≡ long_of s }
{
    if s.from < s.to { s.to - s.from } else { 0 }
}

// Bin k of a stretch: along the outer radii from the first on, along the bores from the last back.
fn bin_at(side: TurnSide, s: Stretch, k: usize) -> usize
    ensures { result ≡ bin_on side s k }
{
    if bins(s) <= k {
        return s.from;
    }
    match side {
        TurnSide::Outer => s.from + k,
        TurnSide::Inner => s.to - 1 - k,
    }
}

// The radius of bin k.
fn edge(look: Look, side: TurnSide, cells1: &[f64], cells2: &[f64], s: Stretch, k: usize) -> f64
    ensures { result ≡ edge_of look side cells1.now cells2.now s k }
{
    let i = bin_at(side, s, k);
    let band = band_of(look, stock::cell_at(cells1, i), stock::cell_at(cells2, i));
    match side {
        TurnSide::Outer => band.outer,
        TurnSide::Inner => band.bore,
    }
}

// Where the run of one radius ends that begins at bin k.
fn run_end(
    look: Look,
    side: TurnSide,
    cells1: &[f64],
    cells2: &[f64],
    s: Stretch,
    k: usize,
) -> usize
    ensures { RunEnds (edge_of look side cells1.now cells2.now s) (long_of s) k result }
{
    let n = bins(s);
    if n <= k {
        return k;
    }
    let r = edge(look, side, cells1, cells2, s, k);
    for j in k + 1..n {
        if !(edge(look, side, cells1, cells2, s, j) == r) {
            return j;
        }
    }
    n
}

// Where bin k ends along the contour, from z_min on.
fn far_end(side: TurnSide, spec: TurnStockSpec, s: Stretch, k: usize) -> f64
    ensures { result ≡ far_end side spec s k }
{
    let z = stock::bin_of(spec, bin_at(side, s, k));
    match side {
        TurnSide::Outer => z.zb - spec.z_min_mm,
        TurnSide::Inner => z.za - spec.z_min_mm,
    }
}

// Where a contour begins: before bin 0, from z_min on.
fn near_end(spec: TurnStockSpec, s: Stretch) -> f64
    ensures { result ≡ near_end spec s }
{
    stock::bin_of(spec, s.from).za - spec.z_min_mm
}

// `M` and the place where a contour begins, and its radius.
fn put_start(out: &mut [u8; LINE_ROOM], x: f64, radius: f64) -> usize
    ensures { Wrote out.old 0 (start_text x radius) out.new result × (result ≤ 52) }
{
    let a = text::put(out, 0, b"M");
    let b = put_length(out, a, x);
    let c = text::put(out, b, b" ");
    put_length(out, c, radius)
}

// `V` and a radius.
fn put_radius(out: &mut [u8; LINE_ROOM], radius: f64) -> usize
    ensures { Wrote out.old 0 (radius_text radius) out.new result × (result ≤ 52) }
{
    let a = text::put(out, 0, b"V");
    put_length(out, a, radius)
}

// How a step begins: the first of all by its place, any other goes to its radius.
fn put_turn(
    out: &mut [u8; LINE_ROOM],
    side: TurnSide,
    spec: TurnStockSpec,
    s: Stretch,
    k: usize,
    radius: f64,
) -> usize
    ensures { Wrote out.old 0 (turn_text side spec s k radius) out.new result × (result ≤ 52) }
{
    if k != 0 {
        return put_radius(out, radius);
    }
    match side {
        TurnSide::Outer => put_start(out, near_end(spec, s), radius),
        TurnSide::Inner => put_radius(out, radius),
    }
}

// `H` and a place.
fn put_along(out: &mut [u8; LINE_ROOM], at: usize, x: f64) -> usize
    requires { at ≤ 52 }
    ensures { Wrote out.old at (along_text x) out.new result × (result ≤ 128) }
{
    let a = text::put(out, at, b"H");
    put_length(out, a, x)
}

// The step of a contour that begins at bin k.
pub fn contour_step(
    out: &mut [u8; LINE_ROOM],
    look: Look,
    side: TurnSide,
    spec: TurnStockSpec,
    cells1: &[f64],
    cells2: &[f64],
    s: Stretch,
    k: usize,
) -> Step
    ensures { StepsOn look side spec cells1.now cells2.now s k out result }
{
    let next = run_end(look, side, cells1, cells2, s, k);
    if next <= k {
        return Step { len: 0, next };
    }
    let r = edge(look, side, cells1, cells2, s, k);
    let e = put_turn(out, side, spec, s, k, r);
    Step {
        len: put_along(out, e, far_end(side, spec, s, next - 1)),
        next,
    }
}
