// A bar or tube about the spindle axis: its spec, its bins along z, and its cells.
//
// The stock is split into bins along z. In each bin the radius of the outer surface is known within
// bounds, and so is that of the bore: a cell is these two pairs of bounds. Material lies between
// bore and outer surface, and cuts only take from it. Cells are lent flat, four numbers a bin.
#![tactic(auto)]

ghost use Rattle.std.specs.Prelude.{◌≡◌, ◌+◌, ◌*◌, ◌≤◌, true, ◌&&◌, length, pos, nat_lt};
ghost use Rattle.std.specs.Float.{binary64};
ghost use Rattle.std.specs.Float.Ieee.{of_int, le, lt};
ghost use Rattle.std.proofs.lemmas.List.Edits.{sets};
ghost use Rattle.refusals.specs.Number.{paper_of};
ghost use Rattle.floats.specs.Numbers.{zero64, minus_zero};
ghost use Rattle.stock.specs.Spec.{clean_spec, spec_good, cells_of};
ghost use Rattle.stock.specs.Bin.{bin_of, bin_for};
ghost use Rattle.stock.specs.Cell.{cell_at, cell_from, cell_of_none, number_at, four_of, cell_fits, pair_fits_in, between, same_cell, fit_to, stock_of, put_cell, fresh_cell, cells_like};
ghost use Rattle.stock.specs.Signs.{sign_bit, Solid, ordered};
ghost use Rattle.stock.specs.Stock.{same_stamp, new_stock, stock_with, Filled};

use refusals::{CELL_LIMIT, Refusal};

// Version 1 and millimetres are understood.
#[derive(Clone, Copy)]
pub struct TurnStockSpec {
    pub z_min_mm: f64,
    pub z_max_mm: f64,
    pub outer_radius_mm: f64,
    // zero for a solid bar
    pub bore_radius_mm: f64,
    // the length of a bin
    pub cell_mm: f64,
    pub max_cells: usize,
}

#[derive(Clone, Copy)]
pub struct RadiusBounds {
    pub lower_mm: f64,
    pub upper_mm: f64,
}

#[derive(Clone, Copy)]
pub struct TurnCell {
    pub outer: RadiusBounds,
    pub inner: RadiusBounds,
}

// What a cut makes of one bin's cell.
#[derive(Clone, Copy)]
pub struct TurnChange {
    pub index: usize,
    pub before: TurnCell,
    pub after: TurnCell,
}

// Which surface a tool cuts.
#[derive(Clone, Copy)]
pub enum TurnSide {
    Outer,
    Inner,
}

// The z range of a bin.
#[derive(Clone, Copy)]
pub struct ZRange {
    pub za: f64,
    pub zb: f64,
}

// The bins from one index to before another.
#[derive(Clone, Copy)]
pub struct BinRange {
    pub from: usize,
    pub to: usize,
}

// Which edition of a wheel a stock is of, its caller's own number, and how often it was changed.
#[derive(Clone, Copy, PartialEq)]
pub struct Stamp {
    pub edition: u32,
    pub generation: u64,
}

// A stock: its cells and its rings are lent beside it, and of the rings so many are stored.
#[derive(Clone, Copy)]
pub struct TurnStock {
    pub spec: TurnStockSpec,
    pub stamp: Stamp,
    pub rings: usize,
}

// The spec with -0.0 read as +0.0.
pub fn clean_spec(spec: TurnStockSpec) -> TurnStockSpec
    ensures { result ≡ clean_spec spec }
{
    TurnStockSpec {
        z_min_mm: floats::clean(spec.z_min_mm),
        z_max_mm: floats::clean(spec.z_max_mm),
        outer_radius_mm: floats::clean(spec.outer_radius_mm),
        bore_radius_mm: floats::clean(spec.bore_radius_mm),
        cell_mm: floats::clean(spec.cell_mm),
        max_cells: spec.max_cells,
    }
}

// The values of a spec are within the rules.
fn spec_good(s: TurnStockSpec) -> bool
    ensures { result ≡ spec_good s }
{
    floats::is_usable(s.z_min_mm)
        & floats::is_usable(s.z_max_mm)
        & floats::is_usable(s.outer_radius_mm)
        & floats::is_usable(s.bore_radius_mm)
        & floats::is_usable(s.cell_mm)
        & (s.z_min_mm < s.z_max_mm)
        & (0.0 <= s.bore_radius_mm)
        & (s.bore_radius_mm < s.outer_radius_mm)
        & (0.0 < s.cell_mm)
}

// The number of cells that reach from z_min to z_max; 1, 2.
pub fn validate(spec: TurnStockSpec) -> Result<usize, Refusal>
    ensures { paper_of result ≡ cells_of spec }
{
    let s = clean_spec(spec);
    if !spec_good(s) {
        return Err(Refusal::SpecOutside);
    }
    let found = numbers::whole_up((s.z_max_mm - s.z_min_mm) / s.cell_mm, CELL_LIMIT as u64);
    let n = found.ok_or(Refusal::CellCount)?;
    let cells = n as usize;
    if (cells != 0) & (cells <= s.max_cells) {
        return Ok(cells);
    }
    Err(Refusal::CellCount)
}

// A count as a float: the processor takes one of 31 bits in a step.
fn float_of(i: usize) -> f64
    ensures { result ≡ of_int binary64 (pos i) }
{
    if i < 0x8000_0000 {
        return (i as u32) as f64;
    }
    std::num::nearest_u64_to_f64(i as u64)
}

// Where bin i lies, in a spec whose numbers are checked.
pub fn bin_of(s: TurnStockSpec, i: usize) -> ZRange
    ensures { result ≡ bin_of s i }
{
    let za = s.z_min_mm + float_of(i) * s.cell_mm;
    ZRange {
        za,
        zb: floats::least(za + s.cell_mm, s.z_max_mm),
    }
}

// The z range of bin i; 1, 2, 21.
pub fn bin(spec: TurnStockSpec, i: usize) -> Result<ZRange, Refusal>
    ensures { paper_of result ≡ bin_for spec i }
{
    let n = validate(spec)?;
    if i < n {
        return Ok(bin_of(clean_spec(spec), i));
    }
    Err(Refusal::NoSuchBin)
}

// The number at place k, or no number where the list has none.
fn number_at(list: &[f64], k: usize) -> f64
    ensures { result ≡ number_at list.now k }
{
    if k < list.len() { list[k] } else { f64::NAN }
}

// The cell whose four numbers start at a place.
fn cell_from(list: &[f64], at: usize) -> TurnCell
    requires { at + 4 ≤ length list.now }
    ensures { result ≡ cell_from list.now at }
{
    TurnCell {
        outer: RadiusBounds {
            lower_mm: list[at],
            upper_mm: list[at + 1],
        },
        inner: RadiusBounds {
            lower_mm: list[at + 2],
            upper_mm: list[at + 3],
        },
    }
}

// No numbers.
fn no_cell() -> TurnCell
    ensures { result ≡ cell_of_none }
{
    let none = RadiusBounds {
        lower_mm: f64::NAN,
        upper_mm: f64::NAN,
    };
    TurnCell {
        outer: none,
        inner: none,
    }
}

// The cell of bin i. Past the end of the list there are no numbers.
pub fn cell_at(cells: &[f64], i: usize) -> TurnCell
    ensures { result ≡ cell_at cells.now i }
{
    let whole = cells.len() / 4;
    if i < whole {
        return cell_from(cells, 4 * i);
    }
    if whole < i {
        return no_cell();
    }
    let at = 4 * i;
    TurnCell {
        outer: RadiusBounds {
            lower_mm: number_at(cells, at),
            upper_mm: number_at(cells, at + 1),
        },
        inner: RadiusBounds {
            lower_mm: number_at(cells, at + 2),
            upper_mm: number_at(cells, at + 3),
        },
    }
}

// The cell whose four numbers start at a place, written.
fn put_from(cells: &mut [f64], at: usize, c: TurnCell)
    requires { at + 4 ≤ length cells.old }
    ensures { cells.new ≡ sets cells.old at (four_of c) }
{
    cells[at] = c.outer.lower_mm;
    cells[at + 1] = c.outer.upper_mm;
    cells[at + 2] = c.inner.lower_mm;
    cells[at + 3] = c.inner.upper_mm;
}

// The cell of bin i, written; nothing where the list has no such bin.
pub fn put_cell(cells: &mut [f64], i: usize, c: TurnCell)
    ensures { cells.new ≡ put_cell cells.old i c }
{
    if cells.len() / 4 <= i {
        return;
    }
    put_from(cells, 4 * i, c);
}

fn pair_fits(s: TurnStockSpec, b: RadiusBounds) -> bool
    ensures { result ≡ pair_fits_in s b }
{
    (s.bore_radius_mm <= b.lower_mm)
        & (b.lower_mm <= b.upper_mm)
        & (b.upper_mm <= s.outer_radius_mm)
        & !floats::is_minus_zero(b.lower_mm)
        & !floats::is_minus_zero(b.upper_mm)
}

// All four bounds within bore..outer, not -0.0, and ordered, in a spec whose numbers are checked.
pub fn cell_fits(s: TurnStockSpec, c: TurnCell) -> bool
    ensures { result ≡ cell_fits s c }
{
    if 0.0 <= s.bore_radius_mm {
        return cell_passes(s, c);
    }
    pair_fits(s, c.outer) & pair_fits(s, c.inner)
}

// The four bounds within bore..outer and ordered, whatever the sign of a zero.
fn is_between(s: TurnStockSpec, c: TurnCell) -> bool
    ensures { result ≡ between s c }
{
    (s.bore_radius_mm <= c.outer.lower_mm)
        & (c.outer.lower_mm <= c.outer.upper_mm)
        & (c.outer.upper_mm <= s.outer_radius_mm)
        & (s.bore_radius_mm <= c.inner.lower_mm)
        & (c.inner.lower_mm <= c.inner.upper_mm)
        & (c.inner.upper_mm <= s.outer_radius_mm)
}

// x, which is not below zero, is -0.0: no other has the sign's bit.
fn has_sign(x: f64) -> bool
    requires { le zero64 x ≡ true }
    ensures { result ≡ minus_zero x }
{
    0x8000_0000_0000_0000 <= f64::to_bits(x)
}

// The same as `cell_fits` in a spec whose bore is not below zero: each zero is told by its sign, with
// no branch but one, so that a pass over many cells takes several at once.
fn cell_passes(s: TurnStockSpec, c: TurnCell) -> bool
    requires { le zero64 s.bore_radius_mm ≡ true }
    ensures { result ≡ cell_fits s c }
{
    if is_between(s, c) {
        return !(has_sign(c.outer.lower_mm)
            | has_sign(c.outer.upper_mm)
            | has_sign(c.inner.lower_mm)
            | has_sign(c.inner.upper_mm));
    }
    false
}

// Both pairs ordered and not above the outer radius.
fn is_ordered(s: TurnStockSpec, c: TurnCell) -> bool
    ensures { result ≡ ordered s c }
{
    (c.outer.lower_mm <= c.outer.upper_mm)
        & (c.outer.upper_mm <= s.outer_radius_mm)
        & (c.inner.lower_mm <= c.inner.upper_mm)
        & (c.inner.upper_mm <= s.outer_radius_mm)
}

// The bits of the four bounds of an ordered cell, joined: it fits a solid bar if the sign's bit is in none.
// The bits of a NaN are not looked at.
fn bits_of(s: TurnStockSpec, c: TurnCell) -> u64
    requires { Solid s }
    ensures { (ordered s c && nat_lt result sign_bit) ≡ cell_fits s c }
{
    if is_ordered(s, c) {
        return f64::to_bits(c.outer.lower_mm)
            | f64::to_bits(c.outer.upper_mm)
            | f64::to_bits(c.inner.lower_mm)
            | f64::to_bits(c.inner.upper_mm);
    }
    0
}

// The first n cells fit a solid bar. The bits are gathered and their sign is asked once, so that a pass
// takes several cells at once.
fn all_fit_solid(s: TurnStockSpec, cells: &[f64], n: usize) -> bool
    requires { Solid s × (4 * n ≤ length cells.now) }
    ensures { result ≡ fit_to s cells.now n }
{
    let mut ok = true;
    let mut bits: u64 = 0;
    for i in 0..n {
        let c = cell_from(cells, 4 * i);
        ok = ok & is_ordered(s, c);
        bits = bits | bits_of(s, c);
    }
    ok & (bits < 0x8000_0000_0000_0000)
}

// The same as `cell_fits` in a tube. Its bore is above zero, so that comparisons alone leave out every zero.
fn fits_tube(s: TurnStockSpec, c: TurnCell) -> bool
    requires { lt zero64 s.bore_radius_mm ≡ true }
    ensures { result ≡ cell_fits s c }
{
    is_between(s, c)
}

// The first n cells fit a tube.
fn all_fit_tube(s: TurnStockSpec, cells: &[f64], n: usize) -> bool
    requires { (lt zero64 s.bore_radius_mm ≡ true) × (4 * n ≤ length cells.now) }
    ensures { result ≡ fit_to s cells.now n }
{
    let mut ok = true;
    for i in 0..n {
        ok = ok & fits_tube(s, cell_from(cells, 4 * i));
    }
    ok
}

// The first n cells fit.
fn all_fit(s: TurnStockSpec, cells: &[f64], n: usize) -> bool
    requires { (le zero64 s.bore_radius_mm ≡ true) × (4 * n ≤ length cells.now) }
    ensures { result ≡ fit_to s cells.now n }
{
    if 0.0 < s.bore_radius_mm {
        return all_fit_tube(s, cells, n);
    }
    all_fit_solid(s, cells, n)
}

// The number of cells of a stock whose lent cells fit; 1, 2, 3.
pub fn cells_fit(spec: TurnStockSpec, cells: &[f64]) -> Result<usize, Refusal>
    ensures { paper_of result ≡ stock_of spec cells.now }
{
    let n = validate(spec)?;
    if cells.len() != 4 * n {
        return Err(Refusal::CellsDoNotFit);
    }
    if all_fit(clean_spec(spec), cells, n) {
        return Ok(n);
    }
    Err(Refusal::CellsDoNotFit)
}

// The four bounds are the same numbers.
pub fn same_cell(a: TurnCell, b: TurnCell) -> bool
    ensures { result ≡ same_cell a b }
{
    (a.outer.lower_mm == b.outer.lower_mm)
        & (a.outer.upper_mm == b.outer.upper_mm)
        & (a.inner.lower_mm == b.inner.lower_mm)
        & (a.inner.upper_mm == b.inner.upper_mm)
}

fn fresh_cell(s: TurnStockSpec) -> TurnCell
    ensures { result ≡ fresh_cell s }
{
    TurnCell {
        outer: RadiusBounds {
            lower_mm: s.outer_radius_mm,
            upper_mm: s.outer_radius_mm,
        },
        inner: RadiusBounds {
            lower_mm: s.bore_radius_mm,
            upper_mm: s.bore_radius_mm,
        },
    }
}

// The same cell in all of n bins.
fn put_all(cells: &mut [f64], n: usize, c: TurnCell)
    requires { length cells.old ≡ 4 * n }
    ensures { cells.new ≡ cells_like c n }
{
    for i in 0..n {
        put_from(cells, 4 * i, c);
    }
}

// Both numbers are the same.
pub fn same_stamp(a: Stamp, b: Stamp) -> bool
    ensures { result ≡ same_stamp a b }
{
    a == b
}

// The same stock, of the same edition, with so many rings, at a generation.
pub fn stock_with(stock: TurnStock, rings: usize, generation: u64) -> TurnStock
    ensures { result ≡ stock_with stock rings generation }
{
    let spec = stock.spec;
    TurnStock {
        spec,
        stamp: Stamp {
            edition: stock.stamp.edition,
            generation,
        },
        rings,
    }
}

// No rings, at generation 0.
fn new_stock(spec: TurnStockSpec, edition: u32) -> TurnStock
    ensures { result ≡ new_stock spec edition }
{
    TurnStock {
        spec,
        stamp: Stamp {
            edition,
            generation: 0,
        },
        rings: 0,
    }
}

// A new stock of an edition: every cell at outer and bore, no rings, generation 0; 1, 2, and 3 where the
// lent cells are not n.
pub fn fill(spec: TurnStockSpec, edition: u32, cells: &mut [f64]) -> Result<TurnStock, Refusal>
    ensures { Filled spec edition result cells.old cells.new }
{
    let n = validate(spec)?;
    if cells.len() != 4 * n {
        return Err(Refusal::CellsDoNotFit);
    }
    put_all(cells, n, fresh_cell(clean_spec(spec)));
    Ok(new_stock(spec, edition))
}
