// The lines of a stock's file, one by one: the first with its bar and its edition, one for each cell, one
// for each ring, and `end` with the count of those before it. The number of cells says the form.
ghost use Rattle.std.specs.Prelude.{◌≡◌, ◌+◌, ◌*◌, ◌≤◌, length};
ghost use Rattle.refusals.specs.Number.{paper_of};
ghost use Rattle.stock_file.specs.Write.{bar_of, opening, line_count, cell_at, ring_at, line_at, line_for, WritesFileLine};
ghost use Rattle.stock_lines.specs.Form.{written_form};
ghost use Rattle.text.specs.Wrote.{WritesLine};

use refusals::{RING_LIMIT, Refusal};
use stock::{TurnStock, TurnStockSpec};
use stock_lines::Bar;
use text::LINE_ROOM;

// The numbers of a spec that a file keeps, -0.0 as +0.0.
fn bar_of(spec: TurnStockSpec) -> Bar
    ensures { result ≡ bar_of spec }
{
    let s = stock::clean_spec(spec);
    Bar {
        z_min_mm: s.z_min_mm,
        z_max_mm: s.z_max_mm,
        outer_radius_mm: s.outer_radius_mm,
        bore_radius_mm: s.bore_radius_mm,
        cell_mm: s.cell_mm,
    }
}

// How many lines the file of a stock has; 1, 2, 3, 4.
pub fn line_count(
    spec: TurnStockSpec,
    cells: &[f64],
    rings: &[f64],
    count: usize,
) -> Result<usize, Refusal>
    ensures { paper_of result ≡ line_count spec cells.now rings.now count }
{
    let n = stock::cells_fit(spec, cells)?;
    if rings::rings_fit(spec, rings, count) {
        return Ok(n + count + 2);
    }
    Err(Refusal::StoredRings)
}

// The line of the cell at i of n.
fn put_cell(out: &mut [u8; LINE_ROOM], cells: &[f64], n: usize, i: usize) -> usize
    requires { 4 * i + 4 ≤ length cells.now }
    ensures { WritesLine out (cell_at (written_form n) cells.now i) result }
{
    let at = 4 * i;
    stock_lines::kept_cell_line(
        out,
        n,
        i as u64,
        cells[at],
        cells[at + 1],
        cells[at + 2],
        cells[at + 3],
    )
}

// The line of the ring at i.
fn put_ring(out: &mut [u8; LINE_ROOM], rings: &[f64], i: usize) -> usize
    requires { 4 * i + 4 ≤ length rings.now }
    ensures { WritesLine out (ring_at rings.now i) result }
{
    let at = 4 * i;
    text::ring_line(out, rings[at], rings[at + 1], rings[at + 2], rings[at + 3])
}

// Line k of a file with n cells and m rings; no bytes behind the last.
fn put_line(
    out: &mut [u8; LINE_ROOM],
    bar: Bar,
    edition: u32,
    cells: &[f64],
    n: usize,
    rings: &[f64],
    m: usize,
    k: usize,
) -> usize
    requires { (4 * n ≤ length cells.now) × (4 * m ≤ length rings.now) }
    ensures { WritesLine out (line_at (opening (written_form n) edition bar) cells.now n rings.now m k) result }
{
    if k == 0 {
        return stock_lines::stock_line(out, n, bar, edition);
    }
    let i = k - 1;
    if i < n {
        return put_cell(out, cells, n, i);
    }
    let j = i - n;
    if j < m {
        return put_ring(out, rings, j);
    }
    if j == m {
        return stock_lines::end_line(out, k as u64);
    }
    0
}

// Line k of the file of a stock whose numbers are not asked; 1, 2, 3 for the length alone, 4 for the
// count alone.
pub fn file_line(
    out: &mut [u8; LINE_ROOM],
    stock: TurnStock,
    cells: &[f64],
    rings: &[f64],
    k: usize,
) -> Result<usize, Refusal>
    ensures { WritesFileLine out (line_for stock cells.now rings.now k) result }
{
    let spec = stock.spec;
    let edition = stock.stamp.edition;
    let m = stock.rings;
    let n = stock::validate(spec)?;
    if cells.len() != 4 * n {
        return Err(Refusal::CellsDoNotFit);
    }
    if numbers::lesser(rings.len() / 4, RING_LIMIT) < m {
        return Err(Refusal::StoredRings);
    }
    Ok(put_line(out, bar_of(spec), edition, cells, n, rings, m, k))
}
