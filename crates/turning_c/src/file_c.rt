// A stock file's bytes as they come, cut anywhere, and the lines of the file of a stock.
ghost use Rattle.stock.specs.Stock.{stock_from};
ghost use Rattle.stock_file.specs.Write.{line_count, line_for};
ghost use Rattle.turning.specs.Boundary.{spec_from, Hands};
ghost use Rattle.turning.specs.Files.{HandsPart, told_from, HandsKept, HandsFileLine};

use text::LINE_ROOM;

const WORDS: usize = 8;

const BAR: usize = 5;

#[unsafe(no_mangle)]
pub extern "C" fn turning_stock_lines(
    z_min: f64,
    z_max: f64,
    outer: f64,
    bore: f64,
    cell: f64,
    max_cells: usize,
    cells: &[f64],
    rings: &[f64],
    rings_count: usize,
    lines: &mut usize,
) -> u32
    ensures { Hands (line_count (spec_from z_min z_max outer bore cell max_cells) cells.now
        rings.now rings_count) result lines }
{
    turning::turning_stock_lines(
        z_min,
        z_max,
        outer,
        bore,
        cell,
        max_cells,
        cells,
        rings,
        rings_count,
        lines,
    )
}

#[unsafe(no_mangle)]
pub extern "C" fn turning_stock_line(
    z_min: f64,
    z_max: f64,
    outer: f64,
    bore: f64,
    cell: f64,
    max_cells: usize,
    edition: u32,
    cells: &[f64],
    rings: &[f64],
    rings_count: usize,
    k: usize,
    line: &mut [u8; LINE_ROOM],
    len: &mut usize,
) -> u32
    ensures { HandsFileLine (line_for (stock_from (spec_from z_min z_max outer bore cell max_cells) edition rings_count 0)
        cells.now rings.now k) result line len }
{
    turning::turning_stock_line(
        z_min,
        z_max,
        outer,
        bore,
        cell,
        max_cells,
        edition,
        cells,
        rings,
        rings_count,
        k,
        line,
        len,
    )
}

// Where a line was refused before, nothing is written.
#[unsafe(no_mangle)]
pub extern "C" fn turning_read_part(
    state: &mut [u64; WORDS],
    bar: &mut [f64; BAR],
    cells: &mut [f64],
    rings: &mut [f64],
    line: &mut [u8; LINE_ROOM],
    bytes: &[u8],
) -> u32
    ensures { HandsPart result state bar cells rings line bytes.now }
{
    turning::turning_read_part(state, bar, cells, rings, line, bytes)
}

#[unsafe(no_mangle)]
pub extern "C" fn turning_read_end(
    state: &[u64; WORDS],
    bar: &[f64; BAR],
    max_cells: usize,
    cells: &[f64],
    rings: &[f64],
    n: &mut usize,
    rings_count: &mut usize,
    edition: &mut u32,
    line: &mut usize,
) -> u32
    ensures { HandsKept (told_from state.now bar.now max_cells cells.now
        rings.now) result n rings_count edition line }
{
    turning::turning_read_end(
        state,
        bar,
        max_cells,
        cells,
        rings,
        n,
        rings_count,
        edition,
        line,
    )
}
