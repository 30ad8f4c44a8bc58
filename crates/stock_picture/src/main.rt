// Draws a stock file as a half section, or two of one bar as what differs between them: reads the one or
// two files that its arguments name, and writes the picture as SVG, or the one refusal.
#![tactic(auto)]

ghost use Rattle.refusals.specs.Number.{paper_of, placed_of};
ghost use Rattle.refusals.specs.Limits.{cell_limit};
ghost use Rattle.stock_streams.specs.Read.{ReadsStock};
ghost use Rattle.stock_streams.specs.Write.{AllPut};
ghost use Rattle.side_by_side.specs.Refused.{file_refused, pair_refused};

use refusals::{CELL_LIMIT, RING_LIMIT, Refusal, Refused};
use stock::TurnStock;
use stock_file::Kept;
use streams::{GATHERED, Out};
use text::LINE_ROOM;

mod axes;
mod page;
mod pen;
mod shapes;

// Four numbers a cell, four a ring.
const CELL_NUMBERS: usize = 4 * CELL_LIMIT;

const RING_NUMBERS: usize = 4 * RING_LIMIT;

// What the file of a name tells.
fn read_named(
    rt: &HostRuntime,
    path: &[u8],
    cells: &mut [f64],
    rings: &mut [f64],
) -> Result<Kept, Refused>
    ensures { ReadsStock cell_limit result cells rings }
{
    let opened = streams::open(rt, path);
    match opened {
        Ok(mut file) => {
            stock_streams::read_stock(rt, &mut file, stock_streams::PART, CELL_LIMIT, cells, rings)
        }
        Err(e) => {
            streams::fail_at(rt, path, e);
            Err(Refused::at(Refusal::FileMalformed, 1))
        }
    }
}

// The first n fours of numbers, all where there are fewer.
fn first_fours(xs: &[f64], n: usize) -> &[f64] {
    xs.get(..n.saturating_mul(4)).unwrap_or(xs)
}

// Gathers the line of a file that is refused; nothing where it tells a stock.
fn gather_file(
    rt: &HostRuntime,
    gathered: &mut [u8; GATHERED],
    file: u64,
    kept: Result<Kept, Refused>,
) -> Out
    ensures { AllPut (file_refused file (placed_of kept)) result gathered.new }
{
    let mut line = [0u8; LINE_ROOM];
    let n = side_by_side::file_refused(&mut line, file, kept);
    streams::put(
        rt,
        &mut rt.stdout(),
        streams::fresh(),
        gathered,
        text::front(&line, n),
    )
}

// Gathers the line of two stocks that are refused; nothing where they are compared.
fn gather_refused(
    rt: &HostRuntime,
    gathered: &mut [u8; GATHERED],
    compared: Result<usize, Refusal>,
) -> Out
    ensures { AllPut (pair_refused (paper_of compared)) result gathered.new }
{
    let mut line = [0u8; LINE_ROOM];
    let n = side_by_side::pair_refused(&mut line, compared);
    streams::put(
        rt,
        &mut rt.stdout(),
        streams::fresh(),
        gathered,
        text::front(&line, n),
    )
}

// Gathers the picture of one stock.
fn gather_one(
    rt: &HostRuntime,
    gathered: &mut [u8; GATHERED],
    stock: TurnStock,
    cells: &[f64],
    rings: &[f64],
) -> Out {
    let frame = page::frame_of(stock.spec);
    let a = page::opening(rt, streams::fresh(), gathered, frame, 64.0);
    let b = page::told_one(rt, a, gathered, frame, stock, cells, rings);
    let c = page::patterns_one(rt, b, gathered, frame);
    let d = shapes::one(rt, c, gathered, frame, cells, rings);
    let e = axes::both(rt, d, gathered, frame);
    let f = page::about_one(rt, e, gathered, frame, stock, cells, rings);
    page::key_one(rt, f, gathered)
}

// Gathers the picture of two stocks of one bar.
fn gather_two(
    rt: &HostRuntime,
    gathered: &mut [u8; GATHERED],
    first: TurnStock,
    cells1: &[f64],
    rings1: &[f64],
    second: TurnStock,
    cells2: &[f64],
    rings2: &[f64],
) -> Out {
    let frame = page::frame_of(first.spec);
    let n = cells1.len() / 4;
    let a = page::opening(rt, streams::fresh(), gathered, frame, 69.0);
    let b = page::told_two(rt, a, gathered, frame, first, second, n);
    let c = page::patterns_two(rt, b, gathered, frame);
    let d = shapes::two(rt, c, gathered, frame, cells1, rings1, cells2, rings2);
    let e = axes::both(rt, d, gathered, frame);
    let f = page::about_first(rt, e, gathered, first, cells1, rings1);
    let g = page::about_second(rt, f, gathered, second, cells2, rings2);
    let h = page::about_bar(rt, g, gathered, frame, n);
    page::key_two(rt, h, gathered)
}

// Gathers the picture of two stocks, or their refusal.
fn gather_pair(
    rt: &HostRuntime,
    gathered: &mut [u8; GATHERED],
    first: TurnStock,
    cells1: &[f64],
    rings1: &[f64],
    second: TurnStock,
    cells2: &[f64],
    rings2: &[f64],
) -> Out {
    let m = first.rings;
    let k = second.rings;
    let compared = side_by_side::compare(
        first.spec,
        cells1,
        rings1,
        m,
        second.spec,
        cells2,
        rings2,
        k,
    );
    match compared {
        Ok(_) => { gather_two(rt, gathered, first, cells1, rings1, second, cells2, rings2) }
        Err(_) => gather_refused(rt, gathered, compared),
    }
}

// Gathers what a second file makes of a stock of n cells, which the first told.
fn gather_second(
    rt: &HostRuntime,
    gathered: &mut [u8; GATHERED],
    stock: TurnStock,
    n: usize,
    cells: &[f64],
    rings: &[f64],
    second: &[u8],
) -> Out {
    let mut cells2 = [0.0f64; CELL_NUMBERS];
    let mut rings2 = [0.0f64; RING_NUMBERS];
    let kept = read_named(rt, second, &mut cells2, &mut rings2);
    match kept {
        Ok(
            Kept {
                stock: other,
                cells: m,
            },
        ) => gather_pair(
            rt,
            gathered,
            stock,
            first_fours(cells, n),
            first_fours(rings, stock.rings),
            other,
            first_fours(&cells2, m),
            first_fours(&rings2, other.rings),
        ),
        Err(_) => gather_file(rt, gathered, 2, kept),
    }
}

// Gathers what the files make of a stock of n cells, which the first told.
fn gather_stock(
    rt: &HostRuntime,
    gathered: &mut [u8; GATHERED],
    stock: TurnStock,
    n: usize,
    cells: &[f64],
    rings: &[f64],
    files: usize,
    second: &[u8],
) -> Out {
    if 2 < files {
        return gather_second(rt, gathered, stock, n, cells, rings, second);
    }
    gather_one(
        rt,
        gathered,
        stock,
        first_fours(cells, n),
        first_fours(rings, stock.rings),
    )
}

// Gathers the picture of one file or of two, or the one refusal.
fn gather_files(
    rt: &HostRuntime,
    gathered: &mut [u8; GATHERED],
    files: usize,
    first: &[u8],
    second: &[u8],
) -> Out {
    let mut cells = [0.0f64; CELL_NUMBERS];
    let mut rings = [0.0f64; RING_NUMBERS];
    let kept = read_named(rt, first, &mut cells, &mut rings);
    match kept {
        Ok(Kept { stock, cells: n }) => gather_stock(
            rt, gathered, stock, n, &cells, &rings, files, second,
        ),
        Err(_) => gather_file(rt, gathered, 1, kept),
    }
}

// Draws the files that the arguments name.
fn main(rt: HostRuntime) {
    if !streams::hold_standard(&rt) {
        return;
    }
    let files = streams::argument_count(&rt);
    if 3 < files {
        io::write_all(2, b"stock_picture: only the first two files are drawn\n");
    }
    let mut first = io::buffer();
    let mut second = io::buffer();
    let n = streams::argument(&rt, 1, &mut first);
    let m = streams::argument(&rt, 2, &mut second);
    let mut gathered = [0u8; GATHERED];
    let out = gather_files(&rt, &mut gathered, files, &first[..n], &second[..m]);
    streams::flush(&rt, &mut rt.stdout(), out, &gathered);
}
