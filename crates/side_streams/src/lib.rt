// Two stock files by name, compared, and what differs written to a writer.
//
// The second file is opened once the first told a stock. A file that cannot be opened is one whose
// first line is missing, and one whose read fails is one whose next line is. What is handed on to be
// written, byte for byte and in order, is `files_text` of crate `side_by_side`, as far as writes succeed;
// no contract can speak of files.
#![tactic(auto)]

ghost use Rattle.std.specs.Prelude.{◌≡◌, ◌*◌, take};
ghost use Rattle.refusals.specs.Number.{paper_of, placed_of};
ghost use Rattle.refusals.specs.Limits.{cell_limit};
ghost use Rattle.stock_file.specs.Write.{lines_to};
ghost use Rattle.stock_streams.specs.Read.{ReadsStock};
ghost use Rattle.stock_streams.specs.Write.{AllPut};
ghost use Rattle.side_by_side.specs.Compared.{side, chunk_of, compared_of};
ghost use Rattle.side_by_side.specs.Refused.{file_refused, pair_refused};
ghost use Rattle.side_by_side.specs.Files.{compared_text};
ghost use Rattle.side_streams.specs.Put.{SecondPut, FilesPut};

use refusals::{CELL_LIMIT, RING_LIMIT, Refusal, Refused};
use side_by_side::CHUNK_ROOM;
use std::io::Write;
use std::rt::{Clock, Files};
use stock::TurnStock;
use stock_file::Kept;
use streams::{GATHERED, Out};
use text::LINE_ROOM;

// Four numbers a cell, four a ring.
const CELL_NUMBERS: usize = 4 * CELL_LIMIT;

const RING_NUMBERS: usize = 4 * RING_LIMIT;

// ---- reading

// What the file of a name tells.
fn read_named(
    rt: &(impl Files + Eprint + Clock),
    path: &[u8],
    cells: &mut [f64],
    rings: &mut [f64],
) -> Result<Kept, Refused>
    ensures { ReadsStock cell_limit result cells rings }
{
    let opened = streams::open(rt, path);
    match opened {
        Ok(mut file) => {
            stock_streams::read_stock(rt, &mut file, stock_streams::PART, CELL_LIMIT, cells, rings)
        }
        Err(e) => {
            streams::fail_at(rt, path, e);
            Err(Refused::at(Refusal::FileMalformed, 1))
        }
    }
}

// The first n cells, all where there are fewer.
fn first_cells(cells: &[f64], n: usize) -> &[f64]
    ensures { result.now ≡ take (4 * n) cells.now }
{
    if cells.len() / 4 < n {
        return cells;
    }
    let end = 4 * n;
    &cells[..end]
}

// ---- writing

// Gathers the line of a file that is refused; nothing where it tells a stock.
fn gather_file(
    rt: &(impl Eprint + Clock),
    to: &mut impl Write,
    gathered: &mut [u8; GATHERED],
    file: u64,
    kept: Result<Kept, Refused>,
) -> Out
    ensures { AllPut (file_refused file (placed_of kept)) result gathered.new }
{
    let mut line = [0u8; LINE_ROOM];
    let n = side_by_side::file_refused(&mut line, file, kept);
    streams::put(rt, to, streams::fresh(), gathered, text::front(&line, n))
}

// Gathers the line of two stocks that are refused; nothing where they are compared.
fn gather_refused(
    rt: &(impl Eprint + Clock),
    to: &mut impl Write,
    gathered: &mut [u8; GATHERED],
    compared: Result<usize, Refusal>,
) -> Out
    ensures { AllPut (pair_refused (paper_of compared)) result gathered.new }
{
    let mut line = [0u8; LINE_ROOM];
    let n = side_by_side::pair_refused(&mut line, compared);
    streams::put(rt, to, streams::fresh(), gathered, text::front(&line, n))
}

// Gathers so many chunks, and writes of them what finds no room.
fn gather_chunks(
    rt: &(impl Eprint + Clock),
    to: &mut impl Write,
    gathered: &mut [u8; GATHERED],
    chunks: usize,
    cells1: &[f64],
    rings1: &[f64],
    count1: usize,
    cells2: &[f64],
    rings2: &[f64],
    count2: usize,
) -> Out
    ensures { AllPut (lines_to (chunk_of (side cells1.now rings1.now count1) (side cells2.now rings2.now count2)) chunks)
        result gathered.new }
{
    let mut part = [0u8; CHUNK_ROOM];
    let mut out = streams::fresh();
    for c in 0..chunks {
        let n = side_by_side::chunk(&mut part, cells1, rings1, count1, cells2, rings2, count2, c);
        out = streams::put(rt, to, out, gathered, text::front(&part, n));
    }
    out
}

// Gathers what differs between two stocks, or their refusal.
fn gather_pair(
    rt: &(impl Eprint + Clock),
    to: &mut impl Write,
    gathered: &mut [u8; GATHERED],
    first: TurnStock,
    cells1: &[f64],
    rings1: &[f64],
    second: TurnStock,
    cells2: &[f64],
    rings2: &[f64],
) -> Out
    ensures { AllPut (compared_text (compared_of first.spec (side cells1.now rings1.now first.rings) second.spec (side cells2.now rings2.now second.rings)))
        result gathered.new }
{
    let m = first.rings;
    let k = second.rings;
    let compared = side_by_side::compare(
        first.spec,
        cells1,
        rings1,
        m,
        second.spec,
        cells2,
        rings2,
        k,
    );
    match compared {
        Ok(chunks) => {
            gather_chunks(
                rt, to, gathered, chunks, cells1, rings1, m, cells2, rings2, k,
            )
        }
        Err(_) => gather_refused(rt, to, gathered, compared),
    }
}

// Gathers what a second file makes of the stock that the first told.
fn gather_second(
    rt: &(impl Files + Eprint + Clock),
    to: &mut impl Write,
    gathered: &mut [u8; GATHERED],
    first: Kept,
    cells: &[f64],
    rings: &[f64],
    second: &[u8],
) -> Out
    ensures { SecondPut first cells.now rings.now result gathered.new }
{
    let mut cells2 = [0.0f64; CELL_NUMBERS];
    let mut rings2 = [0.0f64; RING_NUMBERS];
    let kept = read_named(rt, second, &mut cells2, &mut rings2);
    match kept {
        Ok(other) => gather_pair(
            rt,
            to,
            gathered,
            first.stock,
            first_cells(cells, first.cells),
            rings,
            other.stock,
            first_cells(&cells2, other.cells),
            &rings2,
        ),
        Err(_) => gather_file(rt, to, gathered, 2, kept),
    }
}

// Gathers what differs between two files, or the one refusal.
fn gather_files(
    rt: &(impl Files + Eprint + Clock),
    to: &mut impl Write,
    gathered: &mut [u8; GATHERED],
    first: &[u8],
    second: &[u8],
) -> Out
    ensures { FilesPut result gathered.new }
{
    let mut cells = [0.0f64; CELL_NUMBERS];
    let mut rings = [0.0f64; RING_NUMBERS];
    let kept = read_named(rt, first, &mut cells, &mut rings);
    match kept {
        Ok(stock) => gather_second(rt, to, gathered, stock, &cells, &rings, second),
        Err(_) => gather_file(rt, to, gathered, 1, kept),
    }
}

// Writes what differs between two files, or the one refusal.
pub fn write_differences(
    rt: &(impl Files + Eprint + Clock),
    to: &mut impl Write,
    first: &[u8],
    second: &[u8],
) {
    let mut gathered = [0u8; GATHERED];
    let out = gather_files(rt, to, &mut gathered, first, second);
    streams::flush(rt, to, out, &gathered);
}
