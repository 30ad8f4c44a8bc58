// A stock file read from a reader, and written to a writer.
//
// Bytes are taken as they come, to the end of the input, also after a refused line. A read that fails
// cuts the file off inside its next line, also behind `end`: it is refused there, and never told as if
// it were whole. Lines to write are gathered, and a stock that is refused writes none.
#![tactic(auto)]

ghost use Rattle.std.specs.Prelude.{◌≡◌, true};
ghost use Rattle.streams.specs.Moves.{Puts};
ghost use Rattle.stock_file.specs.Write.{line_for, lines_to};
ghost use Rattle.streams.specs.Brought.{held_by};
ghost use Rattle.refusals.specs.Number.{placed_of};
ghost use Rattle.stock_file.specs.Read.{ended, told_as};
ghost use Rattle.stock_streams.specs.Read.{ReadsOn, ReadsPart, ReadsStock};
ghost use Rattle.stock_streams.specs.Write.{text_in, AllPut, PutsStock, Asked};

use refusals::Refused;
use std::io::{Read, Write};
use std::rt::Clock;
use stock::TurnStock;
use stock_file::Kept;
use stock_lines::Reading;
use streams::{GATHERED, Got, Out};
use text::LINE_ROOM;

// So many bytes are read at a time at most.
pub use streams::PART;

// A reading after a read, with so many bytes of the unfinished line, and what the read told.
#[derive(Clone, Copy)]
struct Turn {
    reading: Reading,
    len: usize,
    got: Got,
}

// ---- reading

// Reads once, into lent bytes, and takes what came.
fn take_once(
    rt: &(impl Eprint + Clock),
    from: &mut impl Read,
    part: &mut [u8],
    reading: Reading,
    cells: &mut [f64],
    rings: &mut [f64],
    line: &mut [u8; LINE_ROOM],
    len: usize,
) -> Turn
    ensures { ReadsPart reading len cells rings line result.got part.new result.reading result.len }
{
    let got = streams::read_some(rt, from, part);
    let came = text::front(part, got.brought());
    let taken = stock_file::take_part(reading, cells, rings, line, len, came);
    Turn {
        reading: taken.reading,
        len: taken.len,
        got,
    }
}

// The same, at most so many bytes.
fn take_some(
    rt: &(impl Eprint + Clock),
    from: &mut impl Read,
    most: usize,
    reading: Reading,
    cells: &mut [f64],
    rings: &mut [f64],
    line: &mut [u8; LINE_ROOM],
    len: usize,
) -> Turn
    ensures { ReadsOn reading len cells rings line result.reading result.len }
{
    let mut buf = io::large_buffer();
    let end = streams::part_size(most);
    take_once(rt, from, &mut buf[..end], reading, cells, rings, line, len)
}

// What a stock file tells, after its last read; 16 at a line, 1, 2, 3, 4.
fn end_by(
    got: Got,
    reading: Reading,
    len: usize,
    max_cells: usize,
    cells: &[f64],
    rings: &[f64],
) -> Result<Kept, Refused>
    ensures { placed_of result ≡ told_as (ended reading (held_by got len)) max_cells cells.now rings.now }
{
    stock_file::finish(reading, got.held(len), max_cells, cells, rings)
}

// Reads a stock file to the end of its input, at most so many bytes at a time, from 1 to 65,536; 16 at
// a line, 1, 2, 3, 4.
pub fn read_stock(
    rt: &(impl Eprint + Clock),
    from: &mut impl Read,
    most: usize,
    max_cells: usize,
    cells: &mut [f64],
    rings: &mut [f64],
) -> Result<Kept, Refused>
    ensures { ReadsStock max_cells result cells rings }
{
    let mut line = [0u8; LINE_ROOM];
    let mut reading = stock_file::fresh();
    let mut len: usize = 0;
    for _ in 0..u64::MAX {
        let t = take_some(rt, from, most, reading, cells, rings, &mut line, len);
        reading = t.reading;
        len = t.len;
        if !t.got.may_be_more() {
            return end_by(t.got, reading, len, max_cells, cells, rings);
        }
    }
    end_by(Got::Cut, reading, len, max_cells, cells, rings)
}

// ---- writing

// Puts line k of a stock's file behind what is gathered; past the last line, nothing.
fn put_line(
    rt: &(impl Eprint + Clock),
    to: &mut impl Write,
    out: Out,
    gathered: &mut [u8; GATHERED],
    stock: TurnStock,
    cells: &[f64],
    rings: &[f64],
    k: usize,
) -> Out
    ensures { Puts out gathered.old
        (text_in (line_for stock cells.now rings.now k)) result gathered.new }
{
    let mut line = [0u8; LINE_ROOM];
    let spelled = stock_file::file_line(&mut line, stock, cells, rings, k);
    match spelled {
        Ok(n) => streams::put(rt, to, out, gathered, text::front(&line, n)),
        Err(_) => out,
    }
}

// Gathers the first n lines of a stock's file, and writes of them what finds no room.
fn gather_lines(
    rt: &(impl Eprint + Clock),
    to: &mut impl Write,
    gathered: &mut [u8; GATHERED],
    stock: TurnStock,
    cells: &[f64],
    rings: &[f64],
    n: usize,
) -> Out
    ensures { AllPut (lines_to (λ k. text_in (line_for stock cells.now rings.now k)) n)
        result gathered.new }
{
    let mut out = streams::fresh();
    for k in 0..n {
        out = put_line(rt, to, out, gathered, stock, cells, rings, k);
    }
    out
}

// Gathers a stock's file. One that is refused counts as a write that failed.
fn gather_stock(
    rt: &(impl Eprint + Clock),
    to: &mut impl Write,
    gathered: &mut [u8; GATHERED],
    stock: TurnStock,
    cells: &[f64],
    rings: &[f64],
) -> Out
    ensures { PutsStock stock cells.now rings.now result gathered.new }
{
    let spec = stock.spec;
    let lines = stock_file::line_count(spec, cells, rings, stock.rings);
    match lines {
        Ok(n) => gather_lines(rt, to, gathered, stock, cells, rings, n),
        Err(_) => Out {
            len: 0,
            failed: true,
        },
    }
}

// Writes a stock's file, and tells whether all of it was written. A stock that is refused is not.
pub fn write_stock(
    rt: &(impl Eprint + Clock),
    to: &mut impl Write,
    stock: TurnStock,
    cells: &[f64],
    rings: &[f64],
) -> bool
    ensures { result ≡ true → Asked stock cells.now rings.now }
{
    let mut gathered = [0u8; GATHERED];
    let out = gather_stock(rt, to, &mut gathered, stock, cells, rings);
    streams::flush(rt, to, out, &gathered)
}
