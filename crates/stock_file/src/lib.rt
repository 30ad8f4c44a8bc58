// A stock file: read as its bytes come, cut anywhere, and written line by line.
//
// Each line is read into the lent room as soon as it is whole (`stock_lines`); only the unfinished line
// is held over. A line that is not of the form is the last that is looked at, and its number is told at
// the end; only a file that is of the form to its end is asked for 1, 2, 3 and 4. `written` has the
// other way: the lines of a stock's file, one by one.
#![tactic(auto)]

mod written;

ghost use Rattle.std.specs.Prelude.{◌≡◌, ◌*◌, ◌≤◌, ◌<◌, [], length, set};
ghost use Rattle.refusals.specs.Number.{placed_of};
ghost use Rattle.stock.specs.Spec.{clean_spec};
ghost use Rattle.stock.specs.Stock.{stock_from};
ghost use Rattle.text.specs.Wrote.{line_room};
ghost use Rattle.stock_file.specs.Read.{fresh_reading, front_of, spec_of, ended, told_as, ByteTaken, HoldsOn, RunTaken, BytesTaken, TakesPart};

use refusals::{Refusal, Refused};
use stock::{Stamp, TurnStock, TurnStockSpec};
use stock_lines::{Bar, Reading};
use text::LINE_ROOM;
pub use written::{file_line, line_count};

// A line without its newline has so many bytes at most.
const LONGEST: usize = LINE_ROOM - 1;

// A reading after some bytes; of the unfinished line, so many are held.
#[derive(Clone, Copy)]
pub struct Taken {
    pub reading: Reading,
    pub len: usize,
}

// A reading after the bytes before a place; of the unfinished line, so many are held.
#[derive(Clone, Copy)]
struct Run {
    reading: Reading,
    len: usize,
    at: usize,
}

// What a file told: a stock at generation 0, and how many cells it has, which stand first in the lent
// room, as its rings do.
#[derive(Clone, Copy)]
pub struct Kept {
    pub stock: TurnStock,
    pub cells: usize,
}

// Before the first byte.
pub fn fresh() -> Reading
    ensures { result ≡ fresh_reading }
{
    Reading {
        stage: 0,
        form: 0,
        edition: 0,
        bar: Bar {
            z_min_mm: 0.0,
            z_max_mm: 0.0,
            outer_radius_mm: 0.0,
            bore_radius_mm: 0.0,
            cell_mm: 0.0,
        },
        cells: 0,
        rings: 0,
        lines: 0,
        refused: false,
    }
}

// Puts a byte at a place of the line; past the end, nowhere.
fn put_byte(line: &mut [u8], at: usize, byte: u8)
    ensures { line.new ≡ set line.old at byte }
{
    if at < line.len() {
        line[at] = byte;
    }
}

// One byte more, behind the first len of a line.
fn take_byte(
    reading: Reading,
    cells: &mut [f64],
    rings: &mut [f64],
    line: &mut [u8],
    len: usize,
    byte: u8,
) -> Taken
    requires { (len ≤ 127) × (length line.old ≡ line_room) }
    ensures { ByteTaken reading len cells rings line byte result }
{
    if reading.refused {
        return Taken { reading, len };
    }
    if byte == b'\n' {
        let after = stock_lines::take_line(reading, text::front(line, len), cells, rings);
        return Taken {
            reading: after,
            len: 0,
        };
    }
    if len < LONGEST {
        put_byte(line, len, byte);
        return Taken {
            reading,
            len: len + 1,
        };
    }
    Taken {
        reading: stock_lines::refuse(reading),
        len: 0,
    }
}

// Holds bytes from a place on, behind the first len of a line, up to a newline, the end or a full line;
// answers how many.
fn hold_bytes(line: &mut [u8], len: usize, bytes: &[u8], from: usize) -> usize
    requires { (len ≤ 127) × (length line.old ≡ line_room) × (from ≤ length bytes.now) }
    ensures { HoldsOn len line.old bytes.now from result line.new }
{
    for m in 0..LONGEST - len {
        let at = from + m;
        if bytes.len() <= at {
            return m;
        }
        let b = bytes[at];
        if b == b'\n' {
            return m;
        }
        put_byte(line, len + m, b);
    }
    LONGEST - len
}

// The bytes from a place on up to the end of their line, and that end; a refused line is the last.
fn take_run(
    reading: Reading,
    cells: &mut [f64],
    rings: &mut [f64],
    line: &mut [u8],
    len: usize,
    bytes: &[u8],
    from: usize,
) -> Run
    requires { (len ≤ 127) × (length line.old ≡ line_room) × (from < length bytes.now) }
    ensures { RunTaken reading len cells rings line bytes.now from result }
{
    if reading.refused {
        return Run {
            reading,
            len,
            at: bytes.len(),
        };
    }
    let m = hold_bytes(line, len, bytes, from);
    let at = from + m;
    let n = len + m;
    if bytes.len() <= at {
        return Run {
            reading,
            len: n,
            at,
        };
    }
    let t = take_byte(reading, cells, rings, line, n, bytes[at]);
    let after = t.reading;
    Run {
        reading: after,
        len: t.len,
        at: at + 1,
    }
}

// Some bytes more.
fn take_bytes(
    reading: Reading,
    cells: &mut [f64],
    rings: &mut [f64],
    line: &mut [u8],
    len: usize,
    bytes: &[u8],
) -> Taken
    requires { (len ≤ 127) × (length line.old ≡ line_room) }
    ensures { BytesTaken reading len cells rings line bytes.now result }
{
    let mut k = reading;
    let mut n = len;
    let mut i: usize = 0;
    while i < bytes.len() {
        let t = take_run(k, cells, rings, line, n, bytes, i);
        k = t.reading;
        n = t.len;
        i = t.at;
    }
    Taken { reading: k, len: n }
}

// Some bytes more of a file. The unfinished line is the first len bytes of `line`, 127 at most, and is
// so again afterwards; behind it `line` stays as it was.
pub fn take_part(
    reading: Reading,
    cells: &mut [f64],
    rings: &mut [f64],
    line: &mut [u8; LINE_ROOM],
    len: usize,
    bytes: &[u8],
) -> Taken
    ensures { TakesPart reading len cells rings line bytes.now result }
{
    let n = numbers::lesser(len, LONGEST);
    let mut now = [0; LINE_ROOM];
    text::put(&mut now, 0, text::front(line, n));
    let taken = take_bytes(reading, cells, rings, &mut now, n, bytes);
    text::put(line, 0, text::front(&now, taken.len));
    taken
}

// A reading at the end of the bytes, where so many of an unfinished line are held: what is cut off or
// missing is the next line, and is refused.
fn end(reading: Reading, len: usize) -> Reading
    ensures { result ≡ ended reading len }
{
    if reading.refused {
        return reading;
    }
    if len != 0 {
        return stock_lines::refuse(reading);
    }
    if reading.stage < 2 {
        return stock_lines::refuse(reading);
    }
    reading
}

fn spec_of(bar: Bar, most: usize) -> TurnStockSpec
    ensures { result ≡ spec_of bar most }
{
    TurnStockSpec {
        z_min_mm: bar.z_min_mm,
        z_max_mm: bar.z_max_mm,
        outer_radius_mm: bar.outer_radius_mm,
        bore_radius_mm: bar.bore_radius_mm,
        cell_mm: bar.cell_mm,
        max_cells: most,
    }
}

// A stock of an edition, at generation 0.
fn stock_from(spec: TurnStockSpec, edition: u32, rings: usize) -> TurnStock
    ensures { result ≡ stock_from (clean_spec spec) edition rings 0 }
{
    TurnStock {
        spec: stock::clean_spec(spec),
        stamp: Stamp {
            edition,
            generation: 0,
        },
        rings,
    }
}

// The first n fours of numbers, and none where the list does not reach so far.
fn front(xs: &[f64], n: usize) -> &[f64]
    ensures { result.now ≡ front_of n xs.now }
{
    if xs.len() / 4 < n {
        return &xs[..0];
    }
    let end = 4 * n;
    &xs[..end]
}

// The end of the bytes, where len of an unfinished line are held; 16 at a line, 1, 2, 3, 4.
pub fn finish(
    reading: Reading,
    len: usize,
    most: usize,
    cells: &[f64],
    rings: &[f64],
) -> Result<Kept, Refused>
    ensures { placed_of result ≡ told_as (ended reading len) most cells.now rings.now }
{
    let last = end(reading, len);
    if last.refused {
        return Err(Refused::at(Refusal::FileMalformed, last.lines as usize));
    }
    let spec = spec_of(last.bar, most);
    let n = stock::cells_fit(spec, front(cells, last.cells))?;
    if rings::rings_fit(spec, rings, last.rings) {
        return Ok(Kept {
            stock: stock_from(spec, last.edition, last.rings),
            cells: n,
        });
    }
    Err(Refused::from(Refusal::StoredRings))
}
