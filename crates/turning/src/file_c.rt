// A stock file's bytes as they come, cut anywhere, and the lines of the file of a stock.
//
// Between two calls a reading stands in eight lent words (stage, cell lines, ring lines, lines, held,
// refused, form, edition) and five lent numbers, those of its bar, beside the lent room and the unfinished
// line. Words that are all 0 are a file before its first byte. Words of any other kind are
// read as they stand: of the held bytes 127 at most, of the edition its lower half, and any number but 0
// is a refusal.
ghost use Rattle.std.specs.Prelude.{◌≡◌};
ghost use Rattle.refusals.specs.Number.{placed_of};
ghost use Rattle.floats.specs.Pick.{pick};
ghost use Rattle.stock.specs.Stock.{stock_from};
ghost use Rattle.stock_file.specs.Write.{line_count, line_for};
ghost use Rattle.turning.specs.Boundary.{spec_from, Hands};
ghost use Rattle.turning.specs.Files.{reading_from, refused_in, held_from, KeepsReading, HandsPart, told_from, HandsKept, HandsFileLine};

use crate::out::{give, give_place};
use crate::stock_c;
use refusals::{Refusal, Refused};
use stock_file::Kept;
use stock_lines::{Bar, Reading};
use text::LINE_ROOM;

// A reading's words, and the numbers of its bar.
const WORDS: usize = 8;

const BAR: usize = 5;

pub fn turning_stock_lines(
    z_min: f64,
    z_max: f64,
    outer: f64,
    bore: f64,
    cell: f64,
    max_cells: usize,
    cells: &[f64],
    rings: &[f64],
    rings_count: usize,
    lines: &mut usize,
) -> u32
    ensures { Hands (line_count (spec_from z_min z_max outer bore cell max_cells) cells.now
        rings.now rings_count) result lines }
{
    let spec = stock_c::spec_of(z_min, z_max, outer, bore, cell, max_cells);
    let answer = stock_file::line_count(spec, cells, rings, rings_count);
    give(answer, lines)
}

pub fn turning_stock_line(
    z_min: f64,
    z_max: f64,
    outer: f64,
    bore: f64,
    cell: f64,
    max_cells: usize,
    edition: u32,
    cells: &[f64],
    rings: &[f64],
    rings_count: usize,
    k: usize,
    line: &mut [u8; LINE_ROOM],
    len: &mut usize,
) -> u32
    ensures { HandsFileLine (line_for (stock_from (spec_from z_min z_max outer bore cell max_cells) edition rings_count 0)
        cells.now rings.now k) result line len }
{
    let spec = stock_c::spec_of(z_min, z_max, outer, bore, cell, max_cells);
    let stock = stock_c::stock_of(spec, edition, 0, rings_count);
    let answer = stock_file::file_line(line, stock, cells, rings, k);
    give(answer, len)
}

// Whether the words say that a line was refused.
fn refused_in(words: &[u64; WORDS]) -> bool
    ensures { result ≡ refused_in words.now }
{
    words[5] != 0
}

// So many bytes of the unfinished line are held.
fn held_in(words: &[u64; WORDS]) -> usize
    ensures { result ≡ held_from words.now }
{
    words[4] as usize
}

// The reading that the words and the bar are.
fn reading_of(words: &[u64; WORDS], bar: &[f64; BAR]) -> Reading
    ensures { result ≡ reading_from words.now bar.now }
{
    let refused = refused_in(words);
    let edition = stock_c::edition_in(words[7]);
    Reading {
        stage: words[0],
        form: words[6],
        edition,
        bar: Bar {
            z_min_mm: bar[0],
            z_max_mm: bar[1],
            outer_radius_mm: bar[2],
            bore_radius_mm: bar[3],
            cell_mm: bar[4],
        },
        cells: words[1] as usize,
        rings: words[2] as usize,
        lines: words[3],
        refused,
    }
}

// 16 where a line was refused, else 0.
fn code_of(refused: bool) -> u32
    ensures { result ≡ pick refused 16 0 }
{
    if refused {
        return refusals::number(Refusal::FileMalformed);
    }
    0
}

// A reading that holds so many bytes, put into the words and the bar.
fn keep(reading: Reading, held: usize, words: &mut [u64; WORDS], bar: &mut [f64; BAR])
    ensures { KeepsReading reading held words bar }
{
    let now = reading.bar;
    words[0] = reading.stage;
    words[1] = reading.cells as u64;
    words[2] = reading.rings as u64;
    words[3] = reading.lines;
    words[4] = held as u64;
    words[5] = code_of(reading.refused) as u64;
    words[6] = reading.form;
    words[7] = reading.edition as u64;
    bar[0] = now.z_min_mm;
    bar[1] = now.z_max_mm;
    bar[2] = now.outer_radius_mm;
    bar[3] = now.bore_radius_mm;
    bar[4] = now.cell_mm;
}

// Where a line was refused before, nothing is written.
pub fn turning_read_part(
    state: &mut [u64; WORDS],
    bar: &mut [f64; BAR],
    cells: &mut [f64],
    rings: &mut [f64],
    line: &mut [u8; LINE_ROOM],
    bytes: &[u8],
) -> u32
    ensures { HandsPart result state bar cells rings line bytes.now }
{
    let reading = reading_of(state, bar);
    if reading.refused {
        return code_of(true);
    }
    let held = held_in(state);
    let taken = stock_file::take_part(reading, cells, rings, line, held, bytes);
    let after = taken.reading;
    keep(after, taken.len, state, bar);
    code_of(after.refused)
}

// The counts and the edition of a stock handed out, or the number of the refusal, with its line where it has one.
fn give_kept(
    answer: Result<Kept, Refused>,
    n: &mut usize,
    rings_count: &mut usize,
    edition: &mut u32,
    line: &mut usize,
) -> u32
    ensures { HandsKept (placed_of answer) result n rings_count edition line }
{
    match answer {
        Err(refused) => give_place(refused, line),
        Ok(Kept { stock, cells }) => {
            *n = cells;
            *rings_count = stock.rings;
            *edition = stock.stamp.edition;
            0
        }
    }
}

pub fn turning_read_end(
    state: &[u64; WORDS],
    bar: &[f64; BAR],
    max_cells: usize,
    cells: &[f64],
    rings: &[f64],
    n: &mut usize,
    rings_count: &mut usize,
    edition: &mut u32,
    line: &mut usize,
) -> u32
    ensures { HandsKept (told_from state.now bar.now max_cells cells.now
        rings.now) result n rings_count edition line }
{
    let reading = reading_of(state, bar);
    let held = held_in(state);
    let answer = stock_file::finish(reading, held, max_cells, cells, rings);
    give_kept(answer, n, rings_count, edition, line)
}
