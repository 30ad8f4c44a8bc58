// One line of a stock file: read into the lent room, and spelled.
//
// A line is of the form when it is the writer's own prefix, followed by exactly k times a tab and 16
// hexadecimal digits in capitals; `end` is compared whole with the writer's line. The digits of -0.0
// are not of the form. The first line says the form, and from form 2 on ends with the edition in 8
// digits. Form 2 is that of up to 4,096 cells, with four digits an index; form 3 that of more, with five.
// 1 is still read, has no edition, and is of edition 0; its other lines are those of 2. `form` reads one
// line; here a line moves a reading on, and lines are spelled.
#![tactic(auto)]

mod form;
mod room;

ghost use Rattle.std.specs.Prelude.{◌≡◌, ◌+◌, ◌≤◌, [], ◌∷◌};
ghost use Rattle.text.specs.Digits.{digits};
ghost use Rattle.text.specs.Wrote.{Wrote, line_room, WritesLine};
ghost use Rattle.stock_lines.specs.Form.{written_form, fields_text, bar_numbers, stock_line, kept_cell_line, end_line};
ghost use Rattle.stock_lines.specs.Reading.{count_to, refusing, begun, onward_to, went, on_line, state_found, state_left};

use form::First;
use refusals::RING_LIMIT;
use room::Took;
use text::LINE_ROOM;

// The numbers of a stock's spec that a file keeps, in the order of a job's `bar`.
#[derive(Clone, Copy)]
pub struct Bar {
    pub z_min_mm: f64,
    pub z_max_mm: f64,
    pub outer_radius_mm: f64,
    pub bore_radius_mm: f64,
    pub cell_mm: f64,
}

// A file read so far: what its next line may be, its form, its edition and its bar, how many of its lines
// were cells' and how many rings', counted to 257, how many there were in all, and whether the last of
// them was refused.
#[derive(Clone, Copy)]
pub struct Reading {
    // 0 before the first line, 1 behind it, and any other number behind `end`
    pub stage: u64,
    // 0 before the first line, and then the form's number
    pub form: u64,
    // 0 before the first line too
    pub edition: u32,
    pub bar: Bar,
    pub cells: usize,
    pub rings: usize,
    pub lines: u64,
    pub refused: bool,
}

// Rings are counted so far: one more than are stored.
const RING_COUNT: usize = RING_LIMIT + 1;

// One more, as far as is counted.
fn count_to(limit: usize, n: usize) -> usize
    ensures { result ≡ count_to limit n }
{
    if n < limit {
        return n + 1;
    }
    n
}

// The next line is not of the form.
pub fn refuse(reading: Reading) -> Reading
    ensures { result ≡ refusing reading }
{
    Reading {
        lines: std::num::wrapping_add_u64(reading.lines, 1),
        refused: true,
        ..reading
    }
}

// The first line, which said this.
fn begin(reading: Reading, first: Option<First>) -> Reading
    ensures { result ≡ begun reading first }
{
    match first {
        None => refuse(reading),
        Some(first) => Reading {
            stage: 1,
            form: first.form,
            edition: first.edition,
            bar: first.bar,
            lines: std::num::wrapping_add_u64(reading.lines, 1),
            refused: false,
            ..reading
        },
    }
}

// One line more behind the first, at this stage, with so many cells' and rings' lines now.
fn onward(reading: Reading, stage: u64, cells: usize, rings: usize) -> Reading
    ensures { result ≡ onward_to reading stage cells rings }
{
    Reading {
        stage,
        cells,
        rings,
        lines: std::num::wrapping_add_u64(reading.lines, 1),
        refused: false,
        ..reading
    }
}

// A line behind the first, which was this.
fn go_on(reading: Reading, took: Took) -> Reading
    ensures { result ≡ went reading took }
{
    let f = form::form_of(reading.form);
    let n = reading.cells;
    let m = reading.rings;
    match took {
        Took::Cell => onward(reading, 1, count_to(f.most, n), m),
        Took::Ring => onward(reading, 1, n, count_to(RING_COUNT, m)),
        Took::End => onward(reading, 2, n, m),
        Took::NoLine => refuse(reading),
    }
}

// The next line of a file, without its newline. Its numbers are stored at once, as far as there is
// room; a line that is not of the form stores nothing.
pub fn take_line(reading: Reading, line: &[u8], cells: &mut [f64], rings: &mut [f64]) -> Reading
    ensures { state_left result cells rings ≡ on_line (state_found reading cells rings) line.now }
{
    if reading.stage == 0 {
        return begin(reading, form::read_first_line(line));
    }
    if reading.stage == 1 {
        let took = room::store_line(
            line,
            reading.form,
            reading.cells,
            reading.rings,
            reading.lines,
            cells,
            rings,
        );
        return go_on(reading, took);
    }
    refuse(reading)
}

// The numbers of a bar, a tab before each.
fn put_bar(out: &mut [u8; LINE_ROOM], at: usize, bar: Bar) -> usize
    requires { at + 85 ≤ line_room }
    ensures { Wrote out.old at (fields_text (bar_numbers bar) []) out.new result }
{
    let a = text::put_hex(out, at, bar.z_min_mm);
    let b = text::put_hex(out, a, bar.z_max_mm);
    let c = text::put_hex(out, b, bar.outer_radius_mm);
    let d = text::put_hex(out, c, bar.bore_radius_mm);
    text::put_hex(out, d, bar.cell_mm)
}

// A tab and an edition.
fn put_edition(out: &mut [u8; LINE_ROOM], at: usize, edition: u32) -> usize
    requires { at + 9 ≤ line_room }
    ensures { Wrote out.old at (9 ∷ digits 16 8 edition) out.new result }
{
    let e = text::put(out, at, b"\t");
    text::put_eight(out, e, edition)
}

// The first line of a file of n cells: the form's number, the bar, and the edition.
pub fn stock_line(out: &mut [u8; LINE_ROOM], n: usize, bar: Bar, edition: u32) -> usize
    ensures { WritesLine out (stock_line (written_form n) bar edition) result }
{
    let e = form::put_stock(out, form::written_form(n));
    let f = put_bar(out, e, bar);
    let g = put_edition(out, f, edition);
    text::put(out, g, b"\n")
}

// A cell of n, with its index.
pub fn kept_cell_line(
    out: &mut [u8; LINE_ROOM],
    n: usize,
    i: u64,
    a: f64,
    b: f64,
    c: f64,
    d: f64,
) -> usize
    ensures { WritesLine out (kept_cell_line (written_form n) i a b c d) result }
{
    let e = form::put_cell(out, form::written_form(n), i);
    text::put_four(out, e, a, b, c, d)
}

// The last line of a file, after so many lines.
pub fn end_line(out: &mut [u8; LINE_ROOM], n: u64) -> usize
    ensures { WritesLine out (end_line n) result }
{
    let e = form::put_end(out, n);
    text::put(out, e, b"\n")
}
