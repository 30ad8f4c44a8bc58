// One line of a stock file, read into its numbers: the writer's own prefix, and so many fields.
ghost use Rattle.std.specs.Prelude.{◌≡◌, ◌+◌, ◌<◌, length, drop};
ghost use Rattle.text.specs.Same.{same_bytes};
ghost use Rattle.text.specs.Wrote.{WritesLine};
ghost use Rattle.stock_lines.specs.Form.{form_of, written_form, fields_of, begins_with, line_of, four_of, five_of, stock_prefix, cell_prefix, ring_prefix, end_text};
ghost use Rattle.stock_lines.specs.First.{form_in, edition_field, edition_of, first_of};

use crate::Bar;
use text::LINE_ROOM;

// What a form fixes: the digits of a cell's index, how many cell lines there are at least and at most,
// and whether the first line has an edition.
#[derive(Clone, Copy)]
pub struct Form {
    pub digits: usize,
    pub least: usize,
    pub most: usize,
    pub edition: bool,
}

// Stocks of so many cells at most have indices of four digits.
const FEW_CELLS: usize = 4096;

// Form 3 has so many at least.
const MANY_CELLS: usize = FEW_CELLS + 1;

// Five digits have so many indices.
const MOST_CELLS: usize = 100000;

// `stock`, the form's number and the bar are so many bytes.
const BAR_LONG: usize = 92;

// The form of a number. From form 2 on a file has an edition; form 3 is that of more cells than the
// others have.
pub fn form_of(number: u64) -> Form
    ensures { result ≡ form_of number }
{
    if 3 <= number {
        return Form {
            digits: 5,
            least: MANY_CELLS,
            most: MOST_CELLS,
            edition: 2 <= number,
        };
    }
    Form {
        digits: 4,
        least: 0,
        most: FEW_CELLS,
        edition: 2 <= number,
    }
}

// The form that a stock of n cells is written in. Form 1 is still read.
pub fn written_form(n: usize) -> u64
    ensures { result ≡ written_form n }
{
    if n <= FEW_CELLS {
        return 2;
    }
    3
}

// The numbers of a cell or of a ring, in their order.
#[derive(Clone, Copy)]
pub struct Four {
    pub a: f64,
    pub b: f64,
    pub c: f64,
    pub d: f64,
}

// What a first line says: its form, its edition and its bar.
#[derive(Clone, Copy)]
pub struct First {
    pub form: u64,
    pub edition: u32,
    pub bar: Bar,
}

// Four numbers from a place on, and nothing behind them.
fn four_from(s: &[u8], at: usize) -> Option<Four>
    requires { at + 68 ≡ length s.now }
    ensures { result ≡ four_of (fields_of 4 (drop at s.now)) }
{
    let a = text::read_hex(s, at)?;
    let b = text::read_hex(s, at + 17)?;
    let c = text::read_hex(s, at + 34)?;
    let d = text::read_hex(s, at + 51)?;
    Some(Four { a, b, c, d })
}

// The five numbers of a bar from a place on, and nothing behind them.
fn five_from(s: &[u8], at: usize) -> Option<Bar>
    requires { at + 85 ≡ length s.now }
    ensures { result ≡ five_of (fields_of 5 (drop at s.now)) }
{
    let a = text::read_hex(s, at)?;
    let b = text::read_hex(s, at + 17)?;
    let c = text::read_hex(s, at + 34)?;
    let d = text::read_hex(s, at + 51)?;
    let e = text::read_hex(s, at + 68)?;
    Some(Bar {
        z_min_mm: a,
        z_max_mm: b,
        outer_radius_mm: c,
        bore_radius_mm: d,
        cell_mm: e,
    })
}

// A line begins with the prefix, and has so many bytes behind it.
fn begins(line: &[u8], prefix: &[u8], rest: usize) -> bool
    requires { length prefix.now + rest < 1000 }
    ensures { result ≡ begins_with prefix.now rest line.now }
{
    let n = prefix.len();
    if line.len() != n + rest {
        return false;
    }
    text::same(&line[..n], prefix)
}

// A line of four numbers behind the prefix.
fn read_four(line: &[u8], prefix: &[u8]) -> Option<Four>
    requires { length prefix.now < 100 }
    ensures { result ≡ four_of (line_of prefix.now 4 line.now) }
{
    if begins(line, prefix, 68) {
        return four_from(line, prefix.len());
    }
    None
}

// A ring's line, without its newline.
pub fn read_ring_line(line: &[u8]) -> Option<Four>
    ensures { result ≡ four_of (line_of ring_prefix 4 line.now) }
{
    read_four(line, b"ring")
}

// `stock` and the form's number.
pub fn put_stock(out: &mut [u8; LINE_ROOM], form: u64) -> usize
    ensures { WritesLine out (stock_prefix form) result }
{
    let e = text::put(out, 0, b"stock\t");
    text::put_digits(out, e, 1, form)
}

// `cell` and the index.
pub fn put_cell(out: &mut [u8; LINE_ROOM], form: u64, index: u64) -> usize
    ensures { WritesLine out (cell_prefix form index) result }
{
    let f = form_of(form);
    let e = text::put(out, 0, b"cell\t");
    text::put_digits(out, e, f.digits, index)
}

// `end` and the count of the lines before it.
pub fn put_end(out: &mut [u8; LINE_ROOM], count: u64) -> usize
    ensures { WritesLine out (end_text count) result }
{
    let e = text::put(out, 0, b"end\t");
    text::put_decimal(out, e, count)
}

// The line of the cell at index, without its newline.
pub fn read_cell_line(line: &[u8], form: u64, index: u64) -> Option<Four>
    ensures { result ≡ four_of (line_of (cell_prefix form index) 4 line.now) }
{
    let mut p = [0; LINE_ROOM];
    let n = put_cell(&mut p, form, index);
    read_four(line, &p[..n])
}

// `stock`, the form's number and five numbers, and nothing behind them.
fn read_bar(line: &[u8], form: u64) -> Option<Bar>
    ensures { result ≡ five_of (line_of (stock_prefix form) 5 line.now) }
{
    let mut p = [0; LINE_ROOM];
    let n = put_stock(&mut p, form);
    if begins(line, &p[..n], 85) {
        return five_from(line, n);
    }
    None
}

// The form that a first line is to have: 2 or 3 where its seventh byte says so, and else 1.
fn form_in(line: &[u8]) -> u64
    ensures { result ≡ form_in line.now }
{
    if line.len() < 7 {
        return 1;
    }
    let b = line[6];
    if b == b'2' {
        return 2;
    }
    if b == b'3' {
        return 3;
    }
    1
}

// A tab and 8 digits, and nothing behind them.
fn read_field(s: &[u8]) -> Option<u32>
    ensures { result ≡ edition_field s.now }
{
    if s.len() == 0 {
        return None;
    }
    if s[0] == b'\t' {
        return text::read_eight(&s[1..]);
    }
    None
}

// The edition behind the bar: 0 where the form has none and nothing stands there.
fn read_edition(s: &[u8], form: u64) -> Option<u32>
    ensures { result ≡ edition_of form s.now }
{
    let f = form_of(form);
    if f.edition {
        return read_field(s);
    }
    if s.len() == 0 {
        return Some(0);
    }
    None
}

// The first line, without its newline.
pub fn read_first_line(line: &[u8]) -> Option<First>
    ensures { result ≡ first_of line.now }
{
    if line.len() < BAR_LONG {
        return None;
    }
    let form = form_in(line);
    let bar = read_bar(&line[..BAR_LONG], form)?;
    let edition = read_edition(&line[BAR_LONG..], form)?;
    Some(First { form, edition, bar })
}

// The last line, without its newline, after so many lines.
pub fn is_end_line(line: &[u8], count: u64) -> bool
    ensures { result ≡ same_bytes line.now (end_text count) }
{
    let mut p = [0; LINE_ROOM];
    let n = put_end(&mut p, count);
    text::same(line, &p[..n])
}
