// A line behind the first, its numbers stored in the lent room as far as that reaches.
ghost use Rattle.std.specs.Prelude.{◌≡◌, [], ◌∷◌};
ghost use Rattle.stock_lines.specs.Form.{form_of};
ghost use Rattle.stock_lines.specs.Room.{kept, stored, taken, cell_at, ring_turn, end_turn, took_of, rings_left_after};

use crate::form;
use crate::form::Four;
use refusals::RING_LIMIT;

// What a line behind the first was.
#[derive(Clone, Copy)]
pub enum Took {
    Cell,
    Ring,
    End,
    NoLine,
}

// Four numbers at place k of a lent list, if its room and the limit reach there.
fn keep(list: &mut [f64], limit: usize, k: usize, four: Four)
    ensures { list.new ≡ kept limit list.old k (four.a ∷ four.b ∷ four.c ∷ four.d ∷ []) }
{
    if k < limit {
        if k < list.len() / 4 {
            let at = 4 * k;
            list[at] = four.a;
            list[at + 1] = four.b;
            list[at + 2] = four.c;
            list[at + 3] = four.d;
        }
    }
}

// Whether a line held numbers; they are stored at place k.
fn store(list: &mut [f64], limit: usize, k: usize, four: Option<Four>) -> bool
    ensures value { result ≡ taken four }
    ensures list_after { list.new ≡ stored limit list.old k four }
{
    match four {
        Some(four) => {
            keep(list, limit, k, four);
            true
        }
        None => false,
    }
}

// The line of the cell at n after m rings: no cell's line stands after a ring's.
fn cell_in_turn(line: &[u8], form: u64, n: usize, m: usize) -> Option<Four>
    ensures { result ≡ cell_at form n m line.now }
{
    let f = form::form_of(form);
    if m == 0 {
        if n < f.most {
            return form::read_cell_line(line, form, n as u64);
        }
    }
    None
}

// Whether a line is the cell's at n after m rings; its numbers are stored.
fn store_cell(cells: &mut [f64], line: &[u8], form: u64, n: usize, m: usize) -> bool
    ensures value { result ≡ taken (cell_at form n m line.now) }
    ensures cells_after { cells.new ≡ stored (form_of form).most cells.old n (cell_at form n m line.now) }
{
    let f = form::form_of(form);
    store(cells, f.most, n, cell_in_turn(line, form, n, m))
}

// The line of a ring after n cell lines: there are to be enough.
fn ring_in_turn(line: &[u8], form: u64, n: usize) -> Option<Four>
    ensures { result ≡ ring_turn form n line.now }
{
    let f = form::form_of(form);
    if f.least <= n {
        return form::read_ring_line(line);
    }
    None
}

// Whether a line is the last, after n cell lines and `before` lines in all: there are to be enough.
fn end_in_turn(line: &[u8], form: u64, n: usize, before: u64) -> bool
    ensures { result ≡ end_turn form n before line.now }
{
    let f = form::form_of(form);
    if f.least <= n {
        return form::is_end_line(line, before);
    }
    false
}

// One line behind the first of a file of this form, after n cell lines and m ring lines, of `before` lines in all.
pub fn store_line(
    line: &[u8],
    form: u64,
    n: usize,
    m: usize,
    before: u64,
    cells: &mut [f64],
    rings: &mut [f64],
) -> Took
    ensures value { result ≡ took_of form n m before line.now }
    ensures cells_after { cells.new ≡ stored (form_of form).most cells.old n (cell_at form n m line.now) }
    ensures rings_after { rings.new ≡ rings_left_after form n m line.now rings.old }
{
    if store_cell(cells, line, form, n, m) {
        return Took::Cell;
    }
    let ring = ring_in_turn(line, form, n);
    if store(rings, RING_LIMIT, m, ring) {
        return Took::Ring;
    }
    if end_in_turn(line, form, n, before) {
        return Took::End;
    }
    Took::NoLine
}
