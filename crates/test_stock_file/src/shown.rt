// What a read tells and leaves, in words and as a sum.
use refusals::{Refusal, Refused};
use stock::TurnStock;
use stock_file::Kept;
use text::LINE_ROOM;

// What stands in a lent room; no file has it.
pub const LENT: f64 = -7777.75;

// A sum goes on below 2^55.
const BELOW: u64 = 0x80000000000000;

// Bytes summed behind those before: 257 times the sum, and the byte.
pub fn sum(before: u64, bytes: &[u8]) -> u64 {
    let mut s = before;
    for b in bytes {
        s = ((s % BELOW) * 257).wrapping_add(u64::from(*b));
    }
    s % BELOW
}

// The first n bytes of a line summed behind those before.
pub fn sum_line(before: u64, line: [u8; LINE_ROOM], n: usize) -> u64 {
    sum(before, text::front(&line, n))
}

// A number summed by its 16 digits, with a tab before them.
fn sum_number(before: u64, x: f64) -> u64 {
    let mut field = [0u8; LINE_ROOM];
    let n = text::put_hex(&mut field, 0, x);
    sum_line(before, field, n)
}

fn sum_numbers(before: u64, xs: &[f64]) -> u64 {
    xs.iter().fold(before, |s, x| sum_number(s, *x))
}

// How many numbers of a room were written.
fn written(xs: &[f64]) -> u64 {
    xs.iter().filter(|x| **x != LENT).count() as u64
}

fn put_number(out: &mut [u8], at: usize, r: Refusal) -> usize {
    text::put_count(out, at, refusals::number(r) as u64)
}

fn put_named(out: &mut [u8], at: usize, name: &[u8], n: u64) -> usize {
    let a = text::put_text(out, at, name);
    text::put_count(out, a, n)
}

fn put_stock(out: &mut [u8], at: usize, stock: TurnStock, n: usize) -> usize {
    let a = put_named(
        out,
        at,
        b"a stock of max_cells ",
        stock.spec.max_cells as u64,
    );
    let b = put_named(out, a, b", edition ", stock.stamp.edition as u64);
    let c = put_named(out, b, b", cells ", n as u64);
    put_named(out, c, b", rings ", stock.rings as u64)
}

fn put_refused(out: &mut [u8], at: usize, r: Refusal) -> usize {
    let a = text::put_text(out, at, b"refused ");
    put_number(out, a, r)
}

fn put_refused_at(out: &mut [u8], at: usize, r: Refusal, line: usize) -> usize {
    let a = put_refused(out, at, r);
    let b = text::put_text(out, a, b" at line ");
    text::put_count(out, b, line as u64)
}

// What was read, in words.
fn put_kept(out: &mut [u8], at: usize, kept: Result<Kept, Refused>) -> usize {
    match kept {
        Ok(Kept { stock, cells: n }) => put_stock(out, at, stock, n),
        Err(
            Refused {
                why: r,
                place: None,
            },
        ) => put_refused(out, at, r),
        Err(
            Refused {
                why: r,
                place: Some(line),
            },
        ) => put_refused_at(out, at, r, line),
    }
}

// What was read, as short as can be: 0, or the refusal, with a point before its line.
pub fn put_short(out: &mut [u8], at: usize, kept: Result<Kept, Refused>) -> usize {
    match kept {
        Ok(_) => text::put_text(out, at, b"0"),
        Err(
            Refused {
                why: r,
                place: None,
            },
        ) => put_number(out, at, r),
        Err(
            Refused {
                why: r,
                place: Some(line),
            },
        ) => {
            let a = put_number(out, at, r);
            let b = text::put_text(out, a, b".");
            text::put_count(out, b, line as u64)
        }
    }
}

// The sum of the words for what was read, of the cells and of the rings.
pub fn sum_of(kept: Result<Kept, Refused>, cells: &[f64], rings: &[f64]) -> u64 {
    let mut words = [0u8; 256];
    let n = put_kept(&mut words, 0, kept);
    let s = sum(0, text::front(&words, n));
    sum_numbers(sum_numbers(s, cells), rings)
}

// How many numbers of each room were written.
fn put_rooms(out: &mut [u8], at: usize, cells: &[f64], rings: &[f64]) -> usize {
    let a = text::put_text(out, at, b"; written ");
    let b = text::put_count(out, a, written(cells));
    let c = text::put_text(out, b, b" and ");
    text::put_count(out, c, written(rings))
}

fn put_sum(out: &mut [u8], at: usize, sum: u64) -> usize {
    let a = text::put_text(out, at, b"; sum ");
    let b = text::put_count(out, a, sum);
    text::put_text(out, b, b"\n")
}

// One line: what was read, how many numbers of each room were written, and the sum.
pub fn say_kept(kept: Result<Kept, Refused>, cells: &[f64], rings: &[f64], sum: u64) {
    let mut out = [0u8; 256];
    let a = put_kept(&mut out, 0, kept);
    let b = put_rooms(&mut out, a, cells, rings);
    let c = put_sum(&mut out, b, sum);
    io::write_all(1, text::front(&out, c));
}

// The first n fours of numbers, or none.
pub fn fours(xs: &[f64], n: usize) -> &[f64] {
    xs.get(..n.saturating_mul(4)).unwrap_or(&[])
}

// Line k of a stock's file is put into out; where it is refused, nothing.
pub fn spell(
    out: &mut [u8; LINE_ROOM],
    stock: TurnStock,
    cells: &[f64],
    rings: &[f64],
    k: usize,
) -> usize {
    stock_file::file_line(out, stock, cells, rings, k).unwrap_or(0)
}

// How many lines a stock's file has; where it is refused, none.
pub fn lines_of(stock: TurnStock, cells: &[f64], rings: &[f64]) -> usize {
    stock_file::line_count(stock.spec, cells, rings, stock.rings).unwrap_or(0)
}

fn say_front(line: [u8; LINE_ROOM], n: usize) {
    io::write_all(1, text::front(&line, n));
}

// Line k of a stock's file.
fn say_line(stock: TurnStock, cells: &[f64], rings: &[f64], k: usize) {
    let mut out = [0u8; LINE_ROOM];
    let n = spell(&mut out, stock, cells, rings, k);
    say_front(out, n);
}

fn say_lines(stock: TurnStock, cells: &[f64], rings: &[f64]) {
    let count = lines_of(stock, cells, rings);
    for k in 0..count {
        say_line(stock, cells, rings, k);
    }
}

// The file of what was read, written back.
fn say_written(kept: Result<Kept, Refused>, cells: &[f64], rings: &[f64]) {
    if let Ok(Kept { stock, cells: n }) = kept {
        say_lines(stock, fours(cells, n), rings);
    }
}

// What was read, the room, and the file written back; answers the sum.
pub fn say(kept: Result<Kept, Refused>, cells: &[f64], rings: &[f64]) -> u64 {
    let sum = sum_of(kept, cells, rings);
    say_kept(kept, cells, rings, sum);
    say_written(kept, cells, rings);
    sum
}
