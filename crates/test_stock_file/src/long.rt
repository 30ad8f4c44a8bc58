// Files of thousands of lines, made line by line and read line by line.
use crate::shown;
use crate::shown::LENT;
use refusals::{CELL_LIMIT, Refused};
use stock::TurnStock;
use stock_file::{Kept, Taken};
use stock_lines::Bar;
use text::LINE_ROOM;

// The reader's max_cells.
const MAX_CELLS: usize = CELL_LIMIT;

// The edition of each that has one.
const EDITION: u32 = 0x89ABCDEF;

// As many cells as a stock can have, and 257 rings.
const CELL_ROOM: usize = 4 * CELL_LIMIT;

const RING_ROOM: usize = 1028;

// A first line without an edition has so many bytes, without its newline.
const BAR_LONG: usize = 92;

// What a file is made of: a first line of a form, with an edition or without, for a bar of so many bins;
// so many cell lines, of four digits or of five; so many ring lines; and its end, or none.
#[derive(Clone, Copy)]
struct Long {
    form: u64,
    edition: bool,
    five: bool,
    bins: usize,
    cells: usize,
    rings: usize,
    end: bool,
}

// A number of cells that is written with four digits, or with five.
fn cells_with(five: bool) -> usize {
    if five {
        return 4097;
    }
    4096
}

fn float_of(i: usize) -> f64 {
    std::num::nearest_u64_to_f64(i as u64)
}

// The first line, of any form.
fn first(out: &mut [u8; LINE_ROOM], long: Long) -> usize {
    let bar = Bar {
        z_min_mm: 0.0,
        z_max_mm: float_of(long.bins),
        outer_radius_mm: 10.0,
        bore_radius_mm: 0.0,
        cell_mm: 1.0,
    };
    let n = stock_lines::stock_line(out, cells_with(long.form == 3), bar, EDITION);
    if long.form == 1 {
        out[6] = b'1';
    }
    if long.edition {
        return n;
    }
    out[BAR_LONG] = b'\n';
    BAR_LONG + 1
}

// The line of the cell at i, another for each.
fn cell(out: &mut [u8; LINE_ROOM], five: bool, i: usize) -> usize {
    let x = float_of(i) / 16384.0;
    stock_lines::kept_cell_line(out, cells_with(five), i as u64, x, 10.0, 0.0, x / 2.0)
}

// The line of the ring at i; each touches the one before it.
fn ring(out: &mut [u8; LINE_ROOM], i: usize) -> usize {
    let z = float_of(i);
    text::ring_line(out, z, z + 1.0, 2.0, 10.0 - z / 512.0)
}

// Line k of a file; no bytes behind the last.
fn line_of(out: &mut [u8; LINE_ROOM], long: Long, k: usize) -> usize {
    if k == 0 {
        return first(out, long);
    }
    let i = k - 1;
    if i < long.cells {
        return cell(out, long.five, i);
    }
    let j = i - long.cells;
    if j < long.rings {
        return ring(out, j);
    }
    if (j == long.rings) & long.end {
        return stock_lines::end_line(out, k as u64);
    }
    0
}

// Line k summed behind those before it.
fn sum_line(before: u64, long: Long, k: usize) -> u64 {
    let mut out = [0u8; LINE_ROOM];
    let n = line_of(&mut out, long, k);
    shown::sum_line(before, out, n)
}

// How many lines a file has, its end too.
fn count_of(long: Long) -> usize {
    let n = std::num::wrapping_add_usize(long.cells, long.rings);
    std::num::wrapping_add_usize(n, 2)
}

// The sum of a file's bytes.
fn sum_made(long: Long) -> u64 {
    let count = count_of(long);
    (0..count).fold(0, |s, k| sum_line(s, long, k))
}

// The first n bytes of a line read.
fn take_front(
    t: Taken,
    made: [u8; LINE_ROOM],
    n: usize,
    cells: &mut [f64],
    rings: &mut [f64],
    line: &mut [u8; LINE_ROOM],
) -> Taken {
    let reading = t.reading;
    stock_file::take_part(reading, cells, rings, line, t.len, text::front(&made, n))
}

// Line k read.
fn take(
    t: Taken,
    long: Long,
    k: usize,
    cells: &mut [f64],
    rings: &mut [f64],
    line: &mut [u8; LINE_ROOM],
) -> Taken {
    let mut out = [0u8; LINE_ROOM];
    let n = line_of(&mut out, long, k);
    take_front(t, out, n, cells, rings, line)
}

// A file read, a line a part.
fn read(long: Long, cells: &mut [f64], rings: &mut [f64]) -> Result<Kept, Refused> {
    let mut line = [0u8; LINE_ROOM];
    let mut t = Taken {
        reading: stock_file::fresh(),
        len: 0,
    };
    let count = count_of(long);
    for k in 0..count {
        t = take(t, long, k, cells, rings, &mut line);
    }
    let reading = t.reading;
    stock_file::finish(reading, t.len, MAX_CELLS, cells, rings)
}

// Line k of a stock's file, summed behind those before it.
fn sum_spelled(before: u64, stock: TurnStock, cells: &[f64], rings: &[f64], k: usize) -> u64 {
    let mut out = [0u8; LINE_ROOM];
    let n = shown::spell(&mut out, stock, cells, rings, k);
    shown::sum_line(before, out, n)
}

// The sum of a stock's file.
fn sum_lines(stock: TurnStock, cells: &[f64], rings: &[f64]) -> u64 {
    let count = shown::lines_of(stock, cells, rings);
    (0..count).fold(0, |s, k| sum_spelled(s, stock, cells, rings, k))
}

fn sum_written(kept: Result<Kept, Refused>, cells: &[f64], rings: &[f64]) -> u64 {
    match kept {
        Ok(Kept { stock, cells: n }) => sum_lines(stock, shown::fours(cells, n), rings),
        Err(_) => 0,
    }
}

fn say_count(words: &[u8], n: u64) {
    io::write_all(1, words);
    io::print_decimal(1, n);
}

fn say_word(is: bool, words: &[u8]) {
    if is {
        io::write_all(1, words);
    }
}

fn say_name(long: Long) {
    say_count(b"form ", long.form);
    say_word(!long.edition, b" without an edition");
    say_count(b", bins ", long.bins as u64);
    say_count(b", cell lines ", long.cells as u64);
    say_word(long.five, b" of five digits");
    say_count(b", ring lines ", long.rings as u64);
    say_word(!long.end, b", no end");
    io::write_all(1, b": ");
}

fn say_sums(made: u64, written: u64) {
    say_count(b"sum of its bytes ", made);
    say_count(b", written back ", written);
    io::write_all(1, b"\n");
}

// A file, what was read of it, and the sums of its bytes and of those written back.
fn say(long: Long) {
    let mut cells = [LENT; CELL_ROOM];
    let mut rings = [LENT; RING_ROOM];
    say_name(long);
    let kept = read(long, &mut cells, &mut rings);
    let sum = shown::sum_of(kept, &cells, &rings);
    shown::say_kept(kept, &cells, &rings, sum);
    say_sums(sum_made(long), sum_written(kept, &cells, &rings));
}

// A whole file of a form.
fn say_of(form: u64, bins: usize, cells: usize, rings: usize) {
    say(Long {
        form,
        edition: form != 1,
        five: form == 3,
        bins,
        cells,
        rings,
        end: true,
    });
}

// A file that is none: with another number of digits, without its edition, or without its end.
fn say_none(form: u64, edition: bool, five: bool, cells: usize, end: bool) {
    say(Long {
        form,
        edition,
        five,
        bins: cells,
        cells,
        rings: 0,
        end,
    });
}

// Four digits: as many cells as they have, one line more, and one fewer than the bar has bins.
fn say_four(form: u64) {
    say_of(form, 4096, 4096, 0);
    say_of(form, 4096, 4097, 0);
    say_of(form, 4097, 4097, 0);
    say_of(form, 4097, 4096, 0);
}

// Five digits: too few cells, as few as can be, as many as a stock has, more, and one too many.
fn say_five() {
    say_of(3, 1, 0, 0);
    say_of(3, 1, 1, 0);
    say_of(3, 4096, 4096, 0);
    say_of(3, 4097, 4096, 1);
    say_of(3, 4096, 4097, 0);
    say_of(3, 4097, 4097, 0);
    say_of(3, 4097, 4097, 1);
    say_of(3, 16384, 16384, 256);
    say_of(3, 16385, 16385, 0);
    say_of(3, 100000, 100000, 0);
    say_of(3, 100001, 100001, 0);
}

pub fn say_all() {
    say_four(1);
    say_four(2);
    say_of(2, 4096, 4096, 256);
    say_of(2, 4096, 4096, 257);
    say_five();
    say_none(2, true, true, 4096, true);
    say_none(3, true, false, 4097, true);
    say_none(3, false, true, 4097, true);
    say_none(2, true, false, 4096, false);
    say_none(3, true, true, 4096, false);
    say_none(3, true, true, 4097, false);
}
