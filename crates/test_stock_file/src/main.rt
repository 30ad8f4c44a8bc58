// Reads the stock files that its arguments name, whole and in parts of seven bytes, and writes each name
// with what was read, the lent room, and the file written back.
//
// Then come the first file in rooms of several sizes, the second, of form 1, and the third, of form 2, with
// every byte damaged in every way of `ways`, and files of thousands of lines (`long`). A room is told by how many of its numbers were
// written and by a sum of all of them. `scripts/stock-cases` has what is to be written, by a reader of
// its own.
#![tactic(auto)]

mod long;
mod shown;
mod ways;

use refusals::Refused;
use shown::LENT;
use std::fs::File;
use stock_file::{Kept, Taken};
use text::LINE_ROOM;

// A file has so many bytes at most.
const MOST: usize = 4096;

// So many parts of seven bytes hold them.
const PARTS: usize = (MOST + 6) / 7;

// The room that is lent: twelve cells, and twelve rings.
const ROOM: usize = 48;

// The reader's max_cells.
const MAX_CELLS: usize = 512;

// The bytes before a place, and those from it on; past the end, all and none.
pub fn before(bytes: &[u8], at: usize) -> &[u8] {
    bytes.get(..at).unwrap_or(bytes)
}

pub fn behind(bytes: &[u8], at: usize) -> &[u8] {
    bytes.get(at..).unwrap_or(&[])
}

// The first n numbers of a room, or none.
fn room(xs: &mut [f64], n: usize) -> &mut [f64] {
    if n <= xs.len() {
        return &mut xs[..n];
    }
    &mut xs[..0]
}

// A file in one part.
fn read_whole(
    bytes: &[u8],
    most: usize,
    cells: &mut [f64],
    rings: &mut [f64],
) -> Result<Kept, Refused> {
    let mut line = [0u8; LINE_ROOM];
    let t = stock_file::take_part(stock_file::fresh(), cells, rings, &mut line, 0, bytes);
    let reading = t.reading;
    stock_file::finish(reading, t.len, most, cells, rings)
}

// A file in parts of seven bytes, as many as the longest has: those behind its last byte are empty.
fn read_in_parts(
    bytes: &[u8],
    most: usize,
    cells: &mut [f64],
    rings: &mut [f64],
) -> Result<Kept, Refused> {
    let mut line = [0u8; LINE_ROOM];
    let mut t = Taken {
        reading: stock_file::fresh(),
        len: 0,
    };
    for k in 0..PARTS {
        let reading = t.reading;
        let part = before(behind(bytes, 7 * k), 7);
        t = stock_file::take_part(reading, cells, rings, &mut line, t.len, part);
    }
    let reading = t.reading;
    stock_file::finish(reading, t.len, most, cells, rings)
}

// The sum of what a read in parts tells and leaves, in a room of such sizes.
fn sum_in_parts(bytes: &[u8], most: usize, cell_room: usize, ring_room: usize) -> u64 {
    let mut own_cells = [LENT; ROOM];
    let mut own_rings = [LENT; ROOM];
    let kept = read_in_parts(
        bytes,
        most,
        room(&mut own_cells, cell_room),
        room(&mut own_rings, ring_room),
    );
    shown::sum_of(kept, &own_cells, &own_rings)
}

// Tells where a read in parts has another sum.
fn say_parts(bytes: &[u8], most: usize, cell_room: usize, ring_room: usize, sum: u64) {
    if sum_in_parts(bytes, most, cell_room, ring_room) != sum {
        io::write_all(1, b"NOT THE SAME IN PARTS\n");
    }
}

// One read, told in full.
fn say_read(bytes: &[u8], most: usize, cell_room: usize, ring_room: usize) {
    let mut cells = [LENT; ROOM];
    let mut rings = [LENT; ROOM];
    let kept = read_whole(
        bytes,
        most,
        room(&mut cells, cell_room),
        room(&mut rings, ring_room),
    );
    let sum = shown::say(kept, &cells, &rings);
    say_parts(bytes, most, cell_room, ring_room, sum);
}

// What a read tells, and the sum of that and of what it leaves.
#[derive(Clone, Copy)]
struct Summed {
    kept: Result<Kept, Refused>,
    sum: u64,
}

fn read_summed(bytes: &[u8]) -> Summed {
    let mut cells = [LENT; ROOM];
    let mut rings = [LENT; ROOM];
    let kept = read_whole(bytes, MAX_CELLS, &mut cells, &mut rings);
    let sum = shown::sum_of(kept, &cells, &rings);
    Summed { kept, sum }
}

// The sum's last digits, where the read in parts has the same.
fn put_sum(out: &mut [u8], at: usize, sum: u64, in_parts: u64) -> usize {
    if in_parts != sum {
        return text::put_text(out, at, b" NOT THE SAME IN PARTS");
    }
    let e = text::put_text(out, at, b"/");
    text::put_count(out, e, sum % 1000)
}

// What a read of damaged bytes tells, put behind the others, and the sum with it.
fn put_read(out: &mut [u8], at: usize, bytes: &[u8]) -> usize {
    let whole = read_summed(bytes);
    let kept = whole.kept;
    let e = shown::put_short(out, at, kept);
    let in_parts = sum_in_parts(bytes, MAX_CELLS, ROOM, ROOM);
    put_sum(out, e, whole.sum, in_parts)
}

// What a read of a file with the byte at a place damaged in one way tells, put behind the others.
fn put_way(out: &mut [u8], e: usize, bytes: &[u8], at: usize, way: usize) -> usize {
    let mut other = [0u8; MOST];
    let n = ways::damage(&mut other, bytes, at, way);
    let f = text::put_text(out, e, b" ");
    put_read(out, f, text::front(&other, n))
}

fn put_ways(out: &mut [u8], from: usize, bytes: &[u8], at: usize) -> usize {
    let mut e = from;
    for way in 0..ways::COUNT {
        e = put_way(out, e, bytes, at, way);
    }
    e
}

// A file with the byte at a place damaged in every way, one line.
fn say_damaged(bytes: &[u8], at: usize) {
    let mut out = [0u8; 512];
    let e = text::put_count(&mut out, 0, at as u64);
    let f = put_ways(&mut out, e, bytes, at);
    let g = text::put_text(&mut out, f, b"\n");
    io::write_all(1, text::front(&out, g));
}

fn say_all_damaged(bytes: &[u8]) {
    for at in 0..bytes.len() {
        say_damaged(bytes, at);
    }
}

// The first file in a room of its size, in rooms one short, and with max_cells one short.
fn say_rooms(bytes: &[u8]) {
    io::write_all(1, b"room for 3 cells and 3 rings: ");
    say_read(bytes, 3, 12, 12);
    io::write_all(1, b"a cell short: ");
    say_read(bytes, 3, 11, 12);
    io::write_all(1, b"a ring short: ");
    say_read(bytes, 3, 12, 11);
    io::write_all(1, b"no room: ");
    say_read(bytes, 3, 0, 0);
    io::write_all(1, b"max_cells 2: ");
    say_read(bytes, 2, 12, 12);
    io::write_all(1, b"max_cells 0: ");
    say_read(bytes, 0, 12, 12);
}

// What is made of the file at argument i.
fn say_case(i: usize, bytes: &[u8]) {
    say_read(bytes, MAX_CELLS, ROOM, ROOM);
    if i == 1 {
        say_rooms(bytes);
    }
    if (i == 2) | (i == 3) {
        say_all_damaged(bytes);
    }
}

// The open file of that name, which argument i has.
fn run_open(i: usize, name: &[u8], file: &mut File) {
    let mut bytes = io::buffer();
    let n = streams::read_full(file, &mut bytes);
    io::write_all(1, name);
    io::write_all(1, b": ");
    say_case(i, &bytes[..n]);
}

// The file that argument i names, to so many bytes of it.
fn run_case(rt: &HostRuntime, i: usize) {
    let mut path = io::buffer();
    let length = streams::argument(rt, i, &mut path);
    if let Ok(mut file) = streams::open(rt, &path[..length]) {
        run_open(i, &path[..length], &mut file);
    }
}

fn main(rt: HostRuntime) {
    if !streams::hold_standard(&rt) {
        return;
    }
    let n = streams::argument_count(&rt);
    for i in 1..n {
        run_case(&rt, i);
    }
    long::say_all();
}
