// Two stocks of thousands of bins, of which every bin is unequal: what is written of the first and of the
// last. They are made here: no file of so many lines is kept.
use side_by_side::CHUNK_ROOM;

// The numbers of 4,097 cells.
const ROOM: usize = 16388;

// The first n numbers of a room, or none.
fn front(xs: &[f64], n: usize) -> &[f64] {
    xs.get(..n).unwrap_or(&[])
}

// Chunk c of two stocks without rings.
fn write_chunk(first: &[f64], second: &[f64], c: usize) {
    let mut out = [0u8; CHUNK_ROOM];
    let rings = [0.0f64; 4];
    let n = side_by_side::chunk(&mut out, first, &rings, 0, second, &rings, 0, c);
    io::write_all(1, text::front(&out, n));
}

// Two stocks of so many numbers, and of so many bins with the last one.
fn say_bins(numbers: usize, last: usize) {
    let first = [1.0f64; ROOM];
    let second = [2.0f64; ROOM];
    io::write_all(1, b"bins ");
    io::print_decimal(1, (numbers / 4) as u64);
    io::write_all(1, b"\n");
    write_chunk(front(&first, numbers), front(&second, numbers), 0);
    write_chunk(front(&first, numbers), front(&second, numbers), last);
}

pub fn say_all() {
    say_bins(16384, 4095);
    say_bins(16388, 4096);
}
