// What a call is given.
use crate::table::PARTS;
use crate::words::LIMIT;
use crate::{table, words};

// The numbers of a list stand one after the other, or an index before each eight.
pub const PLAIN: usize = 0;

pub const BY_EIGHT: usize = usize::MAX;

const NUMBERS: u8 = 78;

const STORE: u8 = 83;

const LIST: u8 = 76;

// A list of changes begins with how many indices and how many numbers are lent, how many changes are
// given, and the edition and the generation of the list. So the first index stands so many words
// after their count, and the first number after theirs.
pub const TO_CHANGES: u64 = 5;

// Where the parts of a call stand, in the order in which any call has them: its spec with the stamp
// of its stock, from word 1 on; cells or points, kept numbers, rings, a size, numbers, changes, more
// points, the room that is lent, the answer. The lengths of rings and changes that are only lent stand
// in the room; of cells and kept numbers that are only lent there is the length alone. Passes stand in
// the same order: targets in the place of rings, kinds in that of a size, their numbers, their parts in
// the place of changes, their lists in that of points.
#[derive(Clone, Copy)]
pub struct Places {
    pub cells: usize,
    pub blocks: usize,
    pub rings: usize,
    pub size: usize,
    pub numbers: usize,
    pub changes: usize,
    pub points: usize,
    pub room: usize,
    pub answer: usize,
}

// How many rings or changes are given: none, where there are more than are lent.
fn rings_given(words: &[u64; LIMIT], i: usize) -> u64 {
    let n = words::at(words, i, 1);
    words::only(n, n <= words::at(words, i, 0) / 4)
}

fn changes_given(words: &[u64; LIMIT], i: usize) -> u64 {
    let n = words::at(words, i, 2);
    let held = (n <= words::at(words, i, 0)) & (n <= words::at(words, i, 1) / 8);
    words::only(n, held)
}

// Where part j ends, which begins at word i: `N` is how many numbers and these, `S` a store of
// rings, `L` a list of changes, a digit so many words.
fn past(words: &[u64; LIMIT], kind: usize, j: usize, i: usize) -> usize {
    let part = table::cell(kind, j);
    match part {
        NUMBERS => words::after(words::after(i, 1), words::at(words, i, 0)),
        STORE => words::after(i, rings_given(words, i) % 65536 * 4 + 2),
        LIST => words::after(i, changes_given(words, i) % 65536 * 9 + TO_CHANGES),
        _ => words::after(i, (part % 16) as u64),
    }
}

// The place of a part, or the other where it has no words.
fn either(i: usize, end: usize, other: usize) -> usize {
    if i == end {
        return other;
    }
    i
}

pub fn places_of(words: &[u64; LIMIT], kind: usize) -> Places {
    let cells = past(words, kind, PARTS, 1);
    let blocks = past(words, kind, PARTS + 1, cells);
    let rings = past(words, kind, PARTS + 2, blocks);
    let size = past(words, kind, PARTS + 3, rings);
    let numbers = past(words, kind, PARTS + 4, size);
    let changes = past(words, kind, PARTS + 5, numbers);
    let points = past(words, kind, PARTS + 6, changes);
    let room = past(words, kind, PARTS + 7, points);
    Places {
        cells,
        blocks,
        rings: either(rings, size, room),
        size,
        numbers,
        changes: either(changes, points, room),
        points,
        room,
        answer: past(words, kind, PARTS + 8, room),
    }
}

// The sizes and numbers of a call, anything where it has none.
#[derive(Clone, Copy)]
pub struct Given {
    pub z_min: f64,
    pub z_max: f64,
    pub outer: f64,
    pub bore: f64,
    pub cell: f64,
    pub max_cells: usize,
    pub edition: u32,
    pub generation: u64,
    pub x: f64,
    pub y: f64,
    pub z: f64,
    pub w: f64,
    pub size: u64,
    pub side: u32,
    pub rings: usize,
    pub changes: usize,
    pub list_edition: u32,
    pub list_generation: u64,
}

// An edition, a side, or a kind: the word's last 32 bits.
fn short(word: u64) -> u32 {
    (word % 4294967296) as u32
}

pub fn numbers_of(words: &[u64; LIMIT], p: Places) -> Given {
    let size = words::at(words, p.size, 0);
    Given {
        z_min: words::number(words, 1, 0),
        z_max: words::number(words, 2, 0),
        outer: words::number(words, 3, 0),
        bore: words::number(words, 4, 0),
        cell: words::number(words, 5, 0),
        max_cells: words::at(words, 6, 0) as usize,
        edition: short(words::at(words, 7, 0)),
        generation: words::at(words, 8, 0),
        x: words::number(words, p.numbers, 0),
        y: words::number(words, p.numbers, 1),
        z: words::number(words, p.numbers, 2),
        w: words::number(words, p.numbers, 3),
        size,
        side: short(size),
        rings: words::at(words, p.rings, 1) as usize,
        changes: words::at(words, p.changes, 2) as usize,
        list_edition: short(words::at(words, p.changes, 3)),
        list_generation: words::at(words, p.changes, 4),
    }
}

// The first n, or none.
fn front<T>(xs: &mut [T], n: u64) -> &mut [T] {
    if n <= xs.len() as u64 {
        return &mut xs[..n as usize];
    }
    &mut xs[..0]
}

// Room for the tests of each ring that a call takes: of one ring one, of a list of so many numbers one for
// each four.
pub fn lent_tests<'a>(kind: usize, len: usize, xs: &'a mut [usize]) -> &'a mut [usize] {
    match kind {
        table::REMOVE_RING => front(xs, 1),
        table::APPLY_MOVE | table::FROM_PARTS => front(xs, len as u64 / 4),
        _ => front(xs, 0),
    }
}

// The numbers from word i on.
fn fill(words: &[u64; LIMIT], i: usize, list: usize, xs: &mut [f64]) {
    for (j, x) in xs.iter_mut().enumerate() {
        let k = j.wrapping_add((j / 8) & list);
        *x = words::number(words, i, k);
    }
}

// The indices of the changes from word i on.
fn fill_indices(words: &[u64; LIMIT], i: usize, xs: &mut [usize]) {
    for (j, x) in xs.iter_mut().enumerate() {
        *x = words::at(words, i, 9 * j) as usize;
    }
}

// The sizes from word i on.
fn fill_sizes(words: &[u64; LIMIT], i: usize, xs: &mut [usize]) {
    for (j, x) in xs.iter_mut().enumerate() {
        *x = words::at(words, i, j) as usize;
    }
}

// The kinds from word i on.
fn fill_kinds(words: &[u64; LIMIT], i: usize, xs: &mut [u32]) {
    for (j, kind) in xs.iter_mut().enumerate() {
        *kind = short(words::at(words, i, j));
    }
}

// Word i says how many numbers are lent, and they stand so many words after it.
pub fn lent<'a>(
    words: &[u64; LIMIT],
    i: usize,
    skip: u64,
    list: usize,
    xs: &'a mut [f64],
) -> &'a mut [f64] {
    let ys = front(xs, words::at(words, i, 0));
    fill(words, words::after(i, skip), list, ys);
    ys
}

// Word i says how many indices are lent, and the changes stand behind it.
pub fn lent_indices<'a>(words: &[u64; LIMIT], i: usize, xs: &'a mut [usize]) -> &'a mut [usize] {
    let ys = front(xs, words::at(words, i, 0));
    fill_indices(words, words::after(i, TO_CHANGES), ys);
    ys
}

// Word i says how many sizes are lent; nothing is put into them.
pub fn room_sizes<'a>(words: &[u64; LIMIT], i: usize, xs: &'a mut [usize]) -> &'a mut [usize] {
    front(xs, words::at(words, i, 0))
}

// Or how many kinds, or numbers.
pub fn room_kinds<'a>(words: &[u64; LIMIT], i: usize, xs: &'a mut [u32]) -> &'a mut [u32] {
    front(xs, words::at(words, i, 0))
}

pub fn room_numbers<'a>(words: &[u64; LIMIT], i: usize, xs: &'a mut [f64]) -> &'a mut [f64] {
    front(xs, words::at(words, i, 0))
}

// Word i says how many sizes are lent, and they stand behind it.
pub fn lent_sizes<'a>(words: &[u64; LIMIT], i: usize, xs: &'a mut [usize]) -> &'a mut [usize] {
    let ys = room_sizes(words, i, xs);
    fill_sizes(words, words::after(i, 1), ys);
    ys
}

// The same of kinds.
pub fn lent_kinds<'a>(words: &[u64; LIMIT], i: usize, xs: &'a mut [u32]) -> &'a mut [u32] {
    let ys = room_kinds(words, i, xs);
    fill_kinds(words, words::after(i, 1), ys);
    ys
}
