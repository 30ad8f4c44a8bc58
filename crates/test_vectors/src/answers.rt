// What a call answered, held to what its line says.
use crate::given::{BY_EIGHT, PLAIN};
use crate::words;
use crate::words::LIMIT;

// What a call returned, and the sizes and numbers that it wrote.
#[derive(Clone, Copy)]
pub struct Said {
    pub code: u32,
    pub sizes: u64,
    pub n: u64,
    pub m: u64,
    pub numbers: u64,
    pub x: f64,
    pub y: f64,
}

// What a call that lists changes told of the list.
#[derive(Clone, Copy)]
pub struct Told {
    pub count: u64,
    pub edition: u64,
    pub generation: u64,
}

// How far a line was held to what was said, and whether it says the same.
#[derive(Clone, Copy)]
pub struct Mark {
    pub at: usize,
    pub ok: bool,
}

// Bit for bit, but that every NaN is the same.
fn same(x: f64, y: f64) -> bool {
    ((x == y) & (1.0 / x == 1.0 / y)) | ((x != x) & (y != y))
}

// The first n of xs are the numbers from word i on.
pub fn numbers_are(words: &[u64; LIMIT], i: usize, list: usize, xs: &[f64], n: u64) -> bool {
    let mut ok = n <= xs.len() as u64;
    for (j, x) in xs.iter().enumerate() {
        let k = j.wrapping_add((j / 8) & list);
        ok = ok & ((n <= j as u64) | same(*x, words::number(words, i, k)));
    }
    ok
}

// All of xs are 0.
pub fn are_zero(xs: &[f64]) -> bool {
    xs.iter().all(|x| same(*x, 0.0))
}

// The first n of xs are the indices of the changes from word i on.
fn indices_are(words: &[u64; LIMIT], i: usize, xs: &[usize], n: u64) -> bool {
    let mut ok = n <= xs.len() as u64;
    for (j, x) in xs.iter().enumerate() {
        ok = ok & ((n <= j as u64) | (*x as u64 == words::at(words, i, 9 * j)));
    }
    ok
}

// Of a list whose first n were written: x at place j is the word, behind them it is as it was lent.
fn is_told(n: u64, j: u64, x: u64, word: u64) -> bool {
    if j < n {
        return x == word;
    }
    x == UNTOLD as u64
}

// The first n of xs are the sizes from word i on, and the others are as they were lent.
fn sizes_are(words: &[u64; LIMIT], i: usize, xs: &[usize], n: u64) -> bool {
    let mut ok = n <= xs.len() as u64;
    for (j, x) in xs.iter().enumerate() {
        ok = ok & is_told(n, j as u64, *x as u64, words::at(words, i, j));
    }
    ok
}

// The same of kinds.
fn kinds_are(words: &[u64; LIMIT], i: usize, xs: &[u32], n: u64) -> bool {
    let mut ok = n <= xs.len() as u64;
    for (j, kind) in xs.iter().enumerate() {
        ok = ok & is_told(n, j as u64, u64::from(*kind), words::at(words, i, j));
    }
    ok
}

// From word i on: `=`, the number returned, the sizes and the numbers.
pub fn answer(words: &[u64; LIMIT], i: usize, s: Said) -> Mark {
    let k = words::after(words::after(i, 2), s.sizes);
    Mark {
        at: words::after(k, s.numbers),
        ok: (words::at(words, i, 0) == words::EQUALS)
            & (words::at(words, i, 1) == s.code as u64)
            & ((s.sizes < 1) | (words::at(words, i, 2) == s.n))
            & ((s.sizes < 2) | (words::at(words, i, 3) == s.m))
            & ((s.numbers < 1) | same(words::number(words, k, 0), s.x))
            & ((s.numbers < 2) | same(words::number(words, k, 1), s.y)),
    }
}

// What stands in *position, and in what a list is to be told in, before a call.
pub const UNTOLD: usize = 7777777;

// The place of a refusal that told one.
pub fn place(words: &[u64; LIMIT], m: Mark, position: usize) -> Mark {
    let told = position != UNTOLD;
    Mark {
        at: words::after(m.at, words::only(1, told)),
        ok: m.ok & (!told | (words::at(words, m.at, 0) == position as u64)),
    }
}

// Where they are asked: how many, and n numbers.
pub fn list(words: &[u64; LIMIT], m: Mark, asked: bool, count: u64, n: u64, xs: &[f64]) -> Mark {
    let i = words::after(m.at, words::only(1, asked));
    let k = words::only(n, asked);
    Mark {
        at: words::after(i, k),
        ok: m.ok
            & (!asked | (words::at(words, m.at, 0) == count))
            & numbers_are(words, i, PLAIN, xs, k),
    }
}

// Each of xs is told by the words from i on, or as it was before the call.
fn tests_are(words: &[u64; LIMIT], i: usize, told: bool, xs: &[usize]) -> bool {
    let mut ok = true;
    for (j, x) in xs.iter().enumerate() {
        let same = *x as u64 == words::at(words, i, j);
        ok = ok & ((told & same) | (!told & (*x == UNTOLD)));
    }
    ok
}

// Where they are told: the tests of each ring. Else they are as they were.
pub fn tests(words: &[u64; LIMIT], m: Mark, told: bool, xs: &[usize]) -> Mark {
    Mark {
        at: words::after(m.at, words::only(xs.len() as u64, told)),
        ok: m.ok & tests_are(words, m.at, told, xs),
    }
}

// The list is the one whose count, edition and generation the words from i on are.
fn list_is(words: &[u64; LIMIT], i: usize, list: Told) -> bool {
    (words::at(words, i, 0) == list.count)
        & (words::at(words, i, 1) == list.edition)
        & (words::at(words, i, 2) == list.generation)
}

// A refusal left the three as they were.
fn list_stays(list: Told) -> bool {
    (list.count == UNTOLD as u64)
        & (list.edition == UNTOLD as u64)
        & (list.generation == UNTOLD as u64)
}

// Where they are asked: a list of changes, and these.
pub fn changes(
    words: &[u64; LIMIT],
    m: Mark,
    asked: bool,
    list: Told,
    indices: &[usize],
    records: &[f64],
) -> Mark {
    let i = words::after(m.at, words::only(3, asked));
    let k = words::only(list.count, asked) % 65536;
    Mark {
        at: words::after(i, 9 * k),
        ok: m.ok
            & (!asked | list_is(words, m.at, list))
            & (asked | list_stays(list))
            & indices_are(words, i, indices, k)
            & numbers_are(words, words::after(i, 1), BY_EIGHT, records, 8 * k),
    }
}

// So many passes: their kinds, their numbers by sixes, and their parts by twos. A refusal has none.
pub fn passes(
    words: &[u64; LIMIT],
    m: Mark,
    count: u64,
    kinds: &[u32],
    numbers: &[f64],
    parts: &[usize],
) -> Mark {
    let k = count % 65536;
    let i = words::after(m.at, k);
    let j = words::after(i, 6 * k);
    Mark {
        at: words::after(j, 2 * k),
        ok: m.ok
            & kinds_are(words, m.at, kinds, k)
            & numbers_are(words, i, PLAIN, numbers, 6 * k)
            & sizes_are(words, j, parts, 2 * k),
    }
}
