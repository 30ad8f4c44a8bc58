// The words of a line as its bytes come, each a number. Sixteen digits are the bits of an f64, any
// others are decimal: no size in a recording has sixteen. A letter or a sign is some digit below 16,
// so that a name is a number too.
pub const LIMIT: usize = 172032;

// How `=` and `-1` read.
pub const EQUALS: u64 = 13;

pub const MINUS_ONE: u64 = 131;

const STAR: u8 = 42;

const DIGITS: u64 = 16;

// Word k as far as it was read, and where it says a repeat, how many places back that goes.
#[derive(Clone, Copy)]
pub struct Reading {
    pub k: usize,
    hex: u64,
    decimal: u64,
    digits: u64,
    back: usize,
}

pub fn blank(k: usize, back: usize) -> Reading {
    Reading {
        k,
        hex: 0,
        decimal: 0,
        digits: 0,
        back,
    }
}

// One digit more.
pub fn with_digit(r: Reading, b: u8) -> Reading {
    let d = ((b % 16 + 9 * (b / 64)) % 16) as u64;
    Reading {
        k: r.k,
        hex: r.hex % 0x1000_0000_0000_0000 * 16 + d,
        decimal: std::num::wrapping_add_u64(r.decimal % 1844674407370955162 * 10, d),
        digits: r.digits % 64 + 1,
        back: r.back,
    }
}

// One byte more of a word.
pub fn take(r: Reading, b: u8) -> Reading {
    if b == STAR {
        return blank(r.k, r.decimal as usize);
    }
    with_digit(r, b)
}

pub fn value(r: Reading) -> u64 {
    if r.digits == DIGITS {
        return r.hex;
    }
    r.decimal
}

// How many words it stands for.
fn times(r: Reading) -> u64 {
    if r.back == 0 {
        return 1;
    }
    r.decimal % 65536
}

// The words from `first` to `end` are each the one so many places before it.
fn again(words: &mut [u64; LIMIT], first: usize, end: usize, back: usize) {
    for k in first..end {
        let from = k.wrapping_sub(back);
        words[k % LIMIT] = words[from % LIMIT];
    }
}

// The word is whole. A word that is no repeat is the one 0 places before it.
pub fn close(words: &mut [u64; LIMIT], r: Reading) -> Reading {
    let k = r.k;
    words[k % LIMIT] = value(r);
    let end = after(k, times(r));
    again(words, k, end, r.back);
    blank(end, 0)
}

// The place so many words after i.
pub fn after(i: usize, n: u64) -> usize {
    std::num::wrapping_add_usize(i, n as usize)
}

// Word i + k. Past the limit it is another, and such a line does not end where it should.
pub fn at(words: &[u64; LIMIT], i: usize, k: usize) -> u64 {
    words[std::num::wrapping_add_usize(i, k) % LIMIT]
}

// Word i + k as the bits of an f64, a NaN for every pattern of one.
pub fn number(words: &[u64; LIMIT], i: usize, k: usize) -> f64 {
    text::float(at(words, i, k))
}

// n where b holds, else 0.
pub fn only(n: u64, b: bool) -> u64 {
    n & std::num::wrapping_sub_u64(0, b as u64)
}
