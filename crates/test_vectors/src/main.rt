// Replays recorded calls of the library by the functions of the C boundary, one a line, and writes for every
// kind of call how many there were, and how many answered something else than recorded.
//
// A line has the call's name, its inputs, `=`, and the number that it answers, followed where that
// is 0 by what it wrote, and where it is a refusal that tells a place by that. A call that takes rings
// writes last how many tests each ring took, one number a ring. A stock's edition and
// generation stand behind its spec, those of a list behind the count of its changes; a call that
// writes a stock writes the generation first. A check of passes writes its verdict, the generation, the
// place and the reason where it has them, and then the cells with their kept numbers. Fields are parted
// by single spaces. An f64 is the 16 digits of its bits, everything else is decimal. `N*M` stands for M
// fields, each the one N places before it. The recorded calls are `compare record 160 2026`, with the
// answers of the Rust: a sample of each family, and the calls at the limits.
#![tactic(auto)]

mod answers;
mod calls;
mod given;
mod replays;
mod table;
mod words;

use table::COUNTS;
use words::{LIMIT, Reading};

const NEWLINE: u8 = 10;

const SPACE: u8 = 32;

// Replays a line that ends before word `end`, and counts it.
fn take_line(counts: &mut [u64; COUNTS], words: &[u64; LIMIT], end: usize) {
    let kind = table::kind_of(words::at(words, 0, 0));
    let m = replays::replay(words, kind);
    let same = m.ok & (m.at == end) & (end <= LIMIT) & (kind != table::UNREAD);
    table::count(counts, kind, same);
}

// One byte more of a line.
fn take_byte(counts: &mut [u64; COUNTS], words: &mut [u64; LIMIT], r: Reading, b: u8) -> Reading {
    if b == SPACE {
        return words::close(words, r);
    }
    if b == NEWLINE {
        let whole = words::close(words, r);
        take_line(counts, words, whole.k);
        return words::blank(0, 0);
    }
    words::take(r, b)
}

fn take_part(
    counts: &mut [u64; COUNTS],
    words: &mut [u64; LIMIT],
    r: Reading,
    bytes: &[u8],
) -> Reading {
    let mut at = r;
    for b in bytes {
        at = take_byte(counts, words, at, *b);
    }
    at
}

// After a read: how far the unfinished line is read, and whether there may be more.
#[derive(Clone, Copy)]
struct Turn {
    at: Reading,
    more: bool,
}

// Reads once, and takes what came.
fn take_some(counts: &mut [u64; COUNTS], words: &mut [u64; LIMIT], at: Reading) -> Turn {
    let mut buf = io::large_buffer();
    let n = io::read_full(0, &mut buf);
    Turn {
        at: take_part(counts, words, at, &buf[..n]),
        more: 0 < n,
    }
}

// Reads to the end.
fn take_all(counts: &mut [u64; COUNTS], words: &mut [u64; LIMIT]) {
    let mut at = words::blank(0, 0);
    for _ in 0..u64::MAX {
        let t = take_some(counts, words, at);
        at = t.at;
        if !t.more {
            return;
        }
    }
}

fn main() {
    let mut counts = [0u64; COUNTS];
    let mut words = [0u64; LIMIT];
    take_all(&mut counts, &mut words);
    table::write(&counts);
}
