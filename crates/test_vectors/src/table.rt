// The kinds of calls: their names and forms, and how many were replayed of each.
use crate::words;

pub const ROOT: usize = 0;

pub const LENGTH: usize = 1;

pub const VALIDATE: usize = 2;

pub const BIN: usize = 3;

pub const NEW: usize = 4;

pub const PREVIEW: usize = 5;

pub const PREVIEW_POLYGON: usize = 6;

pub const THREAD_CUT: usize = 7;

pub const THREAD_CUT_INNER: usize = 8;

pub const DRILL: usize = 9;

pub const CHANGES_TO: usize = 10;

pub const APPLY: usize = 11;

pub const REMOVE_RING: usize = 12;

pub const APPLY_MOVE: usize = 13;

pub const FROM_PARTS: usize = 14;

pub const VOLUME: usize = 15;

pub const ENVELOPE_AT: usize = 16;

pub const ENVELOPE_ORDER: usize = 17;

pub const WITHIN: usize = 18;

pub const RADIUS_AT: usize = 19;

pub const RADIUS_RANGE: usize = 20;

pub const SEGMENTS: usize = 21;

pub const EXCESS: usize = 22;

pub const PENETRATION: usize = 23;

pub const ERODED: usize = 24;

pub const RENEW: usize = 25;

pub const RANGE: usize = 26;

pub const CHECK_PASSES: usize = 27;

pub const PROPOSE_PASSES: usize = 28;

// A line whose name is not in the table.
pub const UNREAD: usize = 29;

// Calls of kind k at k, those that differ at APART + k.
const APART: usize = 32;

pub const COUNTS: usize = 64;

// A row has a name, the parts of a call from column PARTS on (`given`), and how many sizes and
// numbers the call writes besides lists.
const ROW: usize = 28;

const ROWS: usize = 30;

const NAME: usize = 16;

pub const PARTS: usize = 16;

pub const SIZES: usize = 26;

pub const NUMBERS: usize = 27;

const SPACE: u8 = 32;

// Byte j of the row of kind k.
pub fn cell(k: usize, j: usize) -> u8 {
    let rows = b"\
root            000001000 01\
length          000002000 01\
validate        600000000 10\
bin             600010000 02\
new             811000000 10\
preview         8N00110N2 00\
preview_polygon 8N00110N2 00\
thread_cut      8N0003002 00\
thread_cut_inner8N0003002 00\
drill           8N0003002 00\
changes_to      8N00000N2 00\
apply           8NN000L00 10\
remove_ring     600S14000 10\
apply_move      8NNS00LN0 10\
from_parts      8NN0000N1 10\
volume          6N0S00000 02\
envelope_at     6N0001000 12\
envelope_order  0N0000000 10\
within          0N0002000 20\
radius_at       0N0001000 11\
radius_range    0N0002000 12\
segments        0N0001001 00\
excess          0N00010N0 11\
penetration     0N00010N0 11\
eroded          0N0002000 11\
renew           6NN000000 00\
range           6NN002000 12\
check_passes    8NNNNNNN2 20\
propose_passes  6N0N01003 10\
unread          000000000 00";
    rows[ROW * (k % ROWS) + j % ROW]
}

// The digit in column j of the row of kind k.
pub fn digit(k: usize, j: usize) -> u64 {
    (cell(k, j) % 16) as u64
}

// The number that the name of kind k reads as.
fn named(k: usize) -> u64 {
    let mut r = words::blank(0, 0);
    for j in 0..NAME {
        let b = cell(k, j);
        if b == SPACE {
            return words::value(r);
        }
        r = words::with_digit(r, b);
    }
    words::value(r)
}

// Which kind of call a line with this first word is.
pub fn kind_of(name: u64) -> usize {
    (0..UNREAD).find(|k| named(*k) == name).unwrap_or(UNREAD)
}

// One call more of kind k, as recorded or not.
pub fn count(counts: &mut [u64; COUNTS], k: usize, same: bool) {
    let i = k % APART;
    counts[i] = std::num::wrapping_add_u64(counts[i], 1);
    counts[APART + i] = std::num::wrapping_add_u64(counts[APART + i], !same as u64);
}

fn write_name(k: usize) {
    for j in 0..NAME {
        let b = cell(k, j);
        if b == SPACE {
            return;
        }
        io::write_all(1, &[b]);
    }
}

// A line for each kind: its name, how many calls, how many differ.
pub fn write(counts: &[u64; COUNTS]) {
    for k in 0..ROWS {
        write_name(k);
        io::write_all(1, b" ");
        io::print_decimal(1, counts[k]);
        io::write_all(1, b" ");
        io::print_decimal(1, counts[APART + k]);
        io::write_all(1, b"\n");
    }
}
