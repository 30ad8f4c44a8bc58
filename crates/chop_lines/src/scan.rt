// A profile read as its bytes come, cut anywhere: what its first line says by value, its points in lent
// numbers, the unfinished line in lent bytes.
ghost use Rattle.std.specs.Prelude.{◌≡◌, ◌*◌, ◌≤◌, length, take};
ghost use Rattle.chop_lines.specs.Scan.{state, fresh_scan, refusing, onward, first_line, kept, on_line, found, left, ScanRoom, byte_to, bytes_to, finish_of};

use crate::words::{Words, read_words};
use refusals::Refusal;
use stock::TurnSide;

// A line has so many bytes at most, with its newline.
pub const LINE_LIMIT: usize = 128;

// One point more than a profile has at most, so that too many are seen.
const MOST: usize = refusals::PROFILE_LIMIT + 1;

// Three numbers for each.
pub const NUMBERS: usize = 3 * MOST;

// What the first line says, how many lines were taken, and the number that refused the last of them, or
// 0.
#[derive(Clone, Copy)]
pub struct Scan {
    pub side: TurnSide,
    pub rn: f64,
    pub tolerance: f64,
    pub lines: u64,
    pub refused: u64,
}

// A scan after some bytes: so many points, and of the unfinished line so many bytes are held.
#[derive(Clone, Copy)]
pub struct Taken {
    pub scan: Scan,
    pub points: usize,
    pub len: usize,
}

// Before the first byte.
pub fn fresh() -> Taken
    ensures { result ≡ record { scan = fresh_scan; points = 0; len = 0 } }
{
    let scan = Scan {
        side: TurnSide::Outer,
        rn: 0.0,
        tolerance: 0.0,
        lines: 0,
        refused: 0,
    };
    Taken {
        scan,
        points: 0,
        len: 0,
    }
}

// The next line is not of the form.
fn refuse(scan: Scan) -> Scan
    ensures { result ≡ refusing scan }
{
    let number = refusals::number(Refusal::LineMalformed);
    Scan {
        lines: std::num::wrapping_add_u64(scan.lines, 1),
        refused: number as u64,
        ..scan
    }
}

// The next line is taken.
fn go_on(scan: Scan) -> Scan
    ensures { result ≡ onward scan }
{
    Scan {
        lines: std::num::wrapping_add_u64(scan.lines, 1),
        refused: 0,
        ..scan
    }
}

fn first_line(scan: Scan, words: Words) -> Scan
    ensures { result ≡ first_line scan words }
{
    match words {
        Words::Head(side, rn, tolerance) => Scan {
            side,
            rn,
            tolerance,
            lines: std::num::wrapping_add_u64(scan.lines, 1),
            refused: 0,
        },
        Words::Corner(_, _, _) => refuse(scan),
        Words::Bad => refuse(scan),
    }
}

// Puts a point behind n others, and answers how many there are then.
fn keep(numbers: &mut [f64], n: usize, r: f64, z: f64, bulge: f64) -> usize
    requires { length numbers.old ≡ 771 }
    ensures { take (3 * result) numbers.new ≡ kept (take (3 * n) numbers.old) r z bulge }
{
    if n < MOST {
        let at = 3 * n;
        numbers[at] = r;
        numbers[at + 1] = z;
        numbers[at + 2] = bulge;
        return n + 1;
    }
    n
}

// The next line carried out.
fn on_line(scan: Scan, numbers: &mut [f64], points: usize, line: &[u8]) -> Taken
    requires { length numbers.old ≡ 771 }
    ensures numbers_after { state result.scan (take (3 * result.points) numbers.new)
        ≡ on_line (state scan (take (3 * points) numbers.old)) line.now }
    ensures len_value { result.len ≡ 0 }
{
    let words = read_words(line);
    if scan.lines == 0 {
        return Taken {
            scan: first_line(scan, words),
            points,
            len: 0,
        };
    }
    match words {
        Words::Corner(r, z, bulge) => {
            let n = keep(numbers, points, r, z, bulge);
            Taken {
                scan: go_on(scan),
                points: n,
                len: 0,
            }
        }
        Words::Head(_, _, _) => Taken {
            scan: refuse(scan),
            points,
            len: 0,
        },
        Words::Bad => Taken {
            scan: refuse(scan),
            points,
            len: 0,
        },
    }
}

// One byte more, put behind the first len of a line.
fn take_byte(before: Taken, numbers: &mut [f64], line: &mut [u8], byte: u8) -> Taken
    requires { ScanRoom numbers.old line.old × (before.len ≤ 127) }
    ensures len_value { left result numbers line ≡ byte_to (found before numbers line) byte }
    ensures len_bound { result.len ≤ 127 }
{
    let scan = before.scan;
    let points = before.points;
    let len = before.len;
    if scan.refused != 0 {
        return before;
    }
    if byte == b'\n' {
        return on_line(scan, numbers, points, text::front(line, len));
    }
    if len < LINE_LIMIT - 1 {
        line[len] = byte;
        return Taken {
            scan,
            points,
            len: len + 1,
        };
    }
    Taken {
        scan: refuse(scan),
        points,
        len: 0,
    }
}

// Some bytes more.
pub fn take_bytes(before: Taken, numbers: &mut [f64], line: &mut [u8], bytes: &[u8]) -> Taken
    requires { ScanRoom numbers.old line.old × (before.len ≤ 127) }
    ensures len_value { left result numbers line ≡ bytes_to (found before numbers line) bytes.now }
    ensures len_bound { result.len ≤ 127 }
{
    let mut taken = before;
    for b in bytes {
        taken = take_byte(taken, numbers, line, *b);
    }
    taken
}

// The end of the bytes, where len of an unfinished line are held.
pub fn finish(scan: Scan, len: usize) -> Scan
    ensures { result ≡ finish_of scan len }
{
    if scan.refused != 0 {
        return scan;
    }
    if len != 0 {
        return refuse(scan);
    }
    if scan.lines == 0 {
        return refuse(scan);
    }
    scan
}
