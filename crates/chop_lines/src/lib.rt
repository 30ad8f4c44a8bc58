// A profile's arcs as lines of a job: all that the program `chop` does.
//
// What comes in are lines as a job's: `profile` side rn tolerance, then `point` r z bulge each. What goes
// out is a `line` of a job for each chord of the profile (crate `profile`), or the one refusal, which is
// decided before the first byte. The profile is the path of the nose's centre. Bytes are taken as they
// come, to the end of the input; a read that fails cuts the input off inside its next line.
#![tactic(auto)]

mod number;
mod scan;
mod spell;
mod words;

ghost use Rattle.std.specs.Prelude.{◌≡◌, ◌*◌, ◌≤◌, take};
ghost use Rattle.streams.specs.Brought.{held_by};
ghost use Rattle.chop_lines.specs.Scan.{state, finish_of, ScanRoom};
ghost use Rattle.chop_lines.specs.Reads.{ReadsOn, ReadsSome};
ghost use Rattle.chop_lines.specs.Chopped.{text_of, AllPut, ChopsSome};

use scan::{LINE_LIMIT, NUMBERS, Scan, Taken};
use std::io::Write;
use std::rt::Clock;
use streams::{GATHERED, Got, Out};

// Five numbers for each of 4,096 chords.
const CHORD_NUMBERS: usize = 5 * refusals::SEGMENT_LIMIT;

// A profile at the end of its input: its scan, and so many points.
#[derive(Clone, Copy)]
struct Read {
    scan: Scan,
    points: usize,
}

// A scan after a read, and what the read told.
#[derive(Clone, Copy)]
struct Turn {
    taken: Taken,
    got: Got,
}

// Reads once, and takes what came.
fn take_some(
    rt: &(impl Eprint + Clock),
    from: &mut impl std::io::Read,
    before: Taken,
    numbers: &mut [f64],
    line: &mut [u8],
) -> Turn
    requires { ScanRoom numbers.old line.old × (before.len ≤ 127) }
    ensures { ReadsOn before numbers line result.taken }
{
    let mut buf = io::large_buffer();
    let got = streams::read_some(rt, from, &mut buf);
    let taken = scan::take_bytes(before, numbers, line, text::front(&buf, got.brought()));
    Turn { taken, got }
}

// A profile after its last read.
fn end_by(got: Got, taken: Taken) -> Read
    ensures { (result.scan ≡ finish_of taken.scan (held_by got taken.len)) × (result.points ≡ taken.points) }
{
    Read {
        scan: scan::finish(taken.scan, got.held(taken.len)),
        points: taken.points,
    }
}

// Reads a profile to the end of its input.
fn read_profile(
    rt: &(impl Eprint + Clock),
    from: &mut impl std::io::Read,
    numbers: &mut [f64],
    line: &mut [u8],
) -> Read
    requires { ScanRoom numbers.old line.old }
    ensures { ReadsSome (state result.scan (take (3 * result.points) numbers.new)) }
{
    let mut taken = scan::fresh();
    for _ in 0..u64::MAX {
        let t = take_some(rt, from, taken, numbers, line);
        taken = t.taken;
        if !t.got.may_be_more() {
            return end_by(t.got, taken);
        }
    }
    end_by(Got::Cut, taken)
}

// The numbers of the first n points.
fn first(numbers: &[f64], n: usize) -> &[f64]
    ensures { result.now ≡ take (3 * n) numbers.now }
{
    if numbers.len() / 3 < n {
        return numbers;
    }
    let end = 3 * n;
    &numbers[..end]
}

// Gathers what the points of a scan become.
fn put_text(
    rt: &(impl Eprint + Clock),
    to: &mut impl Write,
    gathered: &mut [u8; GATHERED],
    scan: Scan,
    points: &[f64],
) -> Out
    ensures { AllPut (text_of (state scan points.now)) result gathered.new }
{
    if scan.refused != 0 {
        return spell::put_refused(rt, to, gathered, scan.lines, scan.refused);
    }
    let side = scan.side;
    let mut chords = [0.0f64; CHORD_NUMBERS];
    match profile::segments(points, scan.tolerance, &mut chords) {
        Err(r) => {
            let number = refusals::number(r);
            spell::put_refused(rt, to, gathered, scan.lines, number as u64)
        }
        Ok(n) => spell::put_chords(rt, to, gathered, side, scan.rn, &chords, n),
    }
}

// Reads a profile from a reader, and gathers what it becomes for a writer, to which it writes what
// finds no room.
pub fn chop(
    rt: &(impl Eprint + Clock),
    from: &mut impl std::io::Read,
    to: &mut impl Write,
    gathered: &mut [u8; GATHERED],
) -> Out
    ensures { ChopsSome result gathered.new }
{
    let mut numbers = [0.0f64; NUMBERS];
    let mut line = [0u8; LINE_LIMIT];
    let read = read_profile(rt, from, &mut numbers, &mut line);
    put_text(rt, to, gathered, read.scan, first(&numbers, read.points))
}
