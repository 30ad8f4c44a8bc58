// A job read from a reader, and its answer written to a writer: all that the job program does.
//
// Bytes are taken as they come, to the end of the input, also after a refused line, so that whoever
// writes them is not stopped. A read that fails cuts the input off inside its next line: it is refused
// there, and never answered as if it were whole.
#![tactic(auto)]

ghost use Rattle.std.specs.Prelude.{◌≡◌};
ghost use Rattle.job_run.specs.Run.{state, output_of};
ghost use Rattle.job_streams.specs.Read.{ReadsOn, ReadsPart, end_at, whole_end, cut_at, cut_end, end_by, ReadsJob};
ghost use Rattle.job_streams.specs.Write.{PutsLine, AllPut};

use job_run::{ANSWER_LINES, CELL_NUMBERS, LINE_LIMIT, RING_NUMBERS, Run};
use std::io::{Read, Write};
use std::rt::Clock;
use streams::{GATHERED, Got, Out};
use text::LINE_ROOM;

// So many bytes are read at a time at most.
pub use streams::PART;

// How the input ended: behind a whole line or none, or a line was refused before; inside a line; or by
// a read that failed.
#[derive(Clone, Copy)]
pub enum End {
    Whole,
    Inside,
    Cut,
}

// A run at the end of its input, and how that ended.
#[derive(Clone, Copy)]
pub struct Ended {
    pub run: Run,
    pub end: End,
}

// A run after a read, with so many bytes of the unfinished line, and what the read told.
#[derive(Clone, Copy)]
struct Turn {
    run: Run,
    len: usize,
    got: Got,
}

// ---- reading

// Reads once, into lent bytes, and takes what came.
fn take_once(
    rt: &(impl Eprint + Clock),
    from: &mut impl Read,
    part: &mut [u8],
    run: Run,
    cells: &mut [f64; CELL_NUMBERS],
    rings: &mut [f64; RING_NUMBERS],
    line: &mut [u8; LINE_LIMIT],
    len: usize,
) -> Turn
    ensures { ReadsPart run len cells rings line result.got part.new result.run result.len }
{
    let got = streams::read_some(rt, from, part);
    let came = text::front(part, got.brought());
    let taken = job_run::take_part(run, cells, rings, line, len, came);
    Turn {
        run: taken.run,
        len: taken.len,
        got,
    }
}

// The same, at most so many bytes.
fn take_some(
    rt: &(impl Eprint + Clock),
    from: &mut impl Read,
    most: usize,
    run: Run,
    cells: &mut [f64; CELL_NUMBERS],
    rings: &mut [f64; RING_NUMBERS],
    line: &mut [u8; LINE_LIMIT],
    len: usize,
) -> Turn
    ensures { ReadsOn run len cells rings line result.run result.len }
{
    let mut buf = io::large_buffer();
    let end = streams::part_size(most);
    take_once(rt, from, &mut buf[..end], run, cells, rings, line, len)
}

fn end_at(len: usize) -> End
    ensures { result ≡ end_at len }
{
    if len == 0 { End::Whole } else { End::Inside }
}

// A run at the end of its input.
fn at_end(run: Run, len: usize) -> Ended
    ensures { result ≡ whole_end run len }
{
    let end = end_at(len);
    Ended {
        run: job_run::finish(run, len),
        end,
    }
}

// A job that was refused before is not cut off.
fn cut_at(refused: u64) -> End
    ensures { result ≡ cut_at refused }
{
    if refused == 0 { End::Cut } else { End::Whole }
}

// A run whose input is cut off: it ends inside its next line.
fn cut_off(run: Run) -> Ended
    ensures { result ≡ cut_end run }
{
    let end = cut_at(run.refused);
    Ended {
        run: job_run::finish(run, 1),
        end,
    }
}

// A run after its last read.
fn end_by(got: Got, run: Run, len: usize) -> Ended
    ensures { result ≡ end_by got run len }
{
    match got {
        Got::End => at_end(run, len),
        Got::Cut => cut_off(run),
        Got::Bytes(_) => cut_off(run),
    }
}

// Reads a job to the end of its input, on a run as it is before the first byte, at most so many bytes
// at a time, from 1 to 65,536.
pub fn read_job(
    rt: &(impl Eprint + Clock),
    from: &mut impl Read,
    most: usize,
    start: Run,
    cells: &mut [f64; CELL_NUMBERS],
    rings: &mut [f64; RING_NUMBERS],
    line: &mut [u8; LINE_LIMIT],
) -> Ended
    ensures { ReadsJob start result cells rings }
{
    let mut run = start;
    let mut len: usize = 0;
    for _ in 0..u64::MAX {
        let t = take_some(rt, from, most, run, cells, rings, line, len);
        run = t.run;
        len = t.len;
        if !t.got.may_be_more() {
            return end_by(t.got, run, len);
        }
    }
    cut_off(run)
}

// ---- writing

// Puts line k of the answer behind what is gathered; past the last line, nothing.
fn put_line(
    rt: &(impl Eprint + Clock),
    to: &mut impl Write,
    out: Out,
    gathered: &mut [u8; GATHERED],
    run: Run,
    cells: &[f64; CELL_NUMBERS],
    rings: &[f64; RING_NUMBERS],
    k: usize,
) -> Out
    ensures { PutsLine (output_of (state run cells.now rings.now)) k out gathered.old result gathered.new }
{
    let mut line = [0u8; LINE_ROOM];
    let end = job_run::output_line(&mut line, run, cells, rings, k);
    streams::put(rt, to, out, gathered, &line[..end])
}

// Gathers the answer of a run, and writes of it what finds no room.
fn gather_answer(
    rt: &(impl Eprint + Clock),
    to: &mut impl Write,
    gathered: &mut [u8; GATHERED],
    run: Run,
    cells: &[f64; CELL_NUMBERS],
    rings: &[f64; RING_NUMBERS],
) -> Out
    ensures { AllPut (output_of (state run cells.now rings.now)) result gathered.new }
{
    let mut out = streams::fresh();
    for k in 0..ANSWER_LINES {
        out = put_line(rt, to, out, gathered, run, cells, rings, k);
    }
    out
}

// Writes the answer of a run, and tells whether all of it was written.
pub fn write_answer(
    rt: &(impl Eprint + Clock),
    to: &mut impl Write,
    run: Run,
    cells: &[f64; CELL_NUMBERS],
    rings: &[f64; RING_NUMBERS],
) -> bool {
    let mut gathered = [0u8; GATHERED];
    let out = gather_answer(rt, to, &mut gathered, run, cells, rings);
    streams::flush(rt, to, out, &gathered)
}
