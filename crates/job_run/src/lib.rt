// A job run: its bytes as they come, cut anywhere, and the lines that it writes.
//
// Lines are carried out one by one, to the first refusal. Only the unfinished line is held over, in
// lent memory with room for it, so that a job has no size limit.
#![tactic(auto)]

mod line;

ghost use Rattle.std.specs.Prelude.{◌≡◌, ◌*◌, ◌≤◌, [], length, take, slice_index_or, slice_set};
ghost use mathlib.Core.List.{foldl};
ghost use Rattle.job_run.specs.Job.{Full};
ghost use Rattle.text.specs.Wrote.{WritesLine};
ghost use Rattle.job_run.specs.Run.{fresh_run, resumed_run, is_empty, refusing, on_line, byte_on, finish_of, output_of, most_lines, state, state_found, state_left, as_found, as_left, TakesPart};

use job_words::MAX_CELLS;
pub use line::{INDICES, Job, LINE_LIMIT, NUMBERS, carry_out};
use refusals::Refusal;
use stock::{Stamp, TurnStock, TurnStockSpec};
use text::LINE_ROOM;

// A job has so many rings at most.
pub const MAX_RINGS: usize = 64;

// The room of a job: four numbers for each of its cells, and for each of its rings.
pub const CELL_NUMBERS: usize = 4 * MAX_CELLS;

pub const RING_NUMBERS: usize = 4 * MAX_RINGS;

// So many lines an answer has at most: those of the cells, of the rings, and the generation.
pub const ANSWER_LINES: usize = MAX_CELLS + MAX_RINGS + 1;

// A job, how many of its lines were taken, and the number that refused the last of them, or 0.
#[derive(Clone, Copy)]
pub struct Run {
    pub job: Job,
    pub lines: u64,
    pub refused: u64,
}

// A run after some bytes; of the unfinished line, so many are held.
#[derive(Clone, Copy)]
pub struct Taken {
    pub run: Run,
    pub len: usize,
}

// Before the first byte, with a stock of n cells, which stand first in the lent numbers, as its rings
// do: its bar is given.
pub fn resumed(stock: TurnStock, n: usize) -> Run
    ensures { result ≡ resumed_run stock n }
{
    Run {
        job: Job { stock, cells: n },
        lines: 0,
        refused: 0,
    }
}

// The same with no stock yet, but the edition that it will have.
pub fn fresh(edition: u32) -> Run
    ensures { result ≡ fresh_run edition }
{
    let none = TurnStockSpec {
        z_min_mm: 0.0,
        z_max_mm: 0.0,
        outer_radius_mm: 0.0,
        bore_radius_mm: 0.0,
        cell_mm: 0.0,
        max_cells: 0,
    };
    let stock = TurnStock {
        spec: none,
        stamp: Stamp {
            edition,
            generation: 0,
        },
        rings: 0,
    };
    resumed(stock, 0)
}

// The next line refused.
fn refuse(run: Run, refusal: Refusal) -> Run
    ensures { result ≡ refusing run refusal }
{
    Run {
        lines: std::num::wrapping_add_u64(run.lines, 1),
        refused: u64::from(refusals::number(refusal)),
        ..run
    }
}

// The next line carried out, with two lists for the changes of a cut.
fn on_line(
    run: Run,
    cells: &mut [f64],
    rings: &mut [f64],
    line: &[u8],
    indices: &mut [usize],
    records: &mut [f64],
) -> Run
    requires { Full indices.old records.old }
    ensures { state_left result cells rings ≡ on_line (state_found run cells rings) line.now }
{
    let job = run.job;
    let carried = carry_out(job, line, cells, rings, indices, records);
    match carried {
        Err(r) => refuse(run, r),
        Ok(next) => Run {
            job: next,
            lines: std::num::wrapping_add_u64(run.lines, 1),
            refused: 0,
        },
    }
}

// The first len bytes.
fn held(line: &[u8], len: usize) -> &[u8]
    ensures { result.now ≡ take len line.now }
{
    if line.len() < len {
        return line;
    }
    &line[..len]
}

// Puts a byte at a place of the line; past the end, nowhere.
fn put_byte(line: &mut [u8], at: usize, byte: u8)
    ensures { line.new ≡ slice_set line.old at byte }
{
    if at < line.len() {
        line[at] = byte;
    }
}

// One byte more, put behind the first len of a line.
fn take_byte(
    run: Run,
    cells: &mut [f64],
    rings: &mut [f64],
    line: &mut [u8],
    len: usize,
    byte: u8,
    indices: &mut [usize],
    records: &mut [f64],
) -> Taken
    requires { Full indices.old records.old }
    ensures { as_left result.run result.len cells rings line ≡ byte_on (as_found run len cells rings line) byte }
{
    if run.refused != 0 {
        return Taken { run, len };
    }
    if byte == b'\n' {
        let after = on_line(run, cells, rings, held(line, len), indices, records);
        put_byte(line, len, byte);
        return Taken { run: after, len: 0 };
    }
    put_byte(line, len, byte);
    if len < LINE_LIMIT - 1 {
        return Taken { run, len: len + 1 };
    }
    Taken {
        run: refuse(run, Refusal::LineMalformed),
        len: 0,
    }
}

// Some bytes more. The lists for the changes of a cut are made once for all of them.
fn take_bytes(
    run: Run,
    cells: &mut [f64],
    rings: &mut [f64],
    line: &mut [u8],
    len: usize,
    bytes: &[u8],
) -> Taken
    ensures { as_left result.run result.len cells rings line ≡ foldl byte_on (as_found run len cells rings line) bytes.now }
{
    let mut indices = [0usize; INDICES];
    let mut records = [0.0f64; NUMBERS];
    let mut k = run;
    let mut n = len;
    for i in 0..bytes.len() {
        let t = take_byte(
            k,
            cells,
            rings,
            line,
            n,
            bytes[i],
            &mut indices,
            &mut records,
        );
        k = t.run;
        n = t.len;
    }
    Taken { run: k, len: n }
}

// Some bytes more of a job, in the room that a job has. The unfinished line is the first len bytes of
// `line`; each byte is put behind it, its newline too.
pub fn take_part(
    run: Run,
    cells: &mut [f64; CELL_NUMBERS],
    rings: &mut [f64; RING_NUMBERS],
    line: &mut [u8; LINE_LIMIT],
    len: usize,
    bytes: &[u8],
) -> Taken
    ensures { TakesPart run len cells rings line bytes.now result }
{
    take_bytes(run, cells, rings, line, len, bytes)
}

// Whether no line was taken and no bar is given.
fn is_empty(run: Run) -> bool
    ensures { result ≡ is_empty run }
{
    let job = run.job;
    (run.lines == 0) & (job.cells == 0)
}

// The end of the bytes, where len of an unfinished line are held.
pub fn finish(run: Run, len: usize) -> Run
    ensures { result ≡ finish_of run len }
{
    if run.refused != 0 {
        return run;
    }
    if len != 0 {
        return refuse(run, Refusal::LineMalformed);
    }
    if is_empty(run) {
        return refuse(run, Refusal::LineMalformed);
    }
    run
}

// The first n fours of numbers.
fn front(xs: &[f64], n: usize) -> &[f64]
    ensures { result.now ≡ take (4 * n) xs.now }
{
    if xs.len() / 4 < n {
        return xs;
    }
    let end = 4 * n;
    &xs[..end]
}

// Puts line k of what a run writes at its end, and answers its length; past the last line, 0.
pub fn output_line(
    out: &mut [u8; LINE_ROOM],
    run: Run,
    cells: &[f64; CELL_NUMBERS],
    rings: &[f64; RING_NUMBERS],
    k: usize,
) -> usize
    ensures writes_line { WritesLine out (slice_index_or (output_of (state run cells.now rings.now)) k []) result }
    ensures rings_len_bound { length (output_of (state run cells.now rings.now)) ≤ most_lines }
{
    let job = run.job;
    job_answer::answer_line(
        out,
        run.refused,
        run.lines,
        job.stock.stamp.generation,
        front(cells, job.cells),
        front(rings, job.stock.rings),
        k,
    )
}
