// A job's bytes as they come, cut anywhere, and the lines of its answer.
//
// Between two calls a job stands in eight lent words (max_cells, cells, rings, generation, lines,
// refused, held, edition) and five lent numbers, those of its bar, beside its cells, its rings and the
// unfinished line. Words that are all 0, or 0 up to the edition, are a job before its first byte. Words
// of any other kind are read as they stand: of the edition its lower half, and what becomes of them is
// said by the same rules.
ghost use Rattle.std.specs.Prelude.{◌≡◌, min};
ghost use Rattle.turning.specs.Jobs.{run_from, held_in, end_from, end_state, KeepsRun, HandsJob, HandsEnd, HandsLine};

use crate::stock_c;
use job_run::{CELL_NUMBERS, Job, LINE_LIMIT, RING_NUMBERS, Run};
use text::LINE_ROOM;

// A job's words, and the numbers of its bar.
const WORDS: usize = 8;

const BAR: usize = 5;

// The run that the words and the bar are.
fn run_of(words: &[u64; WORDS], bar: &[f64; BAR]) -> Run
    ensures { result ≡ run_from words.now bar.now }
{
    let spec = stock_c::spec_of(bar[0], bar[1], bar[2], bar[3], bar[4], words[0] as usize);
    let edition = stock_c::edition_in(words[7]);
    let stock = stock_c::stock_of(spec, edition, words[3], words[2] as usize);
    Run {
        job: Job {
            stock,
            cells: words[1] as usize,
        },
        lines: words[4],
        refused: words[5],
    }
}

// So many bytes of the unfinished line are held.
fn held_in(words: &[u64; WORDS]) -> usize
    ensures { result ≡ held_in words.now }
{
    words[6] as usize
}

// A run that holds so many bytes, put into the words and the bar. Its edition stands in the last word
// already: no line changes it.
fn keep(run: Run, held: usize, words: &mut [u64; WORDS], bar: &mut [f64; BAR])
    ensures { KeepsRun run held words bar }
{
    let job = run.job;
    let stock = job.stock;
    let spec = stock.spec;
    words[0] = spec.max_cells as u64;
    words[1] = job.cells as u64;
    words[2] = stock.rings as u64;
    words[3] = stock.stamp.generation;
    words[4] = run.lines;
    words[5] = run.refused;
    words[6] = held as u64;
    bar[0] = spec.z_min_mm;
    bar[1] = spec.z_max_mm;
    bar[2] = spec.outer_radius_mm;
    bar[3] = spec.bore_radius_mm;
    bar[4] = spec.cell_mm;
}

pub fn turning_job_take(
    state: &mut [u64; WORDS],
    bar: &mut [f64; BAR],
    cells: &mut [f64; CELL_NUMBERS],
    rings: &mut [f64; RING_NUMBERS],
    line: &mut [u8; LINE_LIMIT],
    bytes: &[u8],
) -> u32
    ensures { HandsJob result state bar cells rings line bytes.now }
{
    let run = run_of(state, bar);
    let held = held_in(state);
    let taken = job_run::take_part(run, cells, rings, line, held, bytes);
    let after = taken.run;
    keep(after, taken.len, state, bar);
    0
}

// The job of these words, as if its input ended here.
fn end_of(words: &[u64; WORDS]) -> Run
    ensures { result ≡ end_from words.now }
{
    let none = [0.0f64; BAR];
    job_run::finish(run_of(words, &none), held_in(words))
}

// A refusal in 32 bits.
fn short(refused: u64) -> u32
    ensures { result ≡ min refused 4294967295 }
{
    refused.min(4294967295) as u32
}

pub fn turning_job_finish(state: &[u64; WORDS], line: &mut u64) -> u32
    ensures { HandsEnd (end_from state.now) result line }
{
    let end = end_of(state);
    if end.refused == 0 {
        return 0;
    }
    *line = end.lines;
    short(end.refused)
}

pub fn turning_job_output(
    state: &[u64; WORDS],
    cells: &[f64; CELL_NUMBERS],
    rings: &[f64; RING_NUMBERS],
    k: usize,
    out: &mut [u8; LINE_ROOM],
    len: &mut usize,
) -> u32
    ensures { HandsLine (end_state state.now cells.now rings.now) k result out len }
{
    *len = job_run::output_line(out, end_of(state), cells, rings, k);
    0
}
