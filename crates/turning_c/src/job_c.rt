// A job's bytes as they come, cut anywhere, and the lines of its answer.
ghost use Rattle.turning.specs.Jobs.{end_from, end_state, HandsJob, HandsEnd, HandsLine};

use job_run::{CELL_NUMBERS, LINE_LIMIT, RING_NUMBERS};
use text::LINE_ROOM;

const WORDS: usize = 8;

const BAR: usize = 5;

#[unsafe(no_mangle)]
pub extern "C" fn turning_job_take(
    state: &mut [u64; WORDS],
    bar: &mut [f64; BAR],
    cells: &mut [f64; CELL_NUMBERS],
    rings: &mut [f64; RING_NUMBERS],
    line: &mut [u8; LINE_LIMIT],
    bytes: &[u8],
) -> u32
    ensures { HandsJob result state bar cells rings line bytes.now }
{
    turning::turning_job_take(state, bar, cells, rings, line, bytes)
}

#[unsafe(no_mangle)]
pub extern "C" fn turning_job_finish(state: &[u64; WORDS], line: &mut u64) -> u32
    ensures { HandsEnd (end_from state.now) result line }
{
    turning::turning_job_finish(state, line)
}

#[unsafe(no_mangle)]
pub extern "C" fn turning_job_output(
    state: &[u64; WORDS],
    cells: &[f64; CELL_NUMBERS],
    rings: &[f64; RING_NUMBERS],
    k: usize,
    out: &mut [u8; LINE_ROOM],
    len: &mut usize,
) -> u32
    ensures { HandsLine (end_state state.now cells.now rings.now) k result out len }
{
    turning::turning_job_output(state, cells, rings, k, out, len)
}
