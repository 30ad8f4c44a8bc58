// Shows what a job leaves, for a person: reads it on standard input as `job` does, and writes its
// bins, its rings and its generation in millimetres, or why it was refused.
#![tactic(auto)]

use job_run::{CELL_NUMBERS, LINE_LIMIT, RING_NUMBERS, Run};
use page::WIDTHS;
use stock::TurnStockSpec;
use streams::{GATHERED, Out};
use text::front;

mod column;
mod page;

// More lines than a page has.
const LINES: usize = 1024;

// The first n fours of numbers, all where there are fewer.
fn first_fours(xs: &[f64], n: usize) -> &[f64] {
    xs.get(..n.saturating_mul(4)).unwrap_or(xs)
}

// Puts line k of the page behind what is gathered; past the last line, nothing.
fn put_line(
    rt: &HostRuntime,
    out: Out,
    gathered: &mut [u8; GATHERED],
    bins: &[usize],
    removed: &[usize],
    spec: TurnStockSpec,
    cells: &[f64],
    rings: &[f64],
    generation: u64,
    k: usize,
) -> Out {
    let mut line = [0u8; 512];
    let n = page::page_line(&mut line, bins, removed, spec, cells, rings, generation, k);
    streams::put(rt, &mut rt.stdout(), out, gathered, front(&line, n))
}

// Gathers the page, its columns measured first.
fn gather_page(
    rt: &HostRuntime,
    gathered: &mut [u8; GATHERED],
    spec: TurnStockSpec,
    cells: &[f64],
    rings: &[f64],
    generation: u64,
) -> Out {
    let mut bins = [0usize; WIDTHS];
    let mut removed = [0usize; WIDTHS];
    page::bin_widths(&mut bins, spec, cells);
    page::ring_widths(&mut removed, rings);
    let mut out = streams::fresh();
    for k in 0..LINES {
        out = put_line(
            rt, out, gathered, &bins, &removed, spec, cells, rings, generation, k,
        );
    }
    out
}

// Writes the page of a job that was not refused.
fn write_page(
    rt: &HostRuntime,
    run: Run,
    cells: &[f64; CELL_NUMBERS],
    rings: &[f64; RING_NUMBERS],
) {
    let job = run.job;
    let spec = job.stock.spec;
    let mut gathered = [0u8; GATHERED];
    let out = gather_page(
        rt,
        &mut gathered,
        spec,
        first_fours(cells, job.cells),
        first_fours(rings, job.stock.rings),
        job.stock.stamp.generation,
    );
    streams::flush(rt, &mut rt.stdout(), out, &gathered);
}

fn main(rt: HostRuntime) {
    let mut cells = [0.0f64; CELL_NUMBERS];
    let mut rings = [0.0f64; RING_NUMBERS];
    let mut line = [0u8; LINE_LIMIT];
    let start = job_run::fresh(0);
    let ended = job_streams::read_job(
        &rt,
        &mut rt.stdin(),
        job_streams::PART,
        start,
        &mut cells,
        &mut rings,
        &mut line,
    );
    let run = ended.run;
    if run.refused != 0 {
        job_help::write_why(&rt, &mut rt.stdout(), ended, &line);
        return;
    }
    write_page(&rt, run, &cells, &rings);
}
