// Goes on with a stock: `job_from FROM TO [EDITION]` reads a job from standard input as `job` does, on the
// stock that the file FROM keeps, and keeps the stock that it leaves in the file TO.
//
// `-` for FROM is no stock: the job then begins with its bar. `-` for TO keeps nothing; TO may be FROM. The
// stock is kept under EDITION, 8 digits, and with none under the edition that FROM has, 00000000 for a new
// one. Standard output is that of `job`, but for a third argument that is no edition, for a stock file that
// is refused and for a stock that could not be kept. The job is read to its end before anything is written.
#![tactic(auto)]

use job_run::{CELL_NUMBERS, LINE_LIMIT, RING_NUMBERS, Run};
use job_streams::Ended;
use job_words::MAX_CELLS;
use refusals::{Refusal, Refused};

mod edition;
mod keep;
mod say;

// A file that is not there, or not of the form from its first line on.
fn no_file() -> Refused {
    Refused::at(Refusal::FileMalformed, 1)
}

// A run on the stock in the file of that name, which goes on under the edition that is asked for.
fn open_stock(
    rt: &HostRuntime,
    path: &[u8],
    asked: Option<u32>,
    cells: &mut [f64],
    rings: &mut [f64],
) -> Result<Run, Refused> {
    match streams::open(rt, path) {
        Ok(mut file) => {
            let part = stock_streams::PART;
            let kept = stock_streams::read_stock(rt, &mut file, part, MAX_CELLS, cells, rings)?;
            let stock = edition::of_edition(asked, kept.stock);
            Ok(job_run::resumed(stock, kept.cells))
        }
        Err(e) => {
            streams::fail(rt, "FROM", e);
            Err(no_file())
        }
    }
}

// The run that a job begins on, by what the first argument names; a stock file may be refused.
fn read_from(
    rt: &HostRuntime,
    asked: Option<u32>,
    cells: &mut [f64],
    rings: &mut [f64],
) -> Result<Run, Refused> {
    if streams::argument_count(rt) < 3 {
        say::usage(rt);
        return Err(no_file());
    }
    let mut path = io::buffer();
    let n = streams::argument(rt, 1, &mut path);
    if say::is_none(&path[..n]) {
        return Ok(job_run::fresh(asked.unwrap_or(0)));
    }
    open_stock(rt, &path[..n], asked, cells, rings)
}

// A job at its end: what it leaves is kept, and then told.
fn end_job(
    rt: &HostRuntime,
    ended: Ended,
    cells: &[f64; CELL_NUMBERS],
    rings: &[f64; RING_NUMBERS],
    line: &[u8; LINE_LIMIT],
) {
    let run = ended.run;
    if run.refused == 0 {
        if !keep::keep(rt, run, cells, rings) {
            say::unwritten(rt);
            return;
        }
    }
    job_streams::write_answer(rt, &mut rt.stdout(), run, cells, rings);
    job_help::write_why(rt, &mut rt.stderr(), ended, line);
}

// Reads the stock and the job, and keeps and tells what it leaves. After a refused stock file the job is
// read for its writer's sake alone.
fn go_on(rt: &HostRuntime, asked: Option<u32>) {
    let mut cells = [0.0f64; CELL_NUMBERS];
    let mut rings = [0.0f64; RING_NUMBERS];
    let mut line = [0u8; LINE_LIMIT];
    let start = read_from(rt, asked, &mut cells, &mut rings);
    let run = start.unwrap_or(job_run::fresh(0));
    let ended = job_streams::read_job(
        rt,
        &mut rt.stdin(),
        job_streams::PART,
        run,
        &mut cells,
        &mut rings,
        &mut line,
    );
    match start {
        Ok(_) => end_job(rt, ended, &cells, &rings, &line),
        Err(r) => say::refused(rt, r),
    }
}

fn main(rt: HostRuntime) {
    if !streams::hold_standard(&rt) {
        return;
    }
    match edition::third_argument(&rt) {
        Ok(asked) => go_on(&rt, asked),
        Err(_) => say::no_edition(&rt),
    }
}
