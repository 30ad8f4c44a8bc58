// Reads a job from standard input as its bytes come, and writes every cell, the rings and the
// generation, or the one refusal. Standard error gets that refusal in words.
//
// The job in `stdin` is longer than one read of 65,536 bytes, and lines of it lie over the seams.
#![tactic(auto)]

use job_run::{CELL_NUMBERS, LINE_LIMIT, RING_NUMBERS};

fn main(rt: HostRuntime) {
    let mut cells = [0.0f64; CELL_NUMBERS];
    let mut rings = [0.0f64; RING_NUMBERS];
    let mut line = [0u8; LINE_LIMIT];
    let start = job_run::fresh(0);
    let ended = job_streams::read_job(
        &rt,
        &mut rt.stdin(),
        job_streams::PART,
        start,
        &mut cells,
        &mut rings,
        &mut line,
    );
    let run = ended.run;
    job_streams::write_answer(&rt, &mut rt.stdout(), run, &cells, &rings);
    job_help::write_why(&rt, &mut rt.stderr(), ended, &line);
}
