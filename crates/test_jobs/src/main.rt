// Runs the job files that its arguments name, in parts of seven bytes, and writes each name with what
// its job writes, and a refusal in words too.
//
// The last argument is a folder: its read fails, so that its job is cut off.
#![tactic(auto)]

use job_run::{CELL_NUMBERS, LINE_LIMIT, RING_NUMBERS};
use job_streams::End;
use std::fs::File;

// The job in an open file.
fn run_file(rt: &HostRuntime, file: &mut File) {
    let mut cells = [0.0f64; CELL_NUMBERS];
    let mut rings = [0.0f64; RING_NUMBERS];
    let mut line = [0u8; LINE_LIMIT];
    let start = job_run::fresh(0);
    let ended = job_streams::read_job(rt, file, 7, start, &mut cells, &mut rings, &mut line);
    let run = ended.run;
    job_streams::write_answer(rt, &mut rt.stdout(), run, &cells, &rings);
    job_help::write_why(rt, &mut rt.stdout(), ended, &line);
}

// The job that argument i names.
fn run_case(rt: &HostRuntime, i: usize) {
    let mut path = io::buffer();
    let length = streams::argument(rt, i, &mut path);
    io::write_all(1, &path[..length]);
    io::write_all(1, b"\n");
    if let Ok(mut file) = streams::open(rt, &path[..length]) {
        run_file(rt, &mut file);
    }
}

// The words for the last generation, which no job file gets to.
fn say_spent() {
    let mut words = [0u8; 256];
    let line = [0u8; LINE_LIMIT];
    let n = job_help::why(&mut words, 12, 1, End::Whole, true, &line);
    io::write_all(1, text::front(&words, n));
}

fn main(rt: HostRuntime) {
    if !streams::hold_standard(&rt) {
        return;
    }
    say_spent();
    let n = streams::argument_count(&rt);
    for i in 1..n {
        run_case(&rt, i);
    }
}
