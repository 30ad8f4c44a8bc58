// Runs the job files that its arguments name in parts, and holds each run against that of the whole
// file: cut in two at every place with nothing in a part between, and byte by byte.
//
// It writes each name with how many bytes were cut, and whether every cut left the run, the cells and
// the rings of the whole file.
#![tactic(auto)]

use job_run::{CELL_NUMBERS, LINE_LIMIT, RING_NUMBERS, Run, Taken};
use std::fs::File;
use stock::TurnStockSpec;

// Files are cut to so many bytes.
const MOST: usize = 4096;

// The bytes before a place, and those from it on; past the end, all and none.
fn before(bytes: &[u8], at: usize) -> &[u8] {
    bytes.get(..at).unwrap_or(bytes)
}

fn behind(bytes: &[u8], at: usize) -> &[u8] {
    bytes.get(at..).unwrap_or(&[])
}

// A job in two parts, with nothing in a third between them.
fn in_two(
    bytes: &[u8],
    at: usize,
    cells: &mut [f64; CELL_NUMBERS],
    rings: &mut [f64; RING_NUMBERS],
) -> Run {
    let mut line = [0u8; LINE_LIMIT];
    let first = job_run::take_part(
        job_run::fresh(0),
        cells,
        rings,
        &mut line,
        0,
        before(bytes, at),
    );
    let run = first.run;
    let none = job_run::take_part(run, cells, rings, &mut line, first.len, before(bytes, 0));
    let run = none.run;
    let last = job_run::take_part(run, cells, rings, &mut line, none.len, behind(bytes, at));
    let run = last.run;
    job_run::finish(run, last.len)
}

// A job byte by byte; behind its last byte nothing comes any more.
fn by_bytes(bytes: &[u8], cells: &mut [f64; CELL_NUMBERS], rings: &mut [f64; RING_NUMBERS]) -> Run {
    let mut line = [0u8; LINE_LIMIT];
    let mut t = Taken {
        run: job_run::fresh(0),
        len: 0,
    };
    for i in 0..MOST {
        let run = t.run;
        let part = before(behind(bytes, i), 1);
        t = job_run::take_part(run, cells, rings, &mut line, t.len, part);
    }
    let run = t.run;
    job_run::finish(run, t.len)
}

// Whether two specs are the same; no number of a job is a NaN.
fn same_spec(a: TurnStockSpec, b: TurnStockSpec) -> bool {
    (a.z_min_mm == b.z_min_mm)
        & (a.z_max_mm == b.z_max_mm)
        & (a.outer_radius_mm == b.outer_radius_mm)
        & (a.bore_radius_mm == b.bore_radius_mm)
        & (a.cell_mm == b.cell_mm)
        & (a.max_cells == b.max_cells)
}

// Whether two runs are the same.
fn same_run(a: Run, b: Run) -> bool {
    let j = a.job.stock;
    let k = b.job.stock;
    same_spec(j.spec, k.spec)
        & stock::same_stamp(j.stamp, k.stamp)
        & (a.lines == b.lines)
        & (a.refused == b.refused)
        & (a.job.cells == b.job.cells)
        & (j.rings == k.rings)
}

// Whether a run with its numbers is that of the whole file.
fn is_whole(
    run: Run,
    cells: &[f64; CELL_NUMBERS],
    rings: &[f64; RING_NUMBERS],
    whole: Run,
    whole_cells: &[f64; CELL_NUMBERS],
    whole_rings: &[f64; RING_NUMBERS],
) -> bool {
    same_run(run, whole) & (cells == whole_cells) & (rings == whole_rings)
}

// Whether a job leaves the same as whole where it is cut at a place, one behind its last byte too.
fn cut_is_whole(
    bytes: &[u8],
    at: usize,
    whole: Run,
    cells: &[f64; CELL_NUMBERS],
    rings: &[f64; RING_NUMBERS],
) -> bool {
    if bytes.len() < at {
        return true;
    }
    let mut own_cells = [0.0f64; CELL_NUMBERS];
    let mut own_rings = [0.0f64; RING_NUMBERS];
    let run = in_two(bytes, at, &mut own_cells, &mut own_rings);
    is_whole(run, &own_cells, &own_rings, whole, cells, rings)
}

// The same byte by byte.
fn bytes_are_whole(
    bytes: &[u8],
    whole: Run,
    cells: &[f64; CELL_NUMBERS],
    rings: &[f64; RING_NUMBERS],
) -> bool {
    let mut own_cells = [0.0f64; CELL_NUMBERS];
    let mut own_rings = [0.0f64; RING_NUMBERS];
    let run = by_bytes(bytes, &mut own_cells, &mut own_rings);
    is_whole(run, &own_cells, &own_rings, whole, cells, rings)
}

// Whether every cut of a job leaves the same as the whole.
fn all_cuts(
    bytes: &[u8],
    whole: Run,
    cells: &[f64; CELL_NUMBERS],
    rings: &[f64; RING_NUMBERS],
) -> bool {
    let mut same = bytes_are_whole(bytes, whole, cells, rings);
    for at in 0..=MOST {
        same = same & cut_is_whole(bytes, at, whole, cells, rings);
    }
    same
}

// The whole job, and then every cut of it.
fn whole_and_cut(bytes: &[u8]) -> bool {
    let mut cells = [0.0f64; CELL_NUMBERS];
    let mut rings = [0.0f64; RING_NUMBERS];
    let mut line = [0u8; LINE_LIMIT];
    let taken = job_run::take_part(
        job_run::fresh(0),
        &mut cells,
        &mut rings,
        &mut line,
        0,
        bytes,
    );
    let run = taken.run;
    let whole = job_run::finish(run, taken.len);
    all_cuts(bytes, whole, &cells, &rings)
}

// The job in an open file of that name.
fn cut_open(name: &[u8], file: &mut File) {
    let mut bytes = io::buffer();
    let n = streams::read_full(file, &mut bytes);
    io::write_all(1, name);
    io::write_all(1, b": ");
    io::print_decimal(1, n as u64);
    if whole_and_cut(&bytes[..n]) {
        io::write_all(1, b" bytes, the same at every cut\n");
        return;
    }
    io::write_all(1, b" bytes, NOT THE SAME\n");
}

// The job that argument i names, to so many bytes of it: its name, and whether its cuts are all the same.
fn cut_file(rt: &HostRuntime, i: usize) {
    let mut path = io::buffer();
    let length = streams::argument(rt, i, &mut path);
    if let Ok(mut file) = streams::open(rt, &path[..length]) {
        cut_open(&path[..length], &mut file);
    }
}

fn main(rt: HostRuntime) {
    if !streams::hold_standard(&rt) {
        return;
    }
    let n = streams::argument_count(&rt);
    for i in 1..n {
        cut_file(&rt, i);
    }
}
