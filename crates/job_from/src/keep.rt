// The stock that a job leaves, kept in the file TO: written beside it, synced, and then renamed, so that
// TO is the old file or the whole new one.
use job_run::{CELL_NUMBERS, RING_NUMBERS, Run};
use std::fs::{File, OpenFile};
use std::io;
use std::rt::Env;

// A name has fewer bytes than this.
const PATH_MAX: usize = 4096;

// The first n fours of numbers, all where there are fewer.
fn first_fours(xs: &[f64], n: usize) -> &[f64] {
    xs.get(..n.saturating_mul(4)).unwrap_or(xs)
}

// A stock written to an open file and synced.
fn write_synced(
    rt: &HostRuntime,
    file: &mut File,
    run: Run,
    cells: &[f64; CELL_NUMBERS],
    rings: &[f64; RING_NUMBERS],
) -> bool {
    let job = run.job;
    let stock = job.stock;
    if !stock_streams::write_stock(rt, file, stock, first_fours(cells, job.cells), rings) {
        return false;
    }
    match file.sync_all() {
        Ok(()) => true,
        Err(e) => {
            streams::fail(rt, "fsync", e);
            false
        }
    }
}

// The same, and the file closed.
fn write_closed(
    rt: &HostRuntime,
    mut file: File,
    run: Run,
    cells: &[f64; CELL_NUMBERS],
    rings: &[f64; RING_NUMBERS],
) -> bool {
    write_synced(rt, &mut file, run, cells, rings)
}

// Where the name of a path's folder ends; 0 where it names none.
fn folder_end(path: &[u8]) -> usize {
    let slash = path.iter().rposition(|b| *b == b'/');
    slash.map_or(0, |i| i + 1)
}

// Opens the folder of that name; with none, that in which the program runs.
fn open_folder(rt: &HostRuntime, path: &[u8]) -> io::Result<File> {
    if path.is_empty() {
        return streams::open(rt, b".");
    }
    streams::open(rt, path)
}

// Syncs an open folder.
fn sync_open(opened: io::Result<File>) -> io::Result<()> {
    opened?.sync_all()
}

// Syncs the folder of a file, so that its new name outlasts a power cut. The file is there already: where
// this fails it is told, and the stock is kept.
fn sync_folder(rt: &HostRuntime, path: &[u8]) {
    let end = folder_end(path);
    match sync_open(open_folder(rt, text::front(path, end))) {
        Ok(()) => {}
        Err(e) => streams::fail(rt, "TO's folder", e),
    }
}

// A name with `.new` behind it, and its length. One that is too long fills the buffer, and names no file.
fn put_new(out: &mut [u8], path: &[u8]) -> usize {
    let end = text::put_text(out, 0, path);
    text::put_text(out, end, b".new")
}

// Keeps the stock in the file `to`, by way of the file `new`.
fn keep_as(
    rt: &HostRuntime,
    to: &[u8],
    new: &[u8],
    run: Run,
    cells: &[f64; CELL_NUMBERS],
    rings: &[f64; RING_NUMBERS],
) -> bool {
    let created = streams::create(rt, new);
    match created {
        Ok(file) => {
            if !write_closed(rt, file, run, cells, rings) {
                let _ = streams::remove(rt, new);
                return false;
            }
            rename(rt, to, new)
        }
        Err(e) => {
            streams::fail(rt, "TO.new", e);
            false
        }
    }
}

// The file `new` becomes the file `to`.
fn rename(rt: &HostRuntime, to: &[u8], new: &[u8]) -> bool {
    match streams::rename(rt, new, to) {
        Ok(()) => {
            sync_folder(rt, to);
            true
        }
        Err(e) => {
            streams::fail(rt, "TO", e);
            let _ = streams::remove(rt, new);
            false
        }
    }
}

// The same, by way of a file of that name with `.new` behind it.
fn keep_beside(
    rt: &HostRuntime,
    to: &[u8],
    run: Run,
    cells: &[f64; CELL_NUMBERS],
    rings: &[f64; RING_NUMBERS],
) -> bool {
    let mut new = [0u8; PATH_MAX];
    let end = put_new(&mut new, to);
    keep_as(rt, to, text::front(&new, end), run, cells, rings)
}

// Keeps the stock in the file that the second argument names, and tells whether it did; `-` keeps none.
pub fn keep(
    rt: &HostRuntime,
    run: Run,
    cells: &[f64; CELL_NUMBERS],
    rings: &[f64; RING_NUMBERS],
) -> bool {
    let mut to = [0u8; PATH_MAX];
    match rt.arg(2, &mut to) {
        Ok(n) => keep_named(rt, &to[..n], run, cells, rings),
        Err(_) => {
            crate::say::long_name(rt);
            false
        }
    }
}

// Keeps the stock in the file of that name, and tells whether it did; `-` keeps none.
fn keep_named(
    rt: &HostRuntime,
    to: &[u8],
    run: Run,
    cells: &[f64; CELL_NUMBERS],
    rings: &[f64; RING_NUMBERS],
) -> bool {
    if crate::say::is_none(to) {
        return true;
    }
    if to.is_empty() {
        crate::say::no_name(rt);
        return false;
    }
    keep_beside(rt, to, run, cells, rings)
}
