// A line of a job carried out: a bar first, then cuts and rings, each by the call that any other caller
// makes.
//
// Between two lines a job is its stock and the count of its cells by value, and its cells and rings in
// lent memory. A line that is refused leaves all of them. Two lists are lent beside them for the
// changes of a cut, from its preview to its commit.
ghost use Rattle.std.specs.Prelude.{◌≡◌, ◌*◌, min};
ghost use Rattle.changes.specs.Change.{written_of, Proposed};
ghost use Rattle.cuts.specs.Preview.{preview_cut};
ghost use Rattle.changes.specs.Commit.{Applies};
ghost use Rattle.job_run.specs.Job.{made_cut, bar_line, cut_line, removing_line, first_line, later_line, job_line, line_changes, job_changes, cells_of_job, lent_room, CarriesLent, CellsLent, RingsLent, ListsLent};

use changes::ChangeList;
use cuts::Cut;
use job_words::{Line, MAX_CELLS};
use refusals::{Refusal, Refused};
use rings::Ring;
use stock::{TurnStock, TurnStockSpec};

// A job line has so many bytes at most, with its newline.
pub const LINE_LIMIT: usize = 128;

// Lent lists of these lengths have room for a change of every cell, with eight numbers each.
pub const INDICES: usize = MAX_CELLS;

pub const NUMBERS: usize = 8 * MAX_CELLS;

// A job between two lines. Before its bar it has no cells, and of its stock the edition alone counts.
#[derive(Clone, Copy)]
pub struct Job {
    pub stock: TurnStock,
    pub cells: usize,
}

// The preview of a cut, by the call of its kind.
fn preview_of(
    stock: TurnStock,
    cells: &[f64],
    cut: Cut,
    indices: &mut [usize],
    records: &mut [f64],
) -> Result<ChangeList, Refusal>
    ensures { Proposed stock.stamp (preview_cut stock.spec cells.now cut (lent_room indices records)) result
        indices.old indices.new records.old records.new }
{
    match cut {
        Cut::Thread { z0, z1, radius } => {
            cuts::thread_cut(stock, cells, z0, z1, radius, indices, records)
        }
        Cut::ThreadInner { z0, z1, radius } => {
            cuts::thread_cut_inner(stock, cells, z0, z1, radius, indices, records)
        }
        Cut::Drill {
            tip_z,
            radius,
            cone,
        } => cuts::drill(stock, cells, tip_z, radius, cone, indices, records),
        Cut::Line {
            side: _,
            rn: _,
            sag: _,
            a_r: _,
            a_z: _,
            b_r: _,
            b_z: _,
        } => cuts::preview_cut(stock, cells, cut, indices, records),
        Cut::Arc => cuts::preview_cut(stock, cells, cut, indices, records),
    }
}

// A cut previewed into the lent lists, and committed from them. A preview that is accepted has asked
// all that `apply` asks before its commit, and its list has the stock's stamp.
fn make_cut(
    stock: TurnStock,
    cells: &mut [f64],
    cut: Cut,
    indices: &mut [usize],
    records: &mut [f64],
) -> Result<TurnStock, Refused>
    ensures applies { Applies stock (made_cut stock cells.old cut (lent_room indices records)) result
        cells.old cells.new }
    ensures lists_lent { ListsLent (written_of (preview_cut stock.spec cells.old cut (lent_room indices records))) indices records }
{
    let list = preview_of(stock, cells, cut, indices, records)?;
    let n = cells.len() / 4;
    changes::commit_unasked(stock, n, cells, indices, records, list.count)
}

// The places of n cells in a list of so many numbers.
fn places(n: usize, len: usize) -> usize
    ensures { result ≡ min (4 * n) len }
{
    if n <= len / 4 { 4 * n } else { len }
}

// A bar: new cells at the front of the lent ones, of the edition that the job has.
fn take_bar(edition: u32, spec: TurnStockSpec, cells: &mut [f64]) -> Result<Job, Refusal>
    ensures { CellsLent (bar_line edition spec) result cells }
{
    let n = stock::validate(spec)?;
    if cells.len() / 4 < n {
        return Err(Refusal::CellsDoNotFit);
    }
    let end = 4 * n;
    let stock = stock::fill(spec, edition, &mut cells[..end])?;
    Ok(Job { stock, cells: n })
}

// A cut of the job's cells.
fn take_cut(
    job: Job,
    cells: &mut [f64],
    cut: Cut,
    indices: &mut [usize],
    records: &mut [f64],
) -> Result<Job, Refusal>
    ensures cells_lent { CellsLent (cut_line job cut (lent_room indices records)) result cells }
    ensures lists_lent { ListsLent (written_of (preview_cut job.stock.spec (cells_of_job job cells.old) cut (lent_room indices records)))
        indices records }
{
    let stock = job.stock;
    let end = places(job.cells, cells.len());
    let applied = make_cut(stock, &mut cells[..end], cut, indices, records);
    match applied {
        Err(e) => Err(e.why),
        Ok(stock) => Ok(Job { stock, ..job }),
    }
}

// A ring taken from the job's stock.
fn take_ring(job: Job, rings: &mut [f64], ring: Ring) -> Result<Job, Refusal>
    ensures { RingsLent (removing_line job ring) result rings }
{
    let removed = rings::remove_ring(job.stock, rings, ring);
    match removed {
        Err(e) => Err(e.why),
        Ok(after) => Ok(Job {
            stock: after.stock,
            ..job
        }),
    }
}

// The first line, which is a bar.
fn first_line(edition: u32, line: Line, cells: &mut [f64]) -> Result<Job, Refusal>
    ensures { CellsLent (first_line edition line) result cells }
{
    match line {
        Line::Bar(spec) => take_bar(edition, spec, cells),
        Line::Cutting(_) => Err(Refusal::LineMalformed),
        Line::Removing(_) => Err(Refusal::LineMalformed),
        Line::Arc => Err(Refusal::LineMalformed),
        Line::Bad => Err(Refusal::LineMalformed),
    }
}

// A later line, which is none.
fn later_line(
    job: Job,
    line: Line,
    cells: &mut [f64],
    rings: &mut [f64],
    indices: &mut [usize],
    records: &mut [f64],
) -> Result<Job, Refusal>
    ensures carries_lent { CarriesLent (later_line job line (lent_room indices records)) result cells rings }
    ensures lists_lent { ListsLent (line_changes job line (lent_room indices records) cells.old) indices records }
{
    match line {
        Line::Cutting(cut) => take_cut(job, cells, cut, indices, records),
        Line::Removing(ring) => take_ring(job, rings, ring),
        Line::Arc => Err(Refusal::Arc),
        Line::Bar(_) => Err(Refusal::LineMalformed),
        Line::Bad => Err(Refusal::LineMalformed),
    }
}

// A line without its newline, carried out; 15, 13, or what its call refuses. A refusal leaves cells and
// rings. The lists are scratch of the call: the changes that a cut proposed stand over their fronts
// afterwards, also where the commit is refused then (12, at the last generation).
pub fn carry_out(
    job: Job,
    line: &[u8],
    cells: &mut [f64],
    rings: &mut [f64],
    indices: &mut [usize],
    records: &mut [f64],
) -> Result<Job, Refusal>
    ensures carries_lent { CarriesLent (job_line job line.now (lent_room indices records)) result cells rings }
    ensures lists_lent { ListsLent (job_changes job line.now (lent_room indices records) cells.old) indices records }
{
    if LINE_LIMIT <= line.len() {
        return Err(Refusal::LineMalformed);
    }
    let read = job_words::read_line(line);
    if job.cells == 0 {
        return first_line(job.stock.stamp.edition, read, cells);
    }
    later_line(job, read, cells, rings, indices, records)
}
