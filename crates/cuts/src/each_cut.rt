// Each tool on a stock whose cells are checked: the rows of a nose or a polygon are filled first, a
// thread and a drill are taken from their numbers; then the changes are listed.
ghost use Rattle.std.specs.Prelude.{◌≡◌, ◌≤◌};
ghost use Rattle.changes.specs.Change.{Tallies};
ghost use Rattle.cuts.specs.Rows.{Graded, Room, Unfilled, row_at, Says};
ghost use Rattle.cuts.specs.Source.{thread_act, drill_act, ReadyFor};
ghost use Rattle.cuts.specs.Tool.{sweep_act, sweep_side, cut_in, tool_in, tool_inside};
ghost use Rattle.cuts.specs.Preview.{proposing};

use crate::list::Source;
use crate::{Cut, Tool, ends, list, nose_rows, polygon_rows, rows, single};
use changes::ChangeList;
use refusals::Refusal;
use stock::{BinRange, TurnSide, TurnStockSpec};

// What is swept over the bins, so that their rows are filled.
#[derive(Clone, Copy)]
pub enum Sweep {
    // along segments
    Nose { side: TurnSide, rn: f64 },
    // by its points
    Polygon { side: TurnSide, excess: f64 },
}

// Which surface it cuts.
fn side_of(sweep: Sweep) -> TurnSide
    ensures { result ≡ sweep_side sweep }
{
    match sweep {
        Sweep::Nose { side, rn: _ } => side,
        Sweep::Polygon { side, excess: _ } => side,
    }
}

// All n bins, into rows that are not filled; the bins that were visited.
fn fill(
    s: TurnStockSpec,
    n: usize,
    sweep: Sweep,
    beside: &[f64],
    values: &mut [f64],
    there: &mut [bool],
) -> BinRange
    requires { Graded s n × Room n values.old there.old × Unfilled 0 n (row_at values.old there.old) }
    ensures { Says (sweep_act s sweep beside.now) n result.from result.to (row_at values.new there.new) }
{
    match sweep {
        Sweep::Nose { side, rn } => {
            nose_rows::fill(s, n, side, floats::clean(rn), beside, values, there)
        }
        Sweep::Polygon { side, excess } => {
            polygon_rows::fill(s, n, side, excess, beside, values, there)
        }
    }
}

// A sweep with rows for its bins that are not filled.
fn swept_over(
    s: TurnStockSpec,
    n: usize,
    sweep: Sweep,
    beside: &[f64],
    cells: &[f64],
    indices: &mut [usize],
    records: &mut [f64],
    values: &mut [f64],
    there: &mut [bool],
) -> Result<usize, Refusal>
    requires { ReadyFor s n cells.now × Room n values.old there.old × Unfilled 0 n (row_at values.old there.old) }
    ensures { Tallies (proposing (sweep_act s sweep beside.now) cells.now n) result indices records }
{
    let bins = fill(s, n, sweep, beside, values, there);
    list::list(
        s,
        Source::Rows(side_of(sweep)),
        values,
        there,
        cells,
        bins.from,
        bins.to,
        n,
        indices,
        records,
    )
}

// A sweep over a stock of many bins at most. A stock of few or of very few has shorter rows, since rows
// are cleared for each cut.
fn swept(
    s: TurnStockSpec,
    n: usize,
    sweep: Sweep,
    beside: &[f64],
    cells: &[f64],
    indices: &mut [usize],
    records: &mut [f64],
) -> Result<usize, Refusal>
    requires { ReadyFor s n cells.now × (n ≤ 4096) }
    ensures { Tallies (proposing (sweep_act s sweep beside.now) cells.now n) result indices records }
{
    if n <= rows::SHORT_BINS {
        let mut values = [0.0f64; rows::SHORT_PLACES];
        let mut there = [false; rows::SHORT_PLACES];
        return swept_over(
            s,
            n,
            sweep,
            beside,
            cells,
            indices,
            records,
            &mut values,
            &mut there,
        );
    }
    if n <= rows::FEW_BINS {
        let mut values = [0.0f64; rows::FEW_PLACES];
        let mut there = [false; rows::FEW_PLACES];
        return swept_over(
            s,
            n,
            sweep,
            beside,
            cells,
            indices,
            records,
            &mut values,
            &mut there,
        );
    }
    let mut values = [0.0f64; rows::MANY_PLACES];
    let mut there = [false; rows::MANY_PLACES];
    swept_over(
        s,
        n,
        sweep,
        beside,
        cells,
        indices,
        records,
        &mut values,
        &mut there,
    )
}

// A sweep over a stock of any size. Its rows are long, so it is to stay a call of its own, which a
// shorter stock does not make: the compiler leaves it one for its two ways.
fn swept_long(
    s: TurnStockSpec,
    n: usize,
    sweep: Sweep,
    beside: &[f64],
    cells: &[f64],
    indices: &mut [usize],
    records: &mut [f64],
) -> Result<usize, Refusal>
    requires { ReadyFor s n cells.now }
    ensures { Tallies (proposing (sweep_act s sweep beside.now) cells.now n) result indices records }
{
    let mut values = [0.0f64; rows::PLACES];
    let mut there = [false; rows::PLACES];
    match sweep {
        Sweep::Nose { side, rn } => {
            let r = floats::clean(rn);
            let bins = nose_rows::fill(s, n, side, r, beside, &mut values, &mut there);
            list::list(
                s,
                Source::Rows(side),
                &values,
                &there,
                cells,
                bins.from,
                bins.to,
                n,
                indices,
                records,
            )
        }
        Sweep::Polygon { side, excess } => {
            let bins = polygon_rows::fill(s, n, side, excess, beside, &mut values, &mut there);
            list::list(
                s,
                Source::Rows(side),
                &values,
                &there,
                cells,
                bins.from,
                bins.to,
                n,
                indices,
                records,
            )
        }
    }
}

// A thread: only the bins between its ends are visited, and it reaches the same in each of them.
fn thread(
    s: TurnStockSpec,
    n: usize,
    side: TurnSide,
    z0: f64,
    z1: f64,
    radius: f64,
    cells: &[f64],
    indices: &mut [usize],
    records: &mut [f64],
) -> Result<usize, Refusal>
    requires { ReadyFor s n cells.now }
    ensures { Tallies (proposing (thread_act s side z0 z1 radius) cells.now n) result indices records }
{
    let lo = floats::least(z0, z1);
    let hi = floats::greatest(z0, z1);
    let bins = ends::between(s, n, lo, hi, false);
    list::list(
        s,
        Source::Thread { side, radius },
        &[],
        &[],
        cells,
        bins.from,
        bins.to,
        n,
        indices,
        records,
    )
}

// A drill: the bins that end before its tip are not visited.
fn drill(
    s: TurnStockSpec,
    n: usize,
    tip_z: f64,
    radius: f64,
    cone: f64,
    cells: &[f64],
    indices: &mut [usize],
    records: &mut [f64],
) -> Result<usize, Refusal>
    requires { ReadyFor s n cells.now }
    ensures { Tallies (proposing (drill_act s tip_z radius cone) cells.now n) result indices records }
{
    let first = ends::find(s, n, tip_z, true, false);
    list::list(
        s,
        Source::Drill {
            tip_z,
            radius,
            cone,
        },
        &[],
        &[],
        cells,
        first,
        n,
        n,
        indices,
        records,
    )
}

// A single cut whose -0.0 is read as +0.0; 13.
fn cut_in(
    s: TurnStockSpec,
    n: usize,
    cut: Cut,
    cells: &[f64],
    indices: &mut [usize],
    records: &mut [f64],
) -> Result<usize, Refusal>
    requires { ReadyFor s n cells.now }
    ensures { Tallies (cut_in s cut cells.now n) result indices records }
{
    match cut {
        Cut::Line {
            side,
            rn,
            sag,
            a_r,
            a_z,
            b_r,
            b_z,
        } => {
            let path = [a_r, a_z, b_r, b_z, sag];
            let sweep = Sweep::Nose { side, rn };
            if n <= rows::MANY_BINS {
                return swept(s, n, sweep, &path, cells, indices, records);
            }
            swept_long(s, n, sweep, &path, cells, indices, records)
        }
        Cut::Thread { z0, z1, radius } => thread(
            s,
            n,
            TurnSide::Outer,
            z0,
            z1,
            radius,
            cells,
            indices,
            records,
        ),
        Cut::ThreadInner { z0, z1, radius } => thread(
            s,
            n,
            TurnSide::Inner,
            z0,
            z1,
            radius,
            cells,
            indices,
            records,
        ),
        Cut::Drill {
            tip_z,
            radius,
            cone,
        } => drill(s, n, tip_z, radius, cone, cells, indices, records),
        Cut::Arc => Err(Refusal::Arc),
    }
}

// A tool; 13.
pub fn tool_in(
    s: TurnStockSpec,
    n: usize,
    tool: Tool,
    beside: &[f64],
    cells: &[f64],
    indices: &mut [usize],
    records: &mut [f64],
) -> Result<usize, Refusal>
    requires { ReadyFor s n cells.now }
    ensures { Tallies (tool_in s tool beside.now cells.now n) result indices records }
{
    match tool {
        Tool::Single(cut) => cut_in(s, n, single::clean_cut(cut), cells, indices, records),
        Tool::Nose { side, rn } => {
            let sweep = Sweep::Nose { side, rn };
            if n <= rows::MANY_BINS {
                return swept(s, n, sweep, beside, cells, indices, records);
            }
            swept_long(s, n, sweep, beside, cells, indices, records)
        }
        Tool::Polygon { side, excess } => {
            let sweep = Sweep::Polygon { side, excess };
            if n <= rows::MANY_BINS {
                return swept(s, n, sweep, beside, cells, indices, records);
            }
            swept_long(s, n, sweep, beside, cells, indices, records)
        }
    }
}

// The tool is in its domain; else it is refused with 5.
pub fn tool_inside(tool: Tool, beside: &[f64]) -> bool
    ensures { result ≡ tool_inside tool beside.now }
{
    match tool {
        Tool::Single(cut) => single::cut_good(single::clean_cut(cut)),
        Tool::Nose { side: _, rn } => nose::segments_good(rn, beside),
        Tool::Polygon { side: _, excess } => polygon::polygon_good(beside, excess),
    }
}
