// The changes of a cut over the bins: counted, and written out. One loop of each serves every kind; a
// thread and a drill with room for each of their bins have a shorter one.
ghost use Rattle.std.specs.Prelude.{◌≡◌, true, ◌+◌, ◌≤◌, ◌<◌, length};
ghost use Rattle.refusals.specs.Limits.{cell_limit};
ghost use Rattle.stock.specs.declared.TurnSide.TheVariants.{Outer, Inner};
ghost use Rattle.reach.specs.Reach.{reach_from, act_cell};
ghost use Rattle.stock.specs.Cell.{same_cell};
ghost use Rattle.changes.specs.Change.{room_of, change_at, change_of, changes_to, PutsChange, ListsChange, ListsBelow, RoomFor, Tallies};
ghost use Rattle.cuts.specs.Source.{source_side, source_reach, source_act, low_act, bore_act, span_act, span_cell, cut_change, thread_change, drill_change, SameTo, SameBelow, RoomOver};
ghost use Rattle.cuts.specs.Cut.{drill_at};
ghost use Rattle.cuts.specs.Rows.{row_at};
ghost use Rattle.cuts.specs.Preview.{proposing};

use crate::{rows, single, unchanged};
use changes::ChangeList;
use reach::Reach;
use refusals::Refusal;
use stock::{TurnCell, TurnChange, TurnSide, TurnStockSpec};

// Where what a cut reaches is taken from.
#[derive(Clone, Copy)]
pub enum Source {
    // the same low in every bin
    Thread { side: TurnSide, radius: f64 },
    Drill { tip_z: f64, radius: f64, cone: f64 },
    // rows that were filled before
    Rows(TurnSide),
}

// Which surface it cuts.
fn side_of(source: Source) -> TurnSide
    ensures { result ≡ source_side source }
{
    match source {
        Source::Thread { side, radius: _ } => side,
        Source::Drill {
            tip_z: _,
            radius: _,
            cone: _,
        } => TurnSide::Inner,
        Source::Rows(side) => side,
    }
}

// The reach that the row of bin i says.
fn row_reach(side: TurnSide, values: &[f64], there: &[bool], i: usize) -> Reach
    requires { i ≤ cell_limit }
    ensures { result ≡ reach_from side (row_at values.now there.now i).low (row_at values.now there.now i).high }
{
    let swept = rows::row_at(values, there, i);
    let low = swept.low;
    let high = swept.high;
    reach::reach_from(side, low, high)
}

// What the cut reaches in bin i.
fn reach_at(s: TurnStockSpec, source: Source, values: &[f64], there: &[bool], i: usize) -> Reach
    requires { i ≤ cell_limit }
    ensures { result ≡ source_reach s source values.now there.now i }
{
    match source {
        Source::Thread { side: _, radius } => Reach::Low(radius),
        Source::Drill {
            tip_z,
            radius,
            cone,
        } => single::drill_reach(stock::bin_of(s, i), tip_z, radius, cone),
        Source::Rows(side) => row_reach(side, values, there, i),
    }
}

// The same, for the loop that writes: each of the two loops has its own, so that both are compiled
// without a call a bin.
fn write_reach(s: TurnStockSpec, source: Source, values: &[f64], there: &[bool], i: usize) -> Reach
    requires { i ≤ cell_limit }
    ensures { result ≡ source_reach s source values.now there.now i }
{
    match source {
        Source::Thread { side: _, radius } => Reach::Low(radius),
        Source::Drill {
            tip_z,
            radius,
            cone,
        } => single::drill_reach(stock::bin_of(s, i), tip_z, radius, cone),
        Source::Rows(side) => row_reach(side, values, there, i),
    }
}

// The change of bin i, counted behind k others where the cut makes one.
fn count_bin(
    s: TurnStockSpec,
    source: Source,
    values: &[f64],
    there: &[bool],
    cells: &[f64],
    i: usize,
    k: usize,
) -> usize
    requires { (i ≤ cell_limit) × (k ≤ cell_limit) × SameTo cells.now i }
    ensures { result ≡ k + length (change_at (act_cell (source_act s source values.now there.now)) cells.now i) }
{
    let before = stock::cell_at(cells, i);
    if unchanged::leaves(source, before) {
        return k;
    }
    let reached = reach_at(s, source, values, there, i);
    let low = reach::low_of(reached);
    let Some(_) = low else {
        return k;
    };
    let after = reach::cut_cell(side_of(source), before, reached);
    if stock::same_cell(before, after) {
        return k;
    }
    k + 1
}

// How many cells the cut changes, where it is taken in the bins from first to before last only.
fn count(
    s: TurnStockSpec,
    source: Source,
    values: &[f64],
    there: &[bool],
    cells: &[f64],
    first: usize,
    last: usize,
) -> usize
    requires { (first ≤ last) × (last ≤ cell_limit) × SameBelow cells.now last }
    ensures { result ≡ length (changes_to (span_cell first last s source values.now there.now) cells.now last) }
{
    let mut k: usize = 0;
    for i in first..last {
        k = count_bin(s, source, values, there, cells, i, k);
    }
    k
}

// What a cut of the outside makes of the cell of bin i, written behind k others where it is another.
fn put_outer(
    before: TurnCell,
    reached: Reach,
    i: usize,
    indices: &mut [usize],
    records: &mut [f64],
    k: usize,
) -> usize
    ensures { ListsChange k result (cut_change Outer before reached i) indices records }
{
    let after = reach::cut_cell(TurnSide::Outer, before, reached);
    let change = TurnChange {
        index: i,
        before,
        after,
    };
    changes::list_change(indices, records, k, change)
}

// The same of a cut of the inside.
fn put_inner(
    before: TurnCell,
    reached: Reach,
    i: usize,
    indices: &mut [usize],
    records: &mut [f64],
    k: usize,
) -> usize
    ensures { ListsChange k result (cut_change Inner before reached i) indices records }
{
    let after = reach::cut_cell(TurnSide::Inner, before, reached);
    let change = TurnChange {
        index: i,
        before,
        after,
    };
    changes::list_change(indices, records, k, change)
}

// The change of bin i, written behind k others where the cut makes one; how many there are then. A
// bin that the cut leaves or passes over is left at once.
fn write_bin(
    s: TurnStockSpec,
    source: Source,
    values: &[f64],
    there: &[bool],
    cells: &[f64],
    i: usize,
    indices: &mut [usize],
    records: &mut [f64],
    k: usize,
) -> usize
    requires { (i ≤ cell_limit) × SameTo cells.now i }
    ensures { ListsChange k result (change_of (act_cell (source_act s source values.now there.now)) cells.now i) indices records }
{
    let before = stock::cell_at(cells, i);
    if unchanged::leaves(source, before) {
        return k;
    }
    let reached = write_reach(s, source, values, there, i);
    let low = reach::low_of(reached);
    let Some(_) = low else {
        return k;
    };
    let side = side_of(source);
    match side {
        TurnSide::Outer => put_outer(before, reached, i, indices, records, k),
        TurnSide::Inner => put_inner(before, reached, i, indices, records, k),
    }
}

// The changes of the cut, taken in the bins from first to before last only, written out; how many
// they are.
fn write(
    s: TurnStockSpec,
    source: Source,
    values: &[f64],
    there: &[bool],
    cells: &[f64],
    first: usize,
    last: usize,
    indices: &mut [usize],
    records: &mut [f64],
) -> usize
    requires { (first ≤ last) × (last ≤ cell_limit) × SameBelow cells.now last × RoomFor (span_cell first last s source values.now there.now) cells.now last indices.old records.old }
    ensures { ListsBelow (span_cell first last s source values.now there.now) cells.now last result indices records }
{
    let mut k: usize = 0;
    for i in first..last {
        k = write_bin(s, source, values, there, cells, i, indices, records, k);
    }
    k
}

// Change k, written at its place.
fn put(indices: &mut [usize], records: &mut [f64], k: usize, change: TurnChange)
    requires { k < room_of (length indices.old) (length records.old) }
    ensures { PutsChange k change indices records }
{
    let at = 8 * k;
    indices[k] = change.index;
    records[at] = change.before.outer.lower_mm;
    records[at + 1] = change.before.outer.upper_mm;
    records[at + 2] = change.before.inner.lower_mm;
    records[at + 3] = change.before.inner.upper_mm;
    records[at + 4] = change.after.outer.lower_mm;
    records[at + 5] = change.after.outer.upper_mm;
    records[at + 6] = change.after.inner.lower_mm;
    records[at + 7] = change.after.inner.upper_mm;
}

// What a thread makes of the cell of bin i, written behind k others where it goes deeper; how many
// there are then.
fn thread_bin(
    side: TurnSide,
    radius: f64,
    before: TurnCell,
    i: usize,
    indices: &mut [usize],
    records: &mut [f64],
    k: usize,
) -> usize
    requires { (k < room_of (length indices.old) (length records.old)) × (same_cell before before ≡ true) }
    ensures { ListsChange k result (thread_change side radius before i) indices records }
{
    if unchanged::thread_leaves(side, radius, before) {
        return k;
    }
    let after = reach::cut_cell(side, before, Reach::Low(radius));
    let change = TurnChange {
        index: i,
        before,
        after,
    };
    put(indices, records, k, change);
    k + 1
}

// The changes of a thread, written out where there is room for each of its bins; how many they are.
// The bound of the loop is the list's own too, so that the compiler asks no place of a cell.
fn write_thread(
    side: TurnSide,
    radius: f64,
    cells: &[f64],
    first: usize,
    last: usize,
    indices: &mut [usize],
    records: &mut [f64],
) -> usize
    requires { (first ≤ last) × SameBelow cells.now last × RoomOver first last indices.old records.old }
    ensures { ListsBelow (act_cell (span_act first last (low_act side radius))) cells.now last result indices records }
{
    let top = numbers::lesser(last, cells.len() / 4);
    let mut k: usize = 0;
    for i in first..top {
        let before = stock::cell_at(cells, i);
        k = thread_bin(side, radius, before, i, indices, records, k);
    }
    k
}

// What a drill makes of the cell of bin i, by its radius at the two ends of the bin, written behind k
// others where it is another cell, which the inner bounds tell; how many there are then.
fn put_drill(
    low: f64,
    high: f64,
    before: TurnCell,
    i: usize,
    indices: &mut [usize],
    records: &mut [f64],
    k: usize,
) -> usize
    requires { (k < room_of (length indices.old) (length records.old)) × (same_cell before before ≡ true) }
    ensures { ListsChange k result (drill_change low high before i) indices records }
{
    let after = reach::cut_cell(TurnSide::Inner, before, Reach::Both(low, high));
    let lower = before.inner.lower_mm == after.inner.lower_mm;
    let upper = before.inner.upper_mm == after.inner.upper_mm;
    if lower & upper {
        return k;
    }
    let change = TurnChange {
        index: i,
        before,
        after,
    };
    put(indices, records, k, change);
    k + 1
}

// How many changes of a drill are written, with its radius at the height that it was asked for last.
#[derive(Clone, Copy)]
struct Drilled {
    k: usize,
    at: f64,
    low: f64,
}

// The drill's radius at z, which is in hand where it was asked for last.
fn kept(d: Drilled, tip: f64, radius: f64, cone: f64, z: f64) -> f64
    requires { d.low ≡ drill_at d.at tip radius cone }
    ensures { result ≡ drill_at z tip radius cone }
{
    if nose::alike(d.at, z) {
        return d.low;
    }
    single::drill_at(z, tip, radius, cone)
}

// Bin i of a drill, where it is no bin that the drill leaves. The index is below 2^32: so told, the
// compiler turns it into a float in fewer steps.
fn drill_bin(
    s: TurnStockSpec,
    tip: f64,
    radius: f64,
    cone: f64,
    cells: &[f64],
    i: usize,
    indices: &mut [usize],
    records: &mut [f64],
    d: Drilled,
) -> Drilled
    requires { (i ≤ cell_limit) × SameTo cells.now i × (d.k < room_of (length indices.old) (length records.old)) × (d.low ≡ drill_at d.at tip radius cone) }
    ensures { ListsChange d.k result.k (change_of (act_cell (bore_act s tip radius cone)) cells.now i) indices records × (result.low ≡ drill_at result.at tip radius cone) }
{
    let before = stock::cell_at(cells, i);
    if unchanged::drill_leaves(radius, before) {
        return d;
    }
    let bin = stock::bin_of(s, i % 4294967296);
    let high = kept(d, tip, radius, cone, bin.za);
    let low = single::drill_at(bin.zb, tip, radius, cone);
    let k = put_drill(low, high, before, i, indices, records, d.k);
    Drilled { k, at: bin.zb, low }
}

// The changes of a drill, written out where there is room for each of its bins; how many they are.
fn write_drill(
    s: TurnStockSpec,
    tip: f64,
    radius: f64,
    cone: f64,
    cells: &[f64],
    first: usize,
    last: usize,
    indices: &mut [usize],
    records: &mut [f64],
) -> usize
    requires { (first ≤ last) × (last ≤ cell_limit) × SameBelow cells.now last × RoomOver first last indices.old records.old }
    ensures { ListsBelow (act_cell (span_act first last (bore_act s tip radius cone))) cells.now last result indices records }
{
    let top = numbers::lesser(last, cells.len() / 4);
    let low = single::drill_at(tip, tip, radius, cone);
    let mut d = Drilled { k: 0, at: tip, low };
    for i in first..top {
        d = drill_bin(s, tip, radius, cone, cells, i, indices, records, d);
    }
    d.k
}

// The changes of the cut, written out where there is room for each of its bins: each kind has its own
// loop.
fn write_each(
    s: TurnStockSpec,
    source: Source,
    values: &[f64],
    there: &[bool],
    cells: &[f64],
    first: usize,
    last: usize,
    indices: &mut [usize],
    records: &mut [f64],
) -> usize
    requires { (first ≤ last) × (last ≤ cell_limit) × SameBelow cells.now last × RoomOver first last indices.old records.old }
    ensures { ListsBelow (span_cell first last s source values.now there.now) cells.now last result indices records }
{
    match source {
        Source::Thread { side, radius } => {
            write_thread(side, radius, cells, first, last, indices, records)
        }
        Source::Drill {
            tip_z,
            radius,
            cone,
        } => write_drill(s, tip_z, radius, cone, cells, first, last, indices, records),
        Source::Rows(side) => write(
            s,
            Source::Rows(side),
            values,
            there,
            cells,
            first,
            last,
            indices,
            records,
        ),
    }
}

// The changes that the cut makes in n cells, where it is taken in the bins from first to before last
// only, and where there is room for them: in one pass where there is room for all of those bins.
pub fn list(
    s: TurnStockSpec,
    source: Source,
    values: &[f64],
    there: &[bool],
    cells: &[f64],
    first: usize,
    last: usize,
    n: usize,
    indices: &mut [usize],
    records: &mut [f64],
) -> Result<usize, Refusal>
    requires { (first ≤ last) × (last ≤ n) × (n ≤ cell_limit) × SameBelow cells.now n }
    ensures { Tallies (proposing (span_act first last (source_act s source values.now there.now)) cells.now n) result indices records }
{
    let room = changes::room(indices.len(), records.len());
    if last - first <= room {
        return Ok(write_each(
            s, source, values, there, cells, first, last, indices, records,
        ));
    }
    if count(s, source, values, there, cells, first, last) <= room {
        return Ok(write(
            s, source, values, there, cells, first, last, indices, records,
        ));
    }
    Err(Refusal::ChangesOverRoom)
}
