// The change list: as lent memory, committed, and as what differs between two stocks.
//
// Of each change an index stands in one lent list, and eight numbers in another, the cell before and
// the cell after. What a cut changes, and how two stocks differ, is listed by rising index: a function
// says what the cell of each bin becomes, and the bins whose cell is then another one are the changes.
//
// A commit decides everything before it writes: the list is the stock's, the kept numbers match the
// cells, the indices rise, and each change in turn leaves a cell that fits, names a bin that holds its
// before-cell, and only removes material. A list is decided by one fold, wherever its changes lie: it
// begins, goes a step for each change, and comes out. Then every after-cell is written, the kept numbers
// of the blocks in which they lie are worked out again, and the generation rises by one, also with no
// changes.
#![tactic(auto)]

ghost use Rattle.std.specs.Prelude.{◌≡◌, true, ◌+◌, ◌*◌, ◌≤◌, ◌<◌, min, length};
ghost use Rattle.refusals.specs.Number.{paper_of, placed_of};
ghost use Rattle.refusals.specs.Limits.{last_place};
ghost use Rattle.refusals.specs.Paper.{answers, place_or, placed, onward};
ghost use Rattle.floats.specs.Pick.{pick};
ghost use Rattle.stock.specs.Spec.{clean_spec};
ghost use Rattle.stock.specs.Cell.{cell_from};
ghost use Rattle.changes.specs.Change.{room_of, change_held, changes_from, changes_to, settled, PutsChange, ListsChange, ListsBelow, RoomFor, stamped, Tallies, Proposes};
ghost use Rattle.changes.specs.Commit.{only_removes, applies_to, passes, each_from, first_fall, first_refusal, put_held, commit_held, asked_stock, apply_of, stock_at, Commits, CommitsKept};
ghost use Rattle.changes.specs.Decide.{applies, rises, deciding_paper, on_cells, step_of, outcome_of, raised_of, is_accepted, CommitsThen};
ghost use Rattle.changes.specs.Difference.{other_cell, difference_of};

use refusals::{LAST_GENERATION, LAST_PLACE, Refusal, Refused};
use stock::{RadiusBounds, Stamp, TurnCell, TurnChange, TurnStock, TurnStockSpec};

// A list of so many changes, which are lent beside it, with the stamp of the stock that it is of.
#[derive(Clone, Copy)]
pub struct ChangeList {
    pub count: usize,
    pub stamp: Stamp,
}

// The list of so many changes, of a stock with this stamp.
pub fn list_of(tally: Result<usize, Refusal>, stamp: Stamp) -> Result<ChangeList, Refusal>
    ensures { paper_of result ≡ stamped stamp (paper_of tally) }
{
    let count = tally?;
    Ok(ChangeList { count, stamp })
}

// How many changes the two lists have room for.
pub fn room(indices: usize, records: usize) -> usize
    ensures { result ≡ room_of indices records }
{
    let whole = records / 8;
    if indices < whole { indices } else { whole }
}

// Change k, written at its place.
fn put_change(indices: &mut [usize], records: &mut [f64], k: usize, change: TurnChange)
    requires { k < room_of (length indices.old) (length records.old) }
    ensures { PutsChange k change indices records }
{
    let at = 8 * k;
    indices[k] = change.index;
    records[at] = change.before.outer.lower_mm;
    records[at + 1] = change.before.outer.upper_mm;
    records[at + 2] = change.before.inner.lower_mm;
    records[at + 3] = change.before.inner.upper_mm;
    records[at + 4] = change.after.outer.lower_mm;
    records[at + 5] = change.after.outer.upper_mm;
    records[at + 6] = change.after.inner.lower_mm;
    records[at + 7] = change.after.inner.upper_mm;
}

// The change, written behind k others where its cells differ and there is room; how many there are
// then.
pub fn list_change(
    indices: &mut [usize],
    records: &mut [f64],
    k: usize,
    change: TurnChange,
) -> usize
    ensures { ListsChange k result change indices records }
{
    let before = change.before;
    let after = change.after;
    if stock::same_cell(before, after) {
        return k;
    }
    if room(indices.len(), records.len()) <= k {
        return k;
    }
    put_change(indices, records, k, change);
    k + 1
}

// No bound moves the wrong way.
fn only_removes(before: TurnCell, after: TurnCell) -> bool
    ensures { result ≡ only_removes before after }
{
    (after.outer.upper_mm <= before.outer.upper_mm)
        & (after.outer.lower_mm <= before.outer.lower_mm)
        & (before.inner.lower_mm <= after.inner.lower_mm)
        & (before.inner.upper_mm <= after.inner.upper_mm)
}

// There is such a bin among n, it holds the before-cell, and the change adds no material. This has no
// branch; which of the three it is that does not hold is asked only where one does not.
fn applies_to(n: usize, cells: &[f64], change: TurnChange) -> bool
    ensures { result ≡ applies n cells.now change }
{
    let before = change.before;
    let after = change.after;
    let index = change.index;
    let held = stock::cell_at(cells, index);
    (index < n) & stock::same_cell(held, before) & only_removes(before, after)
}

// 21, 22, 23, one after the other.
fn asked(n: usize, cells: &[f64], change: TurnChange) -> Result<(), Refusal>
    ensures { paper_of result ≡ applies_to n cells.now change }
{
    let before = change.before;
    let after = change.after;
    let index = change.index;
    if n <= index {
        return Err(Refusal::NoSuchBin);
    }
    let held = stock::cell_at(cells, index);
    if !stock::same_cell(held, before) {
        return Err(Refusal::BinHoldsOther);
    }
    if !only_removes(before, after) {
        return Err(Refusal::MaterialAdded);
    }
    Ok(())
}

// One change, against n cells: 8, 21, 22, 23.
fn change_passes(
    s: TurnStockSpec,
    n: usize,
    cells: &[f64],
    change: TurnChange,
) -> Result<(), Refusal>
    ensures { paper_of result ≡ passes s n cells.now change }
{
    let after = change.after;
    if !stock::cell_fits(s, after) {
        return Err(Refusal::AfterDoesNotFit);
    }
    if applies_to(n, cells, change) {
        return Ok(());
    }
    asked(n, cells, change)
}

// How far a list of changes is decided: against n cells of a clean spec, with the last index seen,
// if any.
#[derive(Clone, Copy)]
pub struct Deciding {
    s: TurnStockSpec,
    n: usize,
    any: bool,
    last: usize,
    rises: bool,
    // the place of the next change, and where the indices do not rise, of the first that does not
    count: usize,
    fall: usize,
    // the first change that does not pass
    found: Result<(), Refused>,
}

// Before the first change, on n cells of a clean spec, which are not asked.
pub fn begin(s: TurnStockSpec, n: usize) -> Deciding
    ensures { deciding_paper result ≡ on_cells s n }
{
    Deciding {
        s,
        n,
        any: false,
        last: 0,
        rises: true,
        count: 0,
        fall: 0,
        found: Ok(()),
    }
}

// The number of cells of a stock that is asked for a commit of a list with this stamp; 1, 2, 3, 19, 20.
pub fn asked_cells(
    stock: TurnStock,
    cells: &[f64],
    blocks: &[f64],
    stamp: Stamp,
) -> Result<usize, Refusal>
    ensures { paper_of result ≡ asked_stock stock cells.now blocks.now stamp }
{
    let n = stock::cells_fit(stock.spec, cells)?;
    if !stock::same_stamp(stamp, stock.stamp) {
        return Err(Refusal::ListStale);
    }
    if !blocks::matches(stock::clean_spec(stock.spec), n, cells, blocks) {
        return Err(Refusal::BlocksDoNotMatch);
    }
    Ok(n)
}

// The same, a refusal of it at the place k.
fn passes_at(
    s: TurnStockSpec,
    n: usize,
    cells: &[f64],
    k: usize,
    change: TurnChange,
) -> Result<(), Refused>
    ensures { placed_of result ≡ placed k (passes s n cells.now change) }
{
    match change_passes(s, n, cells, change) {
        Ok(()) => Ok(()),
        Err(why) => Err(Refused::at(why, k)),
    }
}

// The first refusal, one change on, which is at the place k.
fn found_next(
    s: TurnStockSpec,
    n: usize,
    cells: &[f64],
    before: Result<(), Refused>,
    k: usize,
    change: TurnChange,
) -> Result<(), Refused>
    ensures { placed_of result ≡ onward (placed_of before) (λ _. placed k (passes s n cells.now change)) }
{
    before?;
    passes_at(s, n, cells, k, change)
}

// The place behind k, up to the last that there is.
fn place_after(k: usize) -> usize
    ensures { result ≡ min (k + 1) last_place }
{
    if k < LAST_PLACE {
        return k + 1;
    }
    LAST_PLACE
}

// The place of the first fall: that of the change asked now while none is found.
fn fall_at(rises: bool, k: usize, fall: usize) -> usize
    ensures { result ≡ pick rises k fall }
{
    if rises {
        return k;
    }
    fall
}

// One change on; 7, 8, 21, 22 and 23 are kept for the end.
pub fn step(st: Deciding, cells: &[f64], change: TurnChange) -> Deciding
    ensures { deciding_paper result ≡ step_of cells.now (deciding_paper st) change }
{
    let s = st.s;
    let n = st.n;
    let before = st.found;
    let index = change.index;
    let k = st.count;
    let found = found_next(s, n, cells, before, k, change);
    let count = place_after(k);
    let fall = fall_at(st.rises, k, st.fall);
    let rises = st.rises & (!st.any | (st.last < index));
    Deciding {
        s,
        n,
        any: true,
        last: index,
        rises,
        count,
        fall,
        found,
    }
}

// After the last change: 7, then the first change that does not pass.
pub fn outcome(st: Deciding) -> Result<(), Refused>
    ensures { placed_of result ≡ outcome_of (deciding_paper st) }
{
    if !st.rises {
        return Err(Refused::at(Refusal::IndicesDoNotRise, st.fall));
    }
    st.found
}

// The stock after changes that pass; 12.
pub fn raised(found: Result<(), Refused>, stock: TurnStock) -> Result<TurnStock, Refused>
    ensures { placed_of result ≡ stock_at stock (raised_of (placed_of found) stock.stamp.generation) }
{
    found?;
    let generation = stock.stamp.generation;
    if generation == LAST_GENERATION {
        return Err(Refused::from(Refusal::GenerationsSpent));
    }
    Ok(stock::stock_with(stock, stock.rings, generation + 1))
}

// The cell whose four numbers start at a place.
fn cell_from(list: &[f64], at: usize) -> TurnCell
    requires { at + 4 ≤ length list.now }
    ensures { result ≡ cell_from list.now at }
{
    TurnCell {
        outer: RadiusBounds {
            lower_mm: list[at],
            upper_mm: list[at + 1],
        },
        inner: RadiusBounds {
            lower_mm: list[at + 2],
            upper_mm: list[at + 3],
        },
    }
}

// Change j of the lent lists; one of no numbers where they hold none.
pub fn change_at(indices: &[usize], records: &[f64], j: usize) -> TurnChange
    ensures { result ≡ change_held indices.now records.now j }
{
    if room(indices.len(), records.len()) <= j {
        let none = stock::cell_at(records, records.len());
        return TurnChange {
            index: 0,
            before: none,
            after: none,
        };
    }
    let index = indices[j];
    let before = cell_from(records, 8 * j);
    let after = cell_from(records, 8 * j + 4);
    TurnChange {
        index,
        before,
        after,
    }
}

// The first k indices strictly rise. This pass has no branch; a step asks the same of its index.
fn indices_rise(indices: &[usize], records: &[f64], k: usize) -> bool
    requires { k ≤ room_of (length indices.now) (length records.now) }
    ensures { result ≡ rises (changes_from indices.now records.now k) }
{
    if k < 2 {
        return true;
    }
    let mut ok = true;
    for i in 1..k {
        ok = ok & (indices[i - 1] < indices[i]);
    }
    ok
}

// The place of the first of k indices that is not above the one before it; k where there is none.
fn first_fall(indices: &[usize], records: &[f64], k: usize) -> usize
    requires { k ≤ room_of (length indices.now) (length records.now) }
    ensures { result ≡ place_or k (first_fall (changes_from indices.now records.now k)) }
{
    if k < 2 {
        return k;
    }
    for i in 1..k {
        if indices[i] <= indices[i - 1] {
            return i;
        }
    }
    k
}

// The first of k changes that does not pass, step by step.
fn first_found(
    s: TurnStockSpec,
    n: usize,
    cells: &[f64],
    indices: &[usize],
    records: &[f64],
    k: usize,
) -> Result<(), Refused>
    requires { k ≤ room_of (length indices.now) (length records.now) }
    ensures { placed_of result ≡ each_from s n cells.now 0 (changes_from indices.now records.now k) }
{
    for i in 0..k {
        let change = change_at(indices, records, i);
        passes_at(s, n, cells, i, change)?;
    }
    Ok(())
}

// Each of k changes passes, asked without a branch; which one does not is asked only where one does not.
fn all_pass(
    s: TurnStockSpec,
    n: usize,
    cells: &[f64],
    indices: &[usize],
    records: &[f64],
    k: usize,
) -> bool
    requires { k ≤ room_of (length indices.now) (length records.now) }
    ensures { result ≡ true → each_from s n cells.now 0 (changes_from indices.now records.now k) ≡ answers tt }
{
    let mut ok = true;
    for i in 0..k {
        let change = change_at(indices, records, i);
        let after = change.after;
        let fits = stock::cell_fits(s, after);
        ok = ok & fits & applies_to(n, cells, change);
    }
    ok
}

// Of k changes, as many as lists of these lengths hold.
pub fn held_of(indices: usize, records: usize, k: usize) -> usize
    ensures { result ≡ min k (room_of indices records) }
{
    let room = room(indices, records);
    if k < room { k } else { room }
}

// 7, then change by change 8, 21, 22, 23, for the first changes that the lists hold, k at most.
pub fn first_refusal(
    s: TurnStockSpec,
    n: usize,
    cells: &[f64],
    indices: &[usize],
    records: &[f64],
    k: usize,
) -> Result<(), Refused>
    ensures { placed_of result ≡ first_refusal s n cells.now indices.now records.now k }
{
    let held = held_of(indices.len(), records.len(), k);
    if !indices_rise(indices, records, held) {
        let at = first_fall(indices, records, held);
        return Err(Refused::at(Refusal::IndicesDoNotRise, at));
    }
    if all_pass(s, n, cells, indices, records, held) {
        return Ok(());
    }
    first_found(s, n, cells, indices, records, held)
}

// The after-cells of the first changes that the lists hold, k at most, each written into its bin.
pub fn put_after(cells: &mut [f64], indices: &[usize], records: &[f64], k: usize)
    ensures { cells.new ≡ put_held cells.old indices.now records.now k }
{
    let held = held_of(indices.len(), records.len(), k);
    for i in 0..held {
        let index = indices[i];
        let after = cell_from(records, 8 * i + 4);
        stock::put_cell(cells, index, after);
    }
}

// The changes may be written.
pub fn is_accepted(answer: Result<TurnStock, Refused>) -> bool
    ensures { result ≡ is_accepted answer }
{
    answer.is_ok()
}

// A commit on n cells that are not asked again, of the first changes that the lists hold, k at most.
// `apply` is this after its check; a caller whose preview of this stock was accepted has had the same
// check, and its list has the stock's stamp.
pub fn commit_unasked(
    stock: TurnStock,
    n: usize,
    cells: &mut [f64],
    indices: &[usize],
    records: &[f64],
    k: usize,
) -> Result<TurnStock, Refused>
    ensures { Commits stock (commit_held (clean_spec stock.spec) n cells.old stock.stamp.generation
        indices.now records.now k) result cells }
{
    let s = stock::clean_spec(stock.spec);
    let found = first_refusal(s, n, cells, indices, records, k);
    let after = raised(found, stock)?;
    put_after(cells, indices, records, k);
    Ok(after)
}

// The same, with the kept numbers of the blocks in which its bins lie, where it is accepted.
fn commit_kept(
    stock: TurnStock,
    n: usize,
    cells: &mut [f64],
    blocks: &mut [f64],
    indices: &[usize],
    records: &[f64],
    k: usize,
) -> Result<TurnStock, Refused>
    ensures { CommitsThen stock n (commit_held (clean_spec stock.spec) n cells.old stock.stamp.generation
        indices.now records.now k) result cells.old cells.new blocks.old blocks.new indices.now k }
{
    let after = commit_unasked(stock, n, cells, indices, records, k)?;
    let s = stock::clean_spec(stock.spec);
    blocks::renew_changed(s, n, cells, blocks, indices, k);
    Ok(after)
}

// Commit a change list: the stock afterwards; 1, 2, 3, 19 where the list's stamp is not the stock's, 20
// where the kept numbers do not match the cells, 6 where the lists hold fewer changes, 7, then change by
// change 8, 21, 22, 23, then 12.
pub fn apply(
    stock: TurnStock,
    cells: &mut [f64],
    blocks: &mut [f64],
    list: ChangeList,
    indices: &[usize],
    records: &[f64],
) -> Result<TurnStock, Refused>
    ensures { CommitsKept stock
        (apply_of stock cells.old blocks.old list indices.now records.now)
        result cells blocks }
{
    let n = asked_cells(stock, cells, blocks, list.stamp)?;
    if room(indices.len(), records.len()) < list.count {
        return Err(Refused::from(Refusal::ChangesOverRoom));
    }
    commit_kept(stock, n, cells, blocks, indices, records, list.count)
}

// How many of the first n cells differ.
fn count_differences(cells: &[f64], after: &[f64], n: usize) -> usize
    ensures { result ≡ length (changes_to (other_cell after.now) cells.now n) }
{
    let mut k: usize = 0;
    for i in 0..n {
        let a = stock::cell_at(cells, i);
        let b = stock::cell_at(after, i);
        if !stock::same_cell(a, b) {
            k += 1;
        }
    }
    k
}

// The differing cells of the first n, written out; how many they are. The bound of the loop is that of
// both lists too, so that the compiler asks no place of a cell.
fn write_differences(
    cells: &[f64],
    after: &[f64],
    n: usize,
    indices: &mut [usize],
    records: &mut [f64],
) -> usize
    requires { (4 * n ≤ length cells.now) × (4 * n ≤ length after.now) × RoomFor (other_cell after.now) cells.now n indices.old records.old }
    ensures { ListsBelow (other_cell after.now) cells.now n result indices records }
{
    let held = numbers::lesser(cells.len() / 4, after.len() / 4);
    let top = numbers::lesser(n, held);
    let mut k: usize = 0;
    for i in 0..top {
        let change = TurnChange {
            index: i,
            before: stock::cell_at(cells, i),
            after: stock::cell_at(after, i),
        };
        k = list_change(indices, records, k, change);
    }
    k
}

// The differing cells of the first n, where there is room for them.
fn list_differences(
    cells: &[f64],
    after: &[f64],
    n: usize,
    indices: &mut [usize],
    records: &mut [f64],
) -> Result<usize, Refusal>
    requires { (4 * n ≤ length cells.now) × (4 * n ≤ length after.now) }
    ensures { Tallies (λ room. settled room (changes_to (other_cell after.now) cells.now n)) result indices records }
{
    let room = room(indices.len(), records.len());
    if n <= room {
        return Ok(write_differences(cells, after, n, indices, records));
    }
    if count_differences(cells, after, n) <= room {
        return Ok(write_differences(cells, after, n, indices, records));
    }
    Err(Refusal::ChangesOverRoom)
}

// The same of two lists of cells that are asked first; 1, 2, 3, 6.
fn tally_differences(
    spec: TurnStockSpec,
    cells: &[f64],
    after: &[f64],
    indices: &mut [usize],
    records: &mut [f64],
) -> Result<usize, Refusal>
    ensures { Tallies (difference_of spec cells.now after.now) result indices records }
{
    let n = stock::cells_fit(spec, cells)?;
    stock::cells_fit(spec, after)?;
    list_differences(cells, after, n, indices, records)
}

// The changes that turn a stock into another of the same spec, with the first one's stamp; 1, 2, 3, 6.
pub fn changes_to(
    stock: TurnStock,
    cells: &[f64],
    after: &[f64],
    indices: &mut [usize],
    records: &mut [f64],
) -> Result<ChangeList, Refusal>
    ensures { Proposes stock.stamp (difference_of stock.spec cells.now after.now) result indices records }
{
    let tally = tally_differences(stock.spec, cells, after, indices, records);
    list_of(tally, stock.stamp)
}
