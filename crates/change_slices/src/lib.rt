// The change list as a lent slice of records: commit and move, and what a tool changes.
//
// A commit hands each record by value to a step of the fold that decides a list, and writes nothing
// before all is decided. A move decides its list as a commit does, and then takes its rings. Both write
// every after-cell, and then the kept numbers of the blocks in which the records' bins lie. A tool's
// changes are listed in flat lists with room for every cell, and what they hold is read into the lent
// records one by one.
#![tactic(auto)]

ghost use Rattle.std.specs.Prelude.{◌≡◌};
ghost use Rattle.refusals.specs.Number.{placed_of};
ghost use Rattle.stock.specs.Cell.{put_cell};
ghost use Rattle.changes.specs.Commit.{pass_all, commit_of, put_all, CommitsKept};
ghost use Rattle.cuts.specs.Tool.{preview_tool};
ghost use Rattle.moves.specs.Move.{MovesLent};
ghost use Rattle.change_slices.specs.Read.{held_in, ReadsInto};
ghost use Rattle.change_slices.specs.Move.{move_list_of};
ghost use Rattle.change_slices.specs.Kept.{renewed_over};
ghost use Rattle.change_slices.specs.Proposal.{Writes};

use changes::ChangeList;
use cuts::Tool;
use refusals::{CELL_LIMIT, Refusal, Refused};
use stock::{Stamp, TurnChange, TurnStock, TurnStockSpec};

mod flat;
mod kept;

// Eight numbers for each of as many changes as a stock has cells.
const RECORD_LIMIT: usize = 8 * CELL_LIMIT;

// The after-cell, written into its bin.
fn put_after(cells: &mut [f64], change: TurnChange)
    ensures { cells.new ≡ put_cell cells.old change.index change.after }
{
    let index = change.index;
    let after = change.after;
    stock::put_cell(cells, index, after);
}

// Whether the changes pass on n cells of a clean spec: each record in turn is handed to a step.
fn decide(s: TurnStockSpec, n: usize, cells: &[f64], changes: &[TurnChange]) -> Result<(), Refused>
    ensures { placed_of result ≡ pass_all s n cells.now changes.now }
{
    let mut st = changes::begin(s, n);
    for change in changes {
        st = changes::step(st, cells, *change);
    }
    changes::outcome(st)
}

// Every after-cell, written into its bin.
fn put_all(cells: &mut [f64], changes: &[TurnChange])
    ensures { cells.new ≡ put_all cells.old changes.now }
{
    for change in changes {
        put_after(cells, *change);
    }
}

// The kept numbers after the changes: each number cleared, and the blocks in which their bins lie worked
// out of the cells afterwards.
fn renew_changed(
    s: TurnStockSpec,
    n: usize,
    cells: &[f64],
    blocks: &mut [f64],
    changes: &[TurnChange],
)
    ensures { blocks.new ≡ renewed_over s n cells.now blocks.old changes.now }
{
    let mut block = kept::open(n, blocks);
    for change in changes {
        block = kept::leave(s, n, cells, blocks, block, *change);
    }
    blocks::renew_block(s, n, cells, blocks, block);
}

// Commit the changes of a list with this stamp: the stock afterwards; 1, 2, 3, 19 where the stamp is not
// the stock's, 20 where the kept numbers do not match the cells, 7, then change by change 8, 21, 22, 23,
// then 12.
pub fn apply(
    stock: TurnStock,
    cells: &mut [f64],
    blocks: &mut [f64],
    stamp: Stamp,
    changes: &[TurnChange],
) -> Result<TurnStock, Refused>
    ensures { CommitsKept stock (commit_of stock cells.old blocks.old stamp changes.now) result cells blocks }
{
    let s = kept::clean(stock);
    let n = cells.len() / 4;
    let found = decide(s, n, cells, changes);
    let after = kept::answer(stock, cells, blocks, stamp, found)?;
    put_all(cells, changes);
    renew_changed(s, n, cells, blocks, changes);
    Ok(after)
}

// Commit the changes of a list with this stamp and take the rings `removed`: the stock afterwards, and in
// `tests`, as far as it reaches, the tests that each ring took; 1, 2, 3, 4, 19 where the stamp is not the
// stock's, 20 where the kept numbers do not match the cells, 10, 7, then change by change 8, 21, 22, 23,
// then 12, 11.
pub fn apply_move(
    stock: TurnStock,
    cells: &mut [f64],
    blocks: &mut [f64],
    rings: &mut [f64],
    stamp: Stamp,
    changes: &[TurnChange],
    removed: &[f64],
    tests: &mut [usize],
) -> Result<TurnStock, Refused>
    ensures { MovesLent stock
        (move_list_of stock cells.old blocks.old rings.old stamp changes.now removed.now)
        removed.now result cells blocks rings tests }
{
    let s = kept::clean(stock);
    let n = cells.len() / 4;
    let found = decide(s, n, cells, changes);
    let left = kept::take(stock, cells, blocks, rings, stamp, found, removed, tests)?;
    put_all(cells, changes);
    renew_changed(s, n, cells, blocks, changes);
    Ok(stock::stock_with(stock, left.rings, left.generation))
}

// Of k changes, as many as flat lists of these lengths hold and as there are records.
fn held_in(indices: usize, records: usize, k: usize, len: usize) -> usize
    ensures { result ≡ held_in indices records k len }
{
    changes::held_of(indices, records, changes::held_of(len, records, k))
}

// The first k changes of the flat lists, as records; how many were written, as many as the lists
// hold and as there are records.
pub fn read_changes(
    indices: &[usize],
    records: &[f64],
    k: usize,
    changes: &mut [TurnChange],
) -> usize
    ensures { ReadsInto indices.now records.now k result changes }
{
    let held = held_in(indices.len(), records.len(), k, changes.len());
    for i in 0..held {
        let c = changes::change_at(indices, records, i);
        changes[i] = c;
    }
    held
}

// The changes of a tool, as records, the list of this stock: listed in flat lists with room for a change
// a cell, then read from there; 1, 2, 3, 13, 5, 6.
pub fn propose(
    stock: TurnStock,
    cells: &[f64],
    tool: Tool,
    beside: &[f64],
    changes: &mut [TurnChange],
) -> Result<ChangeList, Refusal>
    ensures { Writes stock.stamp (preview_tool stock.spec cells.now tool beside.now) result changes }
{
    let mut indices = [0usize; CELL_LIMIT];
    let mut records = [0.0f64; RECORD_LIMIT];
    let answer = flat::list(
        stock,
        cells,
        tool,
        beside,
        changes.len(),
        &mut indices,
        &mut records,
    );
    let k = flat::count_of(answer);
    read_changes(&indices, &records, k, changes);
    answer
}
