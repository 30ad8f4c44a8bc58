// Moves of a tool over a stock, and a stock rebuilt from its parts.
//
// A move is a commit of changes together with the rings that were removed inside the material. The
// rings are taken one after the other, each cut against those before it, and everything is decided
// before anything is written. The generation rises by one for the commit and by one for each ring
// that is not empty within the stock. Parts are cells and rings that were kept elsewhere: the rings
// are taken into an empty store, and the generation is 0 again. Both leave the kept numbers of the cells
// as they are then.
#![tactic(auto)]

ghost use Rattle.std.specs.Prelude.{◌≡◌, ◌≤◌, length};
ghost use Rattle.refusals.specs.Number.{placed_of};
ghost use Rattle.changes.specs.Change.{room_of, changes_from};
ghost use Rattle.rings.specs.Remove.{StoresAs};
ghost use Rattle.moves.specs.Move.{movable_of, rings_moved, taken_of, TakesRings, move_in, move_of, MovesLent, given_of, parts_of, RebuildsLent};
ghost use Rattle.moves.specs.Then.{ShiftsThen, ShiftsLent};

use changes::ChangeList;
use refusals::{LAST_GENERATION, Refusal, Refused};
use rings::RingCount;
use stock::{Stamp, TurnStock, TurnStockSpec};

// What is asked of a move on n checked cells before its changes, with the stamp of their list; 4, 19,
// 20, 10.
fn movable(
    stock: TurnStock,
    n: usize,
    cells: &[f64],
    blocks: &[f64],
    rings: &[f64],
    stamp: Stamp,
    removed: &[f64],
) -> Result<(), Refused>
    ensures { placed_of result ≡ movable_of stock n cells.now blocks.now rings.now stamp removed.now }
{
    if !rings::rings_fit(stock.spec, rings, stock.rings) {
        return Err(Refused::from(Refusal::StoredRings));
    }
    if !stock::same_stamp(stamp, stock.stamp) {
        return Err(Refused::from(Refusal::ListStale));
    }
    if !blocks::matches(stock::clean_spec(stock.spec), n, cells, blocks) {
        return Err(Refused::from(Refusal::BlocksDoNotMatch));
    }
    if let Some(at) = rings::first_bad_ring(removed) {
        return Err(Refused::at(Refusal::RingOutside, at));
    }
    Ok(())
}

// The rings `removed`, taken, and the generation then; 12, 11.
fn rings_moved(stock: TurnStock, rings: &mut [f64], removed: &[f64]) -> Result<RingCount, Refused>
    ensures { TakesRings (rings_moved stock rings.old removed.now) result rings.old rings.new }
{
    let raised = rings::raised_by(stock.spec, removed) as u64;
    let generation = stock.stamp.generation;
    if LAST_GENERATION - generation <= raised {
        return Err(Refused::from(Refusal::GenerationsSpent));
    }
    let stored = rings::remove_rings(stock.spec, rings, stock.rings, removed)?;
    Ok(RingCount {
        rings: stored,
        generation: generation + 1 + raised,
    })
}

// The rings of a move on n checked cells, taken, where its changes say `found`; 4, 19, 20, 10, then what
// they say, 12, 11.
pub fn take_rings(
    stock: TurnStock,
    n: usize,
    cells: &[f64],
    blocks: &[f64],
    rings: &mut [f64],
    stamp: Stamp,
    found: Result<(), Refused>,
    removed: &[f64],
) -> Result<RingCount, Refused>
    ensures { TakesRings
        (taken_of stock n cells.now blocks.now rings.old stamp (placed_of found) removed.now)
        result rings.old rings.new }
{
    movable(stock, n, cells, blocks, rings, stamp, removed)?;
    found?;
    rings_moved(stock, rings, removed)
}

// A move on a stock whose n cells are checked, of changes that the lists hold; 4, 19, 20, 10, 7, then
// change by change 8, 21, 22, 23, then 12, 11.
fn move_in(
    stock: TurnStock,
    n: usize,
    cells: &mut [f64],
    blocks: &mut [f64],
    rings: &mut [f64],
    list: ChangeList,
    indices: &[usize],
    records: &[f64],
    removed: &[f64],
) -> Result<RingCount, Refused>
    requires { list.count ≤ room_of (length indices.now) (length records.now) }
    ensures { ShiftsThen stock n
        (move_in stock n cells.old blocks.old rings.old list.stamp
        (changes_from indices.now records.now list.count)
        removed.now)
        result cells.old cells.new blocks.old blocks.new rings.old rings.new indices.now list.count }
{
    let s = stock::clean_spec(stock.spec);
    let found = changes::first_refusal(s, n, cells, indices, records, list.count);
    let left = take_rings(stock, n, cells, blocks, rings, list.stamp, found, removed)?;
    changes::put_after(cells, indices, records, list.count);
    blocks::renew_changed(s, n, cells, blocks, indices, list.count);
    Ok(left)
}

// A move of a stock that is asked; 1, 2, 3, 6 where the lists hold fewer changes, then as above.
fn move_from(
    stock: TurnStock,
    cells: &mut [f64],
    blocks: &mut [f64],
    rings: &mut [f64],
    list: ChangeList,
    indices: &[usize],
    records: &[f64],
    removed: &[f64],
) -> Result<RingCount, Refused>
    ensures { ShiftsLent stock
        (move_of stock cells.old blocks.old rings.old list indices.now records.now removed.now)
        result cells blocks rings }
{
    let n = stock::cells_fit(stock.spec, cells)?;
    if changes::room(indices.len(), records.len()) < list.count {
        return Err(Refused::from(Refusal::ChangesOverRoom));
    }
    move_in(
        stock, n, cells, blocks, rings, list, indices, records, removed,
    )
}

// Commit a change list and take the rings `removed`: the stock afterwards, and in `tests`, as far as it
// reaches, the tests that each ring took; 1, 2, 3, 6 where the lists hold fewer changes, 4, 19 where the
// list's stamp is not the stock's, 20 where the kept numbers do not match the cells, 10, 7, then change
// by change 8, 21, 22, 23, then 12, 11.
pub fn apply_move(
    stock: TurnStock,
    cells: &mut [f64],
    blocks: &mut [f64],
    rings: &mut [f64],
    list: ChangeList,
    indices: &[usize],
    records: &[f64],
    removed: &[f64],
    tests: &mut [usize],
) -> Result<TurnStock, Refused>
    ensures { MovesLent stock
        (move_of stock cells.old blocks.old rings.old list indices.now records.now removed.now)
        removed.now result cells blocks rings tests }
{
    let left = move_from(stock, cells, blocks, rings, list, indices, records, removed)?;
    rings::list_tests(stock.spec, rings, stock.rings, removed, tests);
    Ok(stock::stock_with(stock, left.rings, left.generation))
}

// How many of the rings `given` are stored in `rings`; 10, 11.
fn store_given(spec: TurnStockSpec, given: &[f64], rings: &mut [f64]) -> Result<usize, Refused>
    ensures { StoresAs rings.old (given_of spec given.now rings.old) result rings.new }
{
    if let Some(at) = rings::first_bad_ring(given) {
        return Err(Refused::at(Refusal::RingOutside, at));
    }
    rings::remove_rings(spec, rings, 0, given)
}

// The same of cells that are asked, with room for so many kept numbers; 1, 2, 3, 20, 10, 11.
fn store_parts(
    spec: TurnStockSpec,
    cells: &[f64],
    len: usize,
    given: &[f64],
    rings: &mut [f64],
) -> Result<usize, Refused>
    ensures { StoresAs rings.old (parts_of spec cells.now len given.now rings.old) result rings.new }
{
    let n = stock::cells_fit(spec, cells)?;
    if len != 2 * blocks::blocks_in(n) {
        return Err(Refused::from(Refusal::BlocksDoNotMatch));
    }
    store_given(spec, given, rings)
}

// A stock of an edition, which is the caller's, from its cells and the rings `given`, which are stored
// in `rings`; its generation is 0, its kept numbers are worked out of the cells, and the tests that each
// ring took are in `tests`, as far as it reaches; 1, 2, 3, 20 where the kept numbers are not two for each
// block, 10, 11.
pub fn from_parts(
    spec: TurnStockSpec,
    edition: u32,
    cells: &[f64],
    blocks: &mut [f64],
    given: &[f64],
    rings: &mut [f64],
    tests: &mut [usize],
) -> Result<TurnStock, Refused>
    ensures { RebuildsLent spec edition cells.now
        (parts_of spec cells.now (length blocks.old) given.now rings.old)
        given.now result blocks rings tests }
{
    let stored = store_parts(spec, cells, blocks.len(), given, rings)?;
    let s = stock::clean_spec(spec);
    blocks::renew_all(s, cells.len() / 4, cells, blocks);
    rings::list_tests(spec, rings, 0, given, tests);
    Ok(TurnStock {
        spec,
        stamp: Stamp {
            edition,
            generation: 0,
        },
        rings: stored,
    })
}
