// What a list of changes is asked beside its records, and the kept numbers of the blocks of its bins.
ghost use Rattle.std.specs.Prelude.{◌≡◌};
ghost use Rattle.refusals.specs.Number.{placed_of};
ghost use Rattle.stock.specs.Spec.{clean_spec};
ghost use Rattle.blocks.specs.Renew.{LeavesFor};
ghost use Rattle.change_slices.specs.Kept.{OpensBlocks, Answers, Takes, TakesTold};

use refusals::Refused;
use rings::RingCount;
use stock::{Stamp, TurnChange, TurnStock, TurnStockSpec};

// The spec of a stock with its numbers clean.
pub fn clean(stock: TurnStock) -> TurnStockSpec
    ensures { result ≡ clean_spec stock.spec }
{
    stock::clean_spec(stock.spec)
}

// The kept numbers, each cleared, before the first change; no block is open, which is the one behind
// the last of n bins.
pub fn open(n: usize, blocks: &mut [f64]) -> usize
    ensures { OpensBlocks n result blocks }
{
    blocks::clear(blocks);
    blocks::blocks_in(n)
}

// The block of a change's bin. Where the change before it lies in another, `last`, that one is worked
// out.
pub fn leave(
    s: TurnStockSpec,
    n: usize,
    cells: &[f64],
    blocks: &mut [f64],
    last: usize,
    change: TurnChange,
) -> usize
    ensures { LeavesFor s n cells.now last change.index result blocks }
{
    let index = change.index;
    blocks::leave_block(s, n, cells, blocks, last, index)
}

// The stock after a commit whose changes say `found`: 1, 2, 3, 19, 20, then what they say, 12.
pub fn answer(
    stock: TurnStock,
    cells: &[f64],
    blocks: &[f64],
    stamp: Stamp,
    found: Result<(), Refused>,
) -> Result<TurnStock, Refused>
    ensures { Answers stock cells.now blocks.now stamp (placed_of found) result }
{
    changes::asked_cells(stock, cells, blocks, stamp)?;
    changes::raised(found, stock)
}

// The rings of a move whose changes say `found`, taken: 1, 2, 3, 4, 19, 20, 10, then what they say, 12,
// 11.
fn take_found(
    stock: TurnStock,
    cells: &[f64],
    blocks: &[f64],
    rings: &mut [f64],
    stamp: Stamp,
    found: Result<(), Refused>,
    removed: &[f64],
) -> Result<RingCount, Refused>
    ensures { Takes stock cells.now blocks.now stamp (placed_of found) removed.now result rings.old rings.new }
{
    let n = stock::cells_fit(stock.spec, cells)?;
    moves::take_rings(stock, n, cells, blocks, rings, stamp, found, removed)
}

// The same, and in `tests`, as far as it reaches, the tests that each ring took.
pub fn take(
    stock: TurnStock,
    cells: &[f64],
    blocks: &[f64],
    rings: &mut [f64],
    stamp: Stamp,
    found: Result<(), Refused>,
    removed: &[f64],
    tests: &mut [usize],
) -> Result<RingCount, Refused>
    ensures { TakesTold stock cells.now blocks.now stamp (placed_of found) removed.now result
        rings.old rings.new tests.old tests.new }
{
    let left = take_found(stock, cells, blocks, rings, stamp, found, removed)?;
    rings::list_tests(stock.spec, rings, stock.rings, removed, tests);
    Ok(left)
}
