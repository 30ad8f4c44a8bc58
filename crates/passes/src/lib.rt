// Proposed cuts, checked against targets: two radii for each bin.
//
// A drawing tool proposes outside cuts. The check says yes exactly when each of them is accepted in turn
// by preview and commit, and every bin is then within its target; else it names the first cut or the
// first bin that fails, and hands the old stock back. It never writes the stock that it is given.
#![tactic(auto)]

ghost use Rattle.std.specs.Prelude.{◌≡◌, ◌*◌, ◌≤◌, ◌<◌, length};
ghost use Rattle.refusals.specs.Number.{paper_of};
ghost use Rattle.refusals.specs.Limits.{cell_limit};
ghost use Rattle.blocks.specs.Block.{blocks_in};
ghost use Rattle.changes.specs.Change.{room_of};
ghost use Rattle.changes.specs.Commit.{Applies};
ghost use Rattle.passes.specs.Cuts.{pass_limit, cuts_of, standing, pass_of, pass_at, pass_turned, turned_to};
ghost use Rattle.passes.specs.Check.{first_miss, verdict_of, checkable_of, check_of, ChecksLent};
ghost use Rattle.passes.specs.Steps.{RoomForAll, Turns, Judged, Decided, DecidedKept};

use cuts::Tool;
use refusals::{CELL_LIMIT, Refusal, Refused};
use stock::{TurnStock, TurnStockSpec};

mod lists;
pub mod propose;
mod targets;

// Eight numbers for each of as many changes as a stock has cells.
const RECORD_LIMIT: usize = 8 * CELL_LIMIT;

// A stock of so many cells has shorter lists.
const MANY_CELLS: usize = 4096;

const MANY_NUMBERS: usize = 32768;

// What a check finds.
#[derive(Clone, Copy)]
pub enum Verdict {
    // the stock afterwards
    Yes(TurnStock),
    // the first cut that is refused, and why
    CutFails(usize, Refusal),
    // the first bin that does not meet its target
    BinFails(usize),
}

// A tool previewed into the lent lists, which have room for a change in every cell, and committed from
// them. A preview that is accepted has asked all that `changes::apply` asks before its commit, and its
// list has the stock's stamp.
fn make(
    stock: TurnStock,
    after: &mut [f64],
    tool: Tool,
    beside: &[f64],
    indices: &mut [usize],
    records: &mut [f64],
) -> Result<TurnStock, Refused>
    requires { RoomForAll after.old indices.old records.old }
    ensures { Applies stock (pass_turned stock.spec (pass_of tool beside.now) (standing stock after.old)) result
        after.old after.new }
{
    let list = cuts::preview_tool(stock, after, tool, beside, indices, records)?;
    let n = after.len() / 4;
    changes::commit_unasked(stock, n, after, indices, records, list.count)
}

// Cut k of the lists.
fn make_at(
    stock: TurnStock,
    after: &mut [f64],
    kinds: &[u32],
    numbers: &[f64],
    parts: &[usize],
    lists: &[f64],
    k: usize,
    indices: &mut [usize],
    records: &mut [f64],
) -> Result<TurnStock, Refused>
    requires { (k < length kinds.now) × (k < pass_limit) × RoomForAll after.old indices.old records.old }
    ensures { Applies stock
        (pass_turned stock.spec (pass_at (cuts_of kinds.now numbers.now parts.now lists.now) k) (standing stock after.old)) result
        after.old after.new }
{
    let tool = lists::tool_at(kinds, numbers, parts, lists, k);
    let beside = lists::beside_at(kinds, parts, lists, k);
    make(stock, after, tool, beside, indices, records)
}

// Every cut of the lists in turn, with room for a change in every cell; a refusal is at the place of its
// cut, and leaves cells part of the way.
fn make_each(
    stock: TurnStock,
    after: &mut [f64],
    kinds: &[u32],
    numbers: &[f64],
    parts: &[usize],
    lists: &[f64],
    indices: &mut [usize],
    records: &mut [f64],
) -> Result<TurnStock, Refused>
    requires { (length kinds.now ≤ pass_limit) × RoomForAll after.old indices.old records.old }
    ensures { Turns stock
        (turned_to stock.spec (cuts_of kinds.now numbers.now parts.now lists.now) (standing stock after.old) (length kinds.now)) result
        after.new }
{
    let mut s = stock;
    for k in 0..kinds.len() {
        let applied = make_at(s, after, kinds, numbers, parts, lists, k, indices, records);
        match applied {
            Err(e) => return Err(Refused::at(e.why, k)),
            Ok(next) => s = next,
        }
    }
    Ok(s)
}

// The same with lists of its own, for many cells.
fn make_many(
    stock: TurnStock,
    after: &mut [f64],
    kinds: &[u32],
    numbers: &[f64],
    parts: &[usize],
    lists: &[f64],
) -> Result<TurnStock, Refused>
    requires { (length kinds.now ≤ pass_limit) × (length after.old ≤ 4 * 4096) }
    ensures { Turns stock
        (turned_to stock.spec (cuts_of kinds.now numbers.now parts.now lists.now) (standing stock after.old) (length kinds.now)) result
        after.new }
{
    let mut indices = [0usize; MANY_CELLS];
    let mut records = [0.0f64; MANY_NUMBERS];
    make_each(
        stock,
        after,
        kinds,
        numbers,
        parts,
        lists,
        &mut indices,
        &mut records,
    )
}

// For the most cells.
fn make_most(
    stock: TurnStock,
    after: &mut [f64],
    kinds: &[u32],
    numbers: &[f64],
    parts: &[usize],
    lists: &[f64],
) -> Result<TurnStock, Refused>
    requires { length kinds.now ≤ pass_limit }
    ensures { Turns stock
        (turned_to stock.spec (cuts_of kinds.now numbers.now parts.now lists.now) (standing stock after.old) (length kinds.now)) result
        after.new }
{
    let mut indices = [0usize; CELL_LIMIT];
    let mut records = [0.0f64; RECORD_LIMIT];
    make_each(
        stock,
        after,
        kinds,
        numbers,
        parts,
        lists,
        &mut indices,
        &mut records,
    )
}

// Every cut in turn. Lists are cleared for each check, so a stock of fewer cells has shorter ones.
fn make_all(
    stock: TurnStock,
    after: &mut [f64],
    kinds: &[u32],
    numbers: &[f64],
    parts: &[usize],
    lists: &[f64],
) -> Result<TurnStock, Refused>
    requires { length kinds.now ≤ pass_limit }
    ensures { Turns stock
        (turned_to stock.spec (cuts_of kinds.now numbers.now parts.now lists.now) (standing stock after.old) (length kinds.now)) result
        after.new }
{
    if after.len() <= 4 * MANY_CELLS {
        return make_many(stock, after, kinds, numbers, parts, lists);
    }
    make_most(stock, after, kinds, numbers, parts, lists)
}

// The numbers of one list, written over those of another. The library's method would have the archive
// need `memmove` of the C library.
fn copy(from: &[f64], to: &mut [f64])
    requires { length to.old ≡ length from.now }
    ensures { to.new ≡ from.now }
{
    for i in 0..from.len() {
        to[i] = from[i];
    }
}

// The stock s whose cells are `after`, if each bin meets its target; else the first that does not, and
// the old cells.
fn judge(s: TurnStock, n: usize, cells: &[f64], targets: &[f64], after: &mut [f64]) -> Verdict
    requires { (length targets.now ≡ 2 * n) × (length after.old ≡ length cells.now) }
    ensures { Judged s (first_miss targets.now after.old n) result cells.now after.old after.new }
{
    let i = targets::first_miss(targets, after, n);
    if i < n {
        copy(cells, after);
        return Verdict::BinFails(i);
    }
    Verdict::Yes(s)
}

// Every cut made in `after`, and its bins judged; on a no the old cells.
fn decide(
    stock: TurnStock,
    n: usize,
    cells: &[f64],
    targets: &[f64],
    kinds: &[u32],
    numbers: &[f64],
    parts: &[usize],
    lists: &[f64],
    after: &mut [f64],
) -> Verdict
    requires { (length kinds.now ≤ pass_limit) × (length targets.now ≡ 2 * n) × (length after.old ≡ length cells.now) }
    ensures { Decided stock cells.now
        (verdict_of stock cells.now n targets.now (cuts_of kinds.now numbers.now parts.now lists.now))
        result after.new }
{
    copy(cells, after);
    let applied = make_all(stock, after, kinds, numbers, parts, lists);
    match applied {
        Err(e) => {
            copy(cells, after);
            Verdict::CutFails(e.place.unwrap_or(0), e.why)
        }
        Ok(s) => judge(s, n, cells, targets, after),
    }
}

// The same, with the kept numbers of the cells then.
fn decide_kept(
    stock: TurnStock,
    n: usize,
    cells: &[f64],
    targets: &[f64],
    kinds: &[u32],
    numbers: &[f64],
    parts: &[usize],
    lists: &[f64],
    after: &mut [f64],
    after_blocks: &mut [f64],
) -> Verdict
    requires { (length kinds.now ≤ pass_limit) × (length targets.now ≡ 2 * n) × (length after.old ≡ length cells.now)
        × (length cells.now ≡ 4 * n) × (length after_blocks.old ≡ 2 * blocks_in n) }
    ensures { DecidedKept stock cells.now
        (verdict_of stock cells.now n targets.now (cuts_of kinds.now numbers.now parts.now lists.now))
        result after.new after_blocks.new }
{
    let verdict = decide(
        stock, n, cells, targets, kinds, numbers, parts, lists, after,
    );
    let s = stock::clean_spec(stock.spec);
    blocks::renew_all(s, n, after, after_blocks);
    verdict
}

// What is asked before any cut is tried: the number of cells; 1, 2, 3, 20, 25.
fn checkable(
    spec: TurnStockSpec,
    cells: &[f64],
    blocks: &[f64],
    targets: &[f64],
    kinds: &[u32],
    room: usize,
    numbers: usize,
) -> Result<usize, Refusal>
    ensures { paper_of result ≡ checkable_of spec cells.now blocks.now targets.now kinds.now room numbers }
{
    let n = stock::cells_fit(spec, cells)?;
    if room != cells.len() {
        return Err(Refusal::CellsDoNotFit);
    }
    if !blocks::matches(stock::clean_spec(spec), n, cells, blocks) {
        return Err(Refusal::BlocksDoNotMatch);
    }
    if numbers != blocks.len() {
        return Err(Refusal::BlocksDoNotMatch);
    }
    if lists::are_good(kinds) & targets::are_good(targets, n) {
        return Ok(n);
    }
    Err(Refusal::PassesOutside)
}

// Check proposed cuts against targets: yes with the stock afterwards, the first cut that is refused, or
// the first bin that does not meet its target; 1, 2, 3, 20, 25. On yes `after` and `after_blocks` have
// the new cells and their kept numbers, on no the old ones.
pub fn check(
    stock: TurnStock,
    cells: &[f64],
    blocks: &[f64],
    targets: &[f64],
    kinds: &[u32],
    numbers: &[f64],
    parts: &[usize],
    lists: &[f64],
    after: &mut [f64],
    after_blocks: &mut [f64],
) -> Result<Verdict, Refusal>
    ensures { ChecksLent stock cells.now
        (check_of stock cells.now blocks.now targets.now
        (cuts_of kinds.now numbers.now parts.now lists.now)
        (length after.old) (length after_blocks.old))
        result after after_blocks }
{
    let n = checkable(
        stock.spec,
        cells,
        blocks,
        targets,
        kinds,
        after.len(),
        after_blocks.len(),
    )?;
    Ok(decide_kept(
        stock,
        n,
        cells,
        targets,
        kinds,
        numbers,
        parts,
        lists,
        after,
        after_blocks,
    ))
}
