// Previews, commits and the difference of two stocks.
ghost use Rattle.std.specs.Prelude.{◌≡◌};
ghost use Rattle.refusals.specs.Number.{paper_of, placed_of};
ghost use Rattle.stock.specs.Stock.{stamp_of, stock_from};
ghost use Rattle.changes.specs.Commit.{apply_of};
ghost use Rattle.changes.specs.Difference.{difference_of};
ghost use Rattle.cuts.specs.declared.Cut.TheVariants.{Thread, ThreadInner, Drill};
ghost use Rattle.cuts.specs.Preview.{preview_cut};
ghost use Rattle.turning.specs.Boundary.{spec_from, list_from, generation_in, HandsPlace, HandsList, HandsChanges, HandsStock};

use crate::out::give_place;
use crate::stock_c;
use changes::ChangeList;
use refusals::{Refusal, Refused};
use stock::{Stamp, TurnStock};

// How many changes were written and the stamp of their list, or the number of the refusal.
pub fn give_changes(
    answer: Result<ChangeList, Refusal>,
    count: &mut usize,
    edition: &mut u32,
    generation: &mut u64,
) -> u32
    ensures { HandsList (paper_of answer) result count edition generation }
{
    match answer {
        Err(r) => refusals::number(r),
        Ok(list) => {
            *count = list.count;
            *edition = list.stamp.edition;
            *generation = list.stamp.generation;
            0
        }
    }
}

// A list of so many changes, with its stamp.
pub fn list_of(count: usize, edition: u32, generation: u64) -> ChangeList
    ensures { result ≡ list_from count edition generation }
{
    ChangeList {
        count,
        stamp: Stamp {
            edition,
            generation,
        },
    }
}

// The generation after a commit, or the number of the refusal, with its place where it has one.
fn give_generation(
    answer: Result<TurnStock, Refused>,
    generation: &mut u64,
    position: &mut usize,
) -> u32
    ensures { HandsPlace (generation_in (placed_of answer)) result generation position }
{
    match answer {
        Err(refused) => give_place(refused, position),
        Ok(after) => {
            *generation = after.stamp.generation;
            0
        }
    }
}

pub fn turning_thread_cut(
    z_min: f64,
    z_max: f64,
    outer: f64,
    bore: f64,
    cell: f64,
    max_cells: usize,
    edition: u32,
    generation: u64,
    cells: &[f64],
    z0: f64,
    z1: f64,
    radius: f64,
    indices: &mut [usize],
    records: &mut [f64],
    count: &mut usize,
    list_edition: &mut u32,
    list_generation: &mut u64,
) -> u32
    ensures { HandsChanges (stamp_of edition generation)
        (preview_cut (spec_from z_min z_max outer bore cell max_cells) cells.now
        (Thread z0 z1 radius)) result indices records count list_edition list_generation }
{
    let spec = stock_c::spec_of(z_min, z_max, outer, bore, cell, max_cells);
    let stock = stock_c::stock_of(spec, edition, generation, 0);
    let answer = cuts::thread_cut(stock, cells, z0, z1, radius, indices, records);
    give_changes(answer, count, list_edition, list_generation)
}

pub fn turning_thread_cut_inner(
    z_min: f64,
    z_max: f64,
    outer: f64,
    bore: f64,
    cell: f64,
    max_cells: usize,
    edition: u32,
    generation: u64,
    cells: &[f64],
    z0: f64,
    z1: f64,
    radius: f64,
    indices: &mut [usize],
    records: &mut [f64],
    count: &mut usize,
    list_edition: &mut u32,
    list_generation: &mut u64,
) -> u32
    ensures { HandsChanges (stamp_of edition generation)
        (preview_cut (spec_from z_min z_max outer bore cell max_cells) cells.now
        (ThreadInner z0 z1 radius)) result indices records count list_edition list_generation }
{
    let spec = stock_c::spec_of(z_min, z_max, outer, bore, cell, max_cells);
    let stock = stock_c::stock_of(spec, edition, generation, 0);
    let answer = cuts::thread_cut_inner(stock, cells, z0, z1, radius, indices, records);
    give_changes(answer, count, list_edition, list_generation)
}

pub fn turning_drill(
    z_min: f64,
    z_max: f64,
    outer: f64,
    bore: f64,
    cell: f64,
    max_cells: usize,
    edition: u32,
    generation: u64,
    cells: &[f64],
    tip_z: f64,
    radius: f64,
    cone: f64,
    indices: &mut [usize],
    records: &mut [f64],
    count: &mut usize,
    list_edition: &mut u32,
    list_generation: &mut u64,
) -> u32
    ensures { HandsChanges (stamp_of edition generation)
        (preview_cut (spec_from z_min z_max outer bore cell max_cells) cells.now
        (Drill tip_z radius cone)) result indices records count list_edition list_generation }
{
    let spec = stock_c::spec_of(z_min, z_max, outer, bore, cell, max_cells);
    let stock = stock_c::stock_of(spec, edition, generation, 0);
    let answer = cuts::drill(stock, cells, tip_z, radius, cone, indices, records);
    give_changes(answer, count, list_edition, list_generation)
}

pub fn turning_apply(
    z_min: f64,
    z_max: f64,
    outer: f64,
    bore: f64,
    cell: f64,
    max_cells: usize,
    edition: u32,
    generation: &mut u64,
    cells: &mut [f64],
    blocks: &mut [f64],
    indices: &[usize],
    records: &[f64],
    changes: usize,
    list_edition: u32,
    list_generation: u64,
    position: &mut usize,
) -> u32
    ensures { HandsStock (stock_from (spec_from z_min z_max outer bore cell max_cells) edition 0 generation.old)
        (λ k. apply_of k cells.old blocks.old (list_from changes list_edition list_generation)
        indices.now records.now) result cells blocks generation position }
{
    let spec = stock_c::spec_of(z_min, z_max, outer, bore, cell, max_cells);
    let before = *generation;
    let stock = stock_c::stock_of(spec, edition, before, 0);
    let list = list_of(changes, list_edition, list_generation);
    let answer = changes::apply(stock, cells, blocks, list, indices, records);
    give_generation(answer, generation, position)
}

pub fn turning_changes_to(
    z_min: f64,
    z_max: f64,
    outer: f64,
    bore: f64,
    cell: f64,
    max_cells: usize,
    edition: u32,
    generation: u64,
    cells: &[f64],
    after: &[f64],
    indices: &mut [usize],
    records: &mut [f64],
    count: &mut usize,
    list_edition: &mut u32,
    list_generation: &mut u64,
) -> u32
    ensures { HandsChanges (stamp_of edition generation)
        (difference_of (spec_from z_min z_max outer bore cell max_cells) cells.now
        after.now) result indices records count list_edition list_generation }
{
    let spec = stock_c::spec_of(z_min, z_max, outer, bore, cell, max_cells);
    let first = stock_c::stock_of(spec, edition, generation, 0);
    let answer = changes::changes_to(first, cells, after, indices, records);
    give_changes(answer, count, list_edition, list_generation)
}
