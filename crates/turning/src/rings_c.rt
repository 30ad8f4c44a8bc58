// Rings, moves, rebuilding.
ghost use Rattle.std.specs.Prelude.{◌≡◌};
ghost use Rattle.refusals.specs.Number.{placed_of};
ghost use Rattle.rings.specs.Ring.{ring};
ghost use Rattle.stock.specs.declared.TurnStock.{TurnStock};
ghost use Rattle.stock.specs.Stock.{stock_from};
ghost use Rattle.rings.specs.Remove.{remove_ring};
ghost use Rattle.rings.specs.Tests.{ring_tests};
ghost use Rattle.moves.specs.Move.{move_of};
ghost use Rattle.turning.specs.Boundary.{spec_from, list_from, HandsTwoPlace, HandsRemoved, HandsRings, HandsMove, HandsStore};

use crate::out::give_place;
use crate::{cuts_c, stock_c};
use refusals::Refused;
use rings::{Removed, Ring};
use stock::TurnStock;

// The count of rings and the generation afterwards and the tests, or the number of the refusal, with its
// place where it has one.
fn give_removed(
    answer: Result<Removed, Refused>,
    count: &mut usize,
    generation: &mut u64,
    tests: &mut usize,
    position: &mut usize,
) -> u32
    ensures { HandsRemoved answer result count generation tests position }
{
    match answer {
        Err(refused) => give_place(refused, position),
        Ok(
            Removed {
                stock: left,
                tests: made,
            },
        ) => {
            *count = left.rings;
            *generation = left.stamp.generation;
            *tests = made;
            0
        }
    }
}

pub fn turning_remove_ring(
    z_min: f64,
    z_max: f64,
    outer: f64,
    bore: f64,
    cell: f64,
    max_cells: usize,
    rings: &mut [f64],
    rings_count: &mut usize,
    generation: &mut u64,
    z0: f64,
    z1: f64,
    r0: f64,
    r1: f64,
    tests: &mut usize,
    position: &mut usize,
) -> u32
    ensures { HandsRings
        (remove_ring (spec_from z_min z_max outer bore cell max_cells) rings.old
        rings_count.old generation.old (ring z0 z1 r0 r1))
        (ring_tests (spec_from z_min z_max outer bore cell max_cells) rings.old rings_count.old (ring z0 z1 r0 r1))
        result rings rings_count generation tests position }
{
    let spec = stock_c::spec_of(z_min, z_max, outer, bore, cell, max_cells);
    let count = *rings_count;
    let before = *generation;
    let stock = stock_c::stock_of(spec, 0, before, count);
    let answer = rings::remove_ring(stock, rings, Ring { z0, z1, r0, r1 });
    give_removed(answer, rings_count, generation, tests, position)
}

// The count of rings and the generation of a moved or a rebuilt stock, or the number of the refusal, with
// its place where it has one.
fn give_stock(
    answer: Result<TurnStock, Refused>,
    count: &mut usize,
    generation: &mut u64,
    position: &mut usize,
) -> u32
    ensures { HandsTwoPlace (λ (k : TurnStock). k.rings) (λ (k : TurnStock). k.stamp.generation) (placed_of answer) result
        count generation position }
{
    match answer {
        Err(refused) => give_place(refused, position),
        Ok(after) => {
            *count = after.rings;
            *generation = after.stamp.generation;
            0
        }
    }
}

pub fn turning_apply_move(
    z_min: f64,
    z_max: f64,
    outer: f64,
    bore: f64,
    cell: f64,
    max_cells: usize,
    edition: u32,
    generation: &mut u64,
    cells: &mut [f64],
    blocks: &mut [f64],
    rings: &mut [f64],
    rings_count: &mut usize,
    indices: &[usize],
    records: &[f64],
    changes: usize,
    list_edition: u32,
    list_generation: u64,
    removed: &[f64],
    tests: &mut [usize],
    position: &mut usize,
) -> u32
    ensures { HandsMove (stock_from (spec_from z_min z_max outer bore cell max_cells) edition
        rings_count.old generation.old)
        (λ k. move_of k cells.old blocks.old rings.old (list_from changes list_edition list_generation)
        indices.now records.now removed.now) removed.now
        result cells blocks rings rings_count generation tests position }
{
    let spec = stock_c::spec_of(z_min, z_max, outer, bore, cell, max_cells);
    let count = *rings_count;
    let before = *generation;
    let stock = stock_c::stock_of(spec, edition, before, count);
    let list = cuts_c::list_of(changes, list_edition, list_generation);
    let answer = moves::apply_move(
        stock, cells, blocks, rings, list, indices, records, removed, tests,
    );
    give_stock(answer, rings_count, generation, position)
}

pub fn turning_from_parts(
    z_min: f64,
    z_max: f64,
    outer: f64,
    bore: f64,
    cell: f64,
    max_cells: usize,
    edition: u32,
    generation: &mut u64,
    cells: &[f64],
    blocks: &mut [f64],
    given: &[f64],
    rings: &mut [f64],
    rings_count: &mut usize,
    tests: &mut [usize],
    position: &mut usize,
) -> u32
    ensures { HandsStore (spec_from z_min z_max outer bore cell max_cells) cells.now given.now result
        blocks rings rings_count generation tests position }
{
    let spec = stock_c::spec_of(z_min, z_max, outer, bore, cell, max_cells);
    let answer = moves::from_parts(spec, edition, cells, blocks, given, rings, tests);
    give_stock(answer, rings_count, generation, position)
}
