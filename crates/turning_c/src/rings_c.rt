// Rings, moves, rebuilding.
ghost use Rattle.rings.specs.Ring.{ring};
ghost use Rattle.stock.specs.Stock.{stock_from};
ghost use Rattle.rings.specs.Remove.{remove_ring};
ghost use Rattle.rings.specs.Tests.{ring_tests};
ghost use Rattle.moves.specs.Move.{move_of};
ghost use Rattle.turning.specs.Boundary.{spec_from, list_from, HandsRings, HandsMove, HandsStore};

#[unsafe(no_mangle)]
pub extern "C" fn turning_remove_ring(
    z_min: f64,
    z_max: f64,
    outer: f64,
    bore: f64,
    cell: f64,
    max_cells: usize,
    rings: &mut [f64],
    rings_count: &mut usize,
    generation: &mut u64,
    z0: f64,
    z1: f64,
    r0: f64,
    r1: f64,
    tests: &mut usize,
    position: &mut usize,
) -> u32
    ensures { HandsRings
        (remove_ring (spec_from z_min z_max outer bore cell max_cells) rings.old
        rings_count.old generation.old (ring z0 z1 r0 r1))
        (ring_tests (spec_from z_min z_max outer bore cell max_cells) rings.old rings_count.old (ring z0 z1 r0 r1))
        result rings rings_count generation tests position }
{
    turning::turning_remove_ring(
        z_min,
        z_max,
        outer,
        bore,
        cell,
        max_cells,
        rings,
        rings_count,
        generation,
        z0,
        z1,
        r0,
        r1,
        tests,
        position,
    )
}

#[unsafe(no_mangle)]
pub extern "C" fn turning_apply_move(
    z_min: f64,
    z_max: f64,
    outer: f64,
    bore: f64,
    cell: f64,
    max_cells: usize,
    edition: u32,
    generation: &mut u64,
    cells: &mut [f64],
    blocks: &mut [f64],
    rings: &mut [f64],
    rings_count: &mut usize,
    indices: &[usize],
    records: &[f64],
    changes: usize,
    list_edition: u32,
    list_generation: u64,
    removed: &[f64],
    tests: &mut [usize],
    position: &mut usize,
) -> u32
    ensures { HandsMove (stock_from (spec_from z_min z_max outer bore cell max_cells) edition
        rings_count.old generation.old)
        (λ k. move_of k cells.old blocks.old rings.old (list_from changes list_edition list_generation)
        indices.now records.now removed.now) removed.now
        result cells blocks rings rings_count generation tests position }
{
    turning::turning_apply_move(
        z_min,
        z_max,
        outer,
        bore,
        cell,
        max_cells,
        edition,
        generation,
        cells,
        blocks,
        rings,
        rings_count,
        indices,
        records,
        changes,
        list_edition,
        list_generation,
        removed,
        tests,
        position,
    )
}

#[unsafe(no_mangle)]
pub extern "C" fn turning_from_parts(
    z_min: f64,
    z_max: f64,
    outer: f64,
    bore: f64,
    cell: f64,
    max_cells: usize,
    edition: u32,
    generation: &mut u64,
    cells: &[f64],
    blocks: &mut [f64],
    given: &[f64],
    rings: &mut [f64],
    rings_count: &mut usize,
    tests: &mut [usize],
    position: &mut usize,
) -> u32
    ensures { HandsStore (spec_from z_min z_max outer bore cell max_cells) cells.now given.now result
        blocks rings rings_count generation tests position }
{
    turning::turning_from_parts(
        z_min,
        z_max,
        outer,
        bore,
        cell,
        max_cells,
        edition,
        generation,
        cells,
        blocks,
        given,
        rings,
        rings_count,
        tests,
        position,
    )
}
