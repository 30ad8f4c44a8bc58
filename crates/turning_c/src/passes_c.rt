// Proposed passes, and their check against targets.
ghost use Rattle.stock.specs.Stock.{stock_from};
ghost use Rattle.passes.specs.Cuts.{cuts_of};
ghost use Rattle.passes.specs.Check.{check_of};
ghost use Rattle.passes.specs.Propose.{propose_of};
ghost use Rattle.turning.specs.Boundary.{spec_from};
ghost use Rattle.turning.specs.Passes.{HandsChecked, HandsPasses};

#[unsafe(no_mangle)]
pub extern "C" fn turning_check_passes(
    z_min: f64,
    z_max: f64,
    outer: f64,
    bore: f64,
    cell: f64,
    max_cells: usize,
    edition: u32,
    generation: u64,
    cells: &[f64],
    blocks: &[f64],
    targets: &[f64],
    kinds: &[u32],
    numbers: &[f64],
    parts: &[usize],
    lists: &[f64],
    after: &mut [f64],
    after_blocks: &mut [f64],
    verdict: &mut u32,
    place: &mut usize,
    reason: &mut u32,
    after_generation: &mut u64,
) -> u32
    ensures { HandsChecked (stock_from (spec_from z_min z_max outer bore cell max_cells) edition 0 generation)
        cells.now
        (λ k. check_of k cells.now blocks.now targets.now
        (cuts_of kinds.now numbers.now parts.now lists.now))
        result after after_blocks verdict place reason after_generation }
{
    turning::turning_check_passes(
        z_min,
        z_max,
        outer,
        bore,
        cell,
        max_cells,
        edition,
        generation,
        cells,
        blocks,
        targets,
        kinds,
        numbers,
        parts,
        lists,
        after,
        after_blocks,
        verdict,
        place,
        reason,
        after_generation,
    )
}

#[unsafe(no_mangle)]
pub extern "C" fn turning_propose_passes(
    z_min: f64,
    z_max: f64,
    outer: f64,
    bore: f64,
    cell: f64,
    max_cells: usize,
    cells: &[f64],
    targets: &[f64],
    rn: f64,
    kinds: &mut [u32],
    numbers: &mut [f64],
    parts: &mut [usize],
    count: &mut usize,
) -> u32
    ensures { HandsPasses (propose_of (spec_from z_min z_max outer bore cell max_cells) cells.now
        targets.now rn) result kinds numbers parts count }
{
    turning::turning_propose_passes(
        z_min, z_max, outer, bore, cell, max_cells, cells, targets, rn, kinds, numbers, parts,
        count,
    )
}
