// Proposed passes, and their check against targets.
ghost use Rattle.std.specs.Prelude.{◌≡◌};
ghost use Rattle.stock.specs.Stock.{stock_from};
ghost use Rattle.passes.specs.Cuts.{cuts_of};
ghost use Rattle.passes.specs.Check.{checked_paper, check_of};
ghost use Rattle.passes.specs.Propose.{propose_of};
ghost use Rattle.turning.specs.Boundary.{spec_from, Hands};
ghost use Rattle.turning.specs.Passes.{HandsSaid, HandsChecked, HandsPasses};

use crate::out::give;
use crate::stock_c;
use passes::Verdict;
use refusals::Refusal;

// What a check says of a stock at that generation: the verdict, the place and the reason where it has
// them, and the generation afterwards; or the number of the refusal.
fn give_checked(
    answer: Result<Verdict, Refusal>,
    before: u64,
    verdict: &mut u32,
    place: &mut usize,
    reason: &mut u32,
    generation: &mut u64,
) -> u32
    ensures { HandsSaid before (checked_paper answer) result verdict place reason generation }
{
    match answer {
        Err(r) => refusals::number(r),
        Ok(Verdict::Yes(k)) => {
            *verdict = 1;
            *generation = k.stamp.generation;
            0
        }
        Ok(Verdict::CutFails(k, r)) => {
            *verdict = 2;
            *place = k;
            *reason = refusals::number(r);
            *generation = before;
            0
        }
        Ok(Verdict::BinFails(i)) => {
            *verdict = 3;
            *place = i;
            *generation = before;
            0
        }
    }
}

pub fn turning_check_passes(
    z_min: f64,
    z_max: f64,
    outer: f64,
    bore: f64,
    cell: f64,
    max_cells: usize,
    edition: u32,
    generation: u64,
    cells: &[f64],
    blocks: &[f64],
    targets: &[f64],
    kinds: &[u32],
    numbers: &[f64],
    parts: &[usize],
    lists: &[f64],
    after: &mut [f64],
    after_blocks: &mut [f64],
    verdict: &mut u32,
    place: &mut usize,
    reason: &mut u32,
    after_generation: &mut u64,
) -> u32
    ensures { HandsChecked (stock_from (spec_from z_min z_max outer bore cell max_cells) edition 0 generation)
        cells.now
        (λ k. check_of k cells.now blocks.now targets.now
        (cuts_of kinds.now numbers.now parts.now lists.now))
        result after after_blocks verdict place reason after_generation }
{
    let spec = stock_c::spec_of(z_min, z_max, outer, bore, cell, max_cells);
    let stock = stock_c::stock_of(spec, edition, generation, 0);
    let answer = passes::check(
        stock,
        cells,
        blocks,
        targets,
        kinds,
        numbers,
        parts,
        lists,
        after,
        after_blocks,
    );
    give_checked(answer, generation, verdict, place, reason, after_generation)
}

pub fn turning_propose_passes(
    z_min: f64,
    z_max: f64,
    outer: f64,
    bore: f64,
    cell: f64,
    max_cells: usize,
    cells: &[f64],
    targets: &[f64],
    rn: f64,
    kinds: &mut [u32],
    numbers: &mut [f64],
    parts: &mut [usize],
    count: &mut usize,
) -> u32
    ensures { HandsPasses (propose_of (spec_from z_min z_max outer bore cell max_cells) cells.now
        targets.now rn) result kinds numbers parts count }
{
    let spec = stock_c::spec_of(z_min, z_max, outer, bore, cell, max_cells);
    let answer = passes::propose::propose(spec, cells, targets, rn, kinds, numbers, parts);
    give(answer, count)
}
