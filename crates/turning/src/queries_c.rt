// Volume, and what may remain at a height or over a range of heights.
ghost use Rattle.std.specs.Prelude.{◌≡◌};
ghost use Rattle.queries.specs.declared.Band.{Band};
ghost use Rattle.queries.specs.declared.Volumes.{Volumes};
ghost use Rattle.queries.specs.Envelope.{envelope_at};
ghost use Rattle.queries.specs.Volume.{volume_of};
ghost use Rattle.refusals.specs.Number.{paper_of};
ghost use Rattle.blocks.specs.Range.{range_of};
ghost use Rattle.turning.specs.Boundary.{spec_from, HandsTwo, HandsFoundTwo};

use crate::stock_c;
use queries::{Band, Volumes};
use refusals::Refusal;

// The two volumes, or the number of the refusal.
fn give_volumes(answer: Result<Volumes, Refusal>, least: &mut f64, greatest: &mut f64) -> u32
    ensures { HandsTwo (λ (v : Volumes). v.least) (λ (v : Volumes). v.greatest) (paper_of answer) result
        least greatest }
{
    match answer {
        Err(r) => refusals::number(r),
        Ok(v) => {
            *least = v.least;
            *greatest = v.greatest;
            0
        }
    }
}

pub fn turning_volume(
    z_min: f64,
    z_max: f64,
    outer: f64,
    bore: f64,
    cell: f64,
    max_cells: usize,
    cells: &[f64],
    rings: &[f64],
    rings_count: usize,
    least: &mut f64,
    greatest: &mut f64,
) -> u32
    ensures { HandsTwo (λ (v : Volumes). v.least) (λ (v : Volumes). v.greatest)
        (volume_of (spec_from z_min z_max outer bore cell max_cells) cells.now rings.now
        rings_count) result least greatest }
{
    let spec = stock_c::spec_of(z_min, z_max, outer, bore, cell, max_cells);
    let answer = queries::volume(spec, cells, rings, rings_count);
    give_volumes(answer, least, greatest)
}

// The two radii if there is material, or the number of the refusal.
fn give_seen(
    answer: Result<Option<Band>, Refusal>,
    found: &mut u32,
    bore_lower: &mut f64,
    outer_upper: &mut f64,
) -> u32
    ensures { HandsFoundTwo (λ (b : Band). b.bore) (λ (b : Band). b.outer) (paper_of answer) result found
        bore_lower outer_upper }
{
    match answer {
        Err(r) => refusals::number(r),
        Ok(None) => {
            *found = 0;
            0
        }
        Ok(Some(b)) => {
            *found = 1;
            *bore_lower = b.bore;
            *outer_upper = b.outer;
            0
        }
    }
}

pub fn turning_envelope_at(
    z_min: f64,
    z_max: f64,
    outer: f64,
    bore: f64,
    cell: f64,
    max_cells: usize,
    cells: &[f64],
    z: f64,
    found: &mut u32,
    bore_lower: &mut f64,
    outer_upper: &mut f64,
) -> u32
    ensures { HandsFoundTwo (λ (b : Band). b.bore) (λ (b : Band). b.outer)
        (envelope_at (spec_from z_min z_max outer bore cell max_cells) cells.now z) result found
        bore_lower outer_upper }
{
    let spec = stock_c::spec_of(z_min, z_max, outer, bore, cell, max_cells);
    let answer = queries::envelope_at(spec, cells, z);
    give_seen(answer, found, bore_lower, outer_upper)
}

pub fn turning_range(
    z_min: f64,
    z_max: f64,
    outer: f64,
    bore: f64,
    cell: f64,
    max_cells: usize,
    cells: &[f64],
    blocks: &[f64],
    lo: f64,
    hi: f64,
    found: &mut u32,
    bore_lower: &mut f64,
    outer_upper: &mut f64,
) -> u32
    ensures { HandsFoundTwo (λ (b : Band). b.bore) (λ (b : Band). b.outer)
        (range_of (spec_from z_min z_max outer bore cell max_cells) cells.now blocks.now lo hi) result found
        bore_lower outer_upper }
{
    let spec = stock_c::spec_of(z_min, z_max, outer, bore, cell, max_cells);
    let answer = blocks::range(spec, cells, blocks, lo, hi);
    give_seen(answer, found, bore_lower, outer_upper)
}
