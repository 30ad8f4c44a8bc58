// Volume, and what may remain at a height or over a range of heights.
ghost use Rattle.queries.specs.declared.Band.{Band};
ghost use Rattle.queries.specs.declared.Volumes.{Volumes};
ghost use Rattle.queries.specs.Envelope.{envelope_at};
ghost use Rattle.queries.specs.Volume.{volume_of};
ghost use Rattle.blocks.specs.Range.{range_of};
ghost use Rattle.turning.specs.Boundary.{spec_from, HandsTwo, HandsFoundTwo};

#[unsafe(no_mangle)]
pub extern "C" fn turning_volume(
    z_min: f64,
    z_max: f64,
    outer: f64,
    bore: f64,
    cell: f64,
    max_cells: usize,
    cells: &[f64],
    rings: &[f64],
    rings_count: usize,
    least: &mut f64,
    greatest: &mut f64,
) -> u32
    ensures { HandsTwo (λ (v : Volumes). v.least) (λ (v : Volumes). v.greatest)
        (volume_of (spec_from z_min z_max outer bore cell max_cells) cells.now rings.now
        rings_count) result least greatest }
{
    turning::turning_volume(
        z_min,
        z_max,
        outer,
        bore,
        cell,
        max_cells,
        cells,
        rings,
        rings_count,
        least,
        greatest,
    )
}

#[unsafe(no_mangle)]
pub extern "C" fn turning_envelope_at(
    z_min: f64,
    z_max: f64,
    outer: f64,
    bore: f64,
    cell: f64,
    max_cells: usize,
    cells: &[f64],
    z: f64,
    found: &mut u32,
    bore_lower: &mut f64,
    outer_upper: &mut f64,
) -> u32
    ensures { HandsFoundTwo (λ (b : Band). b.bore) (λ (b : Band). b.outer)
        (envelope_at (spec_from z_min z_max outer bore cell max_cells) cells.now z) result found
        bore_lower outer_upper }
{
    turning::turning_envelope_at(
        z_min,
        z_max,
        outer,
        bore,
        cell,
        max_cells,
        cells,
        z,
        found,
        bore_lower,
        outer_upper,
    )
}

#[unsafe(no_mangle)]
pub extern "C" fn turning_range(
    z_min: f64,
    z_max: f64,
    outer: f64,
    bore: f64,
    cell: f64,
    max_cells: usize,
    cells: &[f64],
    blocks: &[f64],
    lo: f64,
    hi: f64,
    found: &mut u32,
    bore_lower: &mut f64,
    outer_upper: &mut f64,
) -> u32
    ensures { HandsFoundTwo (λ (b : Band). b.bore) (λ (b : Band). b.outer)
        (range_of (spec_from z_min z_max outer bore cell max_cells) cells.now blocks.now lo hi) result found
        bore_lower outer_upper }
{
    turning::turning_range(
        z_min,
        z_max,
        outer,
        bore,
        cell,
        max_cells,
        cells,
        blocks,
        lo,
        hi,
        found,
        bore_lower,
        outer_upper,
    )
}
