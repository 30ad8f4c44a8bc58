// Spec, stamp, bins, cells, and the numbers that are kept beside them.
ghost use Rattle.stock.specs.Spec.{cells_of};
ghost use Rattle.stock.specs.Bin.{bin_for};
ghost use Rattle.turning.specs.Boundary.{spec_from, Hands, HandsBin, HandsCells, HandsBlocks};

#[unsafe(no_mangle)]
pub extern "C" fn turning_validate(
    z_min: f64,
    z_max: f64,
    outer: f64,
    bore: f64,
    cell: f64,
    max_cells: usize,
    n: &mut usize,
) -> u32
    ensures { Hands (cells_of (spec_from z_min z_max outer bore cell max_cells)) result n }
{
    turning::turning_validate(z_min, z_max, outer, bore, cell, max_cells, n)
}

#[unsafe(no_mangle)]
pub extern "C" fn turning_bin(
    z_min: f64,
    z_max: f64,
    outer: f64,
    bore: f64,
    cell: f64,
    max_cells: usize,
    i: usize,
    za: &mut f64,
    zb: &mut f64,
) -> u32
    ensures { HandsBin (bin_for (spec_from z_min z_max outer bore cell max_cells) i) result za zb }
{
    turning::turning_bin(z_min, z_max, outer, bore, cell, max_cells, i, za, zb)
}

#[unsafe(no_mangle)]
pub extern "C" fn turning_new(
    z_min: f64,
    z_max: f64,
    outer: f64,
    bore: f64,
    cell: f64,
    max_cells: usize,
    edition: u32,
    generation: &mut u64,
    cells: &mut [f64],
    blocks: &mut [f64],
) -> u32
    ensures { HandsCells (spec_from z_min z_max outer bore cell max_cells) result cells blocks generation }
{
    turning::turning_new(
        z_min, z_max, outer, bore, cell, max_cells, edition, generation, cells, blocks,
    )
}

#[unsafe(no_mangle)]
pub extern "C" fn turning_renew(
    z_min: f64,
    z_max: f64,
    outer: f64,
    bore: f64,
    cell: f64,
    max_cells: usize,
    cells: &[f64],
    blocks: &mut [f64],
) -> u32
    ensures { HandsBlocks (spec_from z_min z_max outer bore cell max_cells) cells.now result blocks }
{
    turning::turning_renew(z_min, z_max, outer, bore, cell, max_cells, cells, blocks)
}
