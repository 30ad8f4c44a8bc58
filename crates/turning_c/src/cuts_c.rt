// Previews, commits and the difference of two stocks.
ghost use Rattle.stock.specs.Stock.{stamp_of, stock_from};
ghost use Rattle.changes.specs.Commit.{apply_of};
ghost use Rattle.changes.specs.Difference.{difference_of};
ghost use Rattle.cuts.specs.declared.Cut.TheVariants.{Thread, ThreadInner, Drill};
ghost use Rattle.cuts.specs.Preview.{preview_cut};
ghost use Rattle.turning.specs.Boundary.{spec_from, list_from, HandsChanges, HandsStock};

#[unsafe(no_mangle)]
pub extern "C" fn turning_thread_cut(
    z_min: f64,
    z_max: f64,
    outer: f64,
    bore: f64,
    cell: f64,
    max_cells: usize,
    edition: u32,
    generation: u64,
    cells: &[f64],
    z0: f64,
    z1: f64,
    radius: f64,
    indices: &mut [usize],
    records: &mut [f64],
    count: &mut usize,
    list_edition: &mut u32,
    list_generation: &mut u64,
) -> u32
    ensures { HandsChanges (stamp_of edition generation)
        (preview_cut (spec_from z_min z_max outer bore cell max_cells) cells.now
        (Thread z0 z1 radius)) result indices records count list_edition list_generation }
{
    turning::turning_thread_cut(
        z_min,
        z_max,
        outer,
        bore,
        cell,
        max_cells,
        edition,
        generation,
        cells,
        z0,
        z1,
        radius,
        indices,
        records,
        count,
        list_edition,
        list_generation,
    )
}

#[unsafe(no_mangle)]
pub extern "C" fn turning_thread_cut_inner(
    z_min: f64,
    z_max: f64,
    outer: f64,
    bore: f64,
    cell: f64,
    max_cells: usize,
    edition: u32,
    generation: u64,
    cells: &[f64],
    z0: f64,
    z1: f64,
    radius: f64,
    indices: &mut [usize],
    records: &mut [f64],
    count: &mut usize,
    list_edition: &mut u32,
    list_generation: &mut u64,
) -> u32
    ensures { HandsChanges (stamp_of edition generation)
        (preview_cut (spec_from z_min z_max outer bore cell max_cells) cells.now
        (ThreadInner z0 z1 radius)) result indices records count list_edition list_generation }
{
    turning::turning_thread_cut_inner(
        z_min,
        z_max,
        outer,
        bore,
        cell,
        max_cells,
        edition,
        generation,
        cells,
        z0,
        z1,
        radius,
        indices,
        records,
        count,
        list_edition,
        list_generation,
    )
}

#[unsafe(no_mangle)]
pub extern "C" fn turning_drill(
    z_min: f64,
    z_max: f64,
    outer: f64,
    bore: f64,
    cell: f64,
    max_cells: usize,
    edition: u32,
    generation: u64,
    cells: &[f64],
    tip_z: f64,
    radius: f64,
    cone: f64,
    indices: &mut [usize],
    records: &mut [f64],
    count: &mut usize,
    list_edition: &mut u32,
    list_generation: &mut u64,
) -> u32
    ensures { HandsChanges (stamp_of edition generation)
        (preview_cut (spec_from z_min z_max outer bore cell max_cells) cells.now
        (Drill tip_z radius cone)) result indices records count list_edition list_generation }
{
    turning::turning_drill(
        z_min,
        z_max,
        outer,
        bore,
        cell,
        max_cells,
        edition,
        generation,
        cells,
        tip_z,
        radius,
        cone,
        indices,
        records,
        count,
        list_edition,
        list_generation,
    )
}

#[unsafe(no_mangle)]
pub extern "C" fn turning_apply(
    z_min: f64,
    z_max: f64,
    outer: f64,
    bore: f64,
    cell: f64,
    max_cells: usize,
    edition: u32,
    generation: &mut u64,
    cells: &mut [f64],
    blocks: &mut [f64],
    indices: &[usize],
    records: &[f64],
    changes: usize,
    list_edition: u32,
    list_generation: u64,
    position: &mut usize,
) -> u32
    ensures { HandsStock (stock_from (spec_from z_min z_max outer bore cell max_cells) edition 0 generation.old)
        (λ k. apply_of k cells.old blocks.old (list_from changes list_edition list_generation)
        indices.now records.now) result cells blocks generation position }
{
    turning::turning_apply(
        z_min,
        z_max,
        outer,
        bore,
        cell,
        max_cells,
        edition,
        generation,
        cells,
        blocks,
        indices,
        records,
        changes,
        list_edition,
        list_generation,
        position,
    )
}

#[unsafe(no_mangle)]
pub extern "C" fn turning_changes_to(
    z_min: f64,
    z_max: f64,
    outer: f64,
    bore: f64,
    cell: f64,
    max_cells: usize,
    edition: u32,
    generation: u64,
    cells: &[f64],
    after: &[f64],
    indices: &mut [usize],
    records: &mut [f64],
    count: &mut usize,
    list_edition: &mut u32,
    list_generation: &mut u64,
) -> u32
    ensures { HandsChanges (stamp_of edition generation)
        (difference_of (spec_from z_min z_max outer bore cell max_cells) cells.now
        after.now) result indices records count list_edition list_generation }
{
    turning::turning_changes_to(
        z_min,
        z_max,
        outer,
        bore,
        cell,
        max_cells,
        edition,
        generation,
        cells,
        after,
        indices,
        records,
        count,
        list_edition,
        list_generation,
    )
}
