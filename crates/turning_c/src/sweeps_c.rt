// The cuts of a nose and of a polygon, whose side comes as a number.
ghost use Rattle.stock.specs.Stock.{stamp_of};
ghost use Rattle.turning.specs.Boundary.{spec_from, nose_by_side, polygon_by_side, HandsChanges};

#[unsafe(no_mangle)]
pub extern "C" fn turning_preview(
    z_min: f64,
    z_max: f64,
    outer: f64,
    bore: f64,
    cell: f64,
    max_cells: usize,
    edition: u32,
    generation: u64,
    cells: &[f64],
    side: u32,
    rn: f64,
    segments: &[f64],
    indices: &mut [usize],
    records: &mut [f64],
    count: &mut usize,
    list_edition: &mut u32,
    list_generation: &mut u64,
) -> u32
    ensures { HandsChanges (stamp_of edition generation)
        (nose_by_side (spec_from z_min z_max outer bore cell max_cells) cells.now side rn
        segments.now) result indices records count list_edition list_generation }
{
    turning::turning_preview(
        z_min,
        z_max,
        outer,
        bore,
        cell,
        max_cells,
        edition,
        generation,
        cells,
        side,
        rn,
        segments,
        indices,
        records,
        count,
        list_edition,
        list_generation,
    )
}

#[unsafe(no_mangle)]
pub extern "C" fn turning_preview_polygon(
    z_min: f64,
    z_max: f64,
    outer: f64,
    bore: f64,
    cell: f64,
    max_cells: usize,
    edition: u32,
    generation: u64,
    cells: &[f64],
    side: u32,
    excess: f64,
    points: &[f64],
    indices: &mut [usize],
    records: &mut [f64],
    count: &mut usize,
    list_edition: &mut u32,
    list_generation: &mut u64,
) -> u32
    ensures { HandsChanges (stamp_of edition generation)
        (polygon_by_side (spec_from z_min z_max outer bore cell max_cells) cells.now side excess
        points.now) result indices records count list_edition list_generation }
{
    turning::turning_preview_polygon(
        z_min,
        z_max,
        outer,
        bore,
        cell,
        max_cells,
        edition,
        generation,
        cells,
        side,
        excess,
        points,
        indices,
        records,
        count,
        list_edition,
        list_generation,
    )
}
