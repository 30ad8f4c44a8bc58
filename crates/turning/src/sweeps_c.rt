// The cuts of a nose and of a polygon, whose side comes as a number.
ghost use Rattle.std.specs.Prelude.{◌≡◌};
ghost use Rattle.refusals.specs.Paper.{refuses, only, onward};
ghost use Rattle.stock.specs.Cell.{stock_of};
ghost use Rattle.stock.specs.Stock.{stamp_of};
ghost use Rattle.changes.specs.Change.{Proposes};
ghost use Rattle.turning.specs.Boundary.{spec_from, side_from, nose_by_side, polygon_by_side, no_changes, HandsChanges};

use crate::{cuts_c, stock_c};
use changes::ChangeList;
use refusals::Refusal;
use stock::{TurnSide, TurnStock, TurnStockSpec};

// How a number that is no side is refused: 1, 2, 3, then 5.
fn no_side(spec: TurnStockSpec, cells: &[f64]) -> Refusal
    ensures { onward (stock_of spec cells.now) (λ n. refuses (only 5)) ≡ no_changes result }
{
    match stock::cells_fit(spec, cells) {
        Err(r) => r,
        Ok(_) => Refusal::ArgumentOutside,
    }
}

// The side of a number: 0 is outside, 1 inside, any other none.
fn side_of(side: u32) -> Option<TurnSide>
    ensures { result ≡ side_from side }
{
    match side {
        0 => Some(TurnSide::Outer),
        1 => Some(TurnSide::Inner),
        _ => None,
    }
}

fn nose_by(
    stock: TurnStock,
    cells: &[f64],
    side: u32,
    rn: f64,
    segments: &[f64],
    indices: &mut [usize],
    records: &mut [f64],
) -> Result<ChangeList, Refusal>
    ensures { Proposes stock.stamp
        (nose_by_side stock.spec cells.now side rn segments.now) result indices records }
{
    match side_of(side) {
        Some(s) => cuts::preview(stock, cells, s, rn, segments, indices, records),
        None => Err(no_side(stock.spec, cells)),
    }
}

fn polygon_by(
    stock: TurnStock,
    cells: &[f64],
    side: u32,
    excess: f64,
    points: &[f64],
    indices: &mut [usize],
    records: &mut [f64],
) -> Result<ChangeList, Refusal>
    ensures { Proposes stock.stamp
        (polygon_by_side stock.spec cells.now side excess points.now) result indices records }
{
    match side_of(side) {
        Some(s) => cuts::preview_polygon(stock, cells, s, excess, points, indices, records),
        None => Err(no_side(stock.spec, cells)),
    }
}

pub fn turning_preview(
    z_min: f64,
    z_max: f64,
    outer: f64,
    bore: f64,
    cell: f64,
    max_cells: usize,
    edition: u32,
    generation: u64,
    cells: &[f64],
    side: u32,
    rn: f64,
    segments: &[f64],
    indices: &mut [usize],
    records: &mut [f64],
    count: &mut usize,
    list_edition: &mut u32,
    list_generation: &mut u64,
) -> u32
    ensures { HandsChanges (stamp_of edition generation)
        (nose_by_side (spec_from z_min z_max outer bore cell max_cells) cells.now side rn
        segments.now) result indices records count list_edition list_generation }
{
    let spec = stock_c::spec_of(z_min, z_max, outer, bore, cell, max_cells);
    let stock = stock_c::stock_of(spec, edition, generation, 0);
    let answer = nose_by(stock, cells, side, rn, segments, indices, records);
    cuts_c::give_changes(answer, count, list_edition, list_generation)
}

pub fn turning_preview_polygon(
    z_min: f64,
    z_max: f64,
    outer: f64,
    bore: f64,
    cell: f64,
    max_cells: usize,
    edition: u32,
    generation: u64,
    cells: &[f64],
    side: u32,
    excess: f64,
    points: &[f64],
    indices: &mut [usize],
    records: &mut [f64],
    count: &mut usize,
    list_edition: &mut u32,
    list_generation: &mut u64,
) -> u32
    ensures { HandsChanges (stamp_of edition generation)
        (polygon_by_side (spec_from z_min z_max outer bore cell max_cells) cells.now side excess
        points.now) result indices records count list_edition list_generation }
{
    let spec = stock_c::spec_of(z_min, z_max, outer, bore, cell, max_cells);
    let stock = stock_c::stock_of(spec, edition, generation, 0);
    let answer = polygon_by(stock, cells, side, excess, points, indices, records);
    cuts_c::give_changes(answer, count, list_edition, list_generation)
}
