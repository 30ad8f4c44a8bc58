// Spec, stamp, bins, cells, and the numbers that are kept beside them.
ghost use Rattle.std.specs.Prelude.{◌≡◌};
ghost use Rattle.refusals.specs.Number.{paper_of};
ghost use Rattle.stock.specs.Spec.{cells_of};
ghost use Rattle.stock.specs.Bin.{bin_for};
ghost use Rattle.stock.specs.Stock.{stock_from};
ghost use Rattle.turning.specs.Boundary.{code_of, spec_from, edition_in, generation_in, new_kept, Hands, HandsBin, HandsCells, HandsBlocks};

use crate::out::give;
use refusals::Refusal;
use stock::{Stamp, TurnStock, TurnStockSpec, ZRange};

// A spec's six numbers.
pub fn spec_of(
    z_min: f64,
    z_max: f64,
    outer: f64,
    bore: f64,
    cell: f64,
    max_cells: usize,
) -> TurnStockSpec
    ensures { result ≡ spec_from z_min z_max outer bore cell max_cells }
{
    TurnStockSpec {
        z_min_mm: z_min,
        z_max_mm: z_max,
        outer_radius_mm: outer,
        bore_radius_mm: bore,
        cell_mm: cell,
        max_cells,
    }
}

// A stock with so many rings, which are lent beside it.
pub fn stock_of(spec: TurnStockSpec, edition: u32, generation: u64, rings: usize) -> TurnStock
    ensures { result ≡ stock_from spec edition rings generation }
{
    TurnStock {
        spec,
        stamp: Stamp {
            edition,
            generation,
        },
        rings,
    }
}

// An edition kept in a word: its lower half.
pub fn edition_in(word: u64) -> u32
    ensures { result ≡ edition_in word }
{
    (word % 4294967296) as u32
}

// 0, or the number of the refusal.
fn number_in(answer: Result<usize, Refusal>) -> u32
    ensures { result ≡ code_of (paper_of answer) }
{
    match answer {
        Err(r) => refusals::number(r),
        Ok(_) => 0,
    }
}

// A bin's ends handed out, or the number of the refusal.
fn give_bin(answer: Result<ZRange, Refusal>, za: &mut f64, zb: &mut f64) -> u32
    ensures { HandsBin (paper_of answer) result za zb }
{
    match answer {
        Err(r) => refusals::number(r),
        Ok(z) => {
            *za = z.za;
            *zb = z.zb;
            0
        }
    }
}

// The generation of a new stock, or the number of the refusal.
fn give_new(answer: Result<TurnStock, Refusal>, generation: &mut u64) -> u32
    ensures { Hands (generation_in (paper_of answer)) result generation }
{
    match answer {
        Err(why) => refusals::number(why),
        Ok(k) => {
            *generation = k.stamp.generation;
            0
        }
    }
}

pub fn turning_validate(
    z_min: f64,
    z_max: f64,
    outer: f64,
    bore: f64,
    cell: f64,
    max_cells: usize,
    n: &mut usize,
) -> u32
    ensures { Hands (cells_of (spec_from z_min z_max outer bore cell max_cells)) result n }
{
    let spec = spec_of(z_min, z_max, outer, bore, cell, max_cells);
    give(stock::validate(spec), n)
}

pub fn turning_bin(
    z_min: f64,
    z_max: f64,
    outer: f64,
    bore: f64,
    cell: f64,
    max_cells: usize,
    i: usize,
    za: &mut f64,
    zb: &mut f64,
) -> u32
    ensures { HandsBin (bin_for (spec_from z_min z_max outer bore cell max_cells) i) result za zb }
{
    let spec = spec_of(z_min, z_max, outer, bore, cell, max_cells);
    give_bin(stock::bin(spec, i), za, zb)
}

// How many cells so many lent numbers are to hold, with so many kept numbers beside them; 1, 2, 3, 20.
fn room_for(spec: TurnStockSpec, cells_len: usize, blocks_len: usize) -> Result<usize, Refusal>
    ensures { paper_of result ≡ new_kept spec cells_len blocks_len }
{
    let n = stock::validate(spec)?;
    if cells_len != 4 * n {
        return Err(Refusal::CellsDoNotFit);
    }
    if blocks_len != 2 * blocks::blocks_in(n) {
        return Err(Refusal::BlocksDoNotMatch);
    }
    Ok(n)
}

pub fn turning_new(
    z_min: f64,
    z_max: f64,
    outer: f64,
    bore: f64,
    cell: f64,
    max_cells: usize,
    edition: u32,
    generation: &mut u64,
    cells: &mut [f64],
    blocks: &mut [f64],
) -> u32
    ensures { HandsCells (spec_from z_min z_max outer bore cell max_cells) result cells blocks generation }
{
    let spec = spec_of(z_min, z_max, outer, bore, cell, max_cells);
    let counted = room_for(spec, cells.len(), blocks.len());
    match counted {
        Err(r) => refusals::number(r),
        Ok(n) => {
            let made = stock::fill(spec, edition, cells);
            blocks::renew_all(stock::clean_spec(spec), n, cells, blocks);
            give_new(made, generation)
        }
    }
}

pub fn turning_renew(
    z_min: f64,
    z_max: f64,
    outer: f64,
    bore: f64,
    cell: f64,
    max_cells: usize,
    cells: &[f64],
    blocks: &mut [f64],
) -> u32
    ensures { HandsBlocks (spec_from z_min z_max outer bore cell max_cells) cells.now result blocks }
{
    let spec = spec_of(z_min, z_max, outer, bore, cell, max_cells);
    number_in(blocks::renew(spec, cells, blocks))
}
