// The most that may remain over some bins, folded: the least bore and the greatest outer radius of those
// with material.
ghost use Rattle.std.specs.Prelude.{◌≡◌, ◌+◌, ◌*◌, ◌-◌, ◌≤◌, length};
ghost use Rattle.floats.specs.Pick.{pick};
ghost use Rattle.stock.specs.Cell.{cell_at};
ghost use Rattle.queries.specs.Material.{most_of};
ghost use Rattle.blocks.specs.Block.{no_material, block_with, fold_from};

use queries::Band;
use stock::TurnStockSpec;

// The bins from a up to e, of a list that has them.
#[derive(Clone, Copy)]
pub struct Bins<'a> {
    pub cells: &'a [f64],
    pub a: usize,
    pub e: usize,
    ghost held: { 4 * e ≤ length cells.now },
}

// No material: the outer radius of the stock for the least bore, and its bore for the greatest outer
// radius.
pub fn no_material(s: TurnStockSpec) -> Band
    ensures { result ≡ no_material s }
{
    Band {
        bore: s.outer_radius_mm,
        outer: s.bore_radius_mm,
    }
}

// One of two, by a test.
fn chosen(t: bool, x: f64, y: f64) -> f64
    ensures { result ≡ pick t x y }
{
    if t { x } else { y }
}

// The band of one bin more. One without material is joined as what was found, so that nothing branches.
fn block_with(k: Band, b: Band) -> Band
    ensures { result ≡ block_with k b }
{
    let has = b.bore < b.outer;
    Band {
        bore: floats::least(k.bore, chosen(has, b.bore, k.bore)),
        outer: floats::greatest(k.outer, chosen(has, b.outer, k.outer)),
    }
}

// The most that may remain in bin i, of a list that has it.
pub fn most_at(cells: &[f64], i: usize) -> Band
    requires { 4 * i + 4 ≤ length cells.now }
    ensures { result ≡ most_of (cell_at cells.now i) }
{
    let at = 4 * i;
    Band {
        bore: cells[at + 2],
        outer: cells[at + 1],
    }
}

impl<'a> Bins<'a> {
    // Folded onto k.
    fn fold(&self, k: Band) -> Band
        ensures { result ≡ fold_from k self.now.cells.now self.now.a (self.now.e - self.now.a) }
    {
        let mut found = k;
        for i in self.a..self.e {
            found = block_with(found, most_at(self.cells, i));
        }
        found
    }
}

// The same of any list.
fn fold_any(k: Band, cells: &[f64], a: usize, e: usize) -> Band
    ensures { result ≡ fold_from k cells.now a (e - a) }
{
    let mut found = k;
    for i in a..e {
        found = block_with(found, queries::most(stock::cell_at(cells, i)));
    }
    found
}

// The bins from a up to e, onto k.
pub fn fold(k: Band, cells: &[f64], a: usize, e: usize) -> Band
    ensures { result ≡ fold_from k cells.now a (e - a) }
{
    if e <= cells.len() / 4 {
        return Bins { cells, a, e }.fold(k);
    }
    fold_any(k, cells, a, e)
}
