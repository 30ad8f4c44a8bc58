// The ends of some bins: the greatest and the least of their outer radii and of their bores. Where the
// greatest bore lies below the least outer radius every bin has material, and the ends are what is kept.
ghost use Rattle.std.specs.Prelude.{◌≡◌, ◌+◌, ◌*◌, ◌≤◌, length};
ghost use Rattle.queries.specs.declared.Band.{Band};
ghost use Rattle.queries.specs.Material.{band};
ghost use Rattle.blocks.specs.Lots.{one_ends, join_ends, ends_in, two_at, four_at, lot_to, all_held};

use crate::bins;
use queries::Band;
use stock::TurnStockSpec;

#[derive(Clone, Copy)]
pub struct Ends {
    pub most: Band,
    pub least: Band,
    // a sum is a NaN where one of its numbers is
    pub sums: Band,
}

// Those of one bin.
fn of_bin(b: Band) -> Ends
    ensures { result ≡ one_ends b }
{
    Ends {
        most: b,
        least: b,
        sums: b,
    }
}

// Those of two lots of bins together.
fn joined(a: Ends, b: Ends) -> Ends
    ensures { result ≡ join_ends a b }
{
    Ends {
        most: Band {
            bore: floats::greatest(a.most.bore, b.most.bore),
            outer: floats::greatest(a.most.outer, b.most.outer),
        },
        least: Band {
            bore: floats::least(a.least.bore, b.least.bore),
            outer: floats::least(a.least.outer, b.least.outer),
        },
        sums: Band {
            bore: a.sums.bore + b.sums.bore,
            outer: a.sums.outer + b.sums.outer,
        },
    }
}

// Those of two bins from bin i on.
fn of_two(cells: &[f64], i: usize) -> Ends
    requires { 4 * i + 8 ≤ length cells.now }
    ensures { result ≡ ends_in (two_at cells.now i) }
{
    joined(
        of_bin(bins::most_at(cells, i)),
        of_bin(bins::most_at(cells, i + 1)),
    )
}

// Those of four.
fn of_four(cells: &[f64], i: usize) -> Ends
    requires { 4 * i + 16 ≤ length cells.now }
    ensures { result ≡ ends_in (four_at cells.now i) }
{
    joined(of_two(cells, i), of_two(cells, i + 2))
}

// Those of a whole block from bin a on.
pub fn of_block(cells: &[f64], a: usize) -> Ends
    requires { 4 * a + 256 ≤ length cells.now }
    ensures { result ≡ ends_in (lot_to cells.now a 15) }
{
    let mut found = of_four(cells, a);
    for k in 1..16 {
        found = joined(of_four(cells, a + 4 * k), found);
    }
    found
}

// Every bin has material and no number is a NaN, those of the spec included.
pub fn all_held(s: TurnStockSpec, e: Ends) -> bool
    ensures { result ≡ all_held s e }
{
    (s.bore_radius_mm < s.outer_radius_mm)
        & (e.most.bore < e.least.outer)
        & (e.sums.bore == e.sums.bore)
        & (e.sums.outer == e.sums.outer)
}

// From the least bore to the greatest outer radius.
pub fn span(e: Ends) -> Band
    ensures { result ≡ band e.least.bore e.most.outer }
{
    let least = e.least;
    let most = e.most;
    Band {
        bore: least.bore,
        outer: most.outer,
    }
}
