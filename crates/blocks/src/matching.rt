// Whether kept numbers are those of some bins, by tests alone: no bin with material has more, and some has
// as much, or they are those of no material. Tests go through several bins at once, where a least and a
// greatest wait for the one before.
ghost use Rattle.std.specs.Prelude.{◌≡◌, ◌-◌};
ghost use Rattle.blocks.specs.Tested.{met_none, met_with, met_from};

use crate::bins::{Bins, most_at};
use queries::Band;
use stock::TurnStockSpec;

// Whether kept numbers are those of the bins that were gone through.
#[derive(Clone, Copy)]
pub struct Met {
    // no bin with material has more
    pub under: bool,
    // some has the outer radius, and some the bore
    pub outer: bool,
    pub bore: bool,
}

// Before the first bin, the numbers of no material.
pub fn met_none(s: TurnStockSpec, kept: Band) -> Met
    ensures { result ≡ met_none s kept }
{
    Met {
        under: (s.bore_radius_mm <= kept.outer) & (kept.bore <= s.outer_radius_mm),
        outer: kept.outer == s.bore_radius_mm,
        bore: kept.bore == s.outer_radius_mm,
    }
}

// The band of one bin more.
fn met_with(kept: Band, m: Met, b: Band) -> Met
    ensures { result ≡ met_with kept m b }
{
    let has = b.bore < b.outer;
    Met {
        under: m.under & (!has | ((b.outer <= kept.outer) & (kept.bore <= b.bore))),
        outer: m.outer | (has & (kept.outer == b.outer)),
        bore: m.bore | (has & (kept.bore == b.bore)),
    }
}

// Those bins, onto m.
pub fn met_over(kept: Band, m: Met, bins: &Bins<'_>) -> Met
    ensures { result ≡ met_from kept m bins.now.cells.now bins.now.a (bins.now.e - bins.now.a) }
{
    let mut met = m;
    for i in bins.a..bins.e {
        met = met_with(kept, met, most_at(bins.cells, i));
    }
    met
}
