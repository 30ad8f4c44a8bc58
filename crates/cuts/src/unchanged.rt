// Cells that a thread or a drill leaves as they are, told from the most that it reaches: so the loops
// over the bins need not work out what it reaches there.
ghost use Rattle.std.specs.Prelude.{◌≡◌, true, Float};
ghost use Rattle.stock.specs.declared.TurnSide.TheVariants.{Inner};
ghost use Rattle.stock.specs.declared.ZRange.{ZRange};
ghost use Rattle.reach.specs.Reach.{cut_cell};
ghost use Rattle.cuts.specs.Source.{drill_both, Leaves, LeavesCell};

use crate::list::Source;
use reach::Reach;
use stock::{TurnCell, TurnSide};

// A thread to this radius goes no deeper than the cell's deep bound; else it makes another cell.
pub fn thread_leaves(side: TurnSide, radius: f64, c: TurnCell) -> bool
    ensures { Leaves result c (cut_cell side c (Reach.Low radius)) }
{
    match side {
        TurnSide::Outer => !(floats::greatest(radius, c.inner.lower_mm) < c.outer.lower_mm),
        TurnSide::Inner => !(c.inner.upper_mm < floats::least(radius, c.outer.upper_mm)),
    }
}

// A drill of this radius goes no deeper than the cell's sure bound, wherever its tip is.
pub fn drill_leaves(radius: f64, c: TurnCell) -> bool
    ensures { result ≡ true → (b : ZRange) (tip cone : Float) → cut_cell Inner c (drill_both b tip radius cone) ≡ c }
{
    let most = floats::least(radius, c.outer.upper_mm);
    if c.inner.lower_mm < most {
        return false;
    }
    (0.0 <= radius) & (c.inner.lower_mm <= c.inner.upper_mm) & (most <= c.inner.lower_mm)
}

// The cut leaves the cell, whatever bin it is of. Of rows this is not known.
pub fn leaves(source: Source, c: TurnCell) -> bool
    ensures { result ≡ true → LeavesCell source c }
{
    match source {
        Source::Thread { side, radius } => thread_leaves(side, radius, c),
        Source::Drill {
            tip_z: _,
            radius,
            cone: _,
        } => drill_leaves(radius, c),
        Source::Rows(_) => false,
    }
}
