// A polygon over all bins: its extent is worked out once, only the bins of its index range are
// visited, and the sample at the end of a bin serves the next one.
ghost use Rattle.std.specs.Prelude.{◌≡◌, true, ℕ, ◌+◌, ◌≤◌, ◌<◌};
ghost use Rattle.refusals.specs.Limits.{cell_limit};
ghost use Rattle.polygon.specs.Polygon.{lowest_of, polygon_reach, polygon_act};
ghost use Rattle.cuts.specs.Rows.{row_at, rows_found, rows_left, Room, Unfilled, Sampled, ToCross, ToSweep, Crosses, Crossed, Says};

use crate::rows;
use polygon::Span;
use stock::{BinRange, TurnSide, TurnStockSpec};

// The lowest of the polygon on a line.
#[derive(Clone, Copy)]
struct Held {
    at: f64,
    low: Option<f64>,
}

// The lowest at z, by way of the one in hand.
fn kept(points: &[f64], side: TurnSide, held: Held, z: f64) -> Option<f64>
    requires { Sampled points.now side held }
    ensures { result ≡ lowest_of points.now side z }
{
    let low = held.low;
    if held.at == z {
        return low;
    }
    polygon::lowest(points, side, z)
}

// Bin i, which is one of the range; the sample in hand after it.
fn cross(
    s: TurnStockSpec,
    side: TurnSide,
    excess: f64,
    points: &[f64],
    lo: f64,
    hi: f64,
    held: Held,
    i: usize,
    values: &mut [f64],
    there: &mut [bool],
) -> Held
    requires { ToCross s points.now side lo hi held i values.old there.old }
    ensures { Sampled points.now side result × Crosses side (polygon_reach s side excess points.now) (rows_found values there) (rows_left values there) i }
{
    let bin = stock::bin_of(s, i);
    if (bin.zb <= lo) | (hi <= bin.za) {
        return held;
    }
    let za = floats::greatest(bin.za, lo);
    let zb = floats::least(bin.zb, hi);
    let start = kept(points, side, held, za);
    let stop = polygon::lowest(points, side, zb);
    let swept = polygon::swept_in(points, side, excess, bin, lo, hi, start, stop);
    rows::put_row(values, there, i, swept);
    Held { at: zb, low: stop }
}

// The bins from first to before last.
fn sweep(
    s: TurnStockSpec,
    side: TurnSide,
    excess: f64,
    points: &[f64],
    lo: f64,
    hi: f64,
    first: usize,
    last: usize,
    values: &mut [f64],
    there: &mut [bool],
)
    requires { ToSweep s points.now lo hi first last values.old there.old }
    ensures { Crossed side (polygon_reach s side excess points.now) first last (rows_found values there) (rows_left values there) }
{
    let mut held = Held {
        at: lo,
        low: polygon::lowest(points, side, lo),
    };
    for i in first..last {
        held = cross(s, side, excess, points, lo, hi, held, i, values, there);
    }
}

// All n bins, into rows that are not filled; the bins that were visited.
pub fn fill(
    s: TurnStockSpec,
    n: usize,
    side: TurnSide,
    excess: f64,
    points: &[f64],
    values: &mut [f64],
    there: &mut [bool],
) -> BinRange
    requires { (n ≤ cell_limit) × Room n values.old there.old × Unfilled 0 n (row_at values.old there.old) }
    ensures { Says (polygon_act s side excess points.now) n result.from result.to (rows_left values there) }
{
    let extent = polygon::extent_of(points);
    let Some(Span { lo, hi }) = extent else {
        return BinRange { from: 0, to: 0 };
    };
    let bins = polygon::index_range(s, lo, hi, n);
    let raise = floats::clean(excess);
    sweep(
        s, side, raise, points, lo, hi, bins.from, bins.to, values, there,
    );
    bins
}
