// A nose over all bins, segment by segment: only the bins that a segment reaches are visited, and
// what no bin changes is worked out once a segment.
ghost use Rattle.std.specs.Prelude.{◌≡◌, true, ◌+◌, ◌≤◌, length, Float};
ghost use Rattle.std.specs.Prelude.{None};
ghost use Rattle.refusals.specs.Limits.{cell_limit};
ghost use Rattle.reach.specs.Kinds.{SomeOf};
ghost use Rattle.nose.specs.Nose.{segment_count};
ghost use Rattle.nose.specs.Track.{end_on, side_on, capsule_at, sample_at, step_of, Over};
ghost use Rattle.cuts.specs.Rows.{row_at, rows_found, rows_left, Room, PutRow, Unfilled, Graded, Topped, Rested, Stepped, Passed, RowFilled, Idle};

use crate::{ends, rows};
use nose::{Capsule, FAR_LEAST, FAR_MOST, NEARLY, Point, Sample, Track};
use reach::Swept;
use stock::{BinRange, TurnSide, TurnStockSpec, ZRange};

// So many bins are swept before it is asked again which rest.
const PART: usize = 64;

// The sample on the line c, by way of the one on the line at.
fn kept(t: Track, at: f64, held: Sample, c: f64) -> Sample
    requires { held ≡ sample_at t at }
    ensures { result ≡ sample_at t c }
{
    if nose::alike(at, c) {
        return held;
    }
    nose::sampled(t, c)
}

// Bin i after one segment more, which reaches it.
fn touch(
    low: Point,
    shy: bool,
    bin: ZRange,
    a: Sample,
    b: Sample,
    i: usize,
    values: &mut [f64],
    there: &mut [bool],
)
    requires { Room (i + 1) values.old there.old × (i ≤ cell_limit) }
    ensures { PutRow (rows_found values there) (rows_left values there) i (step_of (rows_found values there i) low shy bin a b) }
{
    let acc = rows::row_at(values, there, i);
    let swept = nose::step(acc, low, shy, bin, a, b);
    rows::put_row(values, there, i, swept);
}

// A segment over the bins from first to before last.
fn sweep(
    s: TurnStockSpec,
    t: Track,
    first: usize,
    last: usize,
    values: &mut [f64],
    there: &mut [bool],
)
    requires { (first ≤ last) × (last ≤ cell_limit) × Room last values.old there.old }
    ensures { Stepped s t first last (rows_found values there) (rows_left values there) }
{
    let mut at = stock::bin_of(s, first).za;
    let mut a = nose::sampled(t, at);
    for i in first..last {
        let bin = stock::bin_of(s, i);
        let start = kept(t, at, a, bin.za);
        let stop = nose::sampled(t, bin.zb);
        touch(t.low, t.shy, bin, start, stop, i, values, there);
        at = bin.zb;
        a = stop;
    }
}

// Whether the circle about p stays over top on the line z = c; rr is its radius's square. `false` says
// nothing. Where the square of far is no less than what is rooted, far is no less than the root.
fn over(p: Point, rr: f64, c: f64, top: f64) -> bool
    ensures { result ≡ true → (rn : Float) → Over top (end_on p rn rr c) }
{
    let dz = p.z - c;
    let far = (p.r - top) * NEARLY;
    (rr - dz * dz <= far * far) & (top < p.r - far) & (FAR_LEAST <= far) & (far <= FAR_MOST)
}

// Whether the straight side of a capsule misses the line z = c. `false` says nothing.
fn beside(w: Capsule, c: f64) -> bool
    ensures { result ≡ true → side_on w c ≡ None }
{
    let t = (c - w.p.z) / w.dz;
    w.sloped & !((0.0 <= t) & (t <= 1.0))
}

// Whether a capsule stays over top on both lines of a bin. `false` says nothing.
fn stays(w: Capsule, bin: ZRange, top: f64) -> bool
    ensures { result ≡ true → Over top (capsule_at w bin.za) × Over top (capsule_at w bin.zb) }
{
    if over(w.a, w.rr, bin.za, top)
        & over(w.b, w.rr, bin.za, top)
        & over(w.a, w.rr, bin.zb, top)
        & over(w.b, w.rr, bin.zb, top)
    {
        return beside(w, bin.za) & beside(w, bin.zb);
    }
    false
}

// The greater of low and high, where both are there.
fn top_of(row: Swept) -> Option<f64>
    ensures { SomeOf (λ x. Topped x row) result }
{
    let low = row.low?;
    let high = row.high?;
    if low <= high {
        return Some(high);
    }
    if high <= low {
        return Some(low);
    }
    None
}

// Whether a segment leaves a bin as it is, by low and high of the bin. `false` says nothing.
fn rests(t: Track, bin: ZRange, row: Swept) -> bool
    ensures { result ≡ true → step_of row t.low t.shy bin (sample_at t bin.za) (sample_at t bin.zb) ≡ row }
{
    if (bin.za <= t.low.z) & (t.low.z <= bin.zb) {
        return false;
    }
    let found = top_of(row);
    let Some(top) = found else {
        return false;
    };
    if !stays(t.grown, bin, top) {
        return false;
    }
    if t.same {
        return true;
    }
    stays(t.shrunk, bin, top)
}

// The first bin from first on that a segment may change, or last.
fn rested(
    s: TurnStockSpec,
    t: Track,
    first: usize,
    last: usize,
    values: &[f64],
    there: &[bool],
) -> usize
    requires { (first ≤ last) × (last ≤ cell_limit) }
    ensures { (result ≤ last) × Rested s t first result (row_at values.now there.now) }
{
    for i in first..last {
        if !rests(t, stock::bin_of(s, i), rows::row_at(values, there, i)) {
            return i;
        }
    }
    last
}

// A segment over the bins from first to before last, a part at a time: the bins before a part that it
// leaves as they are cost no root.
fn swept(
    s: TurnStockSpec,
    t: Track,
    first: usize,
    last: usize,
    values: &mut [f64],
    there: &mut [bool],
)
    requires { (first ≤ last) × (last ≤ cell_limit) × Room last values.old there.old }
    ensures { Stepped s t first last (rows_found values there) (rows_left values there) }
{
    let mut i = first;
    while i < last {
        let from = rested(s, t, i, last, values, there);
        let to = numbers::lesser(from + PART, last);
        sweep(s, t, from, to, values, there);
        i = to;
    }
}

// A segment over all n bins: those that its span does not reach stay as they are; the bins that were
// visited with those before.
fn pass(
    s: TurnStockSpec,
    n: usize,
    t: Track,
    seen: BinRange,
    values: &mut [f64],
    there: &mut [bool],
) -> BinRange
    requires { Graded s n × Room n values.old there.old × Idle n seen (row_at values.old there.old) }
    ensures { Passed s n t (rows_found values there) (rows_left values there) × Idle n result (rows_left values there) }
{
    let first = ends::find(s, n, t.from, true, true);
    let last = ends::find(s, n, t.to, false, true);
    if last <= first {
        return seen;
    }
    swept(s, t, first, last, values, there);
    ends::wider(seen, first, last)
}

// All segments over all n bins, into rows that are not filled; the bins that were visited.
pub fn fill(
    s: TurnStockSpec,
    n: usize,
    side: TurnSide,
    rn: f64,
    segments: &[f64],
    values: &mut [f64],
    there: &mut [bool],
) -> BinRange
    requires { Graded s n × Room n values.old there.old × Unfilled 0 n (row_at values.old there.old) }
    ensures { RowFilled s n side rn segments.now (segment_count segments.now) (rows_left values there) × Idle n result (rows_left values there) × (result.from ≤ result.to) }
{
    let m = segments.len() / 5;
    let mut seen = BinRange { from: n, to: 0 };
    for k in 0..m {
        let t = nose::track_of(nose::segment_at(segments, k, side), rn);
        seen = pass(s, n, t, seen, values, there);
    }
    if seen.to < seen.from {
        return BinRange { from: 0, to: 0 };
    }
    seen
}
