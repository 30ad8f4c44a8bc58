// What a convex polygon in (z, r), the region that an insert sweeps, reaches in one bin.
//
// Points are lent flat, z and r of each, in the order around the polygon; the last is joined to the
// first. Radii are negated for the inside, so that the near boundary is the lowest one on both
// sides. Over a bin that boundary is convex: it is lowest at a vertex or at an end, and highest at
// an end. What lies beyond the lowest may be gone; where the polygon spans the whole bin, what lies
// beyond the highest and the excess is certainly gone.
#![tactic(auto, using(floats::specs::Pick::picks), unfolding(crate::specs::Polygon::edge_at, crate::specs::Polygon::along_of, crate::specs::Polygon::height_at, crate::specs::Polygon::high_from, crate::specs::Polygon::raised, crate::specs::Polygon::point_at))]

ghost use Rattle.std.specs.Prelude.{◌≡◌, ◌+◌, ◌*◌, ◌≤◌, length};
ghost use Rattle.floats.specs.Numbers.{usable_to};
ghost use Rattle.reach.specs.Low.{lower_of};
ghost use Rattle.polygon.specs.Polygon.{height_at, point_at, beside_of, edge_at, lowest_of, extent_of, lows_from, high_from, Sweeps, past_of, bins_of, polygon_good};

use reach::Swept;
use refusals::POINT_LIMIT;
use stock::{BinRange, TurnSide, TurnStockSpec, ZRange};

// The least and the greatest z of the points.
#[derive(Clone, Copy)]
pub struct Span {
    pub lo: f64,
    pub hi: f64,
}

// A point, its radius negated for the inside.
#[derive(Clone, Copy)]
struct Point {
    z: f64,
    r: f64,
}

// The z of point i.
fn height_at(points: &[f64], i: usize) -> f64
    requires { 2 * i + 1 ≤ length points.now }
    ensures { result ≡ height_at points.now i }
{
    let at = 2 * i;
    floats::clean(points[at])
}

// Point i.
fn point_at(points: &[f64], side: TurnSide, i: usize) -> Point
    requires { 2 * i + 2 ≤ length points.now }
    ensures { result ≡ point_at points.now side i }
{
    let z = height_at(points, i);
    let at = 2 * i + 1;
    let r = reach::flip(side, floats::clean(points[at]));
    Point { z, r }
}

// z lies beside an edge from one height to another.
fn is_beside(a: f64, b: f64, z: f64) -> bool
    ensures { result ≡ beside_of a b z }
{
    (z < floats::least(a, b)) | (floats::greatest(a, b) < z)
}

// The radius of the edge from p to q at z, if z is not beside it.
fn edge_at(p: Point, q: Point, z: f64) -> Option<f64>
    ensures { result ≡ edge_at p q z }
{
    if is_beside(p.z, q.z, z) {
        return None;
    }
    if q.z == p.z {
        return Some(floats::least(p.r, q.r));
    }
    let share = (z - p.z) / (q.z - p.z);
    Some(p.r + share * (q.r - p.r))
}

// The lower of a start and the edge from point i to point j at z.
fn lower_at(
    points: &[f64],
    side: TurnSide,
    i: usize,
    j: usize,
    z: f64,
    start: Option<f64>,
) -> Option<f64>
    requires { (2 * i + 2 ≤ length points.now) × (2 * j + 2 ≤ length points.now) }
    ensures { result ≡ lower_of start (edge_at (point_at points.now side i) (point_at points.now side j) z) }
{
    let p = point_at(points, side, i);
    let q = point_at(points, side, j);
    reach::lower(start, edge_at(p, q, z))
}

// The lowest radius at z over all edges. Of an edge that z lies beside only the heights are read.
pub fn lowest(points: &[f64], side: TurnSide, z: f64) -> Option<f64>
    ensures { result ≡ lowest_of points.now side z }
{
    let n = points.len() / 2;
    if n == 0 {
        return None;
    }
    let at = floats::clean(z);
    let last = n - 1;
    let mut a = height_at(points, 0);
    let mut low = None;
    for i in 0..last {
        let b = height_at(points, i + 1);
        if !is_beside(a, b, at) {
            low = lower_at(points, side, i, i + 1, at, low);
        }
        a = b;
    }
    lower_at(points, side, last, 0, at, low)
}

// The least and the greatest z.
pub fn extent_of(points: &[f64]) -> Option<Span>
    ensures { result ≡ extent_of points.now }
{
    let n = points.len() / 2;
    if n == 0 {
        return None;
    }
    let first = height_at(points, 0);
    let mut lo = first;
    let mut hi = first;
    for i in 1..n {
        let z = height_at(points, i);
        lo = floats::least(lo, z);
        hi = floats::greatest(hi, z);
    }
    Some(Span { lo, hi })
}

// One past the last bin, which is n - 1 at most.
fn past_of(last: usize, n: usize) -> usize
    ensures { result ≡ past_of last n }
{
    if last < n { last + 1 } else { n }
}

// The bins that a polygon from lo to hi may reach, in a spec whose numbers are checked. The first
// is not brought down to n - 1: a polygon may start behind the last bin.
pub fn index_range(s: TurnStockSpec, lo: f64, hi: f64, n: usize) -> BinRange
    ensures { result ≡ bins_of s lo hi n }
{
    if (hi < s.z_min_mm) | (s.z_max_mm < lo) {
        return BinRange { from: 0, to: 0 };
    }
    let first = numbers::whole_part((lo - s.z_min_mm) / s.cell_mm) as usize;
    let last = numbers::whole_part((hi - s.z_min_mm) / s.cell_mm) as usize;
    let past = past_of(last, n);
    if past <= first {
        return BinRange { from: 0, to: 0 };
    }
    BinRange {
        from: first,
        to: past,
    }
}

// The lower of a start and the lowest at each vertex that lies strictly between the ends of a bin.
fn lows_from(points: &[f64], side: TurnSide, bin: ZRange, start: Option<f64>) -> Option<f64>
    ensures { result ≡ lows_from points.now side bin start }
{
    let za = bin.za;
    let zb = bin.zb;
    let n = points.len() / 2;
    let mut low = start;
    for i in 0..n {
        let z = height_at(points, i);
        if (za < z) & (z < zb) {
            low = reach::lower(low, lowest(points, side, z));
        }
    }
    low
}

// The higher of two ends with the excess, where lo..hi covers the bin.
fn high_from(
    excess: f64,
    bin: ZRange,
    lo: f64,
    hi: f64,
    start: Option<f64>,
    end: Option<f64>,
) -> Option<f64>
    ensures { result ≡ high_from excess bin lo hi start end }
{
    if (lo <= bin.za) & (bin.zb <= hi) {
        let x = reach::upper(start, end)?;
        return Some(x + excess);
    }
    None
}

// What a polygon from lo to hi reaches in a bin. `start` is its lowest at the greater of za and lo,
// `end` at the lesser of zb and hi.
pub fn swept_in(
    points: &[f64],
    side: TurnSide,
    excess: f64,
    bin: ZRange,
    lo: f64,
    hi: f64,
    start: Option<f64>,
    end: Option<f64>,
) -> Swept
    ensures { Sweeps points.now side excess bin lo hi start end result }
{
    let low = lows_from(points, side, bin, reach::lower(start, end));
    let high = high_from(excess, bin, lo, hi, start, end);
    Swept { low, high }
}

// Every number is usable.
fn all_usable(points: &[f64]) -> bool
    ensures { result ≡ usable_to points.now (length points.now) }
{
    let mut ok = true;
    for x in points {
        ok = ok & floats::is_usable(*x);
    }
    ok
}

// Whole points, not too many, every number usable, the excess not below 0; else 5.
pub fn polygon_good(points: &[f64], excess: f64) -> bool
    ensures { result ≡ polygon_good points.now excess }
{
    let len = points.len();
    let over = len % 2;
    if over != 0 {
        return false;
    }
    if POINT_LIMIT < len / 2 {
        return false;
    }
    all_usable(points) & floats::is_usable(excess) & (0.0 <= excess)
}
