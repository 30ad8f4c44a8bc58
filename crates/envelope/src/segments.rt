// The segments of a chain of points, one after the other: the highest radius at a u, and the lowest
// and the highest between two bounds, each in the source's order of operations.
ghost use Rattle.std.specs.Prelude.{◌≡◌, true, ◌+◌, ◌*◌, ◌≤◌, length};
ghost use Rattle.std.specs.Float.Ieee.{le};
ghost use Rattle.envelope.specs.Envelope.{point_at, across, segment_at, higher, highest_in, taken, segment_over, segment_in, radii_in};
ghost use Rattle.envelope.specs.Halving.{aside, found_radii};

use super::{Radii, Span, higher};

#[derive(Clone, Copy)]
struct Point {
    u: f64,
    v: f64,
}

fn point_at(points: &[f64], i: usize) -> Point
    requires { 2 * i + 2 ≤ length points.now }
    ensures { result ≡ point_at points.now i }
{
    let at = 2 * i;
    let u = floats::clean(points[at]);
    let v = floats::clean(points[at + 1]);
    Point { u, v }
}

// The v at u on the line from p to q.
fn across(p: Point, q: Point, u: f64) -> f64
    ensures { result ≡ across p q u }
{
    let t = (u - p.u) / (q.u - p.u);
    p.v + t * (q.v - p.v)
}

// The radius at u of the segment from p to q.
fn segment_at(p: Point, q: Point, u: f64) -> Option<f64>
    ensures { result ≡ segment_at p q u }
{
    let lo = floats::least(p.u, q.u);
    let hi = floats::greatest(p.u, q.u);
    if (u < lo) | (hi < u) {
        return None;
    }
    if q.u == p.u {
        return Some(floats::greatest(p.v, q.v));
    }
    Some(across(p, q, u))
}

// Both u's lie before lo, or both behind hi. The lent numbers say so: -0.0 and +0.0 compare alike.
fn is_aside(pu: f64, qu: f64, lo: f64, hi: f64) -> bool
    ensures { result ≡ aside pu qu lo hi }
{
    if pu < lo {
        return qu < lo;
    }
    if hi < pu {
        return hi < qu;
    }
    false
}

// The radius found, with that at u of the segment from point i.
fn higher_at(found: Option<f64>, points: &[f64], i: usize, u: f64) -> Option<f64>
    requires { 2 * i + 4 ≤ length points.now }
    ensures { result ≡ higher found (segment_at (point_at points.now i) (point_at points.now (i + 1)) u) }
{
    let at = 2 * i;
    if is_aside(points[at], points[at + 2], u, u) {
        return found;
    }
    let p = point_at(points, i);
    let q = point_at(points, i + 1);
    higher(found, segment_at(p, q, u))
}

// The highest radius at u over the segments between the points of the span.
pub fn highest_in(points: &[f64], s: Span, u: f64) -> Option<f64>
    requires { 2 * s.end ≤ length points.now }
    ensures { result ≡ highest_in points.now s u }
{
    let start = s.start;
    let end = s.end;
    if end <= start {
        return None;
    }
    let mut found = None;
    for i in start..end - 1 {
        found = higher_at(found, points, i, u);
    }
    found
}

// The radii of some segments, none where `many` is 0. That is a whole word: of a smaller one the bytes
// beside it are copied at each turn of a loop, which takes longer than a segment does.
#[derive(Clone, Copy)]
struct Found {
    many: usize,
    lowest: f64,
    highest: f64,
}

fn taken(r: Found, v: f64) -> Found
    ensures { found_radii result ≡ taken (found_radii r) v }
{
    if r.many == 0 {
        return Found {
            many: 1,
            lowest: v,
            highest: v,
        };
    }
    Found {
        many: 1,
        lowest: floats::least(r.lowest, v),
        highest: floats::greatest(r.highest, v),
    }
}

// The radii with those of the segment from p to q between a and b.
fn segment_over(r: Found, p: Point, q: Point, a: f64, b: f64) -> Found
    ensures { found_radii result ≡ segment_over (found_radii r) p q a b }
{
    if b < a {
        return r;
    }
    if q.u == p.u {
        return taken(taken(r, p.v), q.v);
    }
    taken(taken(r, across(p, q, a)), across(p, q, b))
}

fn segment_in(r: Found, p: Point, q: Point, lo: f64, hi: f64) -> Found
    ensures { found_radii result ≡ segment_in (found_radii r) p q lo hi }
{
    let a = floats::greatest(floats::least(p.u, q.u), lo);
    let b = floats::least(floats::greatest(p.u, q.u), hi);
    segment_over(r, p, q, a, b)
}

// The radii with those between lo and hi of the segment from point i.
fn taken_from(found: Found, points: &[f64], i: usize, lo: f64, hi: f64) -> Found
    requires { (2 * i + 4 ≤ length points.now) × (le lo hi ≡ true) }
    ensures { found_radii result ≡ segment_in (found_radii found) (point_at points.now i) (point_at points.now (i + 1)) lo hi }
{
    let at = 2 * i;
    if is_aside(points[at], points[at + 2], lo, hi) {
        return found;
    }
    let p = point_at(points, i);
    let q = point_at(points, i + 1);
    segment_in(found, p, q, lo, hi)
}

// The radii found, or none.
fn extent_found(found: Found) -> Option<Radii>
    ensures { result ≡ found_radii found }
{
    if found.many == 0 {
        return None;
    }
    Some(Radii {
        lowest: found.lowest,
        highest: found.highest,
    })
}

// The lowest and the highest radius over lo..hi over the segments between the points of the span.
pub fn extent_in(points: &[f64], s: Span, lo: f64, hi: f64) -> Option<Radii>
    requires { (2 * s.end ≤ length points.now) × (le lo hi ≡ true) }
    ensures { result ≡ radii_in points.now s lo hi }
{
    let start = s.start;
    let end = s.end;
    if end <= start {
        return None;
    }
    let mut found = Found {
        many: 0,
        lowest: 0.0,
        highest: 0.0,
    };
    for i in start..end - 1 {
        found = taken_from(found, points, i, lo, hi);
    }
    extent_found(found)
}
