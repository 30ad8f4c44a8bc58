// A round tool nose swept along segments: how deep it reaches on a line, and in a bin.
//
// In the half-plane (r, z) a nose of radius rn that moves along a segment sweeps a capsule: the
// points within rn of the segment. For an outside tool all material above the capsule's lower
// boundary is gone, so what counts on a line z = c is the capsule's least radius there: on the
// circle about an end, or on the straight side that faces the axis. The boundary is convex, so over
// a bin it is greatest at one of the bin's ends, and least at an end or at the capsule's lowest
// point. A chord strays from its arc by its sag: the low goes by the capsule of rn + sag, the high
// by that of rn - sag. For the inside, radii are negated.
//
// What of a segment no bin changes is worked out once, in its track; what a bin's line needs of a
// track is a sample, and two samples make a step.
#![tactic(auto, using(floats::specs::Pick::picks), unfolding(crate::specs::Track::alike_of, crate::specs::Track::capsule_at, crate::specs::Capsule::capsule_lowest, crate::specs::Track::capsule_of, crate::specs::Track::end_on, crate::specs::Capsule::facing, crate::specs::Nose::in_bin, crate::specs::Capsule::least_point, crate::specs::Capsule::normal_of, crate::specs::Track::sample_at, crate::specs::Nose::segment_good, crate::specs::Capsule::shifted, crate::specs::Track::side_on, crate::specs::Track::step_of, crate::specs::Track::track_of))]

ghost use Rattle.std.specs.Prelude.{◌≡◌, true, ◌+◌, ◌*◌, ◌≤◌, length, Float};
ghost use Rattle.reach.specs.Low.{lower_of};
ghost use Rattle.nose.specs.Capsule.{facing, shifted, normal_of, least_point, capsule_lowest};
ghost use Rattle.nose.specs.Nose.{clean_at, segment_at, no_segment, segment_good, good_to, segments_good, in_bin};
ghost use Rattle.nose.specs.Track.{capsule_of, end_on, side_on, capsule_at, Over, alike_of, track_of, sample_at, step_of};

use reach::Swept;
use refusals::SEGMENT_LIMIT;
use stock::{TurnSide, ZRange};

// How far a line may lie from a side that stands on it and still meet it.
const ON_LINE: f64 = 1e-12;

// How far below a centre a circle may reach lies between 2^-400 and 1e100 and is a little less than
// the room, or a test without roots says nothing.
pub const FAR_LEAST: f64 = 3.8725919148493183e-121;

pub const FAR_MOST: f64 = 1e100;

pub const NEARLY: f64 = 0.999999;

// Five numbers a segment are lent: the radius and z of a, those of b, and the sag.
const SEGMENT_NUMBERS: usize = 5;

#[derive(Clone, Copy)]
pub struct Point {
    pub r: f64,
    pub z: f64,
}

// A move of the nose's centre from a to b, which strays by no more than sag from the line.
#[derive(Clone, Copy)]
pub struct Segment {
    pub a: Point,
    pub b: Point,
    pub sag: f64,
}

// The number at place k, with -0.0 read as +0.0, or no number where the list has none.
fn clean_at(list: &[f64], k: usize) -> f64
    ensures { result ≡ clean_at list.now k }
{
    if k < list.len() {
        return floats::clean(list[k]);
    }
    0.0 / 0.0
}

// No numbers.
fn no_segment() -> Segment
    ensures { result ≡ no_segment }
{
    let none = 0.0 / 0.0;
    Segment {
        a: Point { r: none, z: none },
        b: Point { r: none, z: none },
        sag: none,
    }
}

// Segment k, its radii negated for the inside. Past the end of the list there are no numbers.
pub fn segment_at(segments: &[f64], k: usize, side: TurnSide) -> Segment
    ensures { result ≡ segment_at segments.now k side }
{
    if segments.len() / SEGMENT_NUMBERS < k {
        return no_segment();
    }
    let at = SEGMENT_NUMBERS * k;
    Segment {
        a: Point {
            r: reach::flip(side, clean_at(segments, at)),
            z: clean_at(segments, at + 1),
        },
        b: Point {
            r: reach::flip(side, clean_at(segments, at + 2)),
            z: clean_at(segments, at + 3),
        },
        sag: clean_at(segments, at + 4),
    }
}

// The segment whose numbers start at a place has usable numbers, and a sag that is not negative.
fn segment_good(segments: &[f64], at: usize) -> bool
    requires { at + 5 ≤ length segments.now }
    ensures { result ≡ segment_good segments.now at }
{
    floats::is_usable(segments[at])
        & floats::is_usable(segments[at + 1])
        & floats::is_usable(segments[at + 2])
        & floats::is_usable(segments[at + 3])
        & floats::is_usable(segments[at + 4])
        & (0.0 <= segments[at + 4])
}

// The first m segments are good.
fn good_to(segments: &[f64], m: usize) -> bool
    requires { 5 * m ≤ length segments.now }
    ensures { result ≡ good_to segments.now m }
{
    let mut ok = true;
    for k in 0..m {
        ok = ok & segment_good(segments, SEGMENT_NUMBERS * k);
    }
    ok
}

// The arguments of a nose are in their domain: what 5 refuses.
pub fn segments_good(rn: f64, segments: &[f64]) -> bool
    ensures { result ≡ segments_good rn segments.now }
{
    let len = segments.len();
    let m = len / SEGMENT_NUMBERS;
    if SEGMENT_NUMBERS * m != len {
        return false;
    }
    if SEGMENT_LIMIT < m {
        return false;
    }
    floats::is_usable(rn) & (0.0 <= rn) & good_to(segments, m)
}

// A normal turned so that it faces the axis.
fn facing(n: Point) -> Point
    ensures { result ≡ facing n }
{
    if (n.r > 0.0) | ((n.r == 0.0) & (n.z > 0.0)) {
        return Point { r: -n.r, z: -n.z };
    }
    n
}

// p moved by rn along n.
fn shifted(p: Point, rn: f64, n: Point) -> Point
    ensures { result ≡ shifted p rn n }
{
    Point {
        r: p.r + rn * n.r,
        z: p.z + rn * n.z,
    }
}

// The normal of a segment that faces the axis; none where the segment has no length.
fn normal_of(a: Point, b: Point) -> Option<Point>
    ensures { result ≡ normal_of a b }
{
    let dr = b.r - a.r;
    let dz = b.z - a.z;
    let Ok(l) = numbers::length(dr, dz) else {
        return None;
    };
    if l > 0.0 {
        return Some(facing(Point {
            r: dz / l,
            z: -dr / l,
        }));
    }
    None
}

// What of a capsule of one radius no line changes: the radius and its square, the straight side
// from p on, by how much it goes on, and its lesser end.
#[derive(Clone, Copy)]
pub struct Capsule {
    pub a: Point,
    pub b: Point,
    pub rn: f64,
    pub rr: f64,
    pub long: bool,
    pub sloped: bool,
    pub p: Point,
    pub dr: f64,
    pub dz: f64,
    pub lowest: f64,
}

// The capsule about a segment with this normal.
fn capsule_of(a: Point, b: Point, normal: Option<Point>, rn: f64) -> Capsule
    ensures { result ≡ capsule_of a b normal rn }
{
    let n = normal.unwrap_or(Point { r: 0.0, z: 0.0 });
    let p = shifted(a, rn, n);
    let q = shifted(b, rn, n);
    Capsule {
        a,
        b,
        rn,
        rr: rn * rn,
        long: normal.is_some(),
        sloped: q.z != p.z,
        p,
        dr: q.r - p.r,
        dz: q.z - p.z,
        lowest: floats::least(p.r, q.r),
    }
}

// The circle of radius rn about an end, on the line z = c. rr is the radius's square.
fn end_on(p: Point, rn: f64, rr: f64, c: f64) -> Option<f64>
    ensures { result ≡ end_on p rn rr c }
{
    let dz = p.z - c;
    if floats::abs(dz) <= rn {
        let Ok(x) = numbers::root(floats::greatest(rr - dz * dz, 0.0)) else {
            return None;
        };
        return Some(p.r - x);
    }
    None
}

// Whether the circle about p stays over top on the line z = c; rr is its radius's square. `false` says
// nothing. Where the square of far is no less than what is rooted, far is no less than the root.
fn over(p: Point, rr: f64, c: f64, top: f64) -> bool
    ensures { result ≡ true → (rn : Float) → Over top (end_on p rn rr c) }
{
    let dz = p.z - c;
    let far = (p.r - top) * NEARLY;
    (rr - dz * dz <= far * far) & (top < p.r - far) & (FAR_LEAST <= far) & (far <= FAR_MOST)
}

// Whether the circle about p stays over a radius that is there. `false` says nothing.
fn hidden(x: Option<f64>, p: Point, rr: f64, c: f64) -> bool
    ensures { result ≡ true → (rn : Float) → lower_of (end_on p rn rr c) x ≡ x }
{
    let Some(top) = x else {
        return false;
    };
    over(p, rr, c, top)
}

// The circles about both ends, on the line z = c. Ahead of a move its end is the nearer, and hides the
// circle about its start.
fn ends_on(w: Capsule, c: f64) -> Option<f64>
    ensures { result ≡ lower_of (end_on w.a w.rn w.rr c) (end_on w.b w.rn w.rr c) }
{
    let x = end_on(w.b, w.rn, w.rr, c);
    if hidden(x, w.a, w.rr, c) {
        return x;
    }
    reach::lower(end_on(w.a, w.rn, w.rr, c), x)
}

// The straight side, on the line z = c.
fn side_on(w: Capsule, c: f64) -> Option<f64>
    ensures { result ≡ side_on w c }
{
    if w.sloped {
        let t = (c - w.p.z) / w.dz;
        if (0.0 <= t) & (t <= 1.0) {
            return Some(w.p.r + t * w.dr);
        }
        return None;
    }
    if floats::abs(w.p.z - c) <= ON_LINE {
        return Some(w.lowest);
    }
    None
}

// The capsule, on the line z = c.
fn capsule_at(w: Capsule, c: f64) -> Option<f64>
    ensures { result ≡ capsule_at w c }
{
    let ends = ends_on(w, c);
    if w.long {
        return reach::lower(ends, side_on(w, c));
    }
    ends
}

// The same number, and no zero: a zero has two signs.
pub fn alike(a: f64, b: f64) -> bool
    ensures { result ≡ alike_of a b }
{
    (a == b) & (b != 0.0)
}

// The point of a segment with the least radius; its middle where both ends are level.
fn least_point(a: Point, b: Point) -> Point
    ensures { result ≡ least_point a b }
{
    if a.r < b.r {
        return a;
    }
    if b.r < a.r {
        return b;
    }
    Point {
        r: a.r,
        z: (a.z + b.z) / 2.0,
    }
}

// The lowest point of a capsule.
fn capsule_lowest(a: Point, b: Point, rn: f64) -> Point
    ensures { result ≡ capsule_lowest a b rn }
{
    let p = least_point(a, b);
    Point {
        r: p.r - rn,
        z: p.z,
    }
}

// What of a segment no bin changes: the grown and the shrunk capsule, whether the second need not
// be looked at or is the first (same), whether the sag is more than the nose (shy), the grown
// capsule's lowest point, and the z from which and to which it reaches.
#[derive(Clone, Copy)]
pub struct Track {
    pub grown: Capsule,
    pub shrunk: Capsule,
    pub same: bool,
    pub shy: bool,
    pub low: Point,
    pub from: f64,
    pub to: f64,
}

// The track of a nose of radius rn along a segment.
pub fn track_of(s: Segment, rn: f64) -> Track
    ensures { result ≡ track_of s rn }
{
    let a = s.a;
    let b = s.b;
    let normal = normal_of(a, b);
    let g = rn + s.sag;
    let h = rn - s.sag;
    let grown = capsule_of(a, b, normal, g);
    let shrunk = capsule_of(a, b, normal, h);
    let low = capsule_lowest(a, b, g);
    let from = floats::least(a.z, b.z) - g;
    let to = floats::greatest(a.z, b.z) + g;
    let shy = s.sag > rn;
    Track {
        grown,
        shrunk,
        same: shy | alike(g, h),
        shy,
        low,
        from,
        to,
    }
}

// The least radius of the grown and of the shrunk capsule on one line.
#[derive(Clone, Copy)]
pub struct Sample {
    pub grown: Option<f64>,
    pub shrunk: Option<f64>,
}

// A track on the line z = c. Where the two capsules are the same, one is worked out.
pub fn sampled(t: Track, c: f64) -> Sample
    ensures { result ≡ sample_at t c }
{
    let grown = capsule_at(t.grown, c);
    if t.same {
        return Sample {
            grown,
            shrunk: grown,
        };
    }
    let shrunk = capsule_at(t.shrunk, c);
    Sample { grown, shrunk }
}

// A point's radius, where the point lies in the bin.
fn in_bin(p: Point, bin: ZRange) -> Option<f64>
    ensures { result ≡ in_bin p bin }
{
    if (bin.za <= p.z) & (p.z <= bin.zb) {
        return Some(p.r);
    }
    None
}

// Low and high with one segment more, which reaches the bin: by its track's low point and shy, and
// its samples at the bin's two ends.
pub fn step(acc: Swept, low: Point, shy: bool, bin: ZRange, a: Sample, b: Sample) -> Swept
    ensures { result ≡ step_of acc low shy bin a b }
{
    let low0 = acc.low;
    let high0 = acc.high;
    let a_grown = a.grown;
    let b_grown = b.grown;
    let low1 = reach::lower(low0, in_bin(low, bin));
    let low2 = reach::lower(low1, a_grown);
    let low3 = reach::lower(low2, b_grown);
    if shy {
        return Swept {
            low: low3,
            high: high0,
        };
    }
    let a_shrunk = a.shrunk;
    let b_shrunk = b.shrunk;
    let high1 = reach::lower(high0, reach::upper(a_shrunk, b_shrunk));
    Swept {
        low: low3,
        high: high1,
    }
}
