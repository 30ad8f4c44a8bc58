// A profile as chords: arcs between points, each halved until its chords stray from it by no more than
// a tolerance.
//
// Points are lent flat, radius z bulge each, 2 to 256 of them. The bulge is that of the arc to the next
// point: its sag over half its chord; 0 is a line. The chords are what a nose takes as segments, and
// then the profile is the path of the nose's centre. An arc whose sag is over the tolerance is halved at
// its middle, ten times at most, so that a segment of the profile has 1 to 1,024 chords. Both halves
// have one bulge. Chords join by equal bits, begin and end where the profile does, and their numbers are
// finite (`proofs/Laws`). The sag is worked out in floats: it is no strict bound (docs/DECISIONS.md).
//
// One function counts and writes: handed no room, it counts. So nothing is written before refusal 18 is
// decided.
#![tactic(auto)]

ghost use Rattle.std.specs.Prelude.{◌≡◌, ◌+◌, ◌*◌, ◌≤◌, length};
ghost use Rattle.profile.specs.Profile.{clean_at, point_at, bulge_at, point_good, good_to, apart, apart_to, profile_good};
ghost use Rattle.profile.specs.Chords.{sag_of, middle_of, half_of, chords_of, chords_to, put_chord, ChopsInto, Segments};

use refusals::{PROFILE_LIMIT, Refusal};

// Three numbers a point are lent, and five a chord.
const POINT_NUMBERS: usize = 3;

const CHORD_NUMBERS: usize = 5;

// How often an arc is halved.
const HALVINGS: u32 = 10;

// Neighbours are further apart.
const APART: f64 = 1e-9;

#[derive(Clone, Copy)]
pub struct Point {
    pub r: f64,
    pub z: f64,
}

// ---- the points

// The number at place k, with -0.0 read as +0.0, or no number where the list has none.
fn clean_at(list: &[f64], k: usize) -> f64
    ensures { result ≡ clean_at list.now k }
{
    if k < list.len() {
        return floats::clean(list[k]);
    }
    0.0 / 0.0
}

// Point k.
fn point_at(points: &[f64], k: usize) -> Point
    requires { 3 * k + 3 ≤ length points.now }
    ensures { result ≡ point_at points.now k }
{
    let at = POINT_NUMBERS * k;
    Point {
        r: clean_at(points, at),
        z: clean_at(points, at + 1),
    }
}

// The bulge of the arc from point k on.
fn bulge_at(points: &[f64], k: usize) -> f64
    requires { 3 * k + 3 ≤ length points.now }
    ensures { result ≡ bulge_at points.now k }
{
    clean_at(points, POINT_NUMBERS * k + 2)
}

// A point's numbers are usable, its radius is not negative, its bulge at most 1 in size.
fn point_good(p: Point, bulge: f64) -> bool
    ensures { result ≡ point_good p bulge }
{
    floats::is_usable(p.r)
        & floats::is_usable(p.z)
        & floats::is_usable(bulge)
        & (0.0 <= p.r)
        & (-1.0 <= bulge)
        & (bulge <= 1.0)
}

// The first m points are good.
fn good_to(points: &[f64], m: usize) -> bool
    requires { 3 * m ≤ length points.now }
    ensures { result ≡ good_to points.now m }
{
    let mut ok = true;
    for k in 0..m {
        ok = ok & point_good(point_at(points, k), bulge_at(points, k));
    }
    ok
}

// Two points are further apart than 1e-9.
fn is_apart(a: Point, b: Point) -> bool
    ensures { result ≡ apart a b }
{
    let dz = b.z - a.z;
    let dr = b.r - a.r;
    let Ok(l) = numbers::length(dz, dr) else {
        return false;
    };
    APART < l
}

// Each of the first m points is apart from the next.
fn apart_to(points: &[f64], m: usize) -> bool
    requires { 3 * m + 3 ≤ length points.now }
    ensures { result ≡ apart_to points.now m }
{
    let mut ok = true;
    for k in 0..m {
        ok = ok & is_apart(point_at(points, k), point_at(points, k + 1));
    }
    ok
}

// The profile and the tolerance are in their domain: what 17 refuses.
fn profile_good(points: &[f64], tolerance: f64) -> bool
    ensures { result ≡ profile_good points.now tolerance }
{
    let len = points.len();
    let m = len / POINT_NUMBERS;
    if POINT_NUMBERS * m != len {
        return false;
    }
    if m < 2 {
        return false;
    }
    if PROFILE_LIMIT < m {
        return false;
    }
    floats::is_usable(tolerance) & (0.0 <= tolerance) & good_to(points, m) & apart_to(points, m - 1)
}

// ---- an arc

// How far the arc from a to b strays from its chord.
fn sag_of(a: Point, b: Point, bulge: f64) -> f64
    ensures { result ≡ sag_of a b bulge }
{
    let dz = b.z - a.z;
    let dr = b.r - a.r;
    let Ok(l) = numbers::length(dz, dr) else {
        return 0.0 / 0.0;
    };
    floats::abs(floats::clean(bulge)) * (l / 2.0)
}

// The middle of the arc from a to b.
fn middle(a: Point, b: Point, bulge: f64) -> Point
    ensures { result ≡ middle_of a b bulge }
{
    let dz = b.z - a.z;
    let dr = b.r - a.r;
    let h = bulge / 2.0;
    Point {
        r: floats::clean((a.r + b.r) / 2.0 + h * (-dz)),
        z: floats::clean((a.z + b.z) / 2.0 + h * dr),
    }
}

// The bulge of either half of an arc.
fn half_bulge(bulge: f64) -> f64
    ensures { result ≡ half_of bulge }
{
    let Ok(x) = numbers::root(1.0 + bulge * bulge) else {
        return 0.0 / 0.0;
    };
    bulge / (1.0 + x)
}

// The chord's numbers at place k; nothing where there is no room.
fn put_chord(out: &mut [f64], k: usize, a: Point, b: Point, sag: f64)
    ensures { out.new ≡ put_chord out.old k a b sag }
{
    if out.len() / CHORD_NUMBERS <= k {
        return;
    }
    let at = CHORD_NUMBERS * k;
    out[at] = a.r;
    out[at + 1] = a.z;
    out[at + 2] = b.r;
    out[at + 3] = b.z;
    out[at + 4] = sag;
}

// The chords of an arc from place `at` on, of which there is room for so many; nothing is written where
// `out` has no place. The levels left fall.
fn chop(
    a: Point,
    b: Point,
    bulge: f64,
    tolerance: f64,
    levels: u32,
    at: usize,
    room: usize,
    out: &mut [f64],
) -> Option<usize>
    ensures { ChopsInto (chords_of a b bulge tolerance levels) room at result out }
{
    let sag = sag_of(a, b, bulge);
    if sag <= tolerance {
        if room <= at {
            return None;
        }
        put_chord(out, at, a, b, sag);
        return Some(at + 1);
    }
    if levels == 0 {
        return None;
    }
    let m = middle(a, b, bulge);
    let half = half_bulge(bulge);
    let next = chop(a, m, half, tolerance, levels - 1, at, room, out)?;
    chop(m, b, half, tolerance, levels - 1, next, room, out)
}

// ---- a profile

// The chords of m segments from place 0 on, as `chop`.
fn chop_all(points: &[f64], m: usize, tolerance: f64, room: usize, out: &mut [f64]) -> Option<usize>
    requires { 3 * m + 3 ≤ length points.now }
    ensures { ChopsInto (chords_to points.now tolerance m) room 0 result out }
{
    let mut at: usize = 0;
    for k in 0..m {
        let a = point_at(points, k);
        let b = point_at(points, k + 1);
        let bulge = bulge_at(points, k);
        at = chop(a, b, bulge, tolerance, HALVINGS, at, room, out)?;
    }
    Some(at)
}

// The chords of a profile: the first numbers of `out`, five each. A refusal writes nothing.
pub fn segments(points: &[f64], tolerance: f64, out: &mut [f64]) -> Result<usize, Refusal>
    ensures { Segments points.now tolerance result out }
{
    if !profile_good(points, tolerance) {
        return Err(Refusal::ProfileOutside);
    }
    let m = points.len() / POINT_NUMBERS - 1;
    let fine = floats::clean(tolerance);
    let room = out.len() / CHORD_NUMBERS;
    let counted = chop_all(points, m, fine, room, &mut []);
    let n = counted.ok_or(Refusal::ChordsOutgrow)?;
    let _written = chop_all(points, m, fine, room, out);
    Ok(n)
}
