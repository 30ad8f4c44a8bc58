// Whether an insert touches: a polygon in (u, v), the points lent flat in order around it, tried against an
// envelope before anything is cut.
//
// Three numbers are answered. `eroded` is the radius of a part that is surely there at u: the least within the
// tolerance along u, less the tolerance, and nowhere where the window leaves the part. `penetration` is how far
// the polygon's lowest reaches below it, the most over both; `excess` is how far the polygon's highest reaches
// beyond a bore that is widened by the tolerance. In front of a bore there is no material: it is open there, and
// past its deepest point it has no radius. A negative answer is clear by so much. Nothing is answered where
// nothing is compared: where every candidate is open, or no material is left under the insert.
//
// Both go by the same steps, `Greatest` for excess and `Least` for penetration: samples over a window
// (`samples`), the polygon's edges (`edges`), and the candidates where they are compared (`candidates`).
#![tactic(auto)]

ghost use Rattle.std.specs.Prelude.{◌≡◌, true};
ghost use Rattle.refusals.specs.Number.{paper_of};
ghost use Rattle.envelope.specs.Envelope.{points_good, order_of};
ghost use Rattle.insert.specs.Insert.{polygon_good, tolerance_good, chosen, touch_of, touched, excess_of, penetration_of, eroded_of};

use refusals::{POINT_LIMIT, Refusal};

mod samples; // samples.rt: a window over the envelope
mod edges; // edges.rt: the polygon at a u
mod candidates; // candidates.rt: where both are compared

use candidates::{Attempt, Trial};
use samples::Outline;

// The least throughout, for penetration, or the greatest, for excess.
#[derive(Clone, Copy)]
pub enum Which {
    Least,
    Greatest,
}

// The order's number of points that are refused.
const OUTSIDE: i8 = 2;

fn chosen(w: Which, a: f64, b: f64) -> f64
    ensures { result ≡ chosen w a b }
{
    match w {
        Which::Least => floats::least(a, b),
        Which::Greatest => floats::greatest(a, b),
    }
}

// The polygon is accepted.
fn is_polygon(polygon: &[f64]) -> bool
    ensures { result ≡ polygon_good polygon.now }
{
    if POINT_LIMIT < polygon.len() / 2 {
        return false;
    }
    let order = envelope::number_of(polygon);
    if order == OUTSIDE {
        return false;
    }
    true
}

// The tolerance is accepted.
fn is_tolerance(t: f64) -> bool
    ensures { result ≡ tolerance_good t }
{
    floats::is_usable(t) & (0.0 <= t)
}

// What an accepted insert does.
fn tried(points: &[f64], order: i8, polygon: &[f64], w: Which, t: f64) -> Option<f64>
    requires { (points_good points.now ≡ true) × (order ≡ order_of points.now) }
    ensures { result ≡ touch_of w points.now polygon.now t }
{
    if polygon.len() / 2 == 0 {
        return None;
    }
    let lo = samples::most(polygon, Which::Least);
    let hi = samples::most(polygon, Which::Greatest);
    let attempt = Attempt {
        outline: Outline::new(points, order, w),
        polygon,
        trial: Trial {
            tolerance: t,
            lo,
            hi,
        },
    };
    if order == 0 {
        return attempt.over_held();
    }
    attempt.over_all()
}

fn touching(
    points: &[f64],
    polygon: &[f64],
    w: Which,
    tolerance: f64,
) -> Result<Option<f64>, Refusal>
    ensures { paper_of result ≡ touched w points.now polygon.now tolerance }
{
    let order = envelope::number_of(points);
    if order == OUTSIDE {
        return Err(Refusal::EnvelopeOutside);
    }
    if !(is_polygon(polygon) & is_tolerance(tolerance)) {
        return Err(Refusal::EnvelopeOutside);
    }
    Ok(tried(points, order, polygon, w, floats::clean(tolerance)))
}

// How far the polygon reaches beyond the bore dilated by the tolerance; less than 0 is clear by so much.
pub fn excess(points: &[f64], polygon: &[f64], tolerance: f64) -> Result<Option<f64>, Refusal>
    ensures { paper_of result ≡ excess_of points.now polygon.now tolerance }
{
    touching(points, polygon, Which::Greatest, tolerance)
}

// How far the polygon reaches into the part eroded by the tolerance; less than 0 is clear by so much.
pub fn penetration(points: &[f64], polygon: &[f64], tolerance: f64) -> Result<Option<f64>, Refusal>
    ensures { paper_of result ≡ penetration_of points.now polygon.now tolerance }
{
    touching(points, polygon, Which::Least, tolerance)
}

// The radius of the part eroded by the tolerance at u; none where there is none.
pub fn eroded(points: &[f64], u: f64, tolerance: f64) -> Result<Option<f64>, Refusal>
    ensures { paper_of result ≡ eroded_of points.now u tolerance }
{
    let order = envelope::number_of(points);
    if order == OUTSIDE {
        return Err(Refusal::EnvelopeOutside);
    }
    if !(floats::is_usable(u) & is_tolerance(tolerance)) {
        return Err(Refusal::EnvelopeOutside);
    }
    let part = Outline::new(points, order, Which::Least);
    Ok(part.offset(floats::clean(tolerance), floats::clean(u)))
}
