// The candidates, where an insert is compared: each point of the envelope about the polygon, at its u and the
// tolerance beside it, and each point of the polygon, as the source has them. Between two of them more may
// be there (docs/INSERT.md).
ghost use Rattle.std.specs.Prelude.{◌≡◌};
ghost use Rattle.envelope.specs.Envelope.{count, span_of, higher};
ghost use Rattle.insert.specs.Insert.{beyond, touch_at, with_candidate, with_point, points_in, polygon_to};
ghost use Rattle.floats.specs.Numbers.{◌+₆₄◌, ◌-₆₄◌};

use super::Which;
use super::edges::edges_at;
use super::samples::Outline;
use refusals::ENVELOPE_LIMIT;

// The tolerance, and the least and the greatest u of the polygon.
#[derive(Clone, Copy)]
pub struct Trial {
    pub tolerance: f64,
    pub lo: f64,
    pub hi: f64,
}

// A polygon that is tried against an outline.
#[derive(Clone, Copy)]
pub struct Attempt<'a> {
    pub outline: Outline<'a>,
    pub polygon: &'a [f64],
    pub trial: Trial,
}

// How far the insert goes beyond: o is what is eroded or dilated, e the insert's edge.
fn beyond(w: Which, o: f64, e: f64) -> Option<f64>
    ensures { result ≡ beyond w (Some o) (Some e) }
{
    match w {
        Which::Least => if 0.0 < o { Some(o - e) } else { None },
        Which::Greatest => Some(e - o),
    }
}

impl<'a> Attempt<'a> {
    fn touch_at(&self, u: f64) -> Option<f64>
        ensures { result ≡ touch_at self.now.outline.w self.now.outline.points.now self.now.polygon.now self.now.trial.tolerance u }
    {
        let w = self.outline.w;
        let o = self.outline.offset(self.trial.tolerance, u)?;
        let e = edges_at(self.polygon, w, u)?;
        beyond(w, o, e)
    }

    fn with_candidate(&self, found: Option<f64>, u: f64) -> Option<f64>
        ensures { result ≡ with_candidate self.now.outline.w self.now.outline.points.now self.now.polygon.now self.now.trial found u }
    {
        let a = self.trial;
        if (a.lo <= u) & (u <= a.hi) {
            return envelope::higher(found, self.touch_at(u));
        }
        found
    }

    // Three candidates of a point of the envelope.
    fn with_point(&self, found: Option<f64>, u: f64) -> Option<f64>
        ensures { result ≡ with_point self.now.outline.w self.now.outline.points.now self.now.polygon.now self.now.trial found u }
    {
        let t = self.trial.tolerance;
        let before = self.with_candidate(found, u - t);
        let there = self.with_candidate(before, u);
        self.with_candidate(there, u + t)
    }

    // Over the points of the envelope about the polygon.
    fn over_points(&self) -> Option<f64>
        ensures { result ≡ polygon_to self.now.outline.w self.now.outline.points.now self.now.polygon.now self.now.trial 0 }
    {
        let a = self.trial;
        let points = self.outline.points;
        let s = self.outline.span(a.lo - a.tolerance, a.hi + a.tolerance);
        let start = s.start;
        let mut found = None;
        for i in start..s.end {
            found = self.with_point(found, floats::clean(points[2 * i]));
        }
        found
    }

    // Over all candidates.
    pub fn over_all(&self) -> Option<f64>
        ensures { result ≡ polygon_to self.now.outline.w self.now.outline.points.now self.now.polygon.now self.now.trial (count self.now.polygon.now) }
    {
        let n = self.polygon.len() / 2;
        let mut found = self.over_points();
        for i in 0..n {
            found = self.with_candidate(found, floats::clean(self.polygon[2 * i]));
        }
        found
    }

    // Over all candidates, with the samples at the points' own u held in a list.
    pub fn over_held(&self) -> Option<f64>
        ensures { result ≡ polygon_to self.now.outline.w self.now.outline.points.now self.now.polygon.now self.now.trial (count self.now.polygon.now) }
    {
        let mut room = [0.0f64; ENVELOPE_LIMIT];
        let k = self.outline.hold(&mut room);
        let held = Attempt {
            outline: self.outline.with_held(&room, k),
            polygon: self.polygon,
            trial: self.trial,
        };
        held.over_all()
    }
}
