// What is left of a part, or of a bore's room, within a tolerance along u: the ends of the window from
// u - t to u + t are sampled, and every point's u strictly between them.
ghost use Rattle.std.specs.Prelude.{◌≡◌, true, ◌*◌, ◌+◌, ◌≤◌, length, take};
ghost use Rattle.insert.specs.Insert.{most_of, end_of, Looks, Bored, Held, HeldTo, bore_at, sample_at, both, with_inside, sampled_in, moved, moved_of, offset_of};
ghost use Rattle.insert.specs.declared.Which.TheVariants.{Least, Greatest};
ghost use Rattle.envelope.specs.Envelope.{u_at, span_of, points_good, order_of};

use super::{Which, chosen};
use envelope::Span;

// The points' order, and the ends of a bore: the greatest and the least u. They are 0 where no bore is asked.
#[derive(Clone, Copy)]
pub struct Look {
    pub order: i8,
    pub front: f64,
    pub deepest: f64,
}

// Accepted points that are sampled, a part by its least radii or a bore by its greatest. At the points' own u
// the samples may be held: those of the first points, put one after the other.
#[derive(Clone, Copy)]
pub struct Outline<'a> {
    pub points: &'a [f64],
    held: &'a [f64],
    look: Look,
    pub w: Which,
    ghost looks: { Looks w points.now look },
    ghost keeps: { Held w points.now held.now },
}

// The least or the greatest u of the points.
pub fn most(points: &[f64], w: Which) -> f64
    ensures { result ≡ most_of w points.now }
{
    let n = points.len() / 2;
    if n == 0 {
        return 0.0;
    }
    let mut found = floats::clean(points[0]);
    for i in 1..n {
        found = chosen(w, found, floats::clean(points[2 * i]));
    }
    found
}

// The order, and the ends of the bore where one is asked.
fn look_of(points: &[f64], order: i8, w: Which) -> Look
    ensures order { result.order ≡ order }
    ensures front { result.front ≡ end_of w (most_of Greatest points.now) }
    ensures deepest { result.deepest ≡ end_of w (most_of Least points.now) }
{
    match w {
        Which::Least => Look {
            order,
            front: 0.0,
            deepest: 0.0,
        },
        Which::Greatest => {
            let front = most(points, Which::Greatest);
            let deepest = most(points, Which::Least);
            Look {
                order,
                front,
                deepest,
            }
        }
    }
}

// The bore at u; nowhere where it is open.
fn bore_at(points: &[f64], l: Look, u: f64) -> Option<f64>
    requires { Bored points.now l }
    ensures { result ≡ bore_at points.now u }
{
    if points.len() / 2 == 0 {
        return None;
    }
    if l.front < u {
        return None;
    }
    if u < l.deepest {
        return Some(0.0);
    }
    Some(envelope::highest(points, l.order, u).unwrap_or(0.0))
}

// The least or the greatest of two samples; nowhere where one has none.
fn both(w: Which, a: Option<f64>, b: Option<f64>) -> Option<f64>
    ensures { result ≡ both w a b }
{
    Some(chosen(w, a?, b?))
}

// The first k that are held.
pub fn first(held: &[f64], k: usize) -> &[f64]
    ensures { result.now ≡ take k held.now }
{
    if held.len() < k {
        return held;
    }
    &held[..k]
}

fn moved(w: Which, t: f64, x: f64) -> f64
    ensures { result ≡ moved w t x }
{
    match w {
        Which::Least => x - t,
        Which::Greatest => x + t,
    }
}

impl<'a> Outline<'a> {
    // Nothing is held.
    pub fn new(points: &'a [f64], order: i8, w: Which) -> Outline<'a>
        requires { (points_good points.now ≡ true) × (order ≡ order_of points.now) }
        ensures { (result.points.now ≡ points.now) × (result.w ≡ w) }
    {
        Outline {
            points,
            held: first(points, 0),
            look: look_of(points, order, w),
            w,
        }
    }

    fn sample_at(&self, u: f64) -> Option<f64>
        ensures { result ≡ sample_at self.now.w self.now.points.now u }
    {
        match self.w {
            Which::Least => envelope::highest(self.points, self.look.order, u),
            Which::Greatest => bore_at(self.points, self.look, u),
        }
    }

    // The samples at the points' own u, put one after the other up to the first that has none: how many.
    pub fn hold(&self, held: &mut [f64]) -> usize
        ensures { HeldTo self.now.w self.now.points.now held.new result }
    {
        let n = held.len().min(self.points.len() / 2);
        for k in 0..n {
            let Some(x) = self.sample_at(floats::clean(self.points[2 * k])) else {
                return k;
            };
            held[k] = x;
        }
        n
    }

    // The same, with the first k of a list as what is held.
    pub fn with_held(&self, held: &'a [f64], k: usize) -> Outline<'a>
        requires { HeldTo self.now.w self.now.points.now held.now k }
        ensures { (result.points.now ≡ self.now.points.now) × (result.w ≡ self.now.w) }
    {
        Outline {
            points: self.points,
            held: first(held, k),
            look: self.look,
            w: self.w,
        }
    }

    // The sample at u, the own u of point i: read where it is held.
    fn own_sample(&self, i: usize, u: f64) -> Option<f64>
        requires { u ≡ u_at self.now.points.now i }
        ensures { result ≡ sample_at self.now.w self.now.points.now u }
    {
        if i < self.held.len() {
            return Some(self.held[i]);
        }
        self.sample_at(u)
    }

    // With point i, where it lies strictly inside the window.
    fn with_inside(&self, lo: f64, hi: f64, found: Option<f64>, i: usize) -> Option<f64>
        requires { 2 * i + 2 ≤ length self.now.points.now }
        ensures { result ≡ with_inside self.now.w self.now.points.now lo hi found (u_at self.now.points.now i) }
    {
        let u = floats::clean(self.points[2 * i]);
        if (lo < u) & (u < hi) {
            return both(self.w, found, self.own_sample(i, u));
        }
        found
    }

    // The points between lo and hi.
    pub fn span(&self, lo: f64, hi: f64) -> Span
        ensures ruled { result ≡ span_of self.now.points.now lo hi }
        ensures room { 2 * result.end ≤ length self.now.points.now }
    {
        envelope::span_over(self.points, self.look.order, lo, hi)
    }

    // The samples of the window from lo to hi.
    fn sampled(&self, lo: f64, hi: f64) -> Option<f64>
        ensures { result ≡ sampled_in self.now.w self.now.points.now lo hi (span_of self.now.points.now lo hi) }
    {
        let s = self.span(lo, hi);
        let start = s.start;
        let a = self.sample_at(lo);
        let b = self.sample_at(hi);
        let mut found = both(self.w, a, b);
        for i in start..s.end {
            found = self.with_inside(lo, hi, found, i);
        }
        found
    }

    // The part eroded by t at u, or the bore dilated by t.
    pub fn offset(&self, t: f64, u: f64) -> Option<f64>
        ensures { result ≡ offset_of self.now.w self.now.points.now t u }
    {
        Some(moved(self.w, t, self.sampled(u - t, u + t)?))
    }
}
