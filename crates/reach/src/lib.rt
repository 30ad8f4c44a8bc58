// What a cut reaches in a bin, and how a cell takes it.
//
// A cut goes deeper into a surface: outside towards the axis, inside away from it. Of a surface's
// two bounds the deep one says how deep it may lie (outer.lower, inner.upper), the sure one how
// deep it lies at least (outer.upper, inner.lower). What a cut reaches in a bin is worked out
// without looking at the cell. Floor and ceiling belong to the update, which is one for every kind
// of cut and for both sides.
#![tactic(auto, unfolding(crate::specs::Low::lower_of, crate::specs::Low::upper_of, crate::specs::Reach::low_of, crate::specs::Reach::deeper, crate::specs::Reach::shallower, crate::specs::Reach::deep_of, crate::specs::Reach::sure_of, crate::specs::Reach::limit_of, crate::specs::Reach::with_pair, crate::specs::Reach::own_of, crate::specs::Reach::cut_by, crate::specs::Reach::cut_cell, crate::specs::Reach::flipped, crate::specs::Reach::stored_of, crate::specs::Reach::reach_from))]

ghost use Rattle.std.specs.Prelude.{◌≡◌};
ghost use Rattle.reach.specs.Low.{lower_of, upper_of};
ghost use Rattle.reach.specs.Reach.{deeper, shallower, deep_of, sure_of, limit_of, with_pair, cut_cell, flipped, stored_of, reach_from, low_of};

use stock::{RadiusBounds, TurnCell, TurnSide};

// The lowest radius over a bin and the highest, where there is one.
#[derive(Clone, Copy)]
pub struct Swept {
    pub low: Option<f64>,
    pub high: Option<f64>,
}

// What a cut reaches in a bin, before floor or ceiling: the bin is passed over; a low only; a low and a
// high. The low is for the deep bound and the high for the sure one, inside too, where the low is the
// greater radius.
#[derive(Clone, Copy)]
pub enum Reach {
    Passed,
    Low(f64),
    Both(f64, f64),
}

// The lesser of two radii, where there is one.
pub fn lower(a: Option<f64>, b: Option<f64>) -> Option<f64>
    ensures { result ≡ lower_of a b }
{
    let Some(x) = a else {
        return b;
    };
    let Some(y) = b else {
        return a;
    };
    Some(floats::least(x, y))
}

// The greater of two radii, where both are there.
pub fn upper(a: Option<f64>, b: Option<f64>) -> Option<f64>
    ensures { result ≡ upper_of a b }
{
    let x = a?;
    let y = b?;
    Some(floats::greatest(x, y))
}

// Radii are negated for the inside, so that one rule serves both sides.
pub fn flip(side: TurnSide, r: f64) -> f64
    ensures { result ≡ flipped side r }
{
    match side {
        TurnSide::Outer => r,
        TurnSide::Inner => -r,
    }
}

// A radius that was worked out for the outside, negated back for the inside, and never -0.0.
fn stored(side: TurnSide, x: f64) -> f64
    ensures { result ≡ stored_of side x }
{
    match side {
        TurnSide::Outer => floats::clean(x),
        TurnSide::Inner => floats::clean(-x),
    }
}

// The reach of a low and a high that were worked out for the outside.
pub fn reach_from(side: TurnSide, low: Option<f64>, high: Option<f64>) -> Reach
    ensures { result ≡ reach_from side low high }
{
    let Some(x) = low else {
        return Reach::Passed;
    };
    let Some(y) = high else {
        return Reach::Low(stored(side, x));
    };
    Reach::Both(stored(side, x), stored(side, y))
}

// The low of a reach, if the bin is not passed over.
pub fn low_of(reach: Reach) -> Option<f64>
    ensures { result ≡ low_of reach }
{
    match reach {
        Reach::Passed => None,
        Reach::Low(x) => Some(x),
        Reach::Both(x, _) => Some(x),
    }
}

// Of two radii, the deeper one.
fn deeper(side: TurnSide, a: f64, b: f64) -> f64
    ensures { result ≡ deeper side a b }
{
    match side {
        TurnSide::Outer => floats::least(a, b),
        TurnSide::Inner => floats::greatest(a, b),
    }
}

// Of two radii, the less deep one.
fn shallower(side: TurnSide, a: f64, b: f64) -> f64
    ensures { result ≡ shallower side a b }
{
    match side {
        TurnSide::Outer => floats::greatest(a, b),
        TurnSide::Inner => floats::least(a, b),
    }
}

// How deep the surface may lie.
fn deep_of(side: TurnSide, c: TurnCell) -> f64
    ensures { result ≡ deep_of side c }
{
    match side {
        TurnSide::Outer => c.outer.lower_mm,
        TurnSide::Inner => c.inner.upper_mm,
    }
}

// How deep the surface lies at least.
fn sure_of(side: TurnSide, c: TurnCell) -> f64
    ensures { result ≡ sure_of side c }
{
    match side {
        TurnSide::Outer => c.outer.upper_mm,
        TurnSide::Inner => c.inner.lower_mm,
    }
}

// The floor outside, the ceiling inside.
fn limit_of(side: TurnSide, c: TurnCell) -> f64
    ensures { result ≡ limit_of side c }
{
    match side {
        TurnSide::Outer => c.inner.lower_mm,
        TurnSide::Inner => c.outer.upper_mm,
    }
}

// The cell with these two bounds on a side.
fn with_pair(side: TurnSide, deep: f64, sure: f64, c: TurnCell) -> TurnCell
    ensures { result ≡ with_pair side deep sure c }
{
    match side {
        TurnSide::Outer => {
            let inner = c.inner;
            TurnCell {
                outer: RadiusBounds {
                    lower_mm: deep,
                    upper_mm: sure,
                },
                inner,
            }
        }
        TurnSide::Inner => {
            let outer = c.outer;
            TurnCell {
                outer,
                inner: RadiusBounds {
                    lower_mm: sure,
                    upper_mm: deep,
                },
            }
        }
    }
}

// The cell after a cut that reaches so far in its bin.
pub fn cut_cell(side: TurnSide, c: TurnCell, reach: Reach) -> TurnCell
    ensures { result ≡ cut_cell side c reach }
{
    let limit = limit_of(side, c);
    let d0 = deep_of(side, c);
    let s0 = sure_of(side, c);
    match reach {
        Reach::Passed => c,
        Reach::Low(x) => {
            let own = shallower(side, x, limit);
            let d = deeper(side, d0, own);
            with_pair(side, d, s0, c)
        }
        Reach::Both(x, y) => {
            let own_low = shallower(side, x, limit);
            let own_high = shallower(side, y, limit);
            let s = deeper(side, s0, own_high);
            let d1 = deeper(side, d0, own_low);
            let d = deeper(side, d1, s);
            with_pair(side, d, s, c)
        }
    }
}
