// The envelope of a profile.
ghost use Rattle.std.specs.Prelude.{◌≡◌, ◌-◌};
ghost use Rattle.refusals.specs.Number.{paper_of};
ghost use Rattle.envelope.specs.declared.Span.{Span};
ghost use Rattle.envelope.specs.declared.Radii.{Radii};
ghost use Rattle.envelope.specs.Envelope.{ordered_of, within_of, radius_at_of, radius_range_of};
ghost use Rattle.turning.specs.Boundary.{Hands, HandsTwo, HandsFound, HandsFoundTwo};

use crate::out::{give, give_found};
use envelope::{Radii, Span};
use refusals::Refusal;

pub fn turning_envelope_order(points: &[f64], order: &mut i32) -> u32
    ensures { Hands (ordered_of points.now) result order }
{
    give(envelope::order_of(points).map(i32::from), order)
}

// The first point of a part and how many there are, or the number of the refusal.
fn give_part(answer: Result<Span, Refusal>, first: &mut usize, count: &mut usize) -> u32
    ensures { HandsTwo (λ (s : Span). s.start) (λ (s : Span). s.end - s.start) (paper_of answer) result first
        count }
{
    match answer {
        Err(r) => refusals::number(r),
        Ok(s) => {
            *first = s.start;
            *count = s.many();
            0
        }
    }
}

pub fn turning_within(points: &[f64], lo: f64, hi: f64, first: &mut usize, count: &mut usize) -> u32
    ensures { HandsTwo (λ (s : Span). s.start) (λ (s : Span). s.end - s.start)
        (within_of points.now lo hi) result first count }
{
    give_part(envelope::within_span(points, lo, hi), first, count)
}

pub fn turning_radius_at(points: &[f64], u: f64, found: &mut u32, radius: &mut f64) -> u32
    ensures { HandsFound (radius_at_of points.now u) result found radius }
{
    give_found(envelope::radius_at(points, u), found, radius)
}

// The lowest and the highest radius if there is one, or the number of the refusal.
fn give_range(
    answer: Result<Option<Radii>, Refusal>,
    found: &mut u32,
    lowest: &mut f64,
    highest: &mut f64,
) -> u32
    ensures { HandsFoundTwo (λ (a : Radii). a.lowest) (λ (a : Radii). a.highest) (paper_of answer) result
        found lowest highest }
{
    match answer {
        Err(r) => refusals::number(r),
        Ok(None) => {
            *found = 0;
            0
        }
        Ok(Some(r)) => {
            *found = 1;
            *lowest = r.lowest;
            *highest = r.highest;
            0
        }
    }
}

pub fn turning_radius_range(
    points: &[f64],
    lo: f64,
    hi: f64,
    found: &mut u32,
    lowest: &mut f64,
    highest: &mut f64,
) -> u32
    ensures { HandsFoundTwo (λ (a : Radii). a.lowest) (λ (a : Radii). a.highest)
        (radius_range_of points.now lo hi) result found lowest highest }
{
    give_range(
        envelope::radius_range(points, lo, hi),
        found,
        lowest,
        highest,
    )
}
