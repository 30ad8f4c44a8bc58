// The envelope of a profile.
ghost use Rattle.std.specs.Prelude.{◌-◌};
ghost use Rattle.envelope.specs.declared.Span.{Span};
ghost use Rattle.envelope.specs.declared.Radii.{Radii};
ghost use Rattle.envelope.specs.Envelope.{ordered_of, within_of, radius_at_of, radius_range_of};
ghost use Rattle.turning.specs.Boundary.{Hands, HandsTwo, HandsFound, HandsFoundTwo};

#[unsafe(no_mangle)]
pub extern "C" fn turning_envelope_order(points: &[f64], order: &mut i32) -> u32
    ensures { Hands (ordered_of points.now) result order }
{
    turning::turning_envelope_order(points, order)
}

#[unsafe(no_mangle)]
pub extern "C" fn turning_within(
    points: &[f64],
    lo: f64,
    hi: f64,
    first: &mut usize,
    count: &mut usize,
) -> u32
    ensures { HandsTwo (λ (s : Span). s.start) (λ (s : Span). s.end - s.start)
        (within_of points.now lo hi) result first count }
{
    turning::turning_within(points, lo, hi, first, count)
}

#[unsafe(no_mangle)]
pub extern "C" fn turning_radius_at(
    points: &[f64],
    u: f64,
    found: &mut u32,
    radius: &mut f64,
) -> u32
    ensures { HandsFound (radius_at_of points.now u) result found radius }
{
    turning::turning_radius_at(points, u, found, radius)
}

#[unsafe(no_mangle)]
pub extern "C" fn turning_radius_range(
    points: &[f64],
    lo: f64,
    hi: f64,
    found: &mut u32,
    lowest: &mut f64,
    highest: &mut f64,
) -> u32
    ensures { HandsFoundTwo (λ (a : Radii). a.lowest) (λ (a : Radii). a.highest)
        (radius_range_of points.now lo hi) result found lowest highest }
{
    turning::turning_radius_range(points, lo, hi, found, lowest, highest)
}
