// Whether an insert touches: excess, penetration, and the eroded part.
ghost use Rattle.insert.specs.Insert.{excess_of, penetration_of, eroded_of};
ghost use Rattle.turning.specs.Boundary.{HandsFound};

#[unsafe(no_mangle)]
pub extern "C" fn turning_excess(
    points: &[f64],
    polygon: &[f64],
    tolerance: f64,
    found: &mut u32,
    by: &mut f64,
) -> u32
    ensures { HandsFound (excess_of points.now polygon.now tolerance) result found by }
{
    turning::turning_excess(points, polygon, tolerance, found, by)
}

#[unsafe(no_mangle)]
pub extern "C" fn turning_penetration(
    points: &[f64],
    polygon: &[f64],
    tolerance: f64,
    found: &mut u32,
    by: &mut f64,
) -> u32
    ensures { HandsFound (penetration_of points.now polygon.now tolerance) result found by }
{
    turning::turning_penetration(points, polygon, tolerance, found, by)
}

#[unsafe(no_mangle)]
pub extern "C" fn turning_eroded(
    points: &[f64],
    u: f64,
    tolerance: f64,
    found: &mut u32,
    radius: &mut f64,
) -> u32
    ensures { HandsFound (eroded_of points.now u tolerance) result found radius }
{
    turning::turning_eroded(points, u, tolerance, found, radius)
}
