// Whether an insert touches: excess, penetration, and the eroded part.
ghost use Rattle.std.specs.Prelude.{◌≡◌};
ghost use Rattle.insert.specs.Insert.{excess_of, penetration_of, eroded_of};
ghost use Rattle.turning.specs.Boundary.{HandsFound};

use crate::out::give_found;

pub fn turning_excess(
    points: &[f64],
    polygon: &[f64],
    tolerance: f64,
    found: &mut u32,
    by: &mut f64,
) -> u32
    ensures { HandsFound (excess_of points.now polygon.now tolerance) result found by }
{
    give_found(insert::excess(points, polygon, tolerance), found, by)
}

pub fn turning_penetration(
    points: &[f64],
    polygon: &[f64],
    tolerance: f64,
    found: &mut u32,
    by: &mut f64,
) -> u32
    ensures { HandsFound (penetration_of points.now polygon.now tolerance) result found by }
{
    give_found(insert::penetration(points, polygon, tolerance), found, by)
}

pub fn turning_eroded(
    points: &[f64],
    u: f64,
    tolerance: f64,
    found: &mut u32,
    radius: &mut f64,
) -> u32
    ensures { HandsFound (eroded_of points.now u tolerance) result found radius }
{
    give_found(insert::eroded(points, u, tolerance), found, radius)
}
