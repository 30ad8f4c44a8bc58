// Arcs in a profile.
ghost use Rattle.std.specs.Prelude.{◌≡◌};
ghost use Rattle.profile.specs.Chords.{segments_of};
ghost use Rattle.turning.specs.Boundary.{HandsChords};

use crate::out::give;

pub fn turning_segments(
    points: &[f64],
    tolerance: f64,
    segments: &mut [f64],
    count: &mut usize,
) -> u32
    ensures { HandsChords (segments_of points.now tolerance) result segments count }
{
    let answer = profile::segments(points, tolerance, segments);
    give(answer, count)
}
