// Arcs in a profile.
ghost use Rattle.profile.specs.Chords.{segments_of};
ghost use Rattle.turning.specs.Boundary.{HandsChords};

#[unsafe(no_mangle)]
pub extern "C" fn turning_segments(
    points: &[f64],
    tolerance: f64,
    segments: &mut [f64],
    count: &mut usize,
) -> u32
    ensures { HandsChords (segments_of points.now tolerance) result segments count }
{
    turning::turning_segments(points, tolerance, segments, count)
}
