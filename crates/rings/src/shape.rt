// One ring and two: empty, finite, apart, what they have in common.
ghost use Rattle.std.specs.Prelude.{◌≡◌};
ghost use Rattle.std.specs.Float.Ieee.Scale.{finite};
ghost use Rattle.rings.specs.Ring.{filled, apart, common, clip};
ghost use Rattle.rings.specs.Store.{finite_ring};

use crate::Ring;

pub fn is_filled(q: Ring) -> bool
    ensures { result ≡ filled q }
{
    (q.z0 < q.z1) & (q.r0 < q.r1)
}

// One ends where the other starts, or before it, in z or in r.
pub fn is_apart(p: Ring, k: Ring) -> bool
    ensures { result ≡ apart p k }
{
    (p.z1 <= k.z0) | (k.z1 <= p.z0) | (p.r1 <= k.r0) | (k.r1 <= p.r0)
}

pub fn overlap(p: Ring, k: Ring) -> Ring
    ensures { result ≡ common p k }
{
    Ring {
        z0: floats::greatest(p.z0, k.z0),
        z1: floats::least(p.z1, k.z1),
        r0: floats::greatest(p.r0, k.r0),
        r1: floats::least(p.r1, k.r1),
    }
}

// The ring within the extent e, -0.0 read as +0.0.
pub fn clipped(e: Ring, q: Ring) -> Ring
    ensures { result ≡ clip e q }
{
    overlap(
        Ring {
            z0: floats::clean(q.z0),
            z1: floats::clean(q.z1),
            r0: floats::clean(q.r0),
            r1: floats::clean(q.r1),
        },
        e,
    )
}

fn is_finite(x: f64) -> bool
    ensures { result ≡ finite x }
{
    let d = x - x;
    d == d
}

pub fn is_finite_ring(q: Ring) -> bool
    ensures { result ≡ finite_ring q }
{
    is_finite(q.z0) & is_finite(q.z1) & is_finite(q.r0) & is_finite(q.r1)
}
