// The edges of a polygon, each from a point to the next and the last back to the first: the lowest or the
// highest at a u, over all edges that span it.
ghost use Rattle.std.specs.Prelude.{◌≡◌, ◌+◌, ◌*◌, ◌≤◌, length};
ghost use Rattle.insert.specs.Insert.{edge_at, further, edges_of};

use super::{Which, chosen};

// The edge from point i to point j at u.
fn edge_at(polygon: &[f64], w: Which, i: usize, j: usize, u: f64) -> Option<f64>
    requires { (2 * i + 2 ≤ length polygon.now) × (2 * j + 2 ≤ length polygon.now) }
    ensures { result ≡ edge_at w polygon.now i j u }
{
    let pu = floats::clean(polygon[2 * i]);
    let qu = floats::clean(polygon[2 * j]);
    if (u < floats::least(pu, qu)) | (floats::greatest(pu, qu) < u) {
        return None;
    }
    let pv = floats::clean(polygon[2 * i + 1]);
    let qv = floats::clean(polygon[2 * j + 1]);
    if qu == pu {
        return Some(chosen(w, pv, qv));
    }
    Some(pv + (u - pu) / (qu - pu) * (qv - pv))
}

// The least or the greatest of two, where there are two.
fn further(w: Which, a: Option<f64>, b: Option<f64>) -> Option<f64>
    ensures { result ≡ further w a b }
{
    let Some(x) = a else {
        return b;
    };
    let Some(y) = b else {
        return a;
    };
    Some(chosen(w, x, y))
}

// The lowest or the highest at u over all edges.
pub fn edges_at(polygon: &[f64], w: Which, u: f64) -> Option<f64>
    ensures { result ≡ edges_of w polygon.now u }
{
    let n = polygon.len() / 2;
    if n == 0 {
        return None;
    }
    let last = n - 1;
    let mut found = None;
    for i in 0..last {
        found = further(w, found, edge_at(polygon, w, i, i + 1, u));
    }
    further(w, found, edge_at(polygon, w, last, 0, u))
}
