// Rings in lent memory, four numbers each: read, written, and compared with one.
ghost use Rattle.std.specs.Prelude.{◌≡◌, ◌++◌, ◌+◌, ◌*◌, ◌≤◌, ◌<◌, length};
ghost use Rattle.rings.specs.Store.{ring_at, rings_of, room_for_rings, store_as, write, apart_all};

use crate::{Ring, shape};
use refusals::RING_LIMIT;

// So many rings at the front of lent numbers, as a store holds them.
#[derive(Clone, Copy)]
pub struct Stored<'a> {
    pub rings: &'a [f64],
    pub n: usize,
    pub ghost lent: { 4 * n ≤ length rings.now },
    pub ghost few: { n ≤ 256 },
}

impl<'a> Stored<'a> {
    pub fn at(self, i: usize) -> Ring
        requires { i < self.n }
        ensures { result ≡ ring_at self.entry.rings.now i }
    {
        ring_at(self.rings, i)
    }
}

pub fn ring_at(rings: &[f64], i: usize) -> Ring
    requires { 4 * i + 4 ≤ length rings.now }
    ensures { result ≡ ring_at rings.now i }
{
    let at = 4 * i;
    Ring {
        z0: rings[at],
        z1: rings[at + 1],
        r0: rings[at + 2],
        r1: rings[at + 3],
    }
}

pub fn write_ring(rings: &mut [f64], i: usize, q: Ring)
    requires { 4 * i + 4 ≤ length rings.old }
    ensures { rings.new ≡ write rings.old i q }
{
    let at = 4 * i;
    rings[at] = q.z0;
    rings[at + 1] = q.z1;
    rings[at + 2] = q.r0;
    rings[at + 3] = q.r1;
}

// The first n rings of `from`, behind the first `at` rings of `to`.
pub fn copy_rings(from: &[f64], n: usize, to: &mut [f64], at: usize)
    requires { (4 * n ≤ length from.now) × (4 * (at + n) ≤ length to.old) }
    ensures { to.new ≡ store_as to.old (rings_of at to.old ++ rings_of n from.now) }
{
    for i in 0..n {
        write_ring(to, at + i, ring_at(from, i));
    }
}

// None of the rings from..to overlaps k, nor one before them.
pub fn apart_on(rings: &[f64], from: usize, to: usize, k: Ring, before: bool) -> bool
    requires { (from ≤ to) × (4 * to ≤ length rings.now) }
    ensures { before ≡ apart_all (rings_of from rings.now) k → result ≡ apart_all (rings_of to rings.now) k }
{
    let mut ok = before;
    for j in from..to {
        ok = ok & shape::is_apart(ring_at(rings, j), k);
    }
    ok
}

// None of the first n rings overlaps k.
pub fn apart_from(rings: &[f64], n: usize, k: Ring) -> bool
    requires { 4 * n ≤ length rings.now }
    ensures { result ≡ apart_all (rings_of n rings.now) k }
{
    apart_on(rings, 0, n, k, true)
}

// How many rings so many lent numbers have room for.
pub fn room_of(len: usize) -> usize
    ensures { result ≡ room_for_rings len }
{
    (len / 4).min(RING_LIMIT)
}
