// The pieces in hand while a ring is cut, in a buffer with room for so many. Where there are more, one
// more than the room stands for their number.
ghost use Rattle.std.specs.Prelude.{◌≡◌, [], ◌∷◌, ◌*◌, ◌/◌, ◌≤◌, length};
ghost use Rattle.rings.specs.Ring.{kept, split, subtract};
ghost use Rattle.rings.specs.Store.{rings_of};
ghost use Rattle.rings.specs.Hand.{Holds, Grows, CutsAll};

use crate::{Ring, lent, shape};

// No more tests are counted: as many as 256 rings make with 256 pieces in hand.
const TEST_LIMIT: usize = 65536;

// The pieces left in hand, and how many tests of a piece against a ring were made.
#[derive(Clone, Copy)]
pub struct Cut {
    pub left: usize,
    pub tests: usize,
}

// One more piece in hand, if there is room for it.
fn push(hand: &mut [f64], n: usize, q: Ring) -> usize
    ensures { Grows hand.old n hand.new result (q ∷ []) }
{
    let room = hand.len() / 4;
    if room <= n {
        return room + 1;
    }
    lent::write_ring(hand, n, q);
    n + 1
}

// The same where the ring is not empty.
fn put(hand: &mut [f64], n: usize, q: Ring) -> usize
    ensures { Grows hand.old n hand.new result (kept q) }
{
    if shape::is_filled(q) {
        return push(hand, n, q);
    }
    n
}

// What the ring k leaves of the piece p, behind the n pieces in hand.
fn split_into(hand: &mut [f64], n: usize, p: Ring, k: Ring) -> usize
    ensures { Grows hand.old n hand.new result (split p k) }
{
    if shape::is_apart(p, k) {
        return push(hand, n, p);
    }
    let o = shape::overlap(p, k);
    let a = put(
        hand,
        n,
        Ring {
            z0: p.z0,
            z1: o.z0,
            r0: p.r0,
            r1: p.r1,
        },
    );
    let b = put(
        hand,
        a,
        Ring {
            z0: o.z1,
            z1: p.z1,
            r0: p.r0,
            r1: p.r1,
        },
    );
    let c = put(
        hand,
        b,
        Ring {
            z0: o.z0,
            z1: o.z1,
            r0: p.r0,
            r1: o.r0,
        },
    );
    put(
        hand,
        c,
        Ring {
            z0: o.z0,
            z1: o.z1,
            r0: o.r1,
            r1: p.r1,
        },
    )
}

// What the ring k leaves of the n pieces of `hand`, in `next`.
fn subtract_one(hand: &[f64], n: usize, k: Ring, next: &mut [f64]) -> usize
    requires { 4 * n ≤ length hand.now }
    ensures { Grows next.old 0 next.new result (subtract (rings_of n hand.now) k) }
{
    let mut m: usize = 0;
    for i in 0..n {
        m = split_into(next, m, lent::ring_at(hand, i), k);
    }
    m
}

// The same, in hand. A ring that overlaps none of the pieces leaves all as they are.
fn cut_by<const N: usize>(hand: &mut [f64; N], n: usize, k: Ring, next: &mut [f64; N]) -> usize
    requires { n ≤ N / 4 }
    ensures { Holds (N / 4) hand.new result (subtract (rings_of n hand.old) k) }
{
    if lent::apart_from(hand, n, k) {
        return n;
    }
    let m = subtract_one(hand, n, k, next);
    if N / 4 < m {
        return m;
    }
    lent::copy_rings(next, m, hand, 0);
    m
}

// What the first `count` stored rings leave of the n pieces in hand, in hand. Each is tested against the
// pieces in hand before it.
fn subtract_all<const N: usize>(
    rings: &[f64],
    count: usize,
    hand: &mut [f64; N],
    n: usize,
    next: &mut [f64; N],
) -> Cut
    requires { (4 * count ≤ length rings.now) × (n ≤ N / 4) }
    ensures { CutsAll (N / 4) (rings_of n hand.old) (rings_of count rings.now) hand.new result }
{
    let mut m = n;
    let mut tests: usize = 0;
    for j in 0..count {
        tests = numbers::lesser(tests + m, TEST_LIMIT);
        m = cut_by(hand, m, lent::ring_at(rings, j), next);
        if N / 4 < m {
            return Cut { left: m, tests };
        }
    }
    Cut { left: m, tests }
}

// What the first `count` stored rings leave of the ring c, in hand.
pub fn cut_ring<const N: usize>(
    rings: &[f64],
    count: usize,
    c: Ring,
    hand: &mut [f64; N],
    next: &mut [f64; N],
) -> Cut
    requires { (4 * count ≤ length rings.now) × (4 ≤ N) }
    ensures { CutsAll (N / 4) (kept c) (rings_of count rings.now) hand.new result }
{
    let n = put(hand, 0, c);
    subtract_all(rings, count, hand, n, next)
}
