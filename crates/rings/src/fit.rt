// What refusal 4 asks of the stored rings: each fits, and no two overlap.
//
// A box is kept about each block of 16 rings, so that a ring which is apart from the box is found apart
// from the whole block at once. Rings that come in no order make boxes about all: a sweep is tried
// first (`swept`).
ghost use Rattle.std.specs.Prelude.{◌≡◌, true, ◌+◌, ◌*◌, ◌/◌, ◌≤◌, min, length};
ghost use Rattle.rings.specs.Store.{rings_of, ring_fits, apart_all, store_fits, count_fits};
ghost use Rattle.rings.specs.Swept.{Each};
ghost use Rattle.rings.specs.Block.{box_with, boxes_with, BoxAbout, Boxed};

use crate::lent::Stored;
use crate::{Ring, lent, shape, swept};

// So many rings have one box about them.
const BLOCK: usize = 16;

// Not empty, within the extent e, no edge -0.0.
fn ring_fits(e: Ring, q: Ring) -> bool
    ensures { result ≡ ring_fits e q }
{
    (e.z0 <= q.z0)
        & (q.z0 < q.z1)
        & (q.z1 <= e.z1)
        & (e.r0 <= q.r0)
        & (q.r0 < q.r1)
        & (q.r1 <= e.r1)
        & !floats::is_minus_zero(q.z0)
        & !floats::is_minus_zero(q.z1)
        & !floats::is_minus_zero(q.r0)
        & !floats::is_minus_zero(q.r1)
}

// The box about the box b and the ring q, or about q alone where it is the first.
fn widened(first: bool, b: Ring, q: Ring) -> Ring
    ensures { result ≡ box_with first b q }
{
    if first {
        return q;
    }
    Ring {
        z0: floats::least(b.z0, q.z0),
        z1: floats::greatest(b.z1, q.z1),
        r0: floats::least(b.r0, q.r0),
        r1: floats::greatest(b.r1, q.r1),
    }
}

// The box of a block widened about its next ring, the ring i.
fn widen(boxes: &mut [f64], i: usize, q: Ring)
    requires { 4 * (i / 16) + 4 ≤ length boxes.old }
    ensures { boxes.new ≡ boxes_with boxes.old i q }
{
    let at = i / BLOCK;
    let b = widened(i % BLOCK == 0, lent::ring_at(boxes, at), q);
    lent::write_ring(boxes, at, b);
}

// As `apart_on`, where b is a box about the rings from..to: at once, if k is apart from the box.
fn apart_block(rings: &[f64], from: usize, to: usize, b: Ring, k: Ring, before: bool) -> bool
    requires { (from ≤ to) × (4 * to ≤ length rings.now) }
    ensures { before ≡ apart_all (rings_of from rings.now) k → BoxAbout b rings.now from to → result ≡ apart_all (rings_of to rings.now) k }
{
    if shape::is_apart(b, k) {
        return before;
    }
    lent::apart_on(rings, from, to, k, before)
}

// As `apart_from`, block by block.
fn apart_blocks(rings: &[f64], n: usize, boxes: &[f64], k: Ring) -> bool
    requires { (4 * n ≤ length rings.now) × (n ≤ 256) × (length boxes.now ≡ 64) }
    ensures { Boxed boxes.now rings.now n → result ≡ apart_all (rings_of n rings.now) k }
{
    let mut ok = true;
    for at in 0..n.div_ceil(BLOCK) {
        let from = BLOCK * at;
        let to = numbers::lesser(from + BLOCK, n);
        ok = apart_block(rings, from, to, lent::ring_at(boxes, at), k, ok);
    }
    ok
}

// Each of the first n rings fits, and no two overlap.
fn store_fits(e: Ring, rings: &[f64], n: usize) -> bool
    requires { (4 * n ≤ length rings.now) × (n ≤ 256) }
    ensures { result ≡ store_fits e (rings_of n rings.now) }
{
    let mut boxes = [0.0f64; 64];
    let mut ok = true;
    for i in 0..n {
        let q = lent::ring_at(rings, i);
        ok = ok & ring_fits(e, q) & apart_blocks(rings, i, &boxes, q);
        widen(&mut boxes, i, q);
    }
    ok
}

// z0 falls nowhere from one of every eight rings to the next.
fn rises(stored: Stored) -> bool {
    let mut i: usize = 8;
    while i < stored.n {
        if stored.at(i).z0 < stored.at(i - 8).z0 {
            return false;
        }
        i += 8;
    }
    true
}

// Each of the rings fits.
fn all_fit(e: Ring, stored: Stored) -> bool
    ensures { result ≡ true → Each e stored.entry.rings.now stored.entry.n }
{
    let mut ok = true;
    for i in 0..stored.n {
        ok = ok & ring_fits(e, stored.at(i));
    }
    ok
}

// Of rings that come in no order: a sweep finds that they are as `store_fits` asks.
fn sweep_fits(e: Ring, stored: Stored) -> bool
    ensures { result ≡ true → store_fits e (rings_of stored.entry.n stored.entry.rings.now) ≡ true }
{
    if stored.n <= BLOCK {
        return false;
    }
    if rises(stored) {
        return false;
    }
    let fits = all_fit(e, stored);
    fits & swept::is_clear(e, stored)
}

// What refusal 4 asks of the store.
pub fn count_fits(e: Ring, rings: &[f64], count: usize) -> bool
    ensures { result ≡ count_fits e rings.now count }
{
    if lent::room_of(rings.len()) < count {
        return false;
    }
    let stored = Stored { rings, n: count };
    if sweep_fits(e, stored) {
        return true;
    }
    store_fits(e, rings, count)
}
