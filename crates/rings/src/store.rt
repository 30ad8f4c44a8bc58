// A clipped ring added to the store: what the stored rings leave of it, behind them.
ghost use Rattle.std.specs.Prelude.{◌++◌, ◌+◌, ◌*◌, ◌≤◌, leb, length};
ghost use Rattle.refusals.specs.Paper.{answers, demand};
ghost use Rattle.rings.specs.Ring.{kept};
ghost use Rattle.rings.specs.Store.{rings_of};
ghost use Rattle.rings.specs.Remove.{added};
ghost use Rattle.rings.specs.Tests.{tests_of};
ghost use Rattle.rings.specs.Counted.{Adds};

use crate::{Added, Ring, hand, lent, shape};
use refusals::{PIECE_LIMIT, Refusal};

// So many pieces in hand are enough for most rings.
const FEW: usize = 16;

// The first n pieces in hand, which took so many tests, stored behind the first `count` rings; 11 where
// the room is passed.
fn store_pieces(
    rings: &mut [f64],
    room: usize,
    count: usize,
    hand: &[f64],
    n: usize,
    tests: usize,
) -> Result<Added, Refusal>
    requires { (4 * n ≤ length hand.now) × (4 * room ≤ length rings.old) × (count ≤ 256) × (n ≤ 256) }
    ensures { Adds rings.old (demand (leb (count + n) room) 11 (answers (rings_of count rings.old ++ rings_of n hand.now))) tests result rings.new }
{
    if room < count + n {
        return Err(Refusal::RingsOverRoom);
    }
    lent::copy_rings(hand, n, rings, count);
    Ok(Added {
        rings: count + n,
        tests,
    })
}

// What all stored rings leave of a ring, behind them, with room for 256 pieces in hand.
fn add_pieces(rings: &mut [f64], room: usize, count: usize, c: Ring) -> Result<Added, Refusal>
    requires { (count ≤ room) × (4 * room ≤ length rings.old) × (room ≤ 256) }
    ensures { Adds rings.old (added room (rings_of count rings.old) c) (tests_of (kept c) (rings_of count rings.old)) result rings.new }
{
    let mut hand = [0.0f64; 1024];
    let mut next = [0.0f64; 1024];
    let cut = hand::cut_ring(rings, count, c, &mut hand, &mut next);
    if PIECE_LIMIT < cut.left {
        return Err(Refusal::RingsOverRoom);
    }
    store_pieces(rings, room, count, &hand, cut.left, cut.tests)
}

// The same with room for a few, which is quick to set up, and for all where that is too little.
fn add_few_pieces(rings: &mut [f64], room: usize, count: usize, c: Ring) -> Result<Added, Refusal>
    requires { (count ≤ room) × (4 * room ≤ length rings.old) × (room ≤ 256) }
    ensures { Adds rings.old (added room (rings_of count rings.old) c) (tests_of (kept c) (rings_of count rings.old)) result rings.new }
{
    let mut hand = [0.0f64; 64];
    let mut next = [0.0f64; 64];
    let cut = hand::cut_ring(rings, count, c, &mut hand, &mut next);
    if FEW < cut.left {
        return add_pieces(rings, room, count, c);
    }
    store_pieces(rings, room, count, &hand, cut.left, cut.tests)
}

// The clipped ring c, added to the first `count` rings of the store, and the tests that it took; 11. Where
// all are apart from it, it is one piece before each of them.
pub fn add_ring(rings: &mut [f64], room: usize, count: usize, c: Ring) -> Result<Added, Refusal>
    requires { (count ≤ room) × (4 * room ≤ length rings.old) × (room ≤ 256) }
    ensures { Adds rings.old (added room (rings_of count rings.old) c) (tests_of (kept c) (rings_of count rings.old)) result rings.new }
{
    if !shape::is_filled(c) {
        return Ok(Added {
            rings: count,
            tests: 0,
        });
    }
    if !lent::apart_from(rings, count, c) {
        return add_few_pieces(rings, room, count, c);
    }
    if room <= count {
        return Err(Refusal::RingsOverRoom);
    }
    lent::write_ring(rings, count, c);
    Ok(Added {
        rings: count + 1,
        tests: count,
    })
}
