// Rings taken from the inside of a stock, as a face groove takes them: a store of which no two share a
// point.
//
// A ring is what a half-open rectangle sweeps about the axis: z0 <= z < z1, r0 <= r < r1. A new ring is
// clipped to the stock's extent, z_min..z_max and 0..outer. Each stored ring then leaves of every piece
// in hand the parts about it: before it and behind it in z, inside it and outside it in r. What all of
// them leave is stored behind them, and nothing else. Rings are lent flat, four numbers each.
#![tactic(auto)]

ghost use Rattle.std.specs.Prelude.{◌≡◌, ◌*◌, ◌/◌, ◌≤◌, length};
ghost use Rattle.refusals.specs.Paper.{place_or};
ghost use Rattle.stock.specs.Spec.{clean_spec};
ghost use Rattle.rings.specs.Store.{bar_ring, rings_of, count_fits, bad_from, bad_ring, all_good, raised_by};
ghost use Rattle.rings.specs.Remove.{StoresAs, remove_all_in, remove_rings, remove_ring, Removes, left_of, LeavesOf};
ghost use Rattle.rings.specs.Tests.{ring_tests, list_tests_in, list_tests};
ghost use Rattle.rings.specs.Counted.{TakesOne, TakesFrom};

use refusals::{LAST_GENERATION, PIECE_LIMIT, Refusal, Refused};
use stock::{TurnStock, TurnStockSpec};

mod fit;
mod hand;
mod lent;
mod shape;
mod store;
mod swept;

// z0 <= z < z1, r0 <= r < r1.
#[derive(Clone, Copy)]
pub struct Ring {
    pub z0: f64,
    pub z1: f64,
    pub r0: f64,
    pub r1: f64,
}

// Rings taken: the count of rings and the generation afterwards.
#[derive(Clone, Copy)]
pub struct RingCount {
    pub rings: usize,
    pub generation: u64,
}

// One ring taken: the stock afterwards, and the tests of a piece against a stored ring that it took.
#[derive(Clone, Copy)]
pub struct Removed {
    pub stock: TurnStock,
    pub tests: usize,
}

// One ring taken: the count of rings and the generation afterwards, and the tests that it took.
#[derive(Clone, Copy)]
struct Took {
    rings: usize,
    generation: u64,
    tests: usize,
}

// A clipped ring stored: how many rings there are then, and the tests that it took.
#[derive(Clone, Copy)]
struct Added {
    rings: usize,
    tests: usize,
}

// z_min..z_max and 0..outer, -0.0 read as +0.0.
fn extent(spec: TurnStockSpec) -> Ring
    ensures { result ≡ bar_ring (clean_spec spec) }
{
    let s = stock::clean_spec(spec);
    Ring {
        z0: s.z_min_mm,
        z1: s.z_max_mm,
        r0: 0.0,
        r1: s.outer_radius_mm,
    }
}

// What refusal 4 asks of the stored rings, in a stock whose spec is checked already.
pub fn rings_fit(spec: TurnStockSpec, rings: &[f64], count: usize) -> bool
    ensures { result ≡ count_fits (bar_ring (clean_spec spec)) rings.now count }
{
    fit::count_fits(extent(spec), rings, count)
}

// A ring within the extent e; 4, 10, 12, 11.
fn remove_in(
    e: Ring,
    rings: &mut [f64],
    count: usize,
    generation: u64,
    ring: Ring,
) -> Result<Took, Refused>
    ensures { TakesOne e rings.old count generation ring result rings.new }
{
    if !fit::count_fits(e, rings, count) {
        return Err(Refused::from(Refusal::StoredRings));
    }
    if !shape::is_finite_ring(ring) {
        return Err(Refused::at(Refusal::RingOutside, 0));
    }
    let c = shape::clipped(e, ring);
    if !shape::is_filled(c) {
        return Ok(Took {
            rings: count,
            generation,
            tests: 0,
        });
    }
    if LAST_GENERATION <= generation {
        return Err(Refused::from(Refusal::GenerationsSpent));
    }
    let added = store::add_ring(rings, lent::room_of(rings.len()), count, c)?;
    Ok(Took {
        rings: added.rings,
        generation: generation + 1,
        tests: added.tests,
    })
}

// A ring of a stock by its spec; 1, 2, 4, 10, 12, 11.
fn remove_from(
    spec: TurnStockSpec,
    rings: &mut [f64],
    count: usize,
    generation: u64,
    ring: Ring,
) -> Result<Took, Refused>
    ensures { TakesFrom spec rings.old count generation ring result rings.new }
{
    stock::validate(spec)?;
    remove_in(extent(spec), rings, count, generation, ring)
}

// A ring certainly removed inside the material: the stock afterwards, and the tests that it took; 1, 2,
// 4, 10, 12, 11.
pub fn remove_ring(stock: TurnStock, rings: &mut [f64], ring: Ring) -> Result<Removed, Refused>
    ensures { Removes stock rings.old
        (remove_ring stock.spec rings.old stock.rings stock.stamp.generation ring)
        (ring_tests stock.spec rings.old stock.rings ring) result rings.new }
{
    let took = remove_from(stock.spec, rings, stock.rings, stock.stamp.generation, ring)?;
    Ok(Removed {
        stock: stock::stock_with(stock, took.rings, took.generation),
        tests: took.tests,
    })
}

// All within the extent e, one after the other, decided before anything is written; 4, 11.
fn remove_all_in(
    e: Ring,
    rings: &mut [f64],
    count: usize,
    removed: &[f64],
) -> Result<usize, Refused>
    ensures { StoresAs rings.old (remove_all_in e rings.old count removed.now) result rings.new }
{
    let room = lent::room_of(rings.len());
    if room < count {
        return Err(Refused::from(Refusal::StoredRings));
    }
    let k = removed.len() / 4;
    if k == 0 {
        return Ok(count);
    }
    if k == 1 {
        let c = shape::clipped(e, lent::ring_at(removed, 0));
        return Ok(store::add_ring(rings, room, count, c)?.rings);
    }
    let mut work = [0.0f64; 1024];
    lent::copy_rings(rings, count, &mut work, 0);
    let mut n = count;
    for i in 0..k {
        let c = shape::clipped(e, lent::ring_at(removed, i));
        n = store::add_ring(&mut work, room, n, c)?.rings;
    }
    lent::copy_rings(&work, n, rings, 0);
    Ok(n)
}

// All of the list `removed`, in a stock whose spec is checked already; 4 where the count is over the
// room, 11.
pub fn remove_rings(
    spec: TurnStockSpec,
    rings: &mut [f64],
    count: usize,
    removed: &[f64],
) -> Result<usize, Refused>
    ensures { StoresAs rings.old (remove_rings spec rings.old count removed.now) result rings.new }
{
    remove_all_in(extent(spec), rings, count, removed)
}

// The tests of each ring within the extent e, the first `count` of `rings` stored before them, at the
// front of `tests` as far as it reaches.
fn list_tests_in(
    e: Ring,
    rings: &[f64],
    room: usize,
    count: usize,
    removed: &[f64],
    tests: &mut [usize],
)
    requires { (count ≤ room) × (4 * room ≤ length rings.now) × (room ≤ 256) }
    ensures { tests.new ≡ list_tests_in e room (rings_of count rings.now) removed.now tests.old }
{
    let k = numbers::lesser(removed.len() / 4, tests.len());
    let mut work = [0.0f64; 1024];
    lent::copy_rings(rings, count, &mut work, 0);
    let mut n = count;
    for i in 0..k {
        let c = shape::clipped(e, lent::ring_at(removed, i));
        let Ok(one) = store::add_ring(&mut work, room, n, c) else {
            return;
        };
        tests[i] = one.tests;
        n = one.rings;
    }
}

// The tests that each ring of the list `removed` takes, at the front of `tests` as far as it reaches: the
// first `count` lent rings are stored before them, and of the list those before it. The spec is checked
// already. Nothing is written from a ring on that is refused, nor where the count is over the room.
pub fn list_tests(
    spec: TurnStockSpec,
    rings: &[f64],
    count: usize,
    removed: &[f64],
    tests: &mut [usize],
)
    ensures { tests.new ≡ list_tests spec rings.now count removed.now tests.old }
{
    if tests.len() == 0 {
        return;
    }
    let room = lent::room_of(rings.len());
    if room < count {
        return;
    }
    list_tests_in(extent(spec), rings, room, count, removed, tests);
}

// The rings are finite and not empty. This pass has no branch; which ring is not is asked only where one
// is not.
fn all_good(rings: &[f64]) -> bool
    ensures { result ≡ all_good (rings_of (length rings.now / 4) rings.now) }
{
    let mut ok = true;
    for i in 0..rings.len() / 4 {
        let q = lent::ring_at(rings, i);
        ok = ok & shape::is_finite_ring(q) & shape::is_filled(q);
    }
    ok
}

// The place of the first ring that is not finite or is empty; where there is none, how many there are.
fn first_bad(rings: &[f64]) -> usize
    ensures { result ≡ place_or (length rings.now / 4) (bad_from 0 (rings_of (length rings.now / 4) rings.now)) }
{
    let n = rings.len() / 4;
    for i in 0..n {
        let q = lent::ring_at(rings, i);
        if !(shape::is_finite_ring(q) & shape::is_filled(q)) {
            return i;
        }
    }
    n
}

// What refusal 10 asks of a move and of parts: whole rings, each finite and not empty. The place of the
// first that is not, and else of the one that is broken off.
pub fn first_bad_ring(removed: &[f64]) -> Option<usize>
    ensures { result ≡ bad_ring removed.now }
{
    if (removed.len() % 4 == 0) & all_good(removed) {
        return None;
    }
    Some(first_bad(removed))
}

// How many of the rings are not empty after clipping, in a stock whose spec is checked already.
pub fn raised_by(spec: TurnStockSpec, removed: &[f64]) -> usize
    ensures { result ≡ raised_by (bar_ring (clean_spec spec)) (rings_of (length removed.now / 4) removed.now) }
{
    let e = extent(spec);
    let mut n: usize = 0;
    for i in 0..removed.len() / 4 {
        n += usize::from(shape::is_filled(shape::clipped(e, lent::ring_at(removed, i))));
    }
    n
}

// What the first `count` lent rings leave of a ring that is taken as it stands, at the front of
// `pieces`; 11. Where fewer are lent, those.
pub fn left_of(
    rings: &[f64],
    count: usize,
    ring: Ring,
    pieces: &mut [f64; 1024],
) -> Result<usize, Refusal>
    ensures { LeavesOf pieces.old (left_of rings.now count ring) result pieces.new }
{
    let n = numbers::lesser(count, rings.len() / 4);
    let mut hand = [0.0f64; 1024];
    let mut next = [0.0f64; 1024];
    let left = hand::cut_ring(rings, n, ring, &mut hand, &mut next).left;
    if PIECE_LIMIT < left {
        return Err(Refusal::RingsOverRoom);
    }
    lent::copy_rings(&hand, left, pieces, 0);
    Ok(left)
}
