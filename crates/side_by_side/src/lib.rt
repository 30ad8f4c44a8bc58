// Two stocks side by side: what differs between them, as lines of a stock file.
//
// For each bin whose cells are unequal, the first stock's cell and then the second's; then what the
// second's rings leave of each ring of the first, and what the first's leave of each of the second, by
// the subtraction of crate `rings`. Rings cut differently over the same points leave nothing. An index
// has the digits that it has in the stocks' files. All is
// decided first (`compare`); the text then comes in chunks that are asked by number (`chunk`), so that
// no buffer holds it all. `spelled` puts the lines of a chunk one behind the other, and
// `refused` has the one line of a comparison that is refused.
#![tactic(auto)]

mod refused;
mod spelled;

ghost use Rattle.std.specs.Prelude.{◌≡◌, min, max, ◌/◌, ◌*◌, ◌+◌, ◌≤◌, ◌&&◌, length};
ghost use Rattle.refusals.specs.Number.{paper_of};
ghost use Rattle.text.specs.Wrote.{Wrote};
ghost use Rattle.rings.specs.Ring.{kept, in_hand};
ghost use Rattle.rings.specs.Remove.{lent_rings, leaves};
ghost use Rattle.refusals.specs.Limits.{piece_limit};
ghost use Rattle.side_by_side.specs.Compared.{side, same_bar, each_in_hand, both_in_hand, pieces_text, bin_count, compared_of, chunk_count, chunk_of};

use refusals::Refusal;
pub use refused::{file_refused, pair_refused};
use rings::Ring;
pub use spelled::CHUNK_ROOM;
use stock::TurnStockSpec;

// The five numbers of two specs are equal.
fn same_bar(a: TurnStockSpec, b: TurnStockSpec) -> bool
    ensures { result ≡ same_bar a b }
{
    (a.z_min_mm == b.z_min_mm)
        & (a.z_max_mm == b.z_max_mm)
        & (a.outer_radius_mm == b.outer_radius_mm)
        & (a.bore_radius_mm == b.bore_radius_mm)
        & (a.cell_mm == b.cell_mm)
}

// How many of `count` rings are lent.
fn lent_of(rings: &[f64], count: usize) -> usize
    ensures { result ≡ min count (length rings.now / 4) }
{
    numbers::lesser(count, rings.len() / 4)
}

// How many bins either stock has.
fn bin_count(first: &[f64], second: &[f64]) -> usize
    ensures { result ≡ bin_count first.now second.now }
{
    numbers::greater(first.len() / 4, second.len() / 4)
}

// Never over 256 pieces of the ring in hand while the lent rings are subtracted.
fn in_hand(rings: &[f64], count: usize, ring: Ring) -> bool
    ensures { result ≡ in_hand piece_limit (kept ring) (lent_rings rings.now count) }
{
    let mut pieces = [0.0f64; 1024];
    rings::left_of(rings, count, ring, &mut pieces).is_ok()
}

// The same of each of the other rings.
fn each_in_hand(rings: &[f64], count: usize, others: &[f64], many: usize) -> bool
    ensures { result ≡ each_in_hand (lent_rings rings.now count) (lent_rings others.now many) }
{
    let n = lent_of(others, many);
    let mut ok = true;
    for i in 0..n {
        ok = ok & in_hand(rings, count, spelled::ring_at(others, i));
    }
    ok
}

// Over 256 pieces are in hand nowhere, in either direction.
fn both_in_hand(first: &[f64], count1: usize, second: &[f64], count2: usize) -> bool
    ensures { result ≡ (each_in_hand (lent_rings second.now count2) (lent_rings first.now count1) && each_in_hand (lent_rings first.now count1) (lent_rings second.now count2)) }
{
    each_in_hand(second, count2, first, count1) & each_in_hand(first, count1, second, count2)
}

// How many chunks the text of two stocks has, each by its spec, its cells and its first rings; 24, 11.
pub fn compare(
    spec1: TurnStockSpec,
    cells1: &[f64],
    rings1: &[f64],
    count1: usize,
    spec2: TurnStockSpec,
    cells2: &[f64],
    rings2: &[f64],
    count2: usize,
) -> Result<usize, Refusal>
    ensures { paper_of result ≡ chunk_count (compared_of spec1 (side cells1.now rings1.now count1) spec2 (side cells2.now rings2.now count2)) }
{
    if !same_bar(spec1, spec2) {
        return Err(Refusal::SpecsDiffer);
    }
    if !both_in_hand(rings1, count1, rings2, count2) {
        return Err(Refusal::RingsOverRoom);
    }
    let n = bin_count(cells1, cells2);
    Ok(n + (lent_of(rings1, count1) + lent_of(rings2, count2)))
}

// What the lent rings leave of the ring, a line for each piece.
fn put_left(out: &mut [u8; CHUNK_ROOM], rings: &[f64], count: usize, ring: Ring) -> usize
    ensures { Wrote out.old 0 (pieces_text (leaves (lent_rings rings.now count) ring)) out.new result }
{
    let mut pieces = [0.0f64; 1024];
    let left = rings::left_of(rings, count, ring, &mut pieces);
    match left {
        Ok(n) => spelled::put_rings(out, &pieces, n),
        Err(_) => 0,
    }
}

// Chunk c of the text of two stocks; no bytes behind the last. It asks neither 24 nor 11: a ring of
// which over 256 pieces are in hand has no line.
pub fn chunk(
    out: &mut [u8; CHUNK_ROOM],
    cells1: &[f64],
    rings1: &[f64],
    count1: usize,
    cells2: &[f64],
    rings2: &[f64],
    count2: usize,
    c: usize,
) -> usize
    ensures { Wrote out.old 0 (chunk_of (side cells1.now rings1.now count1) (side cells2.now rings2.now count2) c) out.new result }
{
    let n = bin_count(cells1, cells2);
    if c < n {
        return spelled::put_bin(out, n, cells1, cells2, c);
    }
    let k = c - n;
    let m = lent_of(rings1, count1);
    if k < m {
        return put_left(out, rings2, count2, spelled::ring_at(rings1, k));
    }
    let j = k - m;
    if j < lent_of(rings2, count2) {
        return put_left(out, rings1, count1, spelled::ring_at(rings2, j));
    }
    0
}
