// What is asked of a stock: how much of it remains, and what may remain at a height z.
//
// In each bin material lies from the bore to the outer surface, and both are known within bounds. So
// the least that remains is a band from the bore's upper bound to the outer surface's lower bound,
// and the most that may remain is a band from the bore's lower bound to the outer surface's upper
// bound. The volume sums each of the two over the bins, and takes from each what the stored rings
// have of it. Stored rings share no point, so none is taken twice.
//
// At a height the most over the bins that touch it is asked: the bin of z, and a neighbour on either
// side whose closed range holds z too.
#![tactic(auto, using(floats::specs::Pick::picks), unfolding(crate::specs::Volume::held_in, crate::specs::Volume::less_band, crate::specs::Envelope::shown_of, crate::specs::Envelope::together, crate::specs::Volume::tube_of))]

ghost use Rattle.std.specs.Prelude.{◌≡◌, ◌+◌, ◌*◌, ◌≤◌, ◌<◌, length};
ghost use Rattle.refusals.specs.Number.{paper_of};
ghost use Rattle.rings.specs.Store.{ring_at};
ghost use Rattle.queries.specs.Material.{sure_of, most_of};
ghost use Rattle.queries.specs.Envelope.{bin_at, holds_z, first_at, last_at, bins_at, shown_of, join_of, together, most_over, seen_at, envelope_at};
ghost use Rattle.queries.specs.Volume.{tube_of, held_in, less_band, volume_of};
ghost use Rattle.queries.specs.Pass.{sums_of, less_bin, less_bins, less_all};

use refusals::Refusal;
use rings::Ring;
use stock::{TurnCell, TurnStockSpec, ZRange};

const PI: f64 = 3.141592653589793;

// Material from one radius to another.
#[derive(Clone, Copy)]
pub struct Band {
    pub bore: f64,
    pub outer: f64,
}

// The bins that are looked at for a height, from the first to the last.
#[derive(Clone, Copy)]
pub struct BinSpan {
    pub first: usize,
    pub last: usize,
}

// The least and the greatest volume that remains.
#[derive(Clone, Copy)]
pub struct Volumes {
    pub least: f64,
    pub greatest: f64,
}

// The least that remains of a cell.
pub fn sure(c: TurnCell) -> Band
    ensures { result ≡ sure_of c }
{
    Band {
        bore: c.inner.upper_mm,
        outer: c.outer.lower_mm,
    }
}

// The most that may remain of it.
pub fn most(c: TurnCell) -> Band
    ensures { result ≡ most_of c }
{
    Band {
        bore: c.inner.lower_mm,
        outer: c.outer.upper_mm,
    }
}

// The bin of z, among n.
fn bin_at(s: TurnStockSpec, n: usize, z: f64) -> usize
    ensures { result ≡ bin_at s n z }
{
    let whole = numbers::whole_part((z - s.z_min_mm) / s.cell_mm) as usize;
    if whole < n {
        return whole;
    }
    if n == 0 {
        return 0;
    }
    n - 1
}

// The closed range of bin j holds z.
fn holds_z(s: TurnStockSpec, j: usize, z: f64) -> bool
    ensures { result ≡ holds_z s j z }
{
    let bin = stock::bin_of(s, j);
    (bin.za <= z) & (z <= bin.zb)
}

// The first bin that is looked at: that of z, or the one before it where that holds z too.
fn first_at(s: TurnStockSpec, n: usize, z: f64) -> usize
    ensures { result ≡ first_at s n z }
{
    let i = bin_at(s, n, z);
    if i == 0 {
        return i;
    }
    if holds_z(s, i - 1, z) {
        return i - 1;
    }
    i
}

// The last one: that of z, or the one behind it where that holds z too.
fn last_at(s: TurnStockSpec, n: usize, z: f64) -> usize
    ensures { result ≡ last_at s n z }
{
    let i = bin_at(s, n, z);
    if n <= i {
        return i;
    }
    let next = i + 1;
    if n <= next {
        return i;
    }
    if holds_z(s, next, z) {
        return next;
    }
    i
}

// The bins that are looked at for z, among n bins of a spec whose numbers are checked.
pub fn bins_at(s: TurnStockSpec, n: usize, z: f64) -> BinSpan
    ensures { result ≡ bins_at s n z }
{
    BinSpan {
        first: first_at(s, n, z),
        last: last_at(s, n, z),
    }
}

// A band, if it has material.
pub fn shown(b: Band) -> Option<Band>
    ensures { result ≡ shown_of b }
{
    if b.bore < b.outer { Some(b) } else { None }
}

// Of two bands the least bore and the greatest outer radius.
pub fn join(a: Band, b: Band) -> Band
    ensures { result ≡ join_of a b }
{
    Band {
        bore: floats::least(a.bore, b.bore),
        outer: floats::greatest(a.outer, b.outer),
    }
}

// The same of what is seen in two places.
fn together(a: Option<Band>, b: Option<Band>) -> Option<Band>
    ensures { result ≡ together a b }
{
    let Some(x) = a else {
        return b;
    };
    let Some(y) = b else {
        return a;
    };
    Some(join(x, y))
}

// The most over so many of n bins, from the first on.
fn most_over(cells: &[f64], n: usize, first: usize, count: usize) -> Option<Band>
    requires { first + count ≤ n }
    ensures { result ≡ most_over cells.now first count }
{
    let mut seen = None;
    for k in 0..count {
        let one = shown(most(stock::cell_at(cells, first + k)));
        seen = together(seen, one);
    }
    seen
}

// What may remain at z, in a stock whose cells are checked.
fn seen_at(s: TurnStockSpec, n: usize, cells: &[f64], z: f64) -> Option<Band>
    requires { 0 < n }
    ensures { result ≡ seen_at s n cells.now z }
{
    if !((s.z_min_mm <= z) & (z <= s.z_max_mm)) {
        return None;
    }
    let bins = bins_at(s, n, z);
    let first = bins.first;
    most_over(cells, n, first, bins.last - first + 1)
}

// The most material that may remain at z, from bore to outer radius: over the bin of z, and a neighbour
// whose closed range holds z; 1, 2, 3.
pub fn envelope_at(spec: TurnStockSpec, cells: &[f64], z: f64) -> Result<Option<Band>, Refusal>
    ensures { paper_of result ≡ envelope_at spec cells.now z }
{
    let n = stock::cells_fit(spec, cells)?;
    Ok(seen_at(stock::clean_spec(spec), n, cells, floats::clean(z)))
}

// What a band holds over the height h.
fn tube(b: Band, h: f64) -> f64
    ensures { result ≡ tube_of b h }
{
    PI * (b.outer * b.outer - b.bore * b.bore) * h
}

// What a band holds in a bin.
fn held(b: Band, z: ZRange) -> f64
    ensures { result ≡ held_in b z }
{
    let full = Band {
        bore: b.bore,
        outer: floats::greatest(b.outer, b.bore),
    };
    tube(full, z.zb - z.za)
}

// The first n cells, summed bin by bin. The list has them all: so `bins` is n, and says that none is
// read past its end.
fn sums(s: TurnStockSpec, cells: &[f64], n: usize) -> Volumes
    requires { 4 * n ≤ length cells.now }
    ensures { result ≡ sums_of s cells.now n }
{
    let bins = numbers::lesser(n, cells.len() / 4);
    let mut least = 0.0;
    let mut greatest = 0.0;
    for i in 0..bins {
        let c = stock::cell_at(cells, i);
        let z = stock::bin_of(s, i);
        least = least + held(sure(c), z);
        greatest = greatest + held(most(c), z);
    }
    Volumes { least, greatest }
}

// A volume less what the ring q takes of a band over the height h.
fn less_band(b: Band, q: Ring, h: f64, v: f64) -> f64
    ensures { result ≡ less_band b q h v }
{
    let taken = Band {
        bore: floats::greatest(q.r0, b.bore),
        outer: floats::least(q.r1, b.outer),
    };
    if taken.bore < taken.outer {
        return v - tube(taken, h);
    }
    v
}

// Both volumes less what the ring q takes of bin i.
fn less_bin(s: TurnStockSpec, cells: &[f64], q: Ring, i: usize, v: Volumes) -> Volumes
    ensures { result ≡ less_bin s cells.now q i v }
{
    let z = stock::bin_of(s, i);
    let h = floats::least(z.zb, q.z1) - floats::greatest(z.za, q.z0);
    if h <= 0.0 {
        return v;
    }
    let c = stock::cell_at(cells, i);
    Volumes {
        least: less_band(sure(c), q, h, v.least),
        greatest: less_band(most(c), q, h, v.greatest),
    }
}

// Both volumes less what the ring q takes of the first n bins, bin by bin.
fn less_ring(s: TurnStockSpec, cells: &[f64], n: usize, q: Ring, v: Volumes) -> Volumes
    ensures { result ≡ less_bins s cells.now q v n }
{
    let mut left = v;
    for i in 0..n {
        left = less_bin(s, cells, q, i, left);
    }
    left
}

fn ring_at(rings: &[f64], k: usize) -> Ring
    requires { 4 * k + 4 ≤ length rings.now }
    ensures { result ≡ ring_at rings.now k }
{
    let at = 4 * k;
    Ring {
        z0: rings[at],
        z1: rings[at + 1],
        r0: rings[at + 2],
        r1: rings[at + 3],
    }
}

// Both volumes less what the first `count` rings take of n bins, ring by ring.
fn less_rings(
    s: TurnStockSpec,
    cells: &[f64],
    n: usize,
    rings: &[f64],
    count: usize,
    v: Volumes,
) -> Volumes
    requires { 4 * count ≤ length rings.now }
    ensures { result ≡ less_all s cells.now n rings.now v count }
{
    let mut left = v;
    for k in 0..count {
        left = less_ring(s, cells, n, ring_at(rings, k), left);
    }
    left
}

// The least and the greatest volume that remains; 1, 2, 3, 4.
pub fn volume(
    spec: TurnStockSpec,
    cells: &[f64],
    rings: &[f64],
    count: usize,
) -> Result<Volumes, Refusal>
    ensures { paper_of result ≡ volume_of spec cells.now rings.now count }
{
    let n = stock::cells_fit(spec, cells)?;
    if !rings::rings_fit(spec, rings, count) {
        return Err(Refusal::StoredRings);
    }
    let s = stock::clean_spec(spec);
    let all = sums(s, cells, n);
    let left = less_rings(s, cells, n, rings, count, all);
    Ok(Volumes {
        least: floats::greatest(left.least, 0.0),
        greatest: floats::greatest(left.greatest, 0.0),
    })
}
