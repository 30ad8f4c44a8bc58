// The most material over a range of heights, by numbers that are kept beside the cells.
//
// Two numbers stand for each block of 64 bins: the greatest upper bound of the outer surface, and
// the least lower bound of the bore, among its bins with material. A block without material has the
// stock's bore and outer radius there, from which both folds start, so that blocks join by least and
// greatest alone. A range is then its whole blocks' numbers, and the cells of at most 63 bins on
// either side. Whoever writes cells renews the numbers: a number that missed one bin would set a stop
// into metal.
#![tactic(auto)]

ghost use Rattle.std.specs.Prelude.{◌≡◌, map, ◌+◌, ◌*◌, ◌-◌, ◌≤◌, ◌<◌, length, take};
ghost use Rattle.refusals.specs.Number.{paper_of};
ghost use Rattle.refusals.specs.Limits.{block_bins};
ghost use Rattle.floats.specs.Numbers.{clean_of};
ghost use Rattle.blocks.specs.Block.{blocks_in, block_end, block_to, block_of, blocks_of, block_at, same_block, match_to, matches_of, kept_stock};
ghost use Rattle.blocks.specs.Range.{bins_over, range_of};
ghost use Rattle.blocks.specs.Way.{join_from, kept_over, kept_between, RangeKept};
ghost use Rattle.blocks.specs.Renew.{renewed_all, Renews, put_block, renew_at, renew_over, renewed_for, LeavesFor};

use bins::Bins;
use queries::{Band, BinSpan};
use refusals::{BLOCK, Refusal};
use stock::TurnStockSpec;

mod bins;
mod ends;
mod matching;

// How many blocks have bins below n.
pub fn blocks_in(n: usize) -> usize
    ensures { result ≡ blocks_in n }
{
    let whole = n / BLOCK;
    if n % BLOCK == 0 { whole } else { whole + 1 }
}

// Block j of lent numbers.
fn block_at(blocks: &[f64], j: usize) -> Band
    ensures { result ≡ block_at blocks.now j }
{
    if j < blocks.len() / 2 {
        let at = 2 * j;
        return Band {
            bore: floats::clean(blocks[at + 1]),
            outer: floats::clean(blocks[at]),
        };
    }
    let none = 0.0 / 0.0;
    Band {
        bore: none,
        outer: none,
    }
}

// Block j, written; nothing where the list has no such block.
fn put_block(blocks: &mut [f64], j: usize, b: Band)
    ensures { blocks.new ≡ put_block blocks.old j b }
{
    if blocks.len() / 2 <= j {
        return;
    }
    let at = 2 * j;
    blocks[at] = b.outer;
    blocks[at + 1] = b.bore;
}

// The numbers `kept` are those of some bins.
fn bins_match(s: TurnStockSpec, kept: Band, bins: &Bins<'_>) -> bool
    ensures { result ≡ same_block kept (block_to s bins.now.cells.now bins.now.a (bins.now.e - bins.now.a)) }
{
    let met = matching::met_over(kept, matching::met_none(s, kept), bins);
    met.under & met.outer & met.bore
}

// The same of a whole block, by its ends where every bin has material.
fn whole_matches(s: TurnStockSpec, cells: &[f64], kept: Band, a: usize) -> bool
    requires { 4 * a + 4 * block_bins ≤ length cells.now }
    ensures { result ≡ same_block kept (block_to s cells.now a block_bins) }
{
    let found = ends::of_block(cells, a);
    if ends::all_held(s, found) {
        let b = queries::join(bins::no_material(s), ends::span(found));
        return (kept.outer == b.outer) & (kept.bore == b.bore);
    }
    let whole = Bins {
        cells,
        a,
        e: a + BLOCK,
    };
    bins_match(s, kept, &whole)
}

// Block j of the cells, one that they have.
#[derive(Clone, Copy)]
struct Block<'a> {
    of: &'a Cells<'a>,
    j: usize,
    ghost has_bins: { block_bins * j < of.now.n },
}

impl<'a> Block<'a> {
    // The bin behind it.
    fn end(&self) -> usize
        ensures { result ≡ block_end self.now.of.now.n self.now.j }
    {
        let n = self.of.n;
        let from = BLOCK * self.j;
        if n - from < BLOCK { n } else { from + BLOCK }
    }

    // Its numbers, worked out of the cells.
    fn band(&self) -> Band
        ensures { result ≡ block_of self.now.of.now.s self.now.of.now.n self.now.of.now.cells.now self.now.j }
    {
        let to = self.end();
        let none = bins::no_material(self.of.s);
        bins::fold(none, self.of.cells, BLOCK * self.j, to)
    }

    // The numbers `kept` are its own.
    fn matches(&self, kept: Band) -> bool
        ensures { result ≡ same_block kept (block_of self.now.of.now.s self.now.of.now.n self.now.of.now.cells.now self.now.j) }
    {
        let s = self.of.s;
        let cells = self.of.cells;
        let to = self.end();
        let from = BLOCK * self.j;
        if cells.len() / 4 < to {
            let found = self.band();
            return (kept.outer == found.outer) & (kept.bore == found.bore);
        }
        if to - from == BLOCK {
            return whole_matches(s, cells, kept, from);
        }
        let bins = Bins {
            cells,
            a: from,
            e: to,
        };
        bins_match(s, kept, &bins)
    }
}

// n cells of a stock, whose spec is checked.
#[derive(Clone, Copy)]
struct Cells<'a> {
    s: TurnStockSpec,
    n: usize,
    cells: &'a [f64],
}

impl<'a> Cells<'a> {
    // The first `count` blocks are those of the cells.
    fn match_to(&self, blocks: &[f64], count: usize) -> bool
        requires { count ≤ blocks_in self.now.n }
        ensures { result ≡ match_to self.now.s self.now.n self.now.cells.now blocks.now count }
    {
        let mut ok = true;
        for j in 0..count {
            let block = Block { of: &*self, j };
            ok = ok & block.matches(block_at(blocks, j));
        }
        ok
    }

    // All blocks, written over as many numbers.
    fn write_all(&self, blocks: &mut [f64], count: usize)
        requires { (count ≡ blocks_in self.now.n) × (length blocks.old ≡ 2 * count) }
        ensures { blocks.new ≡ blocks_of self.now.s self.now.n self.now.cells.now }
    {
        for j in 0..count {
            let block = Block { of: &*self, j };
            put_block(blocks, j, block.band());
        }
    }

    // The blocks in which the first k bins of a list lie, worked out; k at most as many as the list has.
    fn renew_over(&self, blocks: &mut [f64], indices: &[usize], k: usize)
        requires { k ≤ length indices.now }
        ensures { blocks.new ≡ renew_over self.now.s self.now.n self.now.cells.now blocks.old (take k indices.now) }
    {
        let mut block = blocks_in(self.n);
        for i in 0..k {
            block = leave_block(self.s, self.n, self.cells, blocks, block, indices[i]);
        }
        renew_block(self.s, self.n, self.cells, blocks, block);
    }

    // What may remain over a range, by kept numbers: none of these is asked.
    fn kept_between(&self, blocks: &[f64], lo: f64, hi: f64) -> Option<Band>
        ensures { result ≡ kept_between self.now.s self.now.n self.now.cells.now blocks.now lo hi }
    {
        let s = self.s;
        if !((lo <= hi) & (s.z_min_mm <= hi) & (lo <= s.z_max_mm)) {
            return None;
        }
        let from = floats::greatest(lo, s.z_min_mm);
        let to = floats::least(hi, s.z_max_mm);
        let bins = bins_over(s, self.n, from, to);
        let first = bins.first;
        let last = bins.last;
        queries::shown(most_kept(s, self.cells, blocks, first, last + 1))
    }
}

// The lent numbers are those of n cells, in a spec whose numbers are checked.
pub fn matches(s: TurnStockSpec, n: usize, cells: &[f64], blocks: &[f64]) -> bool
    ensures { result ≡ matches_of s n cells.now blocks.now }
{
    let count = blocks_in(n);
    if blocks.len() != 2 * count {
        return false;
    }
    let own = Cells { s, n, cells };
    own.match_to(blocks, count)
}

// The number of cells of a stock whose cells fit and whose kept numbers match them; 1, 2, 3, 20.
pub fn kept_cells(spec: TurnStockSpec, cells: &[f64], blocks: &[f64]) -> Result<usize, Refusal>
    ensures { paper_of result ≡ kept_stock spec cells.now blocks.now }
{
    let n = stock::cells_fit(spec, cells)?;
    if matches(stock::clean_spec(spec), n, cells, blocks) {
        return Ok(n);
    }
    Err(Refusal::BlocksDoNotMatch)
}

// All blocks of n cells, worked out of them; nothing where the lent numbers are not as many.
pub fn renew_all(s: TurnStockSpec, n: usize, cells: &[f64], blocks: &mut [f64])
    ensures { blocks.new ≡ renewed_all s n cells.now blocks.old }
{
    let count = blocks_in(n);
    if blocks.len() != 2 * count {
        return;
    }
    let own = Cells { s, n, cells };
    own.write_all(blocks, count);
}

// All blocks of a stock, worked out of its cells: how many cells those are; 1, 2, 3, and 20 where
// the lent numbers are not as many.
pub fn renew(spec: TurnStockSpec, cells: &[f64], blocks: &mut [f64]) -> Result<usize, Refusal>
    ensures { Renews spec cells.now result blocks }
{
    let n = stock::cells_fit(spec, cells)?;
    let count = blocks_in(n);
    if blocks.len() != 2 * count {
        return Err(Refusal::BlocksDoNotMatch);
    }
    let own = Cells {
        s: stock::clean_spec(spec),
        n,
        cells,
    };
    own.write_all(blocks, count);
    Ok(n)
}

// The lent numbers with -0.0 read as +0.0.
pub fn clear(blocks: &mut [f64])
    ensures { blocks.new ≡ map clean_of blocks.old }
{
    for x in blocks.iter_mut() {
        *x = floats::clean(*x);
    }
}

// Block j, worked out of the cells and written, if n bins have it.
pub fn renew_block(s: TurnStockSpec, n: usize, cells: &[f64], blocks: &mut [f64], j: usize)
    ensures { blocks.new ≡ renew_at s n cells.now blocks.old j }
{
    if blocks_in(n) <= j {
        return;
    }
    let own = Cells { s, n, cells };
    let block = Block { of: &own, j };
    let fresh = block.band();
    put_block(blocks, j, fresh);
}

// The block of a bin. Where the bin before it lies in another, `last`, that one is worked out: so bins
// that rise have each of their blocks worked out once.
pub fn leave_block(
    s: TurnStockSpec,
    n: usize,
    cells: &[f64],
    blocks: &mut [f64],
    last: usize,
    bin: usize,
) -> usize
    ensures { LeavesFor s n cells.now last bin result blocks }
{
    let block = bin / BLOCK;
    if block == last {
        return block;
    }
    renew_block(s, n, cells, blocks, last);
    block
}

// The kept numbers after changes of the first k bins of a list, or of all where it has fewer: each
// number cleared, and the blocks of these bins worked out of the cells afterwards.
pub fn renew_changed(
    s: TurnStockSpec,
    n: usize,
    cells: &[f64],
    blocks: &mut [f64],
    indices: &[usize],
    k: usize,
)
    ensures { blocks.new ≡ renewed_for s n cells.now indices.now k blocks.old }
{
    clear(blocks);
    let own = Cells { s, n, cells };
    own.renew_over(blocks, indices, numbers::lesser(k, indices.len()));
}

// The kept blocks from a up to e, onto k.
fn join_kept(k: Band, blocks: &[f64], a: usize, e: usize) -> Band
    ensures { result ≡ join_from k blocks.now a (e - a) }
{
    let mut found = k;
    for j in a..e {
        found = queries::join(found, block_at(blocks, j));
    }
    found
}

// The bins from a up to e: whole blocks by their kept numbers, the others by their cells.
fn most_kept(s: TurnStockSpec, cells: &[f64], blocks: &[f64], a: usize, e: usize) -> Band
    ensures { result ≡ kept_over s cells.now blocks.now a e }
{
    let first = blocks_in(a);
    let behind = e / BLOCK;
    if first < behind {
        let head = bins::fold(bins::no_material(s), cells, a, BLOCK * first);
        let whole = join_kept(head, blocks, first, behind);
        return bins::fold(whole, cells, BLOCK * behind, e);
    }
    bins::fold(bins::no_material(s), cells, a, e)
}

// The bins from the first to the last that are looked at for two heights.
fn bins_over(s: TurnStockSpec, n: usize, lo: f64, hi: f64) -> BinSpan
    ensures { result ≡ bins_over s n lo hi }
{
    let a = queries::bins_at(s, n, lo);
    let b = queries::bins_at(s, n, hi);
    BinSpan {
        first: numbers::lesser(a.first, b.first),
        last: numbers::greater(a.last, b.last),
    }
}

// What may remain over a range of a stock of n cells, by kept numbers that are not asked again.
// `range` is this after its check; a caller who asks many ranges of one stock has had it once.
pub fn range_kept(
    spec: TurnStockSpec,
    n: usize,
    cells: &[f64],
    blocks: &[f64],
    lo: f64,
    hi: f64,
) -> Option<Band>
    ensures { RangeKept spec n cells.now blocks.now lo hi result }
{
    let own = Cells {
        s: stock::clean_spec(spec),
        n,
        cells,
    };
    own.kept_between(blocks, floats::clean(lo), floats::clean(hi))
}

// The most material that may remain between two heights, from bore to outer radius: over the bins
// from the first to the last that `envelope_at` looks at for its ends, which are brought to the edge of
// the stock; nothing where the range is reversed or wholly outside, or an end is a NaN; 1, 2, 3, 20.
pub fn range(
    spec: TurnStockSpec,
    cells: &[f64],
    blocks: &[f64],
    lo: f64,
    hi: f64,
) -> Result<Option<Band>, Refusal>
    ensures { paper_of result ≡ range_of spec cells.now blocks.now lo hi }
{
    let n = kept_cells(spec, cells, blocks)?;
    Ok(range_kept(spec, n, cells, blocks, lo, hi))
}
