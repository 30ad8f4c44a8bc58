// Level straight passes, proposed for a stock and its targets. Nothing is said of how good they are.
//
// Neighbours with the same target are a run. A run of which some bin stands over its target gets one
// pass midway between its two radii, from its first bin to its last, that stays away from a neighbour
// which is to stand higher. Everything is asked before the first pass is written.
ghost use Rattle.std.specs.Prelude.{◌≡◌, ◌+◌, ◌*◌, ◌≤◌, ◌<◌, min, length};
ghost use Rattle.std.proofs.lemmas.List.Edits.{sets};
ghost use Rattle.floats.specs.Pick.{pick};
ghost use Rattle.passes.specs.Propose.{aim_of, inset_of, pass_start, pass_end, level_over, same_target, last_of_run, stands_over, open_to, pass_room, level_room, propose_of, six_of, ProposesLent, PutsLevel, ListsLevel, ListsTo};

use crate::lists::PASS_LIMIT;
use crate::targets;
use refusals::Refusal;
use stock::TurnStockSpec;

// A level pass: the nose's radius, the radius of its centre, and from which z to which.
#[derive(Clone, Copy)]
pub struct Level {
    pub rn: f64,
    pub r: f64,
    pub a: f64,
    pub b: f64,
}

// ---- one run of bins

// Midway between the two radii of bin i's target.
fn aim(targets: &[f64], i: usize) -> f64
    requires { 2 * i + 2 ≤ length targets.now }
    ensures { result ≡ aim_of targets.now i }
{
    (targets::lower_at(targets, i) + targets::upper_at(targets, i)) / 2.0
}

// How far a pass stays away from a step up.
fn inset(cell: f64, rn: f64) -> f64
    ensures { result ≡ inset_of cell rn }
{
    rn + cell / 16.0
}

// Where the pass of a run starts whose first bin is i.
fn pass_start(s: TurnStockSpec, targets: &[f64], rn: f64, i: usize) -> f64
    requires { 2 * i + 2 ≤ length targets.now }
    ensures { result ≡ pass_start s targets.now rn i }
{
    let bin = stock::bin_of(s, i);
    if i == 0 {
        return bin.za - rn;
    }
    if aim(targets, i) < targets::lower_at(targets, i - 1) {
        return bin.za + inset(s.cell_mm, rn);
    }
    bin.za
}

// Where it ends, its last bin being i of n.
fn pass_end(s: TurnStockSpec, n: usize, targets: &[f64], rn: f64, i: usize) -> f64
    requires { (i < n) × (2 * n ≤ length targets.now) }
    ensures { result ≡ pass_end s n targets.now rn i }
{
    let bin = stock::bin_of(s, i);
    if i + 1 == n {
        return bin.zb + rn;
    }
    if aim(targets, i) < targets::lower_at(targets, i + 1) {
        return bin.zb - inset(s.cell_mm, rn);
    }
    bin.zb
}

// The pass over the bins from first to last of n.
fn level_over(
    s: TurnStockSpec,
    n: usize,
    targets: &[f64],
    rn: f64,
    first: usize,
    last: usize,
) -> Level
    requires { (first ≤ last) × (last < n) × (2 * n ≤ length targets.now) }
    ensures { result ≡ level_over s n targets.now rn first last }
{
    Level {
        rn,
        r: aim(targets, first) + rn,
        a: pass_start(s, targets, rn, first),
        b: pass_end(s, n, targets, rn, last),
    }
}

// Bin i and the next have the same target.
fn same_target(targets: &[f64], i: usize) -> bool
    requires { 2 * i + 4 ≤ length targets.now }
    ensures { result ≡ same_target targets.now i }
{
    let next = i + 1;
    (targets::lower_at(targets, i) == targets::lower_at(targets, next))
        & (targets::upper_at(targets, i) == targets::upper_at(targets, next))
}

// Bin i of n is the last of its run.
fn last_of_run(targets: &[f64], n: usize, i: usize) -> bool
    requires { (i < n) × (2 * n ≤ length targets.now) }
    ensures { result ≡ last_of_run targets.now n i }
{
    if i + 1 == n {
        return true;
    }
    !same_target(targets, i)
}

// Bin i stands over its target.
fn stands_over(targets: &[f64], cells: &[f64], i: usize) -> bool
    requires { 2 * i + 2 ≤ length targets.now }
    ensures { result ≡ stands_over targets.now cells.now i }
{
    let cell = stock::cell_at(cells, i);
    targets::upper_at(targets, i) < cell.outer.upper_mm
}

// ---- writing

fn lesser(a: usize, b: usize) -> usize
    ensures { result ≡ min a b }
{
    if a < b { a } else { b }
}

// How many passes may be written into lists of such lengths.
fn room(kinds: usize, numbers: usize, parts: usize) -> usize
    ensures { result ≡ level_room kinds numbers parts }
{
    let whole = lesser(numbers / 6, parts / 2);
    lesser(PASS_LIMIT, lesser(kinds, whole))
}

// The six numbers of a line, at place k.
fn put_six(numbers: &mut [f64], k: usize, p: Level)
    requires { 6 * k + 6 ≤ length numbers.old }
    ensures { numbers.new ≡ sets numbers.old (6 * k) (six_of p) }
{
    let at = 6 * k;
    numbers[at] = p.rn;
    numbers[at + 1] = 0.0;
    numbers[at + 2] = p.r;
    numbers[at + 3] = p.a;
    numbers[at + 4] = p.r;
    numbers[at + 5] = p.b;
}

// A pass as an outside line, at place k.
fn put_level(kinds: &mut [u32], numbers: &mut [f64], parts: &mut [usize], k: usize, p: Level)
    requires { k < level_room (length kinds.old) (length numbers.old) (length parts.old) }
    ensures { PutsLevel k p kinds numbers parts }
{
    let at = 2 * k;
    kinds[k] = 0;
    parts[at] = 0;
    parts[at + 1] = 0;
    put_six(numbers, k, p);
}

// A pass, written behind k others where it is due, its start is not behind its end and there is room;
// how many there are then.
fn list_level(
    kinds: &mut [u32],
    numbers: &mut [f64],
    parts: &mut [usize],
    k: usize,
    p: Level,
    due: bool,
) -> usize
    ensures { ListsLevel due p k result kinds numbers parts }
{
    if !(due & (p.a <= p.b)) {
        return k;
    }
    if room(kinds.len(), numbers.len(), parts.len()) <= k {
        return k;
    }
    put_level(kinds, numbers, parts, k, p);
    k + 1
}

// The first bin of the open run, once bin i is counted: the next where i is its last.
fn first_from(ends: bool, i: usize, first: usize) -> usize
    ensures { result ≡ pick ends i first }
{
    if ends { i } else { first }
}

// The passes of n bins of a clean spec, as many as there is room for; how many they are.
fn write_passes(
    s: TurnStockSpec,
    n: usize,
    cells: &[f64],
    targets: &[f64],
    rn: f64,
    kinds: &mut [u32],
    numbers: &mut [f64],
    parts: &mut [usize],
) -> usize
    requires { 2 * n ≤ length targets.now }
    ensures { ListsTo (open_to s n targets.now rn cells.now n).passes result kinds numbers parts }
{
    let mut first: usize = 0;
    let mut high = false;
    let mut k: usize = 0;
    for i in 0..n {
        let over = high | stands_over(targets, cells, i);
        let ends = last_of_run(targets, n, i);
        let p = level_over(s, n, targets, rn, first, i);
        k = list_level(kinds, numbers, parts, k, p, over & ends);
        first = first_from(ends, i + 1, first);
        high = over & !ends;
    }
    k
}

// Passes for a stock and its targets, written as cuts of `check`: a kind, six numbers and a part of no
// numbers each; 1, 2, 3, 25 of the targets, 5 of the nose's radius. Passes over 128, or over the room,
// are left out.
pub fn propose(
    spec: TurnStockSpec,
    cells: &[f64],
    targets: &[f64],
    rn: f64,
    kinds: &mut [u32],
    numbers: &mut [f64],
    parts: &mut [usize],
) -> Result<usize, Refusal>
    ensures { ProposesLent (propose_of spec cells.now targets.now rn
        (pass_room (length kinds.old) (length numbers.old) (length parts.old))) result kinds numbers parts }
{
    let n = stock::cells_fit(spec, cells)?;
    if !targets::are_good(targets, n) {
        return Err(Refusal::PassesOutside);
    }
    let nose = floats::clean(rn);
    if !(floats::is_usable(nose) & (0.0 <= nose)) {
        return Err(Refusal::ArgumentOutside);
    }
    let s = stock::clean_spec(spec);
    Ok(write_passes(s, n, cells, targets, nose, kinds, numbers, parts))
}
