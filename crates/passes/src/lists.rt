// Proposed cuts, read from the lists in which they are lent: one kind a cut, six numbers, and of a nose or
// a polygon a part of the numbers beside them.
ghost use Rattle.std.specs.Prelude.{◌≡◌, [], ◌+◌, ◌*◌, ◌≤◌, ◌<◌, length, take, drop};
ghost use Rattle.stock.specs.Cell.{number_at};
ghost use Rattle.cuts.specs.declared.Cut.TheVariants.{Line};
ghost use Rattle.cuts.specs.declared.Tool.TheVariants.{Single};
ghost use Rattle.passes.specs.Cuts.{pass_limit, cuts_of, no_tool, is_swept, is_inside, part_lies, tool_of, pass_at};
ghost use Rattle.passes.specs.Check.{cuts_good};
ghost use Rattle.passes.specs.Steps.{six_of};

use cuts::{Cut, Tool};
use stock::TurnSide;

// The most cuts.
pub const PASS_LIMIT: usize = 128;

// An inside cut.
fn is_inside(kind: u32) -> bool
    ensures { result ≡ is_inside kind }
{
    (4 <= kind) & (kind <= 8)
}

// No more cuts than there may be, and none of them inside.
pub fn are_good(kinds: &[u32]) -> bool
    ensures { result ≡ cuts_good kinds.now }
{
    if PASS_LIMIT < kinds.len() {
        return false;
    }
    let mut ok = true;
    for k in 0..kinds.len() {
        ok = ok & !is_inside(kinds[k]);
    }
    ok
}

// Number j of cut k, or no number where there is none.
fn number_of(numbers: &[f64], k: usize, j: usize) -> f64
    requires { (k < pass_limit) × (j < 6) }
    ensures { result ≡ number_at numbers.now (6 * k + j) }
{
    let at = 6 * k + j;
    if at < numbers.len() {
        return numbers[at];
    }
    0.0 / 0.0
}

// A nose of radius rn along one segment.
fn line(side: TurnSide, rn: f64, sag: f64, a_r: f64, a_z: f64, b_r: f64, b_z: f64) -> Tool
    ensures { result ≡ Single (Line side rn sag a_r a_z b_r b_z) }
{
    Tool::Single(Cut::Line {
        side,
        rn,
        sag,
        a_r,
        a_z,
        b_r,
        b_z,
    })
}

// A tool that every preview refuses with 5: a nose of no radius.
fn no_tool() -> Tool
    ensures { result ≡ no_tool }
{
    Tool::Nose {
        side: TurnSide::Outer,
        rn: 0.0 / 0.0,
    }
}

// The tool of a kind from 4 on but 9: of an inside cut, or none.
fn inside_tool(kind: u32, a: f64, b: f64, c: f64, d: f64, e: f64, f: f64) -> Tool
    requires { (4 ≤ kind) × (kind ≡ 9 → ⊥) }
    ensures { result ≡ tool_of kind (six_of a b c d e f) }
{
    let side = TurnSide::Inner;
    if kind == 4 {
        return line(side, a, b, c, d, e, f);
    }
    if kind == 5 {
        return Tool::Single(Cut::ThreadInner {
            z0: a,
            z1: b,
            radius: c,
        });
    }
    if kind == 6 {
        return Tool::Nose { side, rn: a };
    }
    if kind == 7 {
        return Tool::Polygon { side, excess: a };
    }
    if kind == 8 {
        return Tool::Single(Cut::Drill {
            tip_z: a,
            radius: b,
            cone: c,
        });
    }
    no_tool()
}

// The tool of a kind with six numbers; none of a number that is no kind.
fn tool_of(kind: u32, a: f64, b: f64, c: f64, d: f64, e: f64, f: f64) -> Tool
    ensures { result ≡ tool_of kind (six_of a b c d e f) }
{
    let side = TurnSide::Outer;
    if kind == 0 {
        return line(side, a, b, c, d, e, f);
    }
    if kind == 1 {
        return Tool::Single(Cut::Thread {
            z0: a,
            z1: b,
            radius: c,
        });
    }
    if kind == 2 {
        return Tool::Nose { side, rn: a };
    }
    if kind == 3 {
        return Tool::Polygon { side, excess: a };
    }
    if kind == 9 {
        return Tool::Single(Cut::Arc);
    }
    inside_tool(kind, a, b, c, d, e, f)
}

// A nose or a polygon, which is swept along a part of the lists.
fn is_swept(kind: u32) -> bool
    ensures { result ≡ is_swept kind }
{
    (kind == 2) | (kind == 3) | (kind == 6) | (kind == 7)
}

// Part k lies in so many numbers.
fn part_lies(parts: &[usize], len: usize, k: usize) -> bool
    requires { k < pass_limit }
    ensures { result ≡ part_lies parts.now len k }
{
    let at = 2 * k;
    if parts.len() <= at + 1 {
        return false;
    }
    let start = parts[at];
    if len < start {
        return false;
    }
    parts[at + 1] <= len - start
}

// The tool of cut k; none where it is swept and its part lies beyond the lists.
pub fn tool_at(kinds: &[u32], numbers: &[f64], parts: &[usize], lists: &[f64], k: usize) -> Tool
    requires { (k < length kinds.now) × (k < pass_limit) }
    ensures { result ≡ (pass_at (cuts_of kinds.now numbers.now parts.now lists.now) k).tool }
{
    let kind = kinds[k];
    if is_swept(kind) & !part_lies(parts, lists.len(), k) {
        return no_tool();
    }
    let a = number_of(numbers, k, 0);
    let b = number_of(numbers, k, 1);
    let c = number_of(numbers, k, 2);
    let d = number_of(numbers, k, 3);
    let e = number_of(numbers, k, 4);
    let f = number_of(numbers, k, 5);
    tool_of(kind, a, b, c, d, e, f)
}

// So many numbers from so far on.
fn part(lists: &[f64], start: usize, count: usize) -> &[f64]
    requires { start + count ≤ length lists.now }
    ensures { result.now ≡ take count (drop start lists.now) }
{
    let end = start + count;
    &lists[start..end]
}

// The numbers beside the tool of cut k: its part where it is swept, else none.
pub fn beside_at<'a>(kinds: &[u32], parts: &[usize], lists: &'a [f64], k: usize) -> &'a [f64]
    requires { (k < length kinds.now) × (k < pass_limit) }
    ensures { result.now ≡ (pass_at (cuts_of kinds.now [] parts.now lists.now) k).beside }
{
    if is_swept(kinds[k]) & part_lies(parts, lists.len(), k) {
        return part(lists, parts[2 * k], parts[2 * k + 1]);
    }
    part(lists, 0, 0)
}
