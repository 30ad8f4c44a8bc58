// Targets: a lower and an upper radius for each bin, lent flat, two numbers a bin.
ghost use Rattle.std.specs.Prelude.{◌≡◌, ◌&&◌, ◌+◌, ◌*◌, ◌≤◌, length};
ghost use Rattle.std.specs.Float.Ieee.{le};
ghost use Rattle.floats.specs.Numbers.{clean_of};
ghost use Rattle.passes.specs.Check.{lower_at, upper_at, target_good, targets_to, targets_good};
ghost use Rattle.passes.specs.Steps.{MissedFirst};

use stock::TurnCell;

// The lower radius of bin i's target.
pub fn lower_at(targets: &[f64], i: usize) -> f64
    requires { 2 * i + 2 ≤ length targets.now }
    ensures { result ≡ lower_at targets.now i }
{
    floats::clean(targets[2 * i])
}

// And the upper one.
pub fn upper_at(targets: &[f64], i: usize) -> f64
    requires { 2 * i + 2 ≤ length targets.now }
    ensures { result ≡ upper_at targets.now i }
{
    floats::clean(targets[2 * i + 1])
}

// Both are usable, in their order.
fn target_good(targets: &[f64], i: usize) -> bool
    requires { 2 * i + 2 ≤ length targets.now }
    ensures { result ≡ target_good targets.now i }
{
    let lower = lower_at(targets, i);
    let upper = upper_at(targets, i);
    floats::is_usable(lower) & floats::is_usable(upper) & (lower <= upper)
}

// Those of the first n bins are.
fn targets_to(targets: &[f64], n: usize) -> bool
    requires { 2 * n ≤ length targets.now }
    ensures { result ≡ targets_to targets.now n }
{
    let mut ok = true;
    for i in 0..n {
        ok = ok & target_good(targets, i);
    }
    ok
}

// There are two for each of n bins, all good.
pub fn are_good(targets: &[f64], n: usize) -> bool
    ensures { result ≡ targets_good targets.now n }
{
    let pairs = targets.len() / 2;
    if pairs != n {
        return false;
    }
    if targets.len() != 2 * pairs {
        return false;
    }
    targets_to(targets, pairs)
}

// The outer bounds of a cell are within a target.
fn is_met(lower: f64, upper: f64, c: TurnCell) -> bool
    ensures { result ≡ (le (clean_of lower) c.outer.lower_mm && le c.outer.upper_mm (clean_of upper)) }
{
    let low = floats::clean(lower);
    let high = floats::clean(upper);
    (low <= c.outer.lower_mm) & (c.outer.upper_mm <= high)
}

// The first of n bins whose cell does not meet its target; n where each does.
pub fn first_miss(targets: &[f64], cells: &[f64], n: usize) -> usize
    requires { length targets.now ≡ 2 * n }
    ensures { MissedFirst targets.now cells.now n result }
{
    for i in 0..n {
        let c = stock::cell_at(cells, i);
        if !is_met(targets[2 * i], targets[2 * i + 1], c) {
            return i;
        }
    }
    n
}
