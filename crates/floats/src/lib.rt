// The numbers of f64: the lesser and the greater by comparison, -0.0 read as +0.0, and which values
// are arguments.
//
// The laws of proofs/ are what every other crate leans on: the order of all values that are no NaN
// (Keys, Order) and of any floats (Anywhere, Bounding), least and greatest as its lattice and folds over
// them in any order (Lattice, Folds), what rounding does to an order and to a size (Rounded, Signed,
// Within, Ratio), which results are finite (FiniteTest) and which are not -0.0 (Exact, Zeros), and a Bool
// beside what it says (Bools).
#![tactic(auto)]

ghost use Rattle.std.specs.Prelude.{◌≡◌};
ghost use Rattle.floats.specs.Numbers.{least_of, greatest_of, size_of, minus_zero, clean_of, usable};

// The lesser of two; the first where neither is less.
pub fn least(a: f64, b: f64) -> f64
    ensures { result ≡ least_of a b }
{
    if b < a { b } else { a }
}

// The greater of two; the first where neither is greater.
pub fn greatest(a: f64, b: f64) -> f64
    ensures { result ≡ greatest_of a b }
{
    if a < b { b } else { a }
}

// The absolute value.
pub fn abs(x: f64) -> f64
    ensures { result ≡ size_of x }
{
    if x < 0.0 { -x } else { x }
}

// x, with -0.0 read as +0.0.
pub fn clean(x: f64) -> f64
    ensures { result ≡ clean_of x }
{
    if x == 0.0 { 0.0 } else { x }
}

// x is -0.0: zero, and its bits are not those of +0.0. The bits of a NaN are not looked at.
pub fn is_minus_zero(x: f64) -> bool
    ensures { result ≡ minus_zero x }
{
    if x == 0.0 {
        return f64::to_bits(x) != 0;
    }
    false
}

// x is finite and at most 1e6 in size.
pub fn is_usable(x: f64) -> bool
    ensures { result ≡ usable x }
{
    (-1000000.0 <= x) & (x <= 1000000.0)
}
