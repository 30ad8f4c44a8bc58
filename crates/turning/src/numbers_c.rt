// Root and length.
ghost use Rattle.std.specs.Prelude.{◌≡◌};
ghost use Rattle.numbers.specs.Root.{root_of};
ghost use Rattle.numbers.specs.Length.{length_of};
ghost use Rattle.turning.specs.Boundary.{Hands};

use crate::out::give;

pub fn turning_root(x: f64, root: &mut f64) -> u32
    ensures { Hands (root_of x) result root }
{
    give(numbers::root(x), root)
}

pub fn turning_length(x: f64, y: f64, length: &mut f64) -> u32
    ensures { Hands (length_of x y) result length }
{
    give(numbers::length(x, y), length)
}
