// Root and length.
ghost use Rattle.numbers.specs.Root.{root_of};
ghost use Rattle.numbers.specs.Length.{length_of};
ghost use Rattle.turning.specs.Boundary.{Hands};

#[unsafe(no_mangle)]
pub extern "C" fn turning_root(x: f64, root: &mut f64) -> u32
    ensures { Hands (root_of x) result root }
{
    turning::turning_root(x, root)
}

#[unsafe(no_mangle)]
pub extern "C" fn turning_length(x: f64, y: f64, length: &mut f64) -> u32
    ensures { Hands (length_of x y) result length }
{
    turning::turning_length(x, y, length)
}
