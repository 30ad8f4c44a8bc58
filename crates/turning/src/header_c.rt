// The number of the header that the calls are declared in.
ghost use Rattle.std.specs.Prelude.{◌≡◌};

// TURNING_HEADER of include/turning.h.
pub fn turning_header() -> u32
    ensures { result ≡ 7 }
{
    7
}
