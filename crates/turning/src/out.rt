// What a call hands out: a value, or the number of a refusal, with its place where it has one.
ghost use Rattle.std.specs.Prelude.{◌≡◌};
ghost use Rattle.refusals.specs.Number.{paper_of, reason_in};
ghost use Rattle.turning.specs.Boundary.{Hands, HandsFound, HandsReason};

use refusals::{Refusal, Refused};

// A value handed out, or the number of the refusal.
pub fn give<A: Copy>(answer: Result<A, Refusal>, out: &mut A) -> u32
    ensures { Hands (paper_of answer) result out }
{
    match answer {
        Err(r) => refusals::number(r),
        Ok(a) => {
            *out = a;
            0
        }
    }
}

// Whether there is one and, where there is, the number; or the number of the refusal.
pub fn give_found(answer: Result<Option<f64>, Refusal>, found: &mut u32, out: &mut f64) -> u32
    ensures { HandsFound (paper_of answer) result found out }
{
    match answer {
        Err(r) => refusals::number(r),
        Ok(None) => {
            *found = 0;
            0
        }
        Ok(Some(x)) => {
            *found = 1;
            *out = x;
            0
        }
    }
}

// The number of a refusal, and its place where it has one.
pub fn give_place(refused: Refused, position: &mut usize) -> u32
    ensures { HandsReason (reason_in refused) result position }
{
    if let Some(k) = refused.place {
        *position = k;
    }
    refusals::number(refused.why)
}
