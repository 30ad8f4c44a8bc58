// The one line of a comparison that is refused: `refused`, the number of the file where it is one
// file's, the number of its line with 16, and the refusal's number.
ghost use Rattle.std.specs.Prelude.{◌≡◌, [], ◌∷◌};
ghost use Rattle.refusals.specs.Number.{paper_of, placed_of};
ghost use Rattle.text.specs.Wrote.{WritesLine};
ghost use Rattle.side_by_side.specs.Refused.{refused_with, file_refused, pair_refused};

use refusals::{Refusal, Refused};
use stock_file::Kept;
use text::LINE_ROOM;

// `refused` and one number.
fn refused_one(out: &mut [u8; LINE_ROOM], n: u64) -> usize
    ensures { WritesLine out (refused_with (n ∷ [])) result }
{
    let e0 = text::put(out, 0, b"refused\t");
    let e1 = text::put_decimal(out, e0, n);
    text::put(out, e1, b"\n")
}

// `refused` and three numbers.
fn refused_three(out: &mut [u8; LINE_ROOM], file: u64, line: u64, n: u64) -> usize
    ensures { WritesLine out (refused_with (file ∷ line ∷ n ∷ [])) result }
{
    let e0 = text::put(out, 0, b"refused\t");
    let e1 = text::put_decimal(out, e0, file);
    let e2 = text::put(out, e1, b"\t");
    let e3 = text::put_decimal(out, e2, line);
    let e4 = text::put(out, e3, b"\t");
    let e5 = text::put_decimal(out, e4, n);
    text::put(out, e5, b"\n")
}

// The line of a file that is refused; no bytes where it tells a stock.
pub fn file_refused(out: &mut [u8; LINE_ROOM], file: u64, kept: Result<Kept, Refused>) -> usize
    ensures { WritesLine out (file_refused file (placed_of kept)) result }
{
    match kept {
        Ok(_) => 0,
        Err(r) => {
            let n = u64::from(refusals::number(r.why));
            match r.place {
                None => job_answer::refused_line(out, file, n),
                Some(line) => refused_three(out, file, line as u64, n),
            }
        }
    }
}

// The line of two stocks that are refused; no bytes where they are compared.
pub fn pair_refused(out: &mut [u8; LINE_ROOM], compared: Result<usize, Refusal>) -> usize
    ensures { WritesLine out (pair_refused (paper_of compared)) result }
{
    match compared {
        Ok(_) => 0,
        Err(r) => refused_one(out, u64::from(refusals::number(r))),
    }
}
