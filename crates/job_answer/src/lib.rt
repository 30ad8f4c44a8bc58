// A job's answer, line by line: its cells, its rings and its generation, or the one refusal.
#![tactic(auto)]

ghost use Rattle.std.specs.Prelude.{[], get_or};
ghost use Rattle.text.specs.Wrote.{WritesLine};
ghost use Rattle.job_answer.specs.Lines.{cell_line, gen_line, refused_line};
ghost use Rattle.job_answer.specs.Answer.{answer_of};

use text::{LINE_ROOM, put, put_decimal};

// `cell`, its index and its four bounds; answers how many bytes of the buffer hold it.
pub fn cell_line(out: &mut [u8; LINE_ROOM], i: u64, a: f64, b: f64, c: f64, d: f64) -> usize
    ensures { WritesLine out (cell_line i a b c d) result }
{
    let e0 = put(out, 0, b"cell\t");
    let e1 = put_decimal(out, e0, i);
    text::put_four(out, e1, a, b, c, d)
}

pub fn gen_line(out: &mut [u8; LINE_ROOM], n: u64) -> usize
    ensures { WritesLine out (gen_line n) result }
{
    let e0 = put(out, 0, b"gen\t");
    let e1 = put_decimal(out, e0, n);
    put(out, e1, b"\n")
}

pub fn refused_line(out: &mut [u8; LINE_ROOM], k: u64, n: u64) -> usize
    ensures { WritesLine out (refused_line k n) result }
{
    let e0 = put(out, 0, b"refused\t");
    let e1 = put_decimal(out, e0, k);
    let e2 = put(out, e1, b"\t");
    let e3 = put_decimal(out, e2, n);
    put(out, e3, b"\n")
}

// Puts the line at k of the answer, and answers its length; past the last line, 0.
pub fn answer_line(
    out: &mut [u8; LINE_ROOM],
    refused: u64,
    line: u64,
    generation: u64,
    cells: &[f64],
    rings: &[f64],
    k: usize,
) -> usize
    ensures { WritesLine out (get_or (answer_of refused line generation cells.now rings.now) k []) result }
{
    if refused != 0 {
        if k == 0 {
            return refused_line(out, line, refused);
        }
        return 0;
    }
    let n = cells.len() / 4;
    if k < n {
        let at = k * 4;
        return cell_line(
            out,
            k as u64,
            cells[at],
            cells[at + 1],
            cells[at + 2],
            cells[at + 3],
        );
    }
    let j = k - n;
    let m = rings.len() / 4;
    if j < m {
        let at = j * 4;
        return text::ring_line(out, rings[at], rings[at + 1], rings[at + 2], rings[at + 3]);
    }
    if j == m {
        return gen_line(out, generation);
    }
    0
}
