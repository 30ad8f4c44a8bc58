// What a line of a profile says: `profile` with a side, a nose and a tolerance, or `point` with a radius,
// a z and a bulge. Lengths are read as a job's.
ghost use Rattle.std.specs.Prelude.{◌≡◌};
ghost use Rattle.job_words.specs.Kind.{fields_of};
ghost use Rattle.chop_lines.specs.Words.{head_on, head_of, corner_of, words_of};

use crate::number::read_bulge;
use job_words::read_number;
use stock::TurnSide;

#[derive(Clone, Copy)]
pub enum Words {
    Head(TurnSide, f64, f64),
    Corner(f64, f64, f64),
    Bad,
}

fn read_head_on(s: &[u8], side: TurnSide) -> Words
    ensures { result ≡ head_on (fields_of s.now) side }
{
    let Some(rn) = read_number(text::part(s, b'\t', 2)) else {
        return Words::Bad;
    };
    let Some(tolerance) = read_number(text::part(s, b'\t', 3)) else {
        return Words::Bad;
    };
    Words::Head(side, rn, tolerance)
}

fn read_head(s: &[u8]) -> Words
    ensures { result ≡ head_of (fields_of s.now) }
{
    let w = text::part(s, b'\t', 1);
    if text::same(w, b"outer") {
        return read_head_on(s, TurnSide::Outer);
    }
    if text::same(w, b"inner") {
        return read_head_on(s, TurnSide::Inner);
    }
    Words::Bad
}

fn read_corner(s: &[u8]) -> Words
    ensures { result ≡ corner_of (fields_of s.now) }
{
    let Some(r) = read_number(text::part(s, b'\t', 1)) else {
        return Words::Bad;
    };
    let Some(z) = read_number(text::part(s, b'\t', 2)) else {
        return Words::Bad;
    };
    let Some(bulge) = read_bulge(text::part(s, b'\t', 3)) else {
        return Words::Bad;
    };
    Words::Corner(r, z, bulge)
}

// A line without its newline. Both kinds have four fields.
pub fn read_words(s: &[u8]) -> Words
    ensures { result ≡ words_of s.now }
{
    if text::part_count(s, b'\t') != 4 {
        return Words::Bad;
    }
    let kind = text::part(s, b'\t', 0);
    if text::same(kind, b"profile") {
        return read_head(s);
    }
    if text::same(kind, b"point") {
        return read_corner(s);
    }
    Words::Bad
}
