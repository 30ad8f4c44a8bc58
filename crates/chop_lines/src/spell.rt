// A chord as a line of a job, gathered to be written in two pieces: the words, the nose and the sag, then
// the ends.
ghost use Rattle.std.specs.Prelude.{◌≡◌, ◌+◌, ◌*◌, ◌≤◌, length};
ghost use Rattle.text.specs.Wrote.{WritesLine};
ghost use Rattle.streams.specs.Moves.{Puts};
ghost use Rattle.job_answer.specs.Lines.{refused_line};
ghost use Rattle.chop_lines.specs.Spelled.{line_words, front_text, ends_text, chord_text, chord_texts};
ghost use Rattle.chop_lines.specs.Chopped.{AllPut};

use crate::number::{put_field, sag_up};
use std::io::Write;
use std::rt::Clock;
use stock::TurnSide;
use streams::{GATHERED, Out};
use text::LINE_ROOM;

// The words of a line.
fn put_words(out: &mut [u8; LINE_ROOM], side: TurnSide) -> usize
    ensures { WritesLine out (line_words side) result }
{
    match side {
        TurnSide::Outer => text::put(out, 0, b"line\touter"),
        TurnSide::Inner => text::put(out, 0, b"line\tinner"),
    }
}

// The words, the nose and the sag.
fn front_text(out: &mut [u8; LINE_ROOM], side: TurnSide, rn: f64, sag: f64) -> usize
    ensures { WritesLine out (front_text side rn sag) result }
{
    let a = put_words(out, side);
    let b = put_field(out, a, rn);
    let c = text::put(out, b, b"\t");
    text::put_decimal(out, c, sag_up(sag))
}

// The ends.
fn ends_text(out: &mut [u8; LINE_ROOM], ar: f64, az: f64, br: f64, bz: f64) -> usize
    ensures { WritesLine out (ends_text ar az br bz) result }
{
    let a = put_field(out, 0, ar);
    let b = put_field(out, a, az);
    let c = put_field(out, b, br);
    let d = put_field(out, c, bz);
    text::put(out, d, b"\n")
}

// Gathers the first piece.
fn put_front(
    rt: &(impl Eprint + Clock),
    to: &mut impl Write,
    out: Out,
    gathered: &mut [u8; GATHERED],
    side: TurnSide,
    rn: f64,
    sag: f64,
) -> Out
    ensures { Puts out gathered.old (front_text side rn sag) result gathered.new }
{
    let mut line = [0u8; LINE_ROOM];
    let end = front_text(&mut line, side, rn, sag);
    streams::put(rt, to, out, gathered, &line[..end])
}

// Gathers the second.
fn put_ends(
    rt: &(impl Eprint + Clock),
    to: &mut impl Write,
    out: Out,
    gathered: &mut [u8; GATHERED],
    ar: f64,
    az: f64,
    br: f64,
    bz: f64,
) -> Out
    ensures { Puts out gathered.old (ends_text ar az br bz) result gathered.new }
{
    let mut line = [0u8; LINE_ROOM];
    let end = ends_text(&mut line, ar, az, br, bz);
    streams::put(rt, to, out, gathered, &line[..end])
}

// Gathers the line of chord k.
fn put_chord(
    rt: &(impl Eprint + Clock),
    to: &mut impl Write,
    out: Out,
    gathered: &mut [u8; GATHERED],
    side: TurnSide,
    rn: f64,
    chords: &[f64],
    k: usize,
) -> Out
    requires { 5 * k + 5 ≤ length chords.now }
    ensures { Puts out gathered.old (chord_text side rn chords.now k) result gathered.new }
{
    let at = 5 * k;
    let next = put_front(rt, to, out, gathered, side, rn, chords[at + 4]);
    put_ends(
        rt,
        to,
        next,
        gathered,
        chords[at],
        chords[at + 1],
        chords[at + 2],
        chords[at + 3],
    )
}

// Gathers the lines of the first n chords.
pub fn put_chords(
    rt: &(impl Eprint + Clock),
    to: &mut impl Write,
    gathered: &mut [u8; GATHERED],
    side: TurnSide,
    rn: f64,
    chords: &[f64],
    n: usize,
) -> Out
    requires { 5 * n ≤ length chords.now }
    ensures { AllPut (chord_texts side rn chords.now n) result gathered.new }
{
    let mut out = streams::fresh();
    for k in 0..n {
        out = put_chord(rt, to, out, gathered, side, rn, chords, k);
    }
    out
}

// Gathers a refusal.
pub fn put_refused(
    rt: &(impl Eprint + Clock),
    to: &mut impl Write,
    gathered: &mut [u8; GATHERED],
    line: u64,
    number: u64,
) -> Out
    ensures { AllPut (refused_line line number) result gathered.new }
{
    let mut own = [0u8; LINE_ROOM];
    let end = job_answer::refused_line(&mut own, line, number);
    streams::put(rt, to, streams::fresh(), gathered, &own[..end])
}
