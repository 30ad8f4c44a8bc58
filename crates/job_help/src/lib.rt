// Why a job was refused, in one line of words for a person.
//
// The number is the answer, and the words promise nothing: they look at the refused line again, and
// say what in it the number means.
#![tactic(auto)]

ghost use Rattle.std.specs.Prelude.{◌≤◌, length};

use job_run::LINE_LIMIT;
use job_streams::{End, Ended};
use std::io::Write;
use std::rt::Clock;
use streams::GATHERED;
use text::{front, put_count, put_text};

mod field;
mod form;
mod values;

// What refuses a line as no line of a job: how the input ended, or the line itself.
fn say_malformed(out: &mut [u8], at: usize, end: End, started: bool, line: &[u8]) -> usize
    ensures { result ≤ length out.old }
{
    match end {
        End::Cut => put_text(out, at, b"the input could not be read to its end"),
        End::Inside => put_text(out, at, b"the input ends here, without a newline"),
        End::Whole => form::say_form(out, at, started, line),
    }
}

// What the number of a refusal means for the refused line.
fn say_reason(out: &mut [u8], at: usize, number: u64, end: End, started: bool, line: &[u8]) -> usize
    ensures { result ≤ length out.old }
{
    match number {
        1 => values::say_values(out, at, line),
        2 => put_text(out, at, b"the bar has more than 512 cells"),
        5 => values::say_values(out, at, line),
        11 => put_text(
            out,
            at,
            b"no room: more than 64 rings would be stored, or the ring falls into more than 256 pieces",
        ),
        12 => put_text(out, at, b"the generation has reached its last number"),
        13 => put_text(
            out,
            at,
            b"an arc: give it as chords, as lines with their sag",
        ),
        15 => say_malformed(out, at, end, started, line),
        _ => put_text(out, at, b"the line was refused"),
    }
}

// Puts why line k of a job was refused with a number, and answers the words' length; 256 bytes have
// room for any. `end` is how the input ended, `started` whether a bar was accepted before, and `line`
// has the refused line at its front, with its newline where it found one.
pub fn why(
    out: &mut [u8],
    number: u64,
    k: u64,
    end: End,
    started: bool,
    line: &[u8; LINE_LIMIT],
) -> usize
    ensures { result ≤ length out.old }
{
    let a = put_text(out, 0, b"line ");
    let b = put_count(out, a, k);
    let c = put_text(out, b, b": ");
    let d = put_count(out, c, number);
    let e = put_text(out, d, b": ");
    let f = say_reason(out, e, number, end, started, line);
    put_text(out, f, b"\n")
}

// Writes why a job was refused, in one line; nothing where it was not. Tells whether all is written.
pub fn write_why(
    rt: &(impl Eprint + Clock),
    to: &mut impl Write,
    ended: Ended,
    line: &[u8; LINE_LIMIT],
) -> bool {
    let run = ended.run;
    if run.refused == 0 {
        return true;
    }
    let job = run.job;
    let end = ended.end;
    let mut words = [0u8; 256];
    let n = why(
        &mut words,
        run.refused,
        run.lines,
        end,
        job.cells != 0,
        line,
    );
    let mut gathered = [0u8; GATHERED];
    let out = streams::put(rt, to, streams::fresh(), &mut gathered, front(&words, n));
    streams::flush(rt, to, out, &gathered)
}

// What the number of a refusal means for a stock file.
fn say_stock(out: &mut [u8], at: usize, number: u64) -> usize
    ensures { result ≤ length out.old }
{
    match number {
        1 => put_text(out, at, b"the bar has numbers outside their limits"),
        2 => put_text(out, at, b"the bar has more than 512 cells"),
        3 => put_text(
            out,
            at,
            b"the cells are not as many as the bar has, or one does not fit into it",
        ),
        4 => put_text(
            out,
            at,
            b"more than 64 rings, or one that lies outside the bar or shares a point with another",
        ),
        16 => put_text(
            out,
            at,
            b"no line of a stock file, or one out of its order, cut off or missing",
        ),
        _ => put_text(out, at, b"the file was refused"),
    }
}

// Puts why a stock file was refused with a number, at line k where that is not 0, and answers the words'
// length; 256 bytes have room for any.
pub fn stock_why(out: &mut [u8], number: u64, k: u64) -> usize
    ensures { result ≤ length out.old }
{
    let a = put_text(out, 0, b"stock file");
    let b = put_line_number(out, a, k);
    let c = put_text(out, b, b": ");
    let d = put_count(out, c, number);
    let e = put_text(out, d, b": ");
    let f = say_stock(out, e, number);
    put_text(out, f, b"\n")
}

// The number of a line, where there is one.
fn put_line_number(out: &mut [u8], at: usize, k: u64) -> usize
    requires { at ≤ length out.old }
    ensures { result ≤ length out.old }
{
    if k == 0 {
        return at;
    }
    let a = put_text(out, at, b", line ");
    put_count(out, a, k)
}

// Writes why a stock file was refused, in one line. Tells whether all is written.
pub fn write_stock_why(
    rt: &(impl Eprint + Clock),
    to: &mut impl Write,
    number: u64,
    k: u64,
) -> bool {
    let mut words = [0u8; 256];
    let n = stock_why(&mut words, number, k);
    let mut gathered = [0u8; GATHERED];
    let out = streams::put(rt, to, streams::fresh(), &mut gathered, front(&words, n));
    streams::flush(rt, to, out, &gathered)
}
