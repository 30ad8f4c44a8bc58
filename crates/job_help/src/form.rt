// What in a line is not as a job has it.
ghost use Rattle.std.specs.Prelude.{◌≤◌, length};

use crate::field::{has, say_count, say_field};
use text::put_text;

// Whether a line begins as notes do elsewhere.
fn is_comment(s: &[u8]) -> bool {
    if s.len() == 0 {
        return false;
    }
    if s[0] == b'#' {
        return true;
    }
    if s[0] == b';' {
        return true;
    }
    if s.len() == 1 {
        return false;
    }
    (s[0] == b'/') & (s[1] == b'/')
}

// How many fields a line of a kind has, with the kind; 0 where there is no such kind.
fn fields_of(kind: &[u8]) -> usize {
    if text::same(kind, b"bar") {
        return 6;
    }
    if text::same(kind, b"line") {
        return 8;
    }
    if text::same(kind, b"thread_cut") {
        return 4;
    }
    if text::same(kind, b"thread_cut_inner") {
        return 4;
    }
    if text::same(kind, b"drill") {
        return 4;
    }
    if text::same(kind, b"ring") {
        return 5;
    }
    0
}

fn is_side(f: &[u8]) -> bool {
    text::same(f, b"outer") | text::same(f, b"inner")
}

fn is_number(f: &[u8]) -> bool {
    job_words::read_number(f).is_some()
}

// The first field from the one at `first` on that is no number; all are counted from 0.
fn say_first(out: &mut [u8], at: usize, s: &[u8], first: usize, count: usize) -> usize
    ensures { result ≤ length out.old }
{
    for i in first..count {
        let f = text::part(s, b'\t', i);
        if !is_number(f) {
            return say_field(out, at, i, f);
        }
    }
    put_text(out, at, b"the line was refused")
}

// The fields of a line that needs so many: their number, then the numbers in them.
fn say_fields(out: &mut [u8], at: usize, s: &[u8], first: usize, needs: usize) -> usize
    ensures { result ≤ length out.old }
{
    let count = text::part_count(s, b'\t');
    if count != needs {
        return say_count(out, at, count, needs);
    }
    say_first(out, at, s, first, count)
}

// The fields of a `line`: its side comes first.
fn say_nose(out: &mut [u8], at: usize, s: &[u8]) -> usize
    ensures { result ≤ length out.old }
{
    if has(s, b'\t') {
        if !is_side(text::part(s, b'\t', 1)) {
            return put_text(out, at, b"field 2 is neither outer nor inner");
        }
    }
    say_fields(out, at, s, 2, 8)
}

// A line after the bar, by its first word.
fn say_kind(out: &mut [u8], at: usize, s: &[u8]) -> usize
    ensures { result ≤ length out.old }
{
    let kind = text::part(s, b'\t', 0);
    if text::same(kind, b"line") {
        return say_nose(out, at, s);
    }
    let needs = fields_of(kind);
    if needs == 0 {
        return put_text(out, at, b"the first word is not one that a job has");
    }
    say_fields(out, at, s, 1, needs)
}

// A line against what came before it: a bar comes first, and once.
fn say_turn(out: &mut [u8], at: usize, started: bool, s: &[u8]) -> usize
    ensures { result ≤ length out.old }
{
    let is_bar = text::same(text::part(s, b'\t', 0), b"bar");
    if started & is_bar {
        return put_text(out, at, b"a bar was given already");
    }
    if !(started | is_bar) {
        return put_text(out, at, b"a bar must come first");
    }
    say_kind(out, at, s)
}

// A line that is not empty. One that is a note, or has spaces for tabs, is told so at any place.
fn say_words(out: &mut [u8], at: usize, started: bool, s: &[u8]) -> usize
    ensures { result ≤ length out.old }
{
    if is_comment(s) {
        return put_text(out, at, b"a job has no comments");
    }
    if has(s, b' ') & !has(s, b'\t') {
        return put_text(out, at, b"fields are parted by spaces, not tabs");
    }
    say_turn(out, at, started, s)
}

// What in a line, with its newline where it found one, is not as a job has it. A line of zeros is what
// stands in the buffer before the first byte.
pub fn say_form(out: &mut [u8], at: usize, started: bool, line: &[u8]) -> usize
    ensures { result ≤ length out.old }
{
    if line.len() < text::part_count(line, 0) {
        return put_text(out, at, b"there is no line");
    }
    if !has(line, b'\n') {
        return put_text(out, at, b"the line has more than 128 bytes");
    }
    let s = text::part(line, b'\n', 0);
    if s.len() == 0 {
        return put_text(out, at, b"the line is empty");
    }
    if s[s.len() - 1] == b'\r' {
        return put_text(out, at, b"the line ends with a carriage return");
    }
    say_words(out, at, started, s)
}
