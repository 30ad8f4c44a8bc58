// What every program reads and writes by: one way to read from a reader, one way to write to a writer,
// and its arguments, of which some name files.
//
// A read that fails is no end of input: it cuts the input off. A call that a signal ended is made
// again, and so is one on a reader that has nothing to give or a writer without room yet, after a nap. Bytes to
// write are gathered, so that one call moves many of them; a write that fails is the last one. Either
// failure is told on standard error.
//
// No contract can say which bytes the system's `read` and `write` move.
#![tactic(auto)]

ghost use Rattle.std.specs.Prelude.{◌≡◌, ◌++◌, ◌+◌, ◌≤◌, length, take, true, false, max, min};
ghost use Rattle.io.specs.Counts.{IsPrefixLen};
ghost use Rattle.streams.specs.Brought.{brought_by, may_be_more, held_by};
ghost use Rattle.streams.specs.Moves.{Reads, Takes, SameFront, Puts};

use std::io;
use std::io::{ErrorKind, Read, Write};
use std::rt::Clock;

mod names;
mod rest;
mod standard;

pub use names::{
    argument, argument_count, create, fail, fail_at, open, path_of, read_full, remove, rename,
};
pub use standard::hold_standard;

// What a read brings: so many bytes at the front of the buffer, the end of the input, or a failure.
#[derive(Clone, Copy)]
pub enum Got {
    Bytes(usize),
    End,
    Cut,
}

impl Got {
    // How many bytes a read brought; at the end, none.
    pub fn brought(self) -> usize
        ensures { result ≡ brought_by self }
    {
        match self {
            Got::Bytes(n) => n,
            Got::End => 0,
            Got::Cut => 0,
        }
    }

    // Whether there may be more after a read.
    pub fn may_be_more(self) -> bool
        ensures { result ≡ may_be_more self }
    {
        match self {
            Got::Bytes(_) => true,
            Got::End => false,
            Got::Cut => false,
        }
    }

    // How many bytes of an unfinished line the input ends with: where it is cut off, there are some.
    pub fn held(self, len: usize) -> usize
        ensures { result ≡ held_by self len }
    {
        match self {
            Got::End => len,
            Got::Cut => 1,
            Got::Bytes(_) => 1,
        }
    }
}

// What is gathered: so many bytes, and whether a write has failed, after which
// nothing is written any more.
#[derive(Clone, Copy)]
pub struct Out {
    pub len: usize,
    pub failed: bool,
}

// So many bytes are gathered at most.
pub const GATHERED: usize = 65536;

// Whether a call that failed so is to be made again.
fn is_again(rt: &impl Clock, error: io::Error) -> bool {
    if error.kind() == ErrorKind::Interrupted {
        return true;
    }
    if error.kind() == ErrorKind::WouldBlock {
        rest::nap(rt);
        return true;
    }
    false
}

// ---- reading

// So many bytes are read at once at most.
pub const PART: usize = 65536;

// How many bytes are read at once: at least 1.
pub fn part_size(most: usize) -> usize
    ensures { (1 ≤ result) × (result ≤ 65536) × (result ≡ max 1 (min most 65536)) }
{
    most.min(PART).max(1)
}

// Reads what comes next. With no room for a byte it finds the end.
pub fn read_some(rt: &(impl Eprint + Clock), from: &mut impl Read, buf: &mut [u8]) -> Got
    ensures { Reads result buf.new }
{
    for _ in 0..u64::MAX {
        match from.read(buf) {
            Ok(0) => return Got::End,
            Ok(n) => return Got::Bytes(n),
            Err(e) => {
                if !is_again(rt, e) {
                    fail(rt, "read", e);
                    return Got::Cut;
                }
            }
        }
    }
    Got::Cut
}

// ---- writing

// What a write did: it took so many bytes, is to be made again, or failed.
#[derive(Clone, Copy)]
enum Took {
    Bytes(usize),
    Nothing,
    Failed,
}

fn write_some(rt: &(impl Eprint + Clock), to: &mut impl Write, bytes: &[u8]) -> Took
    ensures { Takes result bytes.now }
{
    match to.write(bytes) {
        Ok(0) => {
            let _ = eprintln!(rt; "write: no byte was taken");
            Took::Failed
        }
        Ok(n) => Took::Bytes(n),
        Err(e) => {
            if is_again(rt, e) {
                return Took::Nothing;
            }
            fail(rt, "write", e);
            Took::Failed
        }
    }
}

// Writes all the bytes, and answers whether none is left.
fn write_out(rt: &(impl Eprint + Clock), to: &mut impl Write, bytes: &[u8]) -> bool {
    let mut done: usize = 0;
    for _ in 0..u64::MAX {
        if bytes.len() <= done {
            return true;
        }
        match write_some(rt, to, &bytes[done..]) {
            Took::Bytes(n) => done += n,
            Took::Nothing => {}
            Took::Failed => return false,
        }
    }
    bytes.len() <= done
}

// Writes the first len bytes, all where there are fewer.
fn write_front(
    rt: &(impl Eprint + Clock),
    to: &mut impl Write,
    gathered: &[u8],
    len: usize,
) -> bool {
    if gathered.len() <= len {
        return write_out(rt, to, gathered);
    }
    write_out(rt, to, &gathered[..len])
}

// The bytes at a place of those that are gathered.
fn copy_in(gathered: &mut [u8], at: usize, bytes: &[u8])
    requires { at + length bytes.now ≤ length gathered.old }
    ensures { take (at + length bytes.now) gathered.new ≡ take at gathered.old ++ bytes.now }
{
    gathered[at..at + bytes.len()].copy_from_slice(bytes);
}

// So many of the bytes gathered are the first len, all where there are fewer.
fn at_most(len: usize) -> usize
    ensures { (result ≤ 65536) × SameFront result len }
{
    len.min(GATHERED)
}

// Nothing gathered yet.
pub fn fresh() -> Out
    ensures { (result.len ≡ 0) × (result.failed ≡ false) }
{
    Out {
        len: 0,
        failed: false,
    }
}

// Gathers some bytes more. Where they find no room, what was gathered is written first.
pub fn put(
    rt: &(impl Eprint + Clock),
    to: &mut impl Write,
    out: Out,
    gathered: &mut [u8; GATHERED],
    bytes: &[u8],
) -> Out
    ensures { Puts out gathered.old bytes.now result gathered.new }
{
    if out.failed {
        return out;
    }
    let len = at_most(out.len);
    let n = bytes.len();
    if n <= GATHERED - len {
        copy_in(gathered, len, bytes);
        return Out {
            len: len + n,
            failed: false,
        };
    }
    if !write_front(rt, to, gathered, len) {
        return Out {
            len: 0,
            failed: true,
        };
    }
    if n <= GATHERED {
        copy_in(gathered, 0, bytes);
        return Out {
            len: n,
            failed: false,
        };
    }
    let ok = write_out(rt, to, bytes);
    Out {
        len: 0,
        failed: !ok,
    }
}

// Writes what is gathered, and answers whether all that was put has been written.
pub fn flush(
    rt: &(impl Eprint + Clock),
    to: &mut impl Write,
    out: Out,
    gathered: &[u8; GATHERED],
) -> bool
    ensures { out.failed ≡ true → result ≡ false }
{
    !out.failed && write_front(rt, to, gathered, out.len)
}
