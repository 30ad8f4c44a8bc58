// A program's arguments, files by name, and what is told where one cannot be opened.
ghost use Rattle.std.specs.Prelude.{◌≤◌, length};
ghost use Rattle.io.specs.Counts.{IsPrefixLen};

use std::env::FillError;
use std::io::{ErrorKind, Read, Write};
use std::rt::{Env, Files};
use std::{fs, io};

// Room for the words of an error.
const WORDS: usize = 256;

// The words of an error, without the system's number for it behind them.
fn words_alone(words: &str) -> &str {
    match words.rsplit_once(" (os error ") {
        Some((front, _)) => front,
        None => words,
    }
}

// The words of an error put into a buffer; how many bytes are left.
fn put_words(error: io::Error, mut room: &mut [u8]) -> usize {
    let _ = write!(room, "{error}");
    room.len()
}

// Tells on standard error what failed, and why.
pub fn fail(rt: &impl Eprint, what: &str, error: io::Error) {
    let mut room = [0u8; WORDS];
    let left = put_words(error, &mut room);
    if left <= WORDS {
        if let Ok(words) = str::from_utf8(&room[..WORDS - left]) {
            let alone = words_alone(words);
            let _ = eprintln!(rt; "{what}: {alone}");
            return;
        }
    }
    let _ = eprintln!(rt; "{what}: {error}");
}

// The same of a file, by its name.
pub fn fail_at(rt: &impl Eprint, name: &[u8], error: io::Error) {
    match path_of(name) {
        Ok(path) => fail(rt, path, error),
        Err(_) => fail(rt, "a file", error),
    }
}

// How many arguments there are, the program's own name among them.
pub fn argument_count(rt: &impl Env) -> usize {
    let mut room = [0u8; 1];
    for i in 0..usize::MAX {
        match rt.arg(i, &mut room) {
            Err(FillError::NotPresent) => return i,
            Err(FillError::TooLong) => {}
            Ok(_) => {}
        }
    }
    usize::MAX
}

// Puts argument i at the front of the buffer, and answers its length; 0 where there is none, or where
// it finds no room.
pub fn argument(rt: &impl Env, i: usize, buf: &mut [u8]) -> usize
    ensures { IsPrefixLen result buf.new }
{
    rt.arg(i, buf).unwrap_or(0)
}

// A name as a path, which is text.
pub fn path_of(name: &[u8]) -> io::Result<&str> {
    str::from_utf8(name).map_err(|_| io::Error::new(
        ErrorKind::InvalidInput,
        "the name is no UTF-8 text",
    ))
}

// Opens the file of a name to read it.
pub fn open<R: Files>(rt: &R, name: &[u8]) -> io::Result<R::File> {
    fs::open(rt, path_of(name)?)
}

// Opens the file of a name to write it, emptied where it is there.
pub fn create<R: Files>(rt: &R, name: &[u8]) -> io::Result<R::File> {
    fs::create(rt, path_of(name)?)
}

// Gives a file another name, in the place of one that has it.
pub fn rename(rt: &impl Files, from: &[u8], to: &[u8]) -> io::Result<()> {
    fs::rename(rt, path_of(from)?, path_of(to)?)
}

// Takes the file of a name away.
pub fn remove(rt: &impl Files, name: &[u8]) -> io::Result<()> {
    fs::remove_file(rt, path_of(name)?)
}

// Reads until the buffer is full, the input ends or a read fails, and answers how many bytes it put at
// the buffer's front.
pub fn read_full(from: &mut impl Read, buf: &mut [u8]) -> usize
    ensures { IsPrefixLen result buf.new }
{
    let mut done: usize = 0;
    while done < buf.len() {
        match from.read(&mut buf[done..]) {
            Ok(0) => return done,
            Ok(n) => done += n,
            Err(_) => return done,
        }
    }
    done
}
