// A program's own descriptors.
use std::fs::File;
use std::io;
use std::os::fd::{AsFd, AsRawFd, IntoRawFd, RawFd};

// The system's number of the error that a descriptor is not open.
const NOT_OPEN: i32 = 9;

// A descriptor that is not open has no copy.
fn is_closed(number: &impl AsFd) -> bool {
    let copied = number.as_fd().try_clone_to_owned();
    copied.is_err_and(|e| e.raw_os_error() == Some(NOT_OPEN))
}

// Leaves a file open under its number, and answers whether that is the one that is wanted.
fn hold(opened: io::Result<File>, number: RawFd) -> bool {
    opened.is_ok_and(|file| file.into_raw_fd() == number)
}

// Takes the numbers of standard input, output and error where the program was started with one of
// them closed, so that no file that is opened later gets it. Each is opened the wrong way round: a
// read or a write of it still fails. Answers whether all three are taken.
pub fn hold_standard(rt: &HostRuntime) -> bool {
    let input = rt.stdin();
    let output = rt.stdout();
    let error = rt.stderr();
    if is_closed(&input) {
        if !hold(File::create(rt, "/dev/null"), input.as_raw_fd()) {
            return false;
        }
    }
    if is_closed(&output) {
        if !hold(File::open(rt, "/dev/null"), output.as_raw_fd()) {
            return false;
        }
    }
    if is_closed(&error) {
        if !hold(File::open(rt, "/dev/null"), error.as_raw_fd()) {
            return false;
        }
    }
    true
}
