// The lines that `job` does not have, and the words beside them.
use refusals::Refused;
use std::io::Write;
use streams::GATHERED;

// Whether an argument stands for no file.
pub fn is_none(path: &[u8]) -> bool {
    path == b"-".as_slice()
}

fn write(rt: &HostRuntime, to: &mut impl Write, bytes: &[u8]) {
    let mut gathered = [0u8; GATHERED];
    let out = streams::put(rt, to, streams::fresh(), &mut gathered, bytes);
    streams::flush(rt, to, out, &gathered);
}

// Fewer than two arguments.
pub fn usage(rt: &HostRuntime) {
    write(
        rt,
        &mut rt.stderr(),
        b"usage: job_from FROM TO [EDITION], FROM and TO each a file or -, EDITION 8 digits, 0 to 9 and A to F\n",
    );
}

// The second argument is empty.
pub fn no_name(rt: &HostRuntime) {
    write(rt, &mut rt.stderr(), b"TO: the name is empty\n");
}

// The second argument is too long for a name.
pub fn long_name(rt: &HostRuntime) {
    write(rt, &mut rt.stderr(), b"TO: File name too long\n");
}

// The third argument is no edition.
pub fn no_edition(rt: &HostRuntime) {
    write(rt, &mut rt.stdout(), b"refused\tedition\n");
    write(
        rt,
        &mut rt.stderr(),
        b"EDITION: 8 digits, 0 to 9 and A to F\n",
    );
}

// The stock that a job leaves could not be kept.
pub fn unwritten(rt: &HostRuntime) {
    write(rt, &mut rt.stdout(), b"unwritten\n");
}

// The number of a line and a tab, where there is one; no line has the number 0.
fn put_place(out: &mut [u8], i: usize, place: Option<usize>) -> usize {
    match place {
        Some(line) if line != 0 => {
            let end = text::put_count(out, i, line as u64);
            text::put_text(out, end, b"\t")
        }
        _ => i,
    }
}

// The line of a refused stock file: its line where it has one, and the number. Answers its length.
fn put_refused(out: &mut [u8], r: Refused) -> usize {
    let a = text::put_text(out, 0, b"refused\tstock\t");
    let b = put_place(out, a, r.place);
    let c = text::put_count(out, b, u64::from(refusals::number(r.why)));
    text::put_text(out, c, b"\n")
}

// A stock file is refused.
pub fn refused(rt: &HostRuntime, r: Refused) {
    let mut line = [0u8; 256];
    let n = put_refused(&mut line, r);
    write(rt, &mut rt.stdout(), text::front(&line, n));
    let number = u64::from(refusals::number(r.why));
    let at = r.place.unwrap_or(0);
    job_help::write_stock_why(rt, &mut rt.stderr(), number, at as u64);
}
