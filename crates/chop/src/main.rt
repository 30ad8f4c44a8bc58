// Turns a profile on standard input into lines of a job on standard output, one for each of its chords,
// or tells the one refusal.
#![tactic(auto)]

use streams::GATHERED;

fn main(rt: HostRuntime) {
    let mut gathered = [0u8; GATHERED];
    let out = chop_lines::chop(&rt, &mut rt.stdin(), &mut rt.stdout(), &mut gathered);
    streams::flush(&rt, &mut rt.stdout(), out, &gathered);
}
