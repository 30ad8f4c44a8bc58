// Writes what differs between the two stock files that its arguments name, as lines of a stock file, or
// the one refusal. A file that is not named cannot be opened.
#![tactic(auto)]

fn main(rt: HostRuntime) {
    if !streams::hold_standard(&rt) {
        return;
    }
    if 3 < streams::argument_count(&rt) {
        io::write_all(2, b"stock_compare: only the first two files are compared\n");
    }
    let mut first = io::buffer();
    let mut second = io::buffer();
    let n = streams::argument(&rt, 1, &mut first);
    let m = streams::argument(&rt, 2, &mut second);
    side_streams::write_differences(&rt, &mut rt.stdout(), &first[..n], &second[..m]);
}
