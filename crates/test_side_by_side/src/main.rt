// Compares stock files by pairs of names that its arguments have, and writes each pair with what
// differs; then stocks of thousands of bins (`many`).
#![tactic(auto)]

mod many;

// Writes a name of a pair, and what stands behind it.
fn write_name(name: &[u8], behind: &[u8]) {
    io::write_all(1, name);
    io::write_all(1, behind);
}

// The files that arguments i and i + 1 name.
fn compare_pair(rt: &HostRuntime, i: usize) {
    let mut first = io::buffer();
    let mut second = io::buffer();
    let n = streams::argument(rt, i, &mut first);
    let m = streams::argument(rt, std::num::wrapping_add_usize(i, 1), &mut second);
    write_name(&first[..n], b" ");
    write_name(&second[..m], b"\n");
    side_streams::write_differences(rt, &mut rt.stdout(), &first[..n], &second[..m]);
}

fn main(rt: HostRuntime) {
    if !streams::hold_standard(&rt) {
        return;
    }
    let pairs = streams::argument_count(&rt) / 2;
    for k in 0..pairs {
        compare_pair(&rt, 2 * k + 1);
    }
    many::say_all();
}
