// The sample wheel of document 01.
//
// P1 to P13 are one table. `specs/Wheel` has the questions: the root of a number, the cells of a new
// bar after cuts that are each previewed and committed, the rings of a bar, what stands at a height.
// Their answers are the rules that the calls are proved to follow. `specs/Table` has the rows, and
// `proofs/Holds` the one statement: every row's question has the row's answer.
//
// The program runs 01's other examples, those of a list kept from another edition or generation, and
// those of kept numbers, and writes what it finds, a line each.
#![tactic(auto)]

use changes::ChangeList;
use cuts::Cut;
use refusals::{Refusal, Refused};
use rings::Ring;
use stock::{Stamp, TurnSide, TurnStock, TurnStockSpec};

// A bar from 0 on with cells of 1, outer radius 10 and no bore.
fn bar(z_max: f64) -> TurnStockSpec {
    TurnStockSpec {
        z_min_mm: 0.0,
        z_max_mm: z_max,
        outer_radius_mm: 10.0,
        bore_radius_mm: 0.0,
        cell_mm: 1.0,
        max_cells: 20000,
    }
}

// A stock of that bar with 4 cells, of an edition, with no rings, at generation 0.
fn bar_of(edition: u32) -> TurnStock {
    TurnStock {
        spec: bar(4.0),
        stamp: Stamp {
            edition,
            generation: 0,
        },
        rings: 0,
    }
}

fn say_no(r: Refusal) {
    io::write_all(1, b"refused ");
    io::print_decimal(1, u64::from(refusals::number(r)));
    io::write_all(1, b"\n");
}

// A count or a generation, or the number of the refusal.
fn say(answer: Result<u64, Refusal>) {
    match answer {
        Ok(n) => {
            io::write_all(1, b"accepted ");
            io::print_decimal(1, n);
            io::write_all(1, b"\n");
        }
        Err(r) => say_no(r),
    }
}

fn say_whether(so: bool) {
    if so {
        io::write_all(1, b"yes\n");
    } else {
        io::write_all(1, b"no\n");
    }
}

fn say_changes(answer: Result<ChangeList, Refusal>) {
    say(answer.map(|list| list.count as u64));
}

// The root of 2, against 3FF6A09E667F3BCD, which is 1.4142135623730951.
fn root_of_2() {
    io::write_all(1, b"root 2 is 3FF6A09E667F3BCD: ");
    match numbers::root(2.0) {
        Ok(x) => say_whether(x == 1.4142135623730951),
        Err(r) => say_no(r),
    }
}

// So many cells.
fn cells(z_max: f64) {
    io::write_all(1, b"cells: ");
    say(stock::validate(bar(z_max)).map(|n| n as u64));
}

// A nose along segments, over a bar of 4 cells.
fn nose_along(segments: &[f64]) {
    let mut lent = [0.0f64; 16];
    let mut indices = [0usize; 4];
    let mut records = [0.0f64; 32];
    let _ = stock::fill(bar(4.0), 0, &mut lent);
    io::write_all(1, b"segments: ");
    say_changes(cuts::preview(
        bar_of(0),
        &lent,
        TurnSide::Outer,
        0.5,
        segments,
        &mut indices,
        &mut records,
    ));
}

// P6's thread, which changes two cells, with so many lent indices.
fn records_for(indices: &mut [usize]) {
    let mut lent = [0.0f64; 16];
    let mut records = [0.0f64; 32];
    let _ = stock::fill(bar(4.0), 0, &mut lent);
    io::write_all(1, b"records: ");
    say_changes(cuts::preview_cut(
        bar_of(0),
        &lent,
        Cut::Thread {
            z0: 3.0,
            z1: 1.0,
            radius: 8.0,
        },
        indices,
        &mut records,
    ));
}

// A thread whose end stands at z.
fn thread_to(z: f64) {
    let mut lent = [0.0f64; 16];
    let mut indices = [0usize; 4];
    let mut records = [0.0f64; 32];
    let _ = stock::fill(bar(4.0), 0, &mut lent);
    io::write_all(1, b"thread: ");
    say_changes(cuts::preview_cut(
        bar_of(0),
        &lent,
        Cut::Thread {
            z0: 0.0,
            z1: z,
            radius: 8.0,
        },
        &mut indices,
        &mut records,
    ));
}

// A thread over all cells, previewed on this stock.
fn thread_on(
    stock: TurnStock,
    lent: &[f64],
    indices: &mut [usize],
    records: &mut [f64],
) -> Result<ChangeList, Refusal> {
    cuts::thread_cut(stock, lent, 0.0, 4.0, 8.0, indices, records)
}

// The list that was previewed, committed to this stock: its generation afterwards.
fn commit(
    stock: TurnStock,
    lent: &mut [f64],
    kept: &mut [f64],
    previewed: Result<ChangeList, Refusal>,
    indices: &[usize],
    records: &[f64],
) -> Result<u64, Refused> {
    let list = previewed?;
    let after = changes::apply(stock, lent, kept, list, indices, records)?;
    Ok(after.stamp.generation)
}

// The same of a rebuilt stock.
fn commit_rebuilt(
    rebuilt: Result<TurnStock, Refused>,
    lent: &mut [f64],
    kept: &mut [f64],
    previewed: Result<ChangeList, Refusal>,
    indices: &[usize],
    records: &[f64],
) -> Result<u64, Refused> {
    commit(rebuilt?, lent, kept, previewed, indices, records)
}

fn say_committed(answer: Result<u64, Refused>) {
    say(answer.map_err(|e| e.why));
}

// A bar of 4 cells of an edition, with its kept numbers: those of one block.
fn new_bar(edition: u32, lent: &mut [f64], kept: &mut [f64]) {
    let _ = stock::fill(bar(4.0), edition, lent);
    let _ = blocks::renew(bar(4.0), lent, kept);
}

// A list kept from one edition, committed to another, whose bins hold the same.
fn kept_from(first: u32, second: u32) {
    let mut lent = [0.0f64; 16];
    let mut kept = [0.0f64; 2];
    let mut indices = [0usize; 4];
    let mut records = [0.0f64; 32];
    new_bar(first, &mut lent, &mut kept);
    io::write_all(1, b"edition: ");
    let previewed = thread_on(bar_of(first), &lent, &mut indices, &mut records);
    say_committed(commit(
        bar_of(second),
        &mut lent,
        &mut kept,
        previewed,
        &indices,
        &records,
    ));
}

// The stock after a commit of no changes; the same where it is refused.
fn gone_on(stock: TurnStock, lent: &mut [f64], kept: &mut [f64]) -> TurnStock {
    let stamp = stock.stamp;
    let none = ChangeList { count: 0, stamp };
    changes::apply(stock, lent, kept, none, &[], &[]).unwrap_or(stock)
}

// A list kept over a commit that changed no cell.
fn kept_over_commit() {
    let mut lent = [0.0f64; 16];
    let mut kept = [0.0f64; 2];
    let mut indices = [0usize; 4];
    let mut records = [0.0f64; 32];
    new_bar(2, &mut lent, &mut kept);
    io::write_all(1, b"commit: ");
    let previewed = thread_on(bar_of(2), &lent, &mut indices, &mut records);
    let after = gone_on(bar_of(2), &mut lent, &mut kept);
    say_committed(commit(after, &mut lent, &mut kept, previewed, &indices, &records));
}

// The stock after a ring; the same where it is refused.
fn with_ring(stock: TurnStock, store: &mut [f64], ring: Ring) -> TurnStock {
    match rings::remove_ring(stock, store, ring) {
        Ok(removed) => removed.stock,
        Err(_) => stock,
    }
}

// A list kept over a ring, in a stock that has the ring z 0..2 r 2..6.
fn kept_over_ring(ring: Ring) {
    let mut lent = [0.0f64; 16];
    let mut kept = [0.0f64; 2];
    let mut store = [0.0f64; 32];
    let mut indices = [0usize; 4];
    let mut records = [0.0f64; 32];
    new_bar(2, &mut lent, &mut kept);
    let first = Ring {
        z0: 0.0,
        z1: 2.0,
        r0: 2.0,
        r1: 6.0,
    };
    let grooved = with_ring(bar_of(2), &mut store, first);
    io::write_all(1, b"ring: ");
    let previewed = thread_on(grooved, &lent, &mut indices, &mut records);
    let after = with_ring(grooved, &mut store, ring);
    say_committed(commit(after, &mut lent, &mut kept, previewed, &indices, &records));
}

// A list kept over a rebuild of the same cells: the stamp is the same again.
fn kept_over_rebuild(edition: u32) {
    let mut lent = [0.0f64; 16];
    let mut kept = [0.0f64; 2];
    let mut store = [0.0f64; 32];
    let mut indices = [0usize; 4];
    let mut records = [0.0f64; 32];
    new_bar(2, &mut lent, &mut kept);
    io::write_all(1, b"rebuild: ");
    let previewed = thread_on(bar_of(2), &lent, &mut indices, &mut records);
    let mut tests = [0usize; 4];
    let rebuilt = moves::from_parts(
        bar(4.0),
        edition,
        &lent,
        &mut kept,
        &[],
        &mut store,
        &mut tests,
    );
    say_committed(commit_rebuilt(rebuilt, &mut lent, &mut kept, previewed, &indices, &records));
}

// Whether the most that may remain from 1 to 3 reaches just so far out.
fn say_range(lent: &[f64], kept: &[f64], wanted: f64) {
    io::write_all(1, b"range: ");
    match blocks::range(bar(4.0), lent, kept, 1.0, 3.0) {
        Ok(Some(band)) => say_whether(band.outer == wanted),
        Ok(None) => {
            io::write_all(1, b"nothing\n");
        }
        Err(r) => say_no(r),
    }
}

// The bar turned down to 7, by a nose along all of it.
fn turned_down(lent: &mut [f64], kept: &mut [f64]) {
    let mut indices = [0usize; 4];
    let mut records = [0.0f64; 32];
    io::write_all(1, b"kept: ");
    let previewed = cuts::preview(
        bar_of(2),
        lent,
        TurnSide::Outer,
        0.5,
        &[7.5, -2.0, 7.5, 6.0, 0.0],
        &mut indices,
        &mut records,
    );
    say_committed(commit(bar_of(2), lent, kept, previewed, &indices, &records));
}

// A range before and after a commit, which renews the kept numbers; and by those of before it.
fn ranges_in(lent: &mut [f64], kept: &mut [f64], before: &mut [f64]) {
    new_bar(2, lent, kept);
    new_bar(2, lent, before);
    say_range(lent, kept, 10.0);
    turned_down(lent, kept);
    say_range(lent, kept, 7.0);
    say_range(lent, before, 7.0);
}

fn ranges() {
    let mut lent = [0.0f64; 16];
    let mut kept = [0.0f64; 2];
    let mut before = [0.0f64; 2];
    ranges_in(&mut lent, &mut kept, &mut before);
}

fn main() {
    root_of_2();
    cells(16383.0);
    cells(16384.0);
    cells(16385.0);
    nose_along(&[1.0f64; 20480]);
    nose_along(&[1.0f64; 20485]);
    records_for(&mut [0usize; 2]);
    records_for(&mut [0usize; 1]);
    thread_to(1000000.0);
    thread_to(1000000.0000000001);
    kept_from(2, 2);
    kept_from(2, 3);
    kept_over_commit();
    kept_over_ring(Ring {
        z0: 0.0,
        z1: 1.0,
        r0: 11.0,
        r1: 12.0,
    });
    kept_over_ring(Ring {
        z0: 0.0,
        z1: 1.0,
        r0: 3.0,
        r1: 4.0,
    });
    kept_over_rebuild(2);
    kept_over_rebuild(3);
    ranges();
}
