// Both forms of a change list, end to end.
//
// A radius is asked of an envelope that keeps its points. A thread to that radius is previewed into
// lent records, which are committed as they stand; and beside it the flat calls do the same on a
// stock of their own. A list of edition 2 is refused on edition 3, and kept numbers that do not match
// the cells are refused, in both forms. The program writes what each answers, whether the cells are the
// same, and whether the kept numbers are those worked out of the cells.
#![tactic(auto)]

ghost use Rattle.std.specs.Prelude.{◌≡◌, replicate};
ghost use Rattle.refusals.specs.Number.{paper_of};
ghost use Rattle.refusals.specs.Lent.{over};
ghost use Rattle.envelope.specs.Envelope.{radius_at_of};
ghost use Rattle.changes.specs.Change.{written_of};
ghost use Rattle.changes.specs.Commit.{commit_of, CommitsKept};
ghost use Rattle.cuts.specs.declared.Tool.TheVariants.{Single};
ghost use Rattle.cuts.specs.Preview.{preview_cut};
ghost use Rattle.change_slices.specs.Proposal.{Writes};

use changes::ChangeList;
use cuts::{Cut, Tool};
use envelope::held::Envelope;
use refusals::{Refusal, Refused};
use stock::{Stamp, TurnChange, TurnStock, TurnStockSpec};

// The highest radius at u, of an envelope that keeps the points.
fn radius(points: &[f64], u: f64) -> Result<Option<f64>, Refusal>
    ensures { paper_of result ≡ radius_at_of points.now u }
{
    Envelope::new(points).radius_at(u)
}

// A single cut as a tool.
fn single(cut: Cut) -> Tool
    ensures { result ≡ Single cut }
{
    Tool::Single(cut)
}

// A single cut, previewed into records. It has no numbers beside it, and the cells stand for them.
fn preview_cut(
    stock: TurnStock,
    cells: &[f64],
    cut: Cut,
    changes: &mut [TurnChange],
) -> Result<ChangeList, Refusal>
    ensures { Writes stock.stamp (preview_cut stock.spec cells.now cut) result changes }
{
    let tool = single(cut);
    change_slices::propose(stock, cells, tool, cells, changes)
}

// A cut of two cells, previewed for the stock `other` into two records that began blank, and committed
// from them to the stock, as the list of the other one.
fn cut_two(
    stock: TurnStock,
    cells: &mut [f64],
    blocks: &mut [f64],
    other: TurnStock,
    cut: Cut,
    blank: TurnChange,
) -> Result<TurnStock, Refused>
    ensures { CommitsKept stock (commit_of stock cells.old blocks.old other.stamp (over (written_of (preview_cut other.spec cells.old cut 2)) (replicate 2 blank))) result cells blocks }
{
    let mut changes = [blank; 2];
    let _ = preview_cut(other, cells, cut, &mut changes);
    change_slices::apply(stock, cells, blocks, other.stamp, &changes)
}

// The same with flat lists.
fn cut_flat(
    stock: TurnStock,
    cells: &mut [f64],
    blocks: &mut [f64],
    other: TurnStock,
    cut: Cut,
) -> Result<TurnStock, Refused> {
    let mut indices = [0usize; 2];
    let mut records = [0.0f64; 16];
    let answer = cuts::preview_cut(other, cells, cut, &mut indices, &mut records);
    match answer {
        Err(r) => Err(Refused::from(r)),
        Ok(list) => changes::apply(stock, cells, blocks, list, &indices, &records),
    }
}

fn say_no(r: Refusal) {
    io::write_all(1, b"refused ");
    io::print_decimal(1, refusals::number(r) as u64);
    io::write_all(1, b"\n");
}

fn say(answer: Result<TurnStock, Refused>) {
    match answer {
        Ok(k) => {
            io::write_all(1, b"edition ");
            io::print_decimal(1, k.stamp.edition as u64);
            io::write_all(1, b" generation ");
            io::print_decimal(1, k.stamp.generation);
            io::write_all(1, b"\n");
        }
        Err(
            Refused {
                why: r,
                place: None,
            },
        ) => say_no(r),
        Err(
            Refused {
                why: r,
                place: Some(k),
            },
        ) => {
            io::write_all(1, b"change ");
            io::print_decimal(1, k as u64);
            io::write_all(1, b" ");
            say_no(r);
        }
    }
}

fn say_if(yes: bool) {
    if yes {
        io::write_all(1, b"yes\n");
    } else {
        io::write_all(1, b"no\n");
    }
}

// Cell i of two stocks is the same.
fn same_at(a: &[f64], b: &[f64], i: usize) -> bool {
    stock::same_cell(stock::cell_at(a, i), stock::cell_at(b, i))
}

// The four cells of two stocks are the same.
fn same_cells(a: &[f64], b: &[f64]) -> bool {
    same_at(a, b, 0) & same_at(a, b, 1) & same_at(a, b, 2) & same_at(a, b, 3)
}

// A bar of four cells, of an edition.
fn bar(edition: u32) -> TurnStock {
    let spec = TurnStockSpec {
        z_min_mm: 0.0,
        z_max_mm: 4.0,
        outer_radius_mm: 10.0,
        bore_radius_mm: 0.0,
        cell_mm: 1.0,
        max_cells: 4,
    };
    TurnStock {
        spec,
        stamp: Stamp {
            edition,
            generation: 0,
        },
        rings: 0,
    }
}

// Number i of a list; a NaN where there is none.
fn number(numbers: &[f64], i: usize) -> f64 {
    if i < numbers.len() {
        return numbers[i];
    }
    0.0 / 0.0
}

// Number i of two lists has the same bits.
fn same_number(a: &[f64], b: &[f64], i: usize) -> bool {
    let x = number(a, i);
    let y = number(b, i);
    (x == y) & (floats::is_minus_zero(x) == floats::is_minus_zero(y))
}

// The kept numbers of a stock are those worked out of its cells, to the bit.
fn say_kept(spec: TurnStockSpec, cells: &[f64], blocks: &[f64]) {
    let mut fresh = [0.0f64; 2];
    let _ = blocks::renew(spec, cells, &mut fresh);
    say_if(same_number(&fresh, blocks, 0) & same_number(&fresh, blocks, 1));
}

// The change of a cell to itself.
fn unchanged(cells: &[f64]) -> TurnChange {
    let before = stock::cell_at(cells, 0);
    TurnChange {
        index: 0,
        before,
        after: before,
    }
}

// A cut of a bar of edition 3, as a list of the stock `other` and with `outer` as a kept number, in both
// forms.
fn try_both(other: TurnStock, outer: f64, cut: Cut) {
    let stock = bar(3);
    let mut kept = [0.0f64; 16];
    let mut flat = [0.0f64; 16];
    let mut kept_blocks = [outer, 0.0];
    let mut flat_blocks = [outer, 0.0];
    let _ = stock::fill(stock.spec, 3, &mut kept);
    let _ = stock::fill(stock.spec, 3, &mut flat);
    let blank = unchanged(&kept);
    io::write_all(1, b"records ");
    say(cut_two(stock, &mut kept, &mut kept_blocks, other, cut, blank));
    io::write_all(1, b"flat ");
    say(cut_flat(stock, &mut flat, &mut flat_blocks, other, cut));
}

// The same with no kept numbers.
fn try_none(cut: Cut) {
    let stock = bar(3);
    let mut kept = [0.0f64; 16];
    let mut flat = [0.0f64; 16];
    let mut numbers = [10.0f64, 0.0];
    let _ = stock::fill(stock.spec, 3, &mut kept);
    let _ = stock::fill(stock.spec, 3, &mut flat);
    let blank = unchanged(&kept);
    io::write_all(1, b"records ");
    say(cut_two(stock, &mut kept, &mut numbers[..0], stock, cut, blank));
    io::write_all(1, b"flat ");
    say(cut_flat(stock, &mut flat, &mut numbers[..0], stock, cut));
}

// What is refused, in both forms: a list of edition 2 on edition 3, a kept number an ulp too high, and
// no kept number.
fn refused_both(cut: Cut) {
    io::write_all(1, b"of edition 2 on edition 3:\n");
    try_both(bar(2), 10.0, cut);
    io::write_all(1, b"a kept number an ulp too high:\n");
    try_both(bar(3), 10.000000000000002, cut);
    io::write_all(1, b"no kept number:\n");
    try_none(cut);
}

// What a cut to 8 left of a bar in both forms.
fn say_left(
    spec: TurnStockSpec,
    kept: &[f64],
    kept_blocks: &[f64],
    flat: &[f64],
    flat_blocks: &[f64],
) {
    io::write_all(1, b"the same cells: ");
    say_if(same_cells(kept, flat));
    io::write_all(1, b"the kept numbers are those of the cells: ");
    say_kept(spec, kept, kept_blocks);
    io::write_all(1, b"and flat: ");
    say_kept(spec, flat, flat_blocks);
    io::write_all(1, b"cut to 8: ");
    let cell = stock::cell_at(kept, 2);
    say_if(cell.outer.lower_mm == 8.0);
}

// A cut of a bar of edition 3 in both forms. One kept number is -0.0 where the bar has 0.
fn cut_both(cut: Cut) {
    let stock = bar(3);
    let mut kept = [0.0f64; 16];
    let mut flat = [0.0f64; 16];
    let mut kept_blocks = [10.0f64, -0.0];
    let mut flat_blocks = [10.0f64, -0.0];
    let _ = stock::fill(stock.spec, 3, &mut kept);
    let _ = stock::fill(stock.spec, 3, &mut flat);
    let blank = unchanged(&kept);
    io::write_all(1, b"records: ");
    say(cut_two(stock, &mut kept, &mut kept_blocks, stock, cut, blank));
    io::write_all(1, b"flat: ");
    say(cut_flat(stock, &mut flat, &mut flat_blocks, stock, cut));
    say_left(stock.spec, &kept, &kept_blocks, &flat, &flat_blocks);
}

// A thread to the radius r.
fn thread_to(r: f64) {
    let cut = Cut::Thread {
        z0: 3.0,
        z1: 1.0,
        radius: r,
    };
    refused_both(cut);
    cut_both(cut);
}

fn main() {
    io::write_all(1, b"envelope at 2: ");
    let found = radius(&[0.0, 6.0, 4.0, 10.0], 2.0);
    match found {
        Ok(Some(r)) => {
            say_if(r == 8.0);
            thread_to(r);
        }
        Ok(None) => {
            io::write_all(1, b"nowhere\n");
        }
        Err(r) => say_no(r),
    }
}
