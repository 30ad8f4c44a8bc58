// Which number of a well-formed line is out of its bounds.
ghost use Rattle.std.specs.Prelude.{◌≤◌, length};

use cuts::Cut;
use job_words::Line;
use stock::TurnStockSpec;
use text::put_text;

fn say_bar(out: &mut [u8], at: usize, s: TurnStockSpec) -> usize
    ensures { result ≤ length out.old }
{
    if s.z_max_mm <= s.z_min_mm {
        return put_text(out, at, b"z_max is not above z_min");
    }
    if s.cell_mm <= 0.0 {
        return put_text(out, at, b"the cell is not above 0");
    }
    if s.bore_radius_mm < 0.0 {
        return put_text(out, at, b"the bore is below 0");
    }
    if s.outer_radius_mm <= s.bore_radius_mm {
        return put_text(out, at, b"the bore is not below the outer radius");
    }
    put_text(out, at, b"the bar's numbers make no bar")
}

fn say_nose(out: &mut [u8], at: usize, rn: f64, sag: f64) -> usize
    ensures { result ≤ length out.old }
{
    if rn < 0.0 {
        return put_text(out, at, b"field 3, the nose radius, is below 0");
    }
    if sag < 0.0 {
        return put_text(out, at, b"field 4, the sag, is below 0");
    }
    put_text(out, at, b"the line's numbers make no cut")
}

fn say_thread(out: &mut [u8], at: usize, radius: f64) -> usize
    ensures { result ≤ length out.old }
{
    if radius < 0.0 {
        return put_text(out, at, b"field 4, the radius, is below 0");
    }
    put_text(out, at, b"the thread's numbers make no cut")
}

fn say_drill(out: &mut [u8], at: usize, radius: f64) -> usize
    ensures { result ≤ length out.old }
{
    if radius <= 0.0 {
        return put_text(out, at, b"field 3, the radius, is not above 0");
    }
    put_text(out, at, b"the drill's numbers make no cut")
}

fn say_cut(out: &mut [u8], at: usize, cut: Cut) -> usize
    ensures { result ≤ length out.old }
{
    match cut {
        Cut::Line {
            side: _,
            rn,
            sag,
            a_r: _,
            a_z: _,
            b_r: _,
            b_z: _,
        } => say_nose(out, at, rn, sag),
        Cut::Thread {
            z0: _,
            z1: _,
            radius,
        } => say_thread(out, at, radius),
        Cut::ThreadInner {
            z0: _,
            z1: _,
            radius,
        } => say_thread(out, at, radius),
        Cut::Drill {
            tip_z: _,
            radius,
            cone: _,
        } => say_drill(out, at, radius),
        Cut::Arc => put_text(out, at, b"an arc has no numbers"),
    }
}

// What in the numbers of a bar or a cut is refused.
pub fn say_values(out: &mut [u8], at: usize, line: &[u8]) -> usize
    ensures { result ≤ length out.old }
{
    let read = job_words::read_line(text::part(line, b'\n', 0));
    match read {
        Line::Bar(spec) => say_bar(out, at, spec),
        Line::Cutting(cut) => say_cut(out, at, cut),
        Line::Removing(_) => put_text(out, at, b"the ring's numbers make no ring"),
        Line::Arc => put_text(out, at, b"an arc has no numbers"),
        Line::Bad => put_text(out, at, b"the line was refused"),
    }
}
