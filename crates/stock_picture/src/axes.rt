// The axis as a chain line, and rulers of z and of the radius, with round ticks.
use crate::page::Frame;
use crate::pen::{number, number_after, say, step_for};
use streams::{GATHERED, Out};

// So many ticks a ruler has at most.
const TICKS: u64 = 64;

// The multiple of a step next to z, towards 0.
fn first_tick(z: f64, step: f64) -> f64 {
    let n = std::num::nearest_u64_to_f64(numbers::whole_part(floats::abs(z) / step));
    if z < 0.0 {
        return 0.0 - n * step;
    }
    n * step
}

// A tick of the z ruler at x on paper.
fn z_tick(rt: &HostRuntime, out: Out, gathered: &mut [u8; GATHERED], x: f64, z: f64) -> Out {
    let a = number_after(rt, out, gathered, b"<path d=\"M", x);
    let b = number_after(rt, a, gathered, b" 4.5v2\"/><text x=\"", x);
    let c = number_after(rt, b, gathered, b"\" y=\"10.3\">", z);
    say(rt, c, gathered, b"</text>\n")
}

// A tick of the radius' ruler at y on paper.
fn r_tick(rt: &HostRuntime, out: Out, gathered: &mut [u8; GATHERED], y: f64, r: f64) -> Out {
    let a = number_after(rt, out, gathered, b"<path d=\"M-5 ", y);
    let b = number_after(rt, a, gathered, b"h-2\"/><text x=\"-8\" y=\"", y);
    let c = number_after(rt, b, gathered, b"\" dy=\"1.2\">", r);
    say(rt, c, gathered, b"</text>\n")
}

// A tick of the z ruler, where it is within the bar.
fn z_tick_at(
    rt: &HostRuntime,
    out: Out,
    gathered: &mut [u8; GATHERED],
    frame: Frame,
    z: f64,
) -> Out {
    if (z < frame.spec.z_min_mm) | (frame.spec.z_max_mm < z) {
        return out;
    }
    z_tick(
        rt,
        out,
        gathered,
        (z - frame.spec.z_min_mm) * frame.along,
        z,
    )
}

// A tick of the radius' ruler, where it is within the bar.
fn r_tick_at(
    rt: &HostRuntime,
    out: Out,
    gathered: &mut [u8; GATHERED],
    frame: Frame,
    r: f64,
) -> Out {
    if frame.spec.outer_radius_mm < r {
        return out;
    }
    r_tick(rt, out, gathered, 0.0 - r * frame.up, r)
}

// How far ticks of z stand apart at least: short labels need less.
fn label_room(frame: Frame) -> f64 {
    let spec = frame.spec;
    if (-100.0 < spec.z_min_mm) & (spec.z_max_mm <= 100.0) & (frame.along <= 1000.0) {
        return 10.0;
    }
    18.0
}

// The ticks of the z ruler.
fn z_ticks(rt: &HostRuntime, out: Out, gathered: &mut [u8; GATHERED], frame: Frame) -> Out {
    let step = step_for(frame.along, label_room(frame));
    let base = first_tick(frame.spec.z_min_mm, step);
    let mut o = out;
    for k in 0..TICKS {
        let z = base + std::num::nearest_u64_to_f64(k) * step;
        o = z_tick_at(rt, o, gathered, frame, z);
    }
    o
}

// The ticks of the radius' ruler.
fn r_ticks(rt: &HostRuntime, out: Out, gathered: &mut [u8; GATHERED], frame: Frame) -> Out {
    let step = step_for(frame.up, 7.0);
    let mut o = out;
    for k in 0..TICKS {
        let r = std::num::nearest_u64_to_f64(k) * step;
        o = r_tick_at(rt, o, gathered, frame, r);
    }
    o
}

// A line along the axis.
fn line(
    rt: &HostRuntime,
    out: Out,
    gathered: &mut [u8; GATHERED],
    frame: Frame,
    opening: &[u8],
) -> Out {
    let a = say(rt, out, gathered, opening);
    let b = number(rt, a, gathered, frame.wide + 4.0);
    say(rt, b, gathered, b"\"/>\n")
}

// The axis, and the lines of both rulers.
fn lines(rt: &HostRuntime, out: Out, gathered: &mut [u8; GATHERED], frame: Frame) -> Out {
    let a = line(rt, out, gathered, frame, b"<path class=\"case\" d=\"M-4 0H");
    let b = line(rt, a, gathered, frame, b"<path class=\"axis\" d=\"M-4 0H");
    let c = number_after(
        rt,
        b,
        gathered,
        b"<path class=\"rule\" d=\"M0 4.5H",
        frame.wide,
    );
    let d = number_after(rt, c, gathered, b"M-5 0V-", frame.high);
    say(rt, d, gathered, b"\"/>\n")
}

// What the rulers measure.
fn names(rt: &HostRuntime, out: Out, gathered: &mut [u8; GATHERED], frame: Frame) -> Out {
    let a = number_after(
        rt,
        out,
        gathered,
        b"<text x=\"-24\" y=\"-",
        frame.high + 4.5,
    );
    let b = number_after(
        rt,
        a,
        gathered,
        b"\">radius in mm</text>\n<text x=\"",
        frame.wide,
    );
    say(
        rt,
        b,
        gathered,
        b"\" y=\"15\" text-anchor=\"end\">z in mm</text>\n",
    )
}

// The axis and both rulers.
pub fn both(rt: &HostRuntime, out: Out, gathered: &mut [u8; GATHERED], frame: Frame) -> Out {
    let a = lines(rt, out, gathered, frame);
    let b = say(
        rt,
        a,
        gathered,
        b"<g class=\"rule\" text-anchor=\"middle\">\n",
    );
    let c = z_ticks(rt, b, gathered, frame);
    let d = say(
        rt,
        c,
        gathered,
        b"</g>\n<g class=\"rule\" text-anchor=\"end\">\n",
    );
    let e = r_ticks(rt, d, gathered, frame);
    let f = say(rt, e, gathered, b"</g>\n");
    names(rt, f, gathered, frame)
}
