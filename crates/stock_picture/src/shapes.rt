// The shapes of a stock: contours of what certainly remains and of what may, marks under bins, rings.
use crate::page::Frame;
use crate::pen::{length_after, line, number_after, say};
use picture::{Look, Stretch};
use rings::Ring;
use stock::{TurnSide, TurnStockSpec};
use streams::{GATHERED, Out};
use text::LINE_ROOM;

// How many bins a stretch has.
fn bins(s: Stretch) -> usize {
    s.to.saturating_sub(s.from)
}

// One side of a contour.
fn walk(
    rt: &HostRuntime,
    out: Out,
    gathered: &mut [u8; GATHERED],
    look: Look,
    side: TurnSide,
    spec: TurnStockSpec,
    cells1: &[f64],
    cells2: &[f64],
    s: Stretch,
) -> Out {
    let n = bins(s);
    let mut o = out;
    let mut k: usize = 0;
    while k < n {
        let mut own = [0u8; LINE_ROOM];
        let step = picture::contour_step(&mut own, look, side, spec, cells1, cells2, s, k);
        o = line(rt, o, gathered, &own, step.len);
        let next = step.next;
        if next <= k {
            return o;
        }
        k = next;
    }
    o
}

// The contour of a stretch.
fn contour(
    rt: &HostRuntime,
    out: Out,
    gathered: &mut [u8; GATHERED],
    look: Look,
    spec: TurnStockSpec,
    cells1: &[f64],
    cells2: &[f64],
    s: Stretch,
) -> Out {
    if s.to <= s.from {
        return out;
    }
    let a = walk(
        rt,
        out,
        gathered,
        look,
        TurnSide::Outer,
        spec,
        cells1,
        cells2,
        s,
    );
    let b = walk(
        rt,
        a,
        gathered,
        look,
        TurnSide::Inner,
        spec,
        cells1,
        cells2,
        s,
    );
    say(rt, b, gathered, b"z")
}

// A mark under a stretch of bins.
fn mark(
    rt: &HostRuntime,
    out: Out,
    gathered: &mut [u8; GATHERED],
    spec: TurnStockSpec,
    s: Stretch,
) -> Out {
    if s.to <= s.from {
        return out;
    }
    let za = stock::bin_of(spec, s.from).za;
    let zb = stock::bin_of(spec, s.to - 1).zb;
    let a = length_after(rt, out, gathered, b"M", za - spec.z_min_mm);
    let b = length_after(rt, a, gathered, b" 1H", zb - spec.z_min_mm);
    let c = length_after(rt, b, gathered, b"v1.8H", za - spec.z_min_mm);
    say(rt, c, gathered, b"z")
}

// A stretch as it is drawn.
fn shape(
    rt: &HostRuntime,
    out: Out,
    gathered: &mut [u8; GATHERED],
    look: Look,
    spec: TurnStockSpec,
    cells1: &[f64],
    cells2: &[f64],
    s: Stretch,
) -> Out {
    match look {
        Look::Metal => contour(rt, out, gathered, look, spec, cells1, cells2, s),
        Look::May => contour(rt, out, gathered, look, spec, cells1, cells2, s),
        Look::Gone => mark(rt, out, gathered, spec, s),
        Look::Unlike => mark(rt, out, gathered, spec, s),
    }
}

// Every stretch.
fn stretches(
    rt: &HostRuntime,
    out: Out,
    gathered: &mut [u8; GATHERED],
    look: Look,
    spec: TurnStockSpec,
    cells1: &[f64],
    cells2: &[f64],
) -> Out {
    let n = cells1.len() / 4;
    let mut o = out;
    let mut i: usize = 0;
    while i < n {
        let s = picture::next_stretch(look, spec, cells1, cells2, i);
        o = shape(rt, o, gathered, look, spec, cells1, cells2, s);
        let next = s.to;
        if next <= i {
            return o;
        }
        i = next;
    }
    o
}

// A path of contours.
fn band(
    rt: &HostRuntime,
    out: Out,
    gathered: &mut [u8; GATHERED],
    opening: &[u8],
    look: Look,
    spec: TurnStockSpec,
    cells1: &[f64],
    cells2: &[f64],
) -> Out {
    let a = say(rt, out, gathered, opening);
    let b = stretches(rt, a, gathered, look, spec, cells1, cells2);
    say(rt, b, gathered, b"\"/>\n")
}

// The path of a ring.
fn ring(rt: &HostRuntime, out: Out, gathered: &mut [u8; GATHERED], z_min: f64, q: Ring) -> Out {
    let a = length_after(rt, out, gathered, b"M", q.z0 - z_min);
    let b = length_after(rt, a, gathered, b" ", q.r0);
    let c = length_after(rt, b, gathered, b"H", q.z1 - z_min);
    let d = length_after(rt, c, gathered, b"V", q.r1);
    let e = length_after(rt, d, gathered, b"H", q.z0 - z_min);
    say(rt, e, gathered, b"z")
}

// Ring i.
fn ring_at(rings: &[f64], i: usize) -> Ring {
    let c = stock::cell_at(rings, i);
    Ring {
        z0: c.outer.lower_mm,
        z1: c.outer.upper_mm,
        r0: c.inner.lower_mm,
        r1: c.inner.upper_mm,
    }
}

// The first n rings.
fn rings_to(
    rt: &HostRuntime,
    out: Out,
    gathered: &mut [u8; GATHERED],
    z_min: f64,
    rings: &[f64],
    n: usize,
) -> Out {
    let mut o = out;
    for i in 0..n {
        o = ring(rt, o, gathered, z_min, ring_at(rings, i));
    }
    o
}

// A path of rings.
fn all_rings(
    rt: &HostRuntime,
    out: Out,
    gathered: &mut [u8; GATHERED],
    opening: &[u8],
    z_min: f64,
    rings: &[f64],
) -> Out {
    let a = say(rt, out, gathered, opening);
    let b = rings_to(rt, a, gathered, z_min, rings, rings.len() / 4);
    say(rt, b, gathered, b"\"/>\n")
}

// What the others leave of a ring.
fn left(
    rt: &HostRuntime,
    out: Out,
    gathered: &mut [u8; GATHERED],
    z_min: f64,
    q: Ring,
    others: &[f64],
) -> Out {
    let mut pieces = [0.0f64; 1024];
    match rings::left_of(others, others.len() / 4, q, &mut pieces) {
        Ok(n) => rings_to(rt, out, gathered, z_min, &pieces, n),
        Err(_) => out,
    }
}

// What the others leave of every ring.
fn all_left(
    rt: &HostRuntime,
    out: Out,
    gathered: &mut [u8; GATHERED],
    opening: &[u8],
    z_min: f64,
    rings: &[f64],
    others: &[f64],
) -> Out {
    let n = rings.len() / 4;
    let mut o = say(rt, out, gathered, opening);
    for i in 0..n {
        o = left(rt, o, gathered, z_min, ring_at(rings, i), others);
    }
    say(rt, o, gathered, b"\"/>\n")
}

// The group in which a millimetre of the stock is a millimetre.
fn open_group(rt: &HostRuntime, out: Out, gathered: &mut [u8; GATHERED], frame: Frame) -> Out {
    let a = number_after(
        rt,
        out,
        gathered,
        b"<g class=\"stock\" transform=\"scale(",
        frame.along,
    );
    let b = number_after(rt, a, gathered, b",-", frame.up);
    say(rt, b, gathered, b")\">\n")
}

// Marks, in a group in which a millimetre of the stock is one along z only.
fn marked(
    rt: &HostRuntime,
    out: Out,
    gathered: &mut [u8; GATHERED],
    look: Look,
    frame: Frame,
    cells1: &[f64],
    cells2: &[f64],
) -> Out {
    let a = number_after(
        rt,
        out,
        gathered,
        b"</g>\n<path class=\"mark\" transform=\"scale(",
        frame.along,
    );
    let b = say(rt, a, gathered, b",1)\" d=\"");
    let c = stretches(rt, b, gathered, look, frame.spec, cells1, cells2);
    say(rt, c, gathered, b"\"/>\n")
}

// One stock.
pub fn one(
    rt: &HostRuntime,
    out: Out,
    gathered: &mut [u8; GATHERED],
    frame: Frame,
    cells: &[f64],
    rings: &[f64],
) -> Out {
    let spec = frame.spec;
    let a = open_group(rt, out, gathered, frame);
    let b = band(
        rt,
        a,
        gathered,
        b"<path fill=\"url(#doubt)\" d=\"",
        Look::May,
        spec,
        cells,
        cells,
    );
    let c = band(
        rt,
        b,
        gathered,
        b"<path class=\"metal\" d=\"",
        Look::Metal,
        spec,
        cells,
        cells,
    );
    let d = all_rings(
        rt,
        c,
        gathered,
        b"<path class=\"hole\" d=\"",
        spec.z_min_mm,
        rings,
    );
    let e = all_rings(
        rt,
        d,
        gathered,
        b"<path class=\"ring\" d=\"",
        spec.z_min_mm,
        rings,
    );
    marked(rt, e, gathered, Look::Gone, frame, cells, cells)
}

// What each of two stocks has of the bins.
fn bands(
    rt: &HostRuntime,
    out: Out,
    gathered: &mut [u8; GATHERED],
    spec: TurnStockSpec,
    cells1: &[f64],
    cells2: &[f64],
) -> Out {
    let a = band(
        rt,
        out,
        gathered,
        b"<path id=\"a\" fill=\"url(#first)\" d=\"",
        Look::May,
        spec,
        cells1,
        cells1,
    );
    let b = band(
        rt,
        a,
        gathered,
        b"<path id=\"b\" fill=\"url(#second)\" d=\"",
        Look::May,
        spec,
        cells2,
        cells2,
    );
    let c = band(
        rt,
        b,
        gathered,
        b"<path fill=\"url(#maybe)\" d=\"",
        Look::May,
        spec,
        cells1,
        cells2,
    );
    band(
        rt,
        c,
        gathered,
        b"<path class=\"both\" d=\"",
        Look::Metal,
        spec,
        cells1,
        cells2,
    )
}

// What only one of two stocks has in the rings of the other.
fn parts(
    rt: &HostRuntime,
    out: Out,
    gathered: &mut [u8; GATHERED],
    z_min: f64,
    rings1: &[f64],
    rings2: &[f64],
) -> Out {
    let a = say(
        rt,
        out,
        gathered,
        b"<clipPath id=\"A\"><use href=\"#a\"/></clipPath><clipPath id=\"B\"><use href=\"#b\"/></clipPath>\n",
    );
    let b = all_left(
        rt,
        a,
        gathered,
        b"<path class=\"part\" fill=\"url(#second)\" clip-path=\"url(#B)\" d=\"",
        z_min,
        rings1,
        rings2,
    );
    all_left(
        rt,
        b,
        gathered,
        b"<path class=\"part\" fill=\"url(#first)\" clip-path=\"url(#A)\" d=\"",
        z_min,
        rings2,
        rings1,
    )
}

// The rings of two stocks, and what only one of them has there.
fn ringed(
    rt: &HostRuntime,
    out: Out,
    gathered: &mut [u8; GATHERED],
    z_min: f64,
    rings1: &[f64],
    rings2: &[f64],
) -> Out {
    let a = all_rings(
        rt,
        out,
        gathered,
        b"<path class=\"hole\" d=\"",
        z_min,
        rings1,
    );
    let b = all_rings(rt, a, gathered, b"<path class=\"hole\" d=\"", z_min, rings2);
    let c = parts(rt, b, gathered, z_min, rings1, rings2);
    let d = all_rings(rt, c, gathered, b"<path class=\"ring\" d=\"", z_min, rings1);
    all_rings(rt, d, gathered, b"<path class=\"ring\" d=\"", z_min, rings2)
}

// Two stocks.
pub fn two(
    rt: &HostRuntime,
    out: Out,
    gathered: &mut [u8; GATHERED],
    frame: Frame,
    cells1: &[f64],
    rings1: &[f64],
    cells2: &[f64],
    rings2: &[f64],
) -> Out {
    let a = open_group(rt, out, gathered, frame);
    let b = bands(rt, a, gathered, frame.spec, cells1, cells2);
    let c = ringed(rt, b, gathered, frame.spec.z_min_mm, rings1, rings2);
    marked(rt, c, gathered, Look::Unlike, frame, cells1, cells2)
}
