// The page: its size and scales, the patterns, the words under the drawing, and the key.
//
// On paper a unit is a millimetre. The place 0, 0 is the axis at z_min.
use crate::pen::{count, count_after, edition, length, number, number_after, say, scale_for};
use queries::Volumes;
use refusals::Refused;
use stock::{TurnStock, TurnStockSpec};
use streams::{GATHERED, Out};

// A bar on paper: how much a millimetre along z and one of radius are there, and how wide and high it is.
#[derive(Clone, Copy)]
pub struct Frame {
    pub spec: TurnStockSpec,
    pub along: f64,
    pub up: f64,
    pub wide: f64,
    pub high: f64,
}

// So wide and high a bar is on paper at most.
const WIDEST: f64 = 236.0;

const HIGHEST: f64 = 110.0;

// A bar that is wider and higher than this by one scale is drawn by one scale.
const NARROW: f64 = 20.0;

const LOW: f64 = 8.0;

// The words find room in so much beside the bar.
const WORDS: f64 = 170.0;

// A bar by two scales.
fn framed(spec: TurnStockSpec, along: f64, up: f64) -> Frame {
    Frame {
        spec,
        along,
        up,
        wide: (spec.z_max_mm - spec.z_min_mm) * along,
        high: spec.outer_radius_mm * up,
    }
}

// One scale for both, but for a bar that would be a thread on paper by it.
pub fn frame_of(spec: TurnStockSpec) -> Frame {
    let along = scale_for(spec.z_max_mm - spec.z_min_mm, WIDEST);
    let up = scale_for(spec.outer_radius_mm, HIGHEST);
    let one = floats::least(along, up);
    let frame = framed(spec, one, one);
    if (NARROW <= frame.wide) & (LOW <= frame.high) {
        return frame;
    }
    framed(spec, along, up)
}

// The whole part of a length on paper.
fn whole(x: f64) -> f64 {
    std::num::nearest_u64_to_f64(numbers::whole_part(x))
}

// The numbers of the view: where it begins above the axis, and how wide and high it is.
fn view(
    rt: &HostRuntime,
    out: Out,
    gathered: &mut [u8; GATHERED],
    top: f64,
    wide: f64,
    high: f64,
) -> Out {
    let a = number_after(rt, out, gathered, b"mm\" viewBox=\"-26 ", 0.0 - top);
    let b = number_after(rt, a, gathered, b" ", wide);
    let c = number_after(rt, b, gathered, b" ", high);
    say(
        rt,
        c,
        gathered,
        b"\" style=\"background:#fff\" role=\"img\" aria-labelledby=\"title desc\">\n",
    )
}

// Opens the picture: so much lies below the axis.
pub fn opening(
    rt: &HostRuntime,
    out: Out,
    gathered: &mut [u8; GATHERED],
    frame: Frame,
    below: f64,
) -> Out {
    let top = whole(frame.high) + 11.0;
    let wide = whole(floats::greatest(frame.wide + 12.0, WORDS)) + 26.0;
    let a = number_after(
        rt,
        out,
        gathered,
        b"<svg xmlns=\"http://www.w3.org/2000/svg\" width=\"",
        wide,
    );
    let b = number_after(rt, a, gathered, b"mm\" height=\"", top + below);
    view(rt, b, gathered, top, wide, top + below)
}

// ---- patterns

// How lines, areas and words look.
fn style(rt: &HostRuntime, out: Out, gathered: &mut [u8; GATHERED]) -> Out {
    say(
        rt,
        out,
        gathered,
        b"<style>text{font-family:sans-serif;font-size:3.4px}.name{font-size:5px;font-weight:bold}.stock path,.key{stroke:#000;stroke-width:1.2;paint-order:stroke;vector-effect:non-scaling-stroke}\n\
         .metal{fill:#7c8a96}.stock .hole{fill:#fff;stroke:none}.stock .part{stroke:none}.ring{fill:none}.both{fill:#a4a4a4}\n\
         .axis{stroke:#000;stroke-width:.35;stroke-dasharray:8 1.5 1 1.5;fill:none}.case{stroke:#fff;stroke-width:1;fill:none}.rule path,path.rule{stroke:#000;stroke-width:.25;fill:none}</style>\n",
    )
}

// A pattern of 2 by 2, by scales of its own.
fn pattern(
    rt: &HostRuntime,
    out: Out,
    gathered: &mut [u8; GATHERED],
    name: &[u8],
    x: f64,
    y: f64,
    rest: &[u8],
) -> Out {
    let a = say(rt, out, gathered, b"<pattern id=\"");
    let b = say(rt, a, gathered, name);
    let c = number_after(
        rt,
        b,
        gathered,
        b"\" width=\"2\" height=\"2\" patternUnits=\"userSpaceOnUse\" patternTransform=\"scale(",
        x,
    );
    let d = number_after(rt, c, gathered, b",", y);
    let e = say(rt, d, gathered, b")");
    say(rt, e, gathered, rest)
}

// A pattern for the stock, whose group is scaled, and the same for the key.
fn pattern_pair(
    rt: &HostRuntime,
    out: Out,
    gathered: &mut [u8; GATHERED],
    frame: Frame,
    name: &[u8],
    key: &[u8],
    rest: &[u8],
) -> Out {
    let a = pattern(
        rt,
        out,
        gathered,
        name,
        1.0 / frame.along,
        0.0 - 1.0 / frame.up,
        rest,
    );
    pattern(rt, a, gathered, key, 1.0, 1.0, rest)
}

// The look and the hatch of one stock.
pub fn patterns_one(
    rt: &HostRuntime,
    out: Out,
    gathered: &mut [u8; GATHERED],
    frame: Frame,
) -> Out {
    let a = style(rt, out, gathered);
    pattern_pair(
        rt,
        a,
        gathered,
        frame,
        b"doubt",
        b"key-doubt",
        b"rotate(-45)\"><path d=\"M0 0h2v2H0z\" fill=\"#fff0d9\"/><path d=\"M0 1h2\" stroke=\"#b84600\" stroke-width=\".5\"/></pattern>\n",
    )
}

// The look and the hatches of two.
pub fn patterns_two(
    rt: &HostRuntime,
    out: Out,
    gathered: &mut [u8; GATHERED],
    frame: Frame,
) -> Out {
    let a = style(rt, out, gathered);
    let b = pattern_pair(
        rt,
        a,
        gathered,
        frame,
        b"first",
        b"key-first",
        b"rotate(-45)\"><path d=\"M0 0h2v2H0z\" fill=\"#d5e8f4\"/><path d=\"M0 1h2\" stroke=\"#0072b2\" stroke-width=\".7\"/></pattern>\n",
    );
    let c = pattern_pair(
        rt,
        b,
        gathered,
        frame,
        b"second",
        b"key-second",
        b"rotate(45)\"><path d=\"M0 0h2v2H0z\" fill=\"#fdf1d3\"/><path d=\"M0 1h2\" stroke=\"#e69f00\" stroke-width=\".7\"/></pattern>\n",
    );
    pattern_pair(
        rt,
        c,
        gathered,
        frame,
        b"maybe",
        b"key-maybe",
        b"\"><path d=\"M0 0h2v2H0z\" fill=\"#e3e3e3\"/><path d=\"M1 .6v.8\" stroke=\"#666\" stroke-width=\".5\"/></pattern>\n",
    )
}

// ---- words

// The bins and the rings.
fn bins(
    rt: &HostRuntime,
    out: Out,
    gathered: &mut [u8; GATHERED],
    spec: TurnStockSpec,
    n: usize,
) -> Out {
    let a = number_after(rt, out, gathered, b"z ", spec.z_min_mm);
    let b = number_after(rt, a, gathered, b" to ", spec.z_max_mm);
    let c = count_after(rt, b, gathered, b" mm; bins: ", n as u64);
    let d = number_after(rt, c, gathered, b"; cell ", spec.cell_mm);
    say(rt, d, gathered, b" mm")
}

// The radii of the bar.
fn radii(rt: &HostRuntime, out: Out, gathered: &mut [u8; GATHERED], spec: TurnStockSpec) -> Out {
    let a = number_after(rt, out, gathered, b"outer radius ", spec.outer_radius_mm);
    let b = number_after(rt, a, gathered, b" mm, bore radius ", spec.bore_radius_mm);
    say(rt, b, gathered, b" mm")
}

// A volume, with more decimals where it is small.
fn volume(rt: &HostRuntime, out: Out, gathered: &mut [u8; GATHERED], v: f64) -> Out {
    if v < 1.0 {
        return number(rt, out, gathered, v);
    }
    if v < 1000000000000.0 {
        return length(rt, out, gathered, v);
    }
    count(rt, out, gathered, numbers::whole_part(v))
}

// How many rings, and both volumes.
fn amount(
    rt: &HostRuntime,
    out: Out,
    gathered: &mut [u8; GATHERED],
    spec: TurnStockSpec,
    cells: &[f64],
    rings: &[f64],
) -> Out {
    let k = rings.len() / 4;
    let a = count_after(rt, out, gathered, b"rings: ", k as u64);
    let b = say(rt, a, gathered, b"; volume ");
    match queries::volume(spec, cells, rings, k) {
        Ok(Volumes { least, greatest }) => {
            let c = volume(rt, b, gathered, least);
            let d = say(rt, c, gathered, b" to ");
            let e = volume(rt, d, gathered, greatest);
            say(rt, e, gathered, b" mm&#179;")
        }
        Err(_) => say(rt, b, gathered, b"unknown"),
    }
}

// A scale as drawings have it.
fn scale(rt: &HostRuntime, out: Out, gathered: &mut [u8; GATHERED], s: f64) -> Out {
    if s < 1.0 {
        return number_after(rt, out, gathered, b"1:", 1.0 / s);
    }
    let a = number(rt, out, gathered, s);
    say(rt, a, gathered, b":1")
}

// The scale, or both, and how places are rounded.
fn scales(rt: &HostRuntime, out: Out, gathered: &mut [u8; GATHERED], frame: Frame) -> Out {
    if frame.along == frame.up {
        let a = say(rt, out, gathered, b"scale ");
        let b = scale(rt, a, gathered, frame.along);
        return say(rt, b, gathered, b"; places rounded to 0.0001 mm");
    }
    let a = say(rt, out, gathered, b"scale of z ");
    let b = scale(rt, a, gathered, frame.along);
    let c = say(rt, b, gathered, b", of the radius ");
    let d = scale(rt, c, gathered, frame.up);
    say(rt, d, gathered, b"; places rounded to 0.0001 mm")
}

// An edition and its generation.
fn stamp(rt: &HostRuntime, out: Out, gathered: &mut [u8; GATHERED], stock: TurnStock) -> Out {
    let a = say(rt, out, gathered, b"edition ");
    let b = edition(rt, a, gathered, stock.stamp.edition);
    count_after(rt, b, gathered, b", generation ", stock.stamp.generation)
}

// The bar and its scales, a line each, or in one.
fn bar(
    rt: &HostRuntime,
    out: Out,
    gathered: &mut [u8; GATHERED],
    frame: Frame,
    n: usize,
    one: &[u8],
    two: &[u8],
) -> Out {
    let a = bins(rt, out, gathered, frame.spec, n);
    let b = say(rt, a, gathered, one);
    let c = radii(rt, b, gathered, frame.spec);
    let d = say(rt, c, gathered, two);
    scales(rt, d, gathered, frame)
}

// ---- one stock

// Its title and description, for who hears a picture.
pub fn told_one(
    rt: &HostRuntime,
    out: Out,
    gathered: &mut [u8; GATHERED],
    frame: Frame,
    stock: TurnStock,
    cells: &[f64],
    rings: &[f64],
) -> Out {
    let a = say(rt, out, gathered, b"<title id=\"title\">Stock of ");
    let b = stamp(rt, a, gathered, stock);
    let c = say(
        rt,
        b,
        gathered,
        b"</title>\n<desc id=\"desc\">Half section of a bar, ",
    );
    let d = bar(rt, c, gathered, frame, cells.len() / 4, b"; ", b"; ");
    let e = say(rt, d, gathered, b"; ");
    let f = amount(rt, e, gathered, frame.spec, cells, rings);
    say(
        rt,
        f,
        gathered,
        b". Solid is certainly metal, hatched is uncertain, empty is certainly gone; rings are cut out. A black bar under the axis: no metal may remain there.</desc>\n",
    )
}

// The words under the drawing.
pub fn about_one(
    rt: &HostRuntime,
    out: Out,
    gathered: &mut [u8; GATHERED],
    frame: Frame,
    stock: TurnStock,
    cells: &[f64],
    rings: &[f64],
) -> Out {
    let a = say(
        rt,
        out,
        gathered,
        b"<text class=\"name\" y=\"24\">Stock of ",
    );
    let b = stamp(rt, a, gathered, stock);
    let c = say(rt, b, gathered, b"</text>\n<text y=\"45\">");
    let d = amount(rt, c, gathered, frame.spec, cells, rings);
    let e = say(rt, d, gathered, b"</text>\n<text y=\"30\">");
    let f = bar(
        rt,
        e,
        gathered,
        frame,
        cells.len() / 4,
        b"</text>\n<text y=\"35\">",
        b"</text>\n<text y=\"40\">",
    );
    say(rt, f, gathered, b"</text>\n")
}

// What each area means, and the end of the picture.
pub fn key_one(rt: &HostRuntime, out: Out, gathered: &mut [u8; GATHERED]) -> Out {
    say(
        rt,
        out,
        gathered,
        b"<path class=\"key metal\" d=\"M0 50h8v4H0z\"/><text x=\"10\" y=\"53.3\">certainly metal</text>\n\
         <path class=\"key\" fill=\"url(#key-doubt)\" d=\"M0 56h8v4H0z\"/><text x=\"10\" y=\"59.3\">uncertain</text>\n\
         <path class=\"key\" fill=\"#fff\" d=\"M54 50h8v4h-8z\"/><text x=\"64\" y=\"53.3\">ring, removed</text>\n\
         <path d=\"M54 57.1h8v1.8h-8z\"/><text x=\"64\" y=\"59.3\">bins in which no metal may remain</text>\n</svg>\n",
    )
}

// ---- two stocks

// Their title and description.
pub fn told_two(
    rt: &HostRuntime,
    out: Out,
    gathered: &mut [u8; GATHERED],
    frame: Frame,
    first: TurnStock,
    second: TurnStock,
    n: usize,
) -> Out {
    let a = say(
        rt,
        out,
        gathered,
        b"<title id=\"title\">Two stocks of one bar: first ",
    );
    let b = stamp(rt, a, gathered, first);
    let c = say(rt, b, gathered, b"; second ");
    let d = stamp(rt, c, gathered, second);
    let e = say(
        rt,
        d,
        gathered,
        b"</title>\n<desc id=\"desc\">Half section of a bar, ",
    );
    let f = bar(rt, e, gathered, frame, n, b"; ", b"; ");
    say(
        rt,
        f,
        gathered,
        b". Grey is metal that both may have, dotted where it is not certain in both. Blue with a rising hatch is metal that only the first may have, orange with a falling hatch only the second. A black bar under the axis: bins that are unequal.</desc>\n",
    )
}

// One stock of two.
fn about(
    rt: &HostRuntime,
    out: Out,
    gathered: &mut [u8; GATHERED],
    which: &[u8],
    stock: TurnStock,
    cells: &[f64],
    rings: &[f64],
) -> Out {
    let a = say(rt, out, gathered, which);
    let b = stamp(rt, a, gathered, stock);
    let c = say(rt, b, gathered, b"; ");
    let d = amount(rt, c, gathered, stock.spec, cells, rings);
    say(rt, d, gathered, b"</text>\n")
}

// The bar of both.
pub fn about_bar(
    rt: &HostRuntime,
    out: Out,
    gathered: &mut [u8; GATHERED],
    frame: Frame,
    n: usize,
) -> Out {
    let a = say(rt, out, gathered, b"<text y=\"40\">");
    let b = bar(
        rt,
        a,
        gathered,
        frame,
        n,
        b"</text>\n<text y=\"45\">",
        b"</text>\n<text y=\"50\">",
    );
    say(rt, b, gathered, b"</text>\n")
}

// The first of both.
pub fn about_first(
    rt: &HostRuntime,
    out: Out,
    gathered: &mut [u8; GATHERED],
    stock: TurnStock,
    cells: &[f64],
    rings: &[f64],
) -> Out {
    about(
        rt,
        out,
        gathered,
        b"<text class=\"name\" y=\"24\">Two stocks of one bar</text>\n<text y=\"30\">first: ",
        stock,
        cells,
        rings,
    )
}

// The second of both.
pub fn about_second(
    rt: &HostRuntime,
    out: Out,
    gathered: &mut [u8; GATHERED],
    stock: TurnStock,
    cells: &[f64],
    rings: &[f64],
) -> Out {
    about(
        rt,
        out,
        gathered,
        b"<text y=\"35\">second: ",
        stock,
        cells,
        rings,
    )
}

// What each area means, and the end of the picture.
pub fn key_two(rt: &HostRuntime, out: Out, gathered: &mut [u8; GATHERED]) -> Out {
    say(
        rt,
        out,
        gathered,
        b"<path class=\"key both\" d=\"M0 55h8v4H0z\"/><text x=\"10\" y=\"58.3\">metal in both</text>\n\
         <path class=\"key\" fill=\"url(#key-maybe)\" d=\"M0 61h8v4H0z\"/><text x=\"10\" y=\"64.3\">uncertain in one or both</text>\n\
         <path class=\"key\" fill=\"url(#key-first)\" d=\"M58 55h8v4h-8z\"/><text x=\"68\" y=\"58.3\">only in the first</text>\n\
         <path class=\"key\" fill=\"url(#key-second)\" d=\"M58 61h8v4h-8z\"/><text x=\"68\" y=\"64.3\">only in the second</text>\n\
         <path class=\"key\" fill=\"#fff\" d=\"M108 55h8v4h-8z\"/><text x=\"118\" y=\"58.3\">ring, removed</text>\n\
         <path d=\"M108 62.1h8v1.8h-8z\"/><text x=\"118\" y=\"64.3\">bins that are unequal</text>\n</svg>\n",
    )
}
