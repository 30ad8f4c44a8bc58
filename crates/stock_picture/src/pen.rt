// Bytes, numbers and the nice numbers of a drawing, put behind what is gathered.
use streams::{GATHERED, Out};
use text::LINE_ROOM;

// 1, 2 and 5 times the powers of ten, from 1e-4 on.
const NICE: [f64; 31] = [
    0.0001, 0.0002, 0.0005, 0.001, 0.002, 0.005, 0.01, 0.02, 0.05, 0.1, 0.2, 0.5, 1.0, 2.0, 5.0,
    10.0, 20.0, 50.0, 100.0, 200.0, 500.0, 1000.0, 2000.0, 5000.0, 10000.0, 20000.0, 50000.0,
    100000.0, 200000.0, 500000.0, 1000000.0,
];

// The last of them that a scale may be: 10^5.
const LAST_SCALE: usize = 27;

const LAST: usize = 30;

// Puts bytes.
pub fn say(rt: &HostRuntime, out: Out, gathered: &mut [u8; GATHERED], bytes: &[u8]) -> Out {
    streams::put(rt, &mut rt.stdout(), out, gathered, bytes)
}

// Puts the first n bytes of a line.
pub fn line(
    rt: &HostRuntime,
    out: Out,
    gathered: &mut [u8; GATHERED],
    bytes: &[u8; LINE_ROOM],
    n: usize,
) -> Out {
    say(rt, out, gathered, text::front(bytes, n))
}

// Puts a number of the layout, rounded to 1e-9.
pub fn number(rt: &HostRuntime, out: Out, gathered: &mut [u8; GATHERED], x: f64) -> Out {
    let mut own = [0u8; 32];
    let n = text::put_millimetres(&mut own, 0, x);
    say(rt, out, gathered, text::front(&own, n))
}

// Puts a length of a stock, rounded to 1e-4 mm.
pub fn length(rt: &HostRuntime, out: Out, gathered: &mut [u8; GATHERED], x: f64) -> Out {
    let mut own = [0u8; LINE_ROOM];
    let n = picture::put_length(&mut own, 0, x);
    line(rt, out, gathered, &own, n)
}

// Puts a whole number.
pub fn count(rt: &HostRuntime, out: Out, gathered: &mut [u8; GATHERED], n: u64) -> Out {
    let mut own = [0u8; LINE_ROOM];
    let k = text::put_decimal(&mut own, 0, n);
    line(rt, out, gathered, &own, k)
}

// Puts an edition.
pub fn edition(rt: &HostRuntime, out: Out, gathered: &mut [u8; GATHERED], n: u32) -> Out {
    let mut own = [0u8; LINE_ROOM];
    let k = text::put_eight(&mut own, 0, n);
    line(rt, out, gathered, &own, k)
}

// Puts bytes, and behind them a number of the layout.
pub fn number_after(
    rt: &HostRuntime,
    out: Out,
    gathered: &mut [u8; GATHERED],
    bytes: &[u8],
    x: f64,
) -> Out {
    let a = say(rt, out, gathered, bytes);
    number(rt, a, gathered, x)
}

// Puts bytes, and behind them a length of a stock.
pub fn length_after(
    rt: &HostRuntime,
    out: Out,
    gathered: &mut [u8; GATHERED],
    bytes: &[u8],
    x: f64,
) -> Out {
    let a = say(rt, out, gathered, bytes);
    length(rt, a, gathered, x)
}

// Puts bytes, and behind them a whole number.
pub fn count_after(
    rt: &HostRuntime,
    out: Out,
    gathered: &mut [u8; GATHERED],
    bytes: &[u8],
    n: u64,
) -> Out {
    let a = say(rt, out, gathered, bytes);
    count(rt, a, gathered, n)
}

// The greatest nice scale by which an extent finds room.
pub fn scale_for(extent: f64, room: f64) -> f64 {
    let mut scales = NICE[..=LAST_SCALE].iter().rev();
    let fitting = scales.find(|scale| extent * **scale <= room);
    fitting.copied().unwrap_or(NICE[0])
}

// The least nice step of so much on paper at least, under a scale.
pub fn step_for(scale: f64, room: f64) -> f64 {
    let wide = NICE.iter().find(|step| room <= **step * scale);
    wide.copied().unwrap_or(NICE[LAST])
}
