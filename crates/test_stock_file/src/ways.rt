// The ways in which a byte of a file is damaged: another byte in its place, the byte left out or
// doubled, and the file cut off before it.
use crate::{before, behind};

pub const COUNT: usize = 15;

// The byte that a way puts in the place of another.
fn other(way: usize) -> u8 {
    match way {
        0 => b'0',
        1 => b'1',
        2 => b'2',
        3 => b'9',
        4 => b'F',
        5 => b'G',
        6 => b'a',
        7 => b' ',
        8 => b'\t',
        9 => b'\n',
        10 => b'\r',
        _ => 255,
    }
}

// The byte at a place twice; the file before the place is in out.
fn double(out: &mut [u8], e: usize, bytes: &[u8], at: usize) -> usize {
    let rest = behind(bytes, at);
    let f = text::put_text(out, e, before(rest, 1));
    text::put_text(out, f, rest)
}

// The bytes with the one at a place damaged; answers how many they are.
pub fn damage(out: &mut [u8], bytes: &[u8], at: usize, way: usize) -> usize {
    let e = text::put_text(out, 0, before(bytes, at));
    if way == 14 {
        return e;
    }
    if way == 13 {
        return double(out, e, bytes, at);
    }
    let rest = behind(behind(bytes, at), 1);
    if way == 12 {
        return text::put_text(out, e, rest);
    }
    let f = text::put_text(out, e, &[other(way)]);
    text::put_text(out, f, rest)
}
