// A call is lent what its line says, made, and held to the line.
use crate::answers::{Mark, Said, Told};
use crate::given::{BY_EIGHT, Given, PLAIN, Places, TO_CHANGES};
use crate::words::LIMIT;
use crate::{answers, calls, given, table, words};

// A call is lent at most so many numbers in a slice, and so many indices.
const ROOM: usize = 66560;

const INDICES: usize = 4096;

// Sizes and numbers, where the call was accepted. There are no numbers where nothing was found.
fn said(kind: usize, code: u32, n: u64, m: u64, found: bool, x: f64, y: f64) -> Said {
    let numbers = words::only(table::digit(kind, table::NUMBERS), found);
    Said {
        code,
        sizes: words::only(table::digit(kind, table::SIZES), code == 0),
        n,
        m,
        numbers: words::only(numbers, code == 0),
        x,
        y,
    }
}

// A call that writes sizes or numbers. Of those before ENVELOPE_AT none says whether there are any.
fn asked(words: &[u64; LIMIT], kind: usize, p: Places, g: Given) -> Mark {
    let mut cells = [0.0f64; ROOM];
    let mut blocks = [0.0f64; ROOM];
    let mut points = [0.0f64; ROOM];
    let mut rings = [0.0f64; ROOM];
    let c = given::lent(words, p.cells, 1, PLAIN, &mut cells);
    let b = given::lent(words, p.blocks, 1, PLAIN, &mut blocks);
    let q = given::lent(words, p.points, 1, PLAIN, &mut points);
    let r = given::lent(words, p.rings, 2, PLAIN, &mut rings);
    let mut n: usize = 0;
    let mut m: usize = 0;
    let mut found: u32 = 0;
    let mut x: f64 = 0.0;
    let mut y: f64 = 0.0;
    let code = calls::ask(
        kind, g, c, b, q, r, &mut n, &mut m, &mut found, &mut x, &mut y,
    );
    let any = (found != 0) | (kind < table::ENVELOPE_AT);
    let s = said(kind, code, n as u64 | found as u64, m as u64, any, x, y);
    answers::answer(words, p.answer, s)
}

// What a call that lists changes answered.
fn changes(
    words: &[u64; LIMIT],
    i: usize,
    s: Said,
    list: Told,
    indices: &[usize],
    records: &[f64],
) -> Mark {
    let m = answers::answer(words, i, s);
    answers::changes(words, m, s.code == 0, list, indices, records)
}

// A call that lists changes.
fn listed(words: &[u64; LIMIT], kind: usize, p: Places, g: Given) -> Mark {
    let room = words::after(p.changes, 1);
    let mut cells = [0.0f64; ROOM];
    let mut points = [0.0f64; ROOM];
    let mut indices = [0usize; INDICES];
    let mut records = [0.0f64; ROOM];
    let c = given::lent(words, p.cells, 1, PLAIN, &mut cells);
    let q = given::lent(words, p.points, 1, PLAIN, &mut points);
    let i = given::lent_indices(words, p.changes, &mut indices);
    let r = given::lent(words, room, TO_CHANGES, BY_EIGHT, &mut records);
    let mut m: usize = answers::UNTOLD;
    let mut e: u32 = answers::UNTOLD as u32;
    let mut n: u64 = answers::UNTOLD as u64;
    let code = calls::list(kind, g, c, q, i, r, &mut m, &mut e, &mut n);
    let list = Told {
        count: m as u64,
        edition: e as u64,
        generation: n,
    };
    let s = said(kind, code, 0, 0, false, 0.0, 0.0);
    changes(words, p.answer, s, list, i, r)
}

// The generation of a stock before a call that writes it.
fn generation_before(kind: usize, g: Given) -> u64 {
    if kind == table::REMOVE_RING {
        return g.size;
    }
    g.generation
}

// What a call that writes a stock answered. A refusal leaves all as it was given, but for the place that
// it tells.
fn stock(
    words: &[u64; LIMIT],
    kind: usize,
    p: Places,
    g: Given,
    s: Said,
    position: usize,
    cells: &[f64],
    blocks: &[f64],
    rings: &[f64],
    tests: &[usize],
) -> Mark {
    let done = s.code == 0;
    let chords = kind == table::SEGMENTS;
    let b = done & (kind != table::REMOVE_RING) & !chords;
    let c = b & (kind != table::FROM_PARTS) & (kind != table::RENEW);
    let r = done & (kind != table::APPLY) & (kind != table::NEW) & (kind != table::RENEW);
    let n = cells.len() as u64;
    let l = blocks.len() as u64;
    let m = answers::place(words, answers::answer(words, p.answer, s), position);
    let i = answers::list(words, m, c, n, n, cells);
    let j = answers::list(words, i, b, l, l, blocks);
    let q = answers::list(words, j, r & !chords, s.m, 4 * (s.m % 65536), rings);
    let f = answers::list(words, q, r & chords, s.m, 5 * (s.m % 65536), rings);
    let k = answers::tests(words, f, done, tests);
    let c_kept = words::only(n, !done);
    let b_kept = words::only(l, !done);
    let r_kept = words::only(rings.len() as u64, !done);
    Mark {
        at: k.at,
        ok: k.ok
            & (done | ((s.n == generation_before(kind, g)) & (s.m == g.rings as u64)))
            & answers::numbers_are(words, words::after(p.cells, 1), PLAIN, cells, c_kept)
            & answers::numbers_are(words, words::after(p.blocks, 1), PLAIN, blocks, b_kept)
            & answers::numbers_are(words, words::after(p.rings, 2), PLAIN, rings, r_kept),
    }
}

// A call that writes a stock, or chords in the place of rings.
fn changed(words: &[u64; LIMIT], kind: usize, p: Places, g: Given) -> Mark {
    let room = words::after(p.changes, 1);
    let mut cells = [0.0f64; ROOM];
    let mut blocks = [0.0f64; ROOM];
    let mut points = [0.0f64; ROOM];
    let mut rings = [0.0f64; ROOM];
    let mut indices = [0usize; INDICES];
    let mut records = [0.0f64; ROOM];
    let c = given::lent(words, p.cells, 1, PLAIN, &mut cells);
    let b = given::lent(words, p.blocks, 1, PLAIN, &mut blocks);
    let q = given::lent(words, p.points, 1, PLAIN, &mut points);
    let r = given::lent(words, p.rings, 2, PLAIN, &mut rings);
    let i = given::lent_indices(words, p.changes, &mut indices);
    let t = given::lent(words, room, TO_CHANGES, BY_EIGHT, &mut records);
    let mut n = generation_before(kind, g);
    let mut m = g.rings;
    let mut made = [answers::UNTOLD; INDICES];
    let w = given::lent_tests(kind, q.len(), &mut made);
    let mut position = answers::UNTOLD;
    let code = calls::change(kind, g, c, b, q, r, i, t, &mut m, &mut n, w, &mut position);
    let s = said(kind, code, n, m as u64, false, 0.0, 0.0);
    stock(words, kind, p, g, s, position, c, b, r, w)
}

// What a check of passes told, and what stands in the place of each before.
#[derive(Clone, Copy)]
struct Passing {
    verdict: u32,
    place: usize,
    reason: u32,
    generation: u64,
}

// What a check of passes answered. A refusal leaves the lent numbers, which were 0, and tells nothing.
fn verdict(
    words: &[u64; LIMIT],
    p: Places,
    s: Said,
    v: Passing,
    after: &[f64],
    blocks: &[f64],
) -> Mark {
    let done = s.code == 0;
    let n = after.len() as u64;
    let l = blocks.len() as u64;
    let a = answers::place(words, answers::answer(words, p.answer, s), v.place);
    let m = answers::place(words, a, v.reason as usize);
    let i = answers::list(words, m, done, n, n, after);
    let k = answers::list(words, i, done, l, l, blocks);
    let told = (v.verdict as usize != answers::UNTOLD) & (v.generation != answers::UNTOLD as u64);
    Mark {
        at: k.at,
        ok: k.ok & (done | (!told & answers::are_zero(after) & answers::are_zero(blocks))),
    }
}

// A call that checks passes.
fn checked(words: &[u64; LIMIT], kind: usize, p: Places, g: Given) -> Mark {
    let mut cells = [0.0f64; ROOM];
    let mut blocks = [0.0f64; ROOM];
    let mut targets = [0.0f64; ROOM];
    let mut kinds = [0u32; INDICES];
    let mut numbers = [0.0f64; ROOM];
    let mut parts = [0usize; INDICES];
    let mut lists = [0.0f64; ROOM];
    let mut after = [0.0f64; ROOM];
    let mut after_blocks = [0.0f64; ROOM];
    let c = given::lent(words, p.cells, 1, PLAIN, &mut cells);
    let b = given::lent(words, p.blocks, 1, PLAIN, &mut blocks);
    let t = given::lent(words, p.rings, 1, PLAIN, &mut targets);
    let k = given::lent_kinds(words, p.size, &mut kinds);
    let x = given::lent(words, p.numbers, 1, PLAIN, &mut numbers);
    let q = given::lent_sizes(words, p.changes, &mut parts);
    let l = given::lent(words, p.points, 1, PLAIN, &mut lists);
    let a = given::room_numbers(words, p.room, &mut after);
    let d = given::room_numbers(words, words::after(p.room, 1), &mut after_blocks);
    let mut verdict_is: u32 = answers::UNTOLD as u32;
    let mut place = answers::UNTOLD;
    let mut reason: u32 = answers::UNTOLD as u32;
    let mut n: u64 = answers::UNTOLD as u64;
    let code = calls::check(
        g,
        c,
        b,
        t,
        k,
        x,
        q,
        l,
        a,
        d,
        &mut verdict_is,
        &mut place,
        &mut reason,
        &mut n,
    );
    let v = Passing {
        verdict: verdict_is,
        place,
        reason,
        generation: n,
    };
    let s = said(kind, code, verdict_is as u64, n, false, 0.0, 0.0);
    verdict(words, p, s, v, a, d)
}

// A call that proposes passes. A refusal leaves the count.
fn proposed(words: &[u64; LIMIT], kind: usize, p: Places, g: Given) -> Mark {
    let mut cells = [0.0f64; ROOM];
    let mut targets = [0.0f64; ROOM];
    let mut kinds = [answers::UNTOLD as u32; INDICES];
    let mut numbers = [0.0f64; ROOM];
    let mut parts = [answers::UNTOLD; INDICES];
    let c = given::lent(words, p.cells, 1, PLAIN, &mut cells);
    let t = given::lent(words, p.rings, 1, PLAIN, &mut targets);
    let k = given::room_kinds(words, p.room, &mut kinds);
    let x = given::room_numbers(words, words::after(p.room, 1), &mut numbers);
    let q = given::room_sizes(words, words::after(p.room, 2), &mut parts);
    let mut count = answers::UNTOLD;
    let code = calls::propose(g, c, t, k, x, q, &mut count);
    let s = said(kind, code, count as u64, 0, false, 0.0, 0.0);
    let m = answers::answer(words, p.answer, s);
    let n = words::only(count as u64, code == 0);
    let left = Mark {
        at: m.at,
        ok: m.ok & ((code == 0) | (count == answers::UNTOLD)),
    };
    answers::passes(words, left, n, k, x, q)
}

// Replays the call of a line, and says how far that is as recorded.
pub fn replay(words: &[u64; LIMIT], kind: usize) -> Mark {
    let p = given::places_of(words, kind);
    let g = given::numbers_of(words, p);
    match kind {
        table::PREVIEW
        | table::PREVIEW_POLYGON
        | table::THREAD_CUT
        | table::THREAD_CUT_INNER
        | table::DRILL
        | table::CHANGES_TO => listed(words, kind, p, g),
        table::NEW
        | table::APPLY
        | table::REMOVE_RING
        | table::APPLY_MOVE
        | table::FROM_PARTS
        | table::SEGMENTS
        | table::RENEW => changed(words, kind, p, g),
        table::CHECK_PASSES => checked(words, kind, p, g),
        table::PROPOSE_PASSES => proposed(words, kind, p, g),
        _ => asked(words, kind, p, g),
    }
}
