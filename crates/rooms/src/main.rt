// Histories made record by record, up to the longest there is, and tallies handed in. A line for each
// history has its name, how many records it has and how many bytes stand behind them; what `room`
// tells of it, that is result, blocks, steps, lines and bytes; and, if it is taken, `ok` and how many
// bytes were printed, or what came of writing, running and printing it. It is told in parts of 1, 31
// and 4,000 records; one that is no longer than the last part also at once.
#![tactic(auto)]

ghost use Rattle.std.specs.Prelude.{◌≡◌, ◌+◌, ◌<◌, ◌≤◌, length};

use board::Board;
use buffers::RECORD;
use calls::Event;
use history::{AREA, BLOCK, FULL};
use room::{Needs, Tally};
use std::fmt::{self, Display, Formatter, Write};

// The greatest V and W there are, and those of a step.
const EVERY_V: u32 = u32::MAX;

const EVERY_W: u64 = u64::MAX;

const STEP_V: u32 = calls::LINES - 1;

const STEP_W: u64 = words::WORDS - 1;

// How many records a part has at most, and the room for them and the bytes behind them.
const PART: u32 = 4000;

const SIZE: usize = 65536;

// The place of the first line of a late history: from there on an index has seven digits.
const LATE: u32 = 1000000;

// How the records of a history are made.
#[derive(Clone, Copy)]
enum Sort {
    // accepted steps, with all lines low and with all high in turn
    Steps,
    // steps with each field that does not fit, and one that fits
    Unfit,
    // steps up to the place LATE, then soft snapshots and their reads, the longest lines of a log
    Late,
    // every kind there is, on one member after the other
    Kinds,
}

// A history: how its records are made, how many they are, and how many bytes stand behind them.
#[derive(Clone, Copy)]
struct History {
    sort: Sort,
    n: u32,
    tail: u8,
}

// What writing, running and printing a history came to.
#[derive(Clone, Copy)]
struct Came {
    board: Board,
    blocks: u32,
    steps: u64,
    lines: u64,
    bytes: u64,
}

// A call on channel 0.
fn call(kind: u8, v: u32) -> Event {
    Event {
        kind,
        member: 0,
        selector: 0,
        spare: 0,
        v,
        w: 0,
    }
}

fn step(v: u32, w: u64) -> Event {
    Event { w, ..call(0, v) }
}

// Of eight steps in turn, seven that are refused.
fn unfit(i: u32) -> Event {
    let fits = step(STEP_V, STEP_W);
    let turn = [
        Event { member: 1, ..fits },
        Event {
            selector: 1,
            ..fits
        },
        Event { spare: 1, ..fits },
        Event {
            v: calls::LINES,
            ..fits
        },
        Event { v: EVERY_V, ..fits },
        Event {
            w: words::WORDS,
            ..fits
        },
        Event { w: EVERY_W, ..fits },
        fits,
    ];
    turn[(i % 8) as usize]
}

// The greatest count is loaded, and captured and read from the place LATE on. The arms are places of
// a history, two of them single, so no enum names them.
fn late(i: u32) -> Event {
    match i {
        0 => call(2, EVERY_V),
        1 => call(9, 0),
        _ if i < LATE => step(0, 0),
        _ if i % 2 == 0 => call(8, 0),
        _ => call(11, 0),
    }
}

// Kind by kind, with the place for V.
fn any_kind(i: u32) -> Event {
    Event {
        member: (i / 256 % 64) as u8,
        ..call((i % 256) as u8, i)
    }
}

impl Sort {
    // Record i of a history.
    fn event(self, i: u32) -> Event {
        match self {
            Sort::Steps if i % 2 == 0 => step(0, 0),
            Sort::Steps => step(STEP_V, STEP_W),
            Sort::Unfit => unfit(i),
            Sort::Late => late(i),
            Sort::Kinds => any_kind(i),
        }
    }

    // The records from place `from` of a history on, as many as there is room for.
    fn fill(self, from: u32, out: &mut [u8]) {
        for (record, i) in out.chunks_exact_mut(RECORD).zip(from..) {
            record.copy_from_slice(&records::encode(self.event(i)));
        }
    }
}

impl Display for Sort {
    fn fmt<W: fmt::Write>(&self, f: &mut Formatter<W>) -> fmt::Result {
        f.write_str(match self {
            Sort::Steps => "steps",
            Sort::Unfit => "unfit",
            Sort::Late => "late",
            Sort::Kinds => "kinds",
        })
    }
}

impl History {
    // The records from place `from` on, at most so many, and behind the last of the history its bytes;
    // answers the length of all that.
    fn fill_part(self, from: u32, part: u32, out: &mut [u8; SIZE]) -> usize
        requires place { from ≤ self.n }
        requires room { part ≤ 4000 }
        ensures { result ≤ 65536 }
    {
        let left = self.n - from;
        let len = RECORD * left.min(part) as usize;
        let behind = if left > part { 0 } else { self.tail };
        let end = len + behind as usize;
        self.sort.fill(from, &mut out[..len]);
        out[len..end].fill(0);
        end
    }

    // What is told of it in parts of so many records.
    fn told(self, part: u32) -> Needs
        requires some { 1 ≤ part }
        requires room { part ≤ 4000 }
    {
        let mut buf = [0u8; SIZE];
        let mut t = room::none();
        for from in (0..self.n.max(1)).step_by(part as usize) {
            let end = self.fill_part(from, part, &mut buf);
            t = t.add(&buf[..end]);
        }
        t.needs()
    }

    // What is told of it at once, none where it is longer than a part.
    fn told_at_once(self) -> Option<Needs> {
        if self.n > PART {
            return None;
        }
        let mut buf = [0u8; SIZE];
        let end = self.fill_part(0, PART, &mut buf);
        Some(room::needs_of(&buf[..end]))
    }
}

// How many accepted steps a run of some records has.
fn accepted(board: Board, h: &[u8]) -> usize
    requires { length h.now ≤ 496 }
{
    let mut answers = [0u8; AREA];
    runs::run(board, h, &mut answers);
    (0..h.len() / RECORD)
        .filter(|i| {
            let at = RECORD * i;
            let e = records::event_at(h, at);
            let a = runs::answer_at(&answers, at);
            e.kind == 0 && a.result == 0
        })
        .count()
}

// How many line feeds a text has.
fn feeds(text: &[u8]) -> usize {
    text.iter().filter(|b| **b == b'\n').count()
}

// The block of some records.
fn block_of(h: &[u8], number: u32) -> [u8; BLOCK]
    requires { length h.now ≤ 496 }
{
    let mut block = [0u8; BLOCK];
    history::write_block(&mut block, h, number);
    block
}

impl Came {
    // One block of records more: it is run, written and printed.
    fn with_block(self, h: &[u8], more: bool) -> Came
        requires room { length h.now ≤ 496 }
        requires blocks { self.blocks < 65535 }
        ensures { result.blocks ≡ self.blocks + 1 }
    {
        let mut out = [0u8; 4096];
        let block = block_of(h, self.blocks);
        let steps = accepted(self.board, h) as u64;
        let p = loglines::print_place(self.board, self.blocks, &block, more, &mut out);
        let lines = feeds(&out[..p.written]) as u64;
        Came {
            board: p.board,
            blocks: self.blocks + 1,
            steps: self.steps.wrapping_add(steps),
            lines: self.lines.wrapping_add(lines),
            bytes: self.bytes.wrapping_add(p.written as u64),
        }
    }
}

impl History {
    // What comes of its records.
    fn come(self) -> Came
        requires { self.n ≤ 2031585 }
    {
        let mut c = Came {
            board: board::reset(),
            blocks: 0,
            steps: 0,
            lines: 0,
            bytes: 0,
        };
        // The records are made block by block, so there are only the blocks' numbers to walk over.
        for k in 0..self.n.div_ceil(FULL) {
            let mut h = [0u8; AREA];
            let from = FULL * k;
            let left = self.n - from;
            let len = RECORD * left.min(FULL) as usize;
            self.sort.fill(from, &mut h[..len]);
            c = c.with_block(&h[..len], left > FULL);
        }
        c
    }
}

// What is told of a history, each number with a space before it.
#[derive(Clone, Copy)]
struct Numbers(Needs);

impl Display for Numbers {
    fn fmt<W: fmt::Write>(&self, f: &mut Formatter<W>) -> fmt::Result {
        let n = self.0;
        write!(
            f,
            " {} {} {} {} {}",
            n.result, n.blocks, n.steps, n.lines, n.bytes
        )
    }
}

// Whether what was told is what came.
fn meets(n: Needs, c: Came) -> bool {
    n.blocks == c.blocks
        && n.steps as u64 == c.steps
        && n.lines as u64 == c.lines
        && c.bytes <= n.bytes as u64
}

// Tells `ok` and the bytes that were printed, or all that came.
fn verdict(rt: &impl Print, n: Needs, c: Came) {
    let _ = if meets(n, c) {
        print!(rt; " ok, printed {}", c.bytes)
    } else {
        print!(rt;
            " differs: came {} {} {} {}",
            c.blocks, c.steps, c.lines, c.bytes
        )
    };
}

// The line of a history.
fn show(rt: &impl Print, h: History) {
    let History { sort, n, tail } = h;
    let needs = h.told(PART);
    let _ = print!(rt; "{sort} {n} {tail}:{}", Numbers(needs));
    if h.told(FULL) != needs || h.told(1) != needs {
        let _ = print!(rt; " differs part by part");
    }
    if h.told_at_once().is_some_and(|at_once| at_once != needs) {
        let _ = print!(rt; " differs at once");
    }
    if needs.result == 0 && n as usize <= history::RECORDS {
        verdict(rt, needs, h.come());
    }
    let _ = println!(rt; "");
}

// The line of a tally handed in, to which n steps are added, a part at most.
fn show_tally(rt: &impl Print, t: Tally, n: u32) {
    let mut buf = [0u8; SIZE];
    let refused = u8::from(t.refused);
    let _ = print!(rt;
        "tally {} {} {refused}:{}",
        t.steps,
        t.lines,
        Numbers(t.needs())
    );
    let h = History {
        sort: Sort::Steps,
        n,
        tail: 0,
    };
    let end = h.fill_part(0, PART, &mut buf);
    let more = t.add(&buf[..end]);
    let _ = println!(rt; " and with {n}{}", Numbers(more.needs()));
}

fn histories(rt: &impl Print) {
    for (sort, n, tail) in [
        (Sort::Steps, 0, 0),
        (Sort::Steps, 1, 0),
        (Sort::Steps, 31, 0),
        (Sort::Steps, 32, 0),
        (Sort::Steps, 2031585, 0),
        (Sort::Steps, 2031586, 0),
        (Sort::Steps, 0, 1),
        (Sort::Steps, 1, 1),
        (Sort::Steps, 4000, 15),
        (Sort::Unfit, 7, 0),
        (Sort::Unfit, 8, 0),
        (Sort::Unfit, 31, 0),
        (Sort::Unfit, 2031585, 0),
        (Sort::Late, 1000002, 0),
        (Sort::Late, 2031585, 0),
        (Sort::Kinds, 256, 0),
        (Sort::Kinds, 2031585, 0),
        (Sort::Kinds, 2031585, 8),
    ] {
        show(rt, History { sort, n, tail });
    }
}

fn tallies(rt: &impl Print) {
    for (steps, lines, refused, n) in [
        (0, 0, false, 1),
        (5, 26, false, 1),
        (5, 26, true, 1),
        (2031584, 0, false, 1),
        (0, 2031585, false, 0),
        (0, 2031585, false, 1),
        (1, 2031585, false, 0),
        (EVERY_V, EVERY_V, false, 1),
        (EVERY_V, 2, false, 1),
    ] {
        let t = Tally {
            steps,
            lines,
            refused,
        };
        show_tally(rt, t, n);
    }
}

fn main(rt: HostRuntime) {
    histories(&rt);
    tallies(&rt);
}
