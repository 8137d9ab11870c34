// Runs recorded histories and compares. The table comes on standard input, a test on each line:
// `log NAME`: the lines printed for NAME.hist are those of NAME.log.
// `read NAME ROOM RESULT BYTES`: so the reader answers NAME.hist with so many bytes of room.
// `write LENGTH ROOM RESULT BYTES`: so the writer answers a history of so many zero bytes.
// `audit NAME`: the accounts of the history of NAME.hist, a line for each channel that has one: the
// channel, captures made, handed out, held, reported and not yet reported.
// `needs NAME`: what the history of NAME.hist needs, told from its records: blocks, accepted steps,
// lines and bytes. The file has so many blocks, NAME.log so many lines and no more bytes, and the
// steps and the lines are as many as the records.
// `turn NAME`: of the old row file NAME.hist, the log of the column file that it is turned into and
// the line that is told then are those of NAME.log.
// `long BLOCKS TAIL RESULT PLACE`: the log of so many full blocks of accepted steps and, behind
// them, so many zero bytes (at most 512) ends at this place with this result. The log is empty for
// result 0, else only the line of this place. The blocks are made one by one and not kept.
// A refused output is looked at whole, an accepted one past its end; what was read is written
// again and must give the file, and what was written is read again. Each record that was read is
// decoded and encoded and must be the same, and so must each block's records, printed as text and
// read again. Each line is repeated with `ok`, or with what differs:
// of a log the line's number, what was expected and what came.
#![tactic(auto)]

ghost use Rattle.std.specs.Prelude.{◌≡◌, ◌+◌, ◌≤◌, length};

use account::{Audit, Balance};
use arrayvec::ArrayString;
use board::Board;
use buffers::RECORD;
use history::{AREA, BLOCK, Refusal};
use room::Needs;
use scan::Between;
use std::fmt::Write;

// What an output is filled with before a test.
const MARK: u8 = 0xa5;

// The size of all buffers.
const SIZE: usize = 65536;

// What a table's row asks for: room, result, bytes. In a `long` row these are the bytes behind the
// blocks, the result and the place.
#[derive(Clone, Copy)]
struct Row {
    room: usize,
    result: u64,
    bytes: u64,
    ghost within: { room ≤ 65536 },
}

// A test of the table: the name of its files or the number behind its first word, and its row.
#[derive(Clone, Copy)]
enum Test<'a> {
    Log(&'a [u8]),
    Read(&'a [u8], Row),
    Write(u64, Row),
    Audit(&'a [u8]),
    Needs(&'a [u8]),
    Turn(&'a [u8]),
    Long(u64, Row),
}

// The buffers of a test.
#[derive(Drop)]
struct Space {
    file: [u8; SIZE],
    out: [u8; SIZE],
    back: [u8; SIZE],
}

// The board after the sound places, how many these are, the length of the log, and the result of
// the last place, a number as the rows have it.
#[derive(Clone, Copy)]
struct State {
    board: Board,
    place: u32,
    at: usize,
    result: u8,
    ghost within: { at ≤ 65536 },
}

// How long a column file is, and how long it is with the line of the bad place behind it.
#[derive(Clone, Copy)]
struct Turned {
    file: usize,
    all: usize,
    ghost order: { file ≤ all },
    ghost within: { all ≤ 65536 },
}

// A number as a length that fits a buffer.
fn size(n: u64) -> usize
    ensures { result ≤ 65536 }
{
    n.min(SIZE as u64) as usize
}

// How many first bytes two texts have in common.
fn common(a: &[u8], b: &[u8]) -> usize
    ensures first { result ≤ length a.now }
    ensures second { result ≤ length b.now }
{
    a.iter().zip(b).take_while(|(x, y)| x == y).count()
}

// Reads the file of the given name and ending into buf, and answers its length. Where it is not read
// whole, that is told. Names stay bytes: the table need not be UTF-8.
fn load(rt: HostRuntime, name: &[u8], ending: &[u8], buf: &mut [u8; SIZE]) -> usize
    ensures { result ≤ 65536 }
{
    match streams::load(rt, name, ending, buf) {
        Ok(n) => n,
        Err(cut) => {
            let _ = print!(rt; ": a file is missing or not read whole;");
            cut.count
        }
    }
}

// The state before the first place.
fn start() -> State
    ensures { (result.place ≡ 0) × (result.at ≡ 0) }
{
    State {
        board: board::reset(),
        place: 0,
        at: 0,
        result: 0,
    }
}

impl State {
    // With the lines of the next place in the log.
    fn log_place(self, bytes: &[u8], more: bool, out: &mut [u8; SIZE]) -> State
        ensures { result.place ≤ self.place + 1 }
    {
        let p = loglines::print_place(self.board, self.place, bytes, more, &mut out[self.at..]);
        State {
            board: p.board,
            place: self.place.saturating_add(u32::from(p.refusal.is_none())),
            at: self.at + p.written,
            result: match p.refusal {
                Some(refusal) => u8::from(refusal),
                None => 0,
            },
        }
    }
}

// The log of a whole file, at the start of out, and its length.
fn log_file(file: &[u8], out: &mut [u8; SIZE]) -> usize
    ensures { result ≤ 65536 }
{
    let last = file.len().saturating_sub(1) / BLOCK;
    let mut s = start();
    for (i, bytes) in file.chunks(BLOCK).enumerate() {
        s = s.log_place(bytes, i < last, out);
        if s.result != 0 {
            break;
        }
    }
    s.at
}

// A block of 31 accepted steps with the given number.
fn steps_block(number: u32) -> [u8; BLOCK] {
    let records = [0u8; AREA];
    let mut block = [0u8; BLOCK];
    history::write_block(&mut block, &records, number);
    block
}

// The log of n blocks of accepted steps and of the bytes behind them.
fn log_long(n: u32, tail: &[u8], out: &mut [u8; SIZE]) -> State {
    let mut s = start();
    // The blocks are made one by one and not kept, so there are only their numbers to walk over.
    for i in 0..n {
        let more = i < n - 1 || !tail.is_empty();
        s = s.log_place(&steps_block(i), more, out);
        if s.result != 0 {
            return s;
        }
    }
    if tail.is_empty() {
        return s;
    }
    s.log_place(tail, false, out)
}

// Whether a log is the line of a place alone, and empty for result 0.
fn is_place_line(place: u32, res: u8, log: &[u8]) -> bool {
    if res == 0 {
        return log.is_empty();
    }
    let mut line = ArrayString::<48>::new();
    writeln!(line, "block {place} {res}").is_ok() && line.as_str().as_bytes() == log
}

// The number of the line that place `at` is in, counted from 1. A place is a number, here and below,
// since it is that of two texts, and the line around it has bytes on both its sides.
fn line_number(text: &[u8], at: usize) -> usize
    requires { at ≤ length text.now }
{
    1 + text[..at].iter().filter(|b| **b == b'\n').count()
}

// The place at which the line of place `at` starts.
fn line_start(text: &[u8], at: usize) -> usize
    requires { at ≤ length text.now }
    ensures { result ≤ at }
{
    match text[..at].iter().rposition(|b| *b == b'\n') {
        Some(i) => i + 1,
        None => 0,
    }
}

// Prints the line of place `at`, or that there is none.
fn show_line(rt: &impl Print, text: &[u8], at: usize)
    requires { at ≤ length text.now }
{
    let from = line_start(text, at);
    let _ = print!(rt; "    ");
    let _ = match text[from..].split(|b| *b == b'\n').next() {
        Some(line) if from < text.len() => rt.write_all(line),
        _ => rt.write_all(b"nothing"),
    };
    let _ = println!(rt; "");
}

// Compares a log with what is expected.
fn compare(rt: &impl Print, expected: &[u8], came: &[u8]) {
    if expected == came {
        let _ = println!(rt; " ok");
        return;
    }
    let at = common(expected, came);
    let number = line_number(expected, at);
    let _ = println!(rt; " differs in line {number}\n  expected");
    show_line(rt, expected, at);
    let _ = println!(rt; "  came");
    show_line(rt, came, at);
}

// `log NAME`.
fn test_log(rt: HostRuntime, name: &[u8], s: &mut Space) {
    let n = load(rt, name, b".hist", &mut s.file);
    let m = load(rt, name, b".log", &mut s.back);
    let w = log_file(&s.file[..n], &mut s.out);
    compare(&rt, &s.back[..m], &s.out[..w]);
}

// The column file of a row file, and behind it the line of a bad place, at the start of out.
fn turn_file(file: &[u8], out: &mut [u8; SIZE]) -> Turned {
    let last = file.len().saturating_sub(1) / BLOCK;
    let mut at = 0;
    for (bytes, place) in file.chunks(BLOCK).zip(0u32..) {
        let more = (place as usize) < last;
        match turn::turn_place(place, bytes, more, &mut out[at..]) {
            Ok(n) => at += n,
            Err(bad) => {
                let all = at + bad.written;
                return Turned { file: at, all };
            }
        }
    }
    Turned { file: at, all: at }
}

// `turn NAME`.
fn test_turn(rt: HostRuntime, name: &[u8], s: &mut Space) {
    let Space { file, out, back } = s;
    let n = load(rt, name, b".hist", file);
    let m = load(rt, name, b".log", back);
    let t = turn_file(&file[..n], out);
    let w = log_file(&out[..t.file], file);
    let line = &out[t.file..t.all];
    if line.len() > SIZE - w {
        let _ = println!(rt; " is too long");
        return;
    }
    let all = w + line.len();
    file[w..all].copy_from_slice(line);
    compare(&rt, &back[..m], &file[..all]);
}

// Tells `ok`, or what came in place of a row's result and last number.
fn verdict(rt: &impl Print, row: Row, res: u8, written: usize, sound: bool) {
    if sound && res as u64 == row.result && written as u64 == row.bytes {
        let _ = println!(rt; " ok");
        return;
    }
    let way = if sound {
        ""
    } else {
        ", output or way back wrong"
    };
    let _ = println!(rt; " differs: came {res} {written}{way}");
}

// Whether a transfer was accepted and left what is expected at the start of out.
fn gives(t: Result<usize, Refusal>, expected: &[u8], out: &[u8]) -> bool {
    t.is_ok_and(|n| out.get(..n) == Some(expected))
}

// Whether the history, written, gives the file; and the other way round below, as each test hands one in.
fn writes_as(h: &[u8], file: &[u8], out: &mut [u8]) -> bool {
    let t = history::write(h, out);
    gives(t, file, out)
}

// Whether the file, read, gives the history.
fn reads_as(file: &[u8], h: &[u8], out: &mut [u8]) -> bool {
    let t = history::read(file, out);
    gives(t, h, out)
}

// Whether a history is of whole records, each the same after it is decoded and encoded.
fn recoded(h: &[u8]) -> bool {
    let (all, rest) = h.as_chunks::<RECORD>();
    rest.is_empty()
        && all
            .iter()
            .all(|r| records::encode(records::decode(r)) == *r)
}

// Whether some records, printed as text and read again, are the same.
fn is_reprinted(h: &[u8], text: &mut [u8]) -> bool {
    let mut back = [0u8; AREA];
    let Ok(p) = textout::print(textout::no_run(), h, true, text) else {
        return false;
    };
    let Some(printed) = text.get(..p.written) else {
        return false;
    };
    match textin::parse(printed, &mut back) {
        Ok(n) => back.get(..n) == Some(h),
        Err(_) => false,
    }
}

// Whether no records, and the records of a history block by block, are the same, printed as text and
// read again.
fn reprinted(h: &[u8], text: &mut [u8]) -> bool {
    for records in h.chunks(AREA) {
        if !is_reprinted(records, text) {
            return false;
        }
    }
    is_reprinted(&[], text)
}

// Whether a history that was read from a file is the same on each way back.
fn comes_back(h: &[u8], file: &[u8], out: &mut [u8]) -> bool {
    recoded(h) && reprinted(h, out) && writes_as(h, file, out)
}

// Tests a transfer into a row's room: what it writes past its end, and, if it is accepted, whether
// what it wrote gives on its way back what it was made of.
fn test_transfer<T: FnOnce(&mut [u8]) -> Result<usize, Refusal>, B: FnOnce(&[u8]) -> bool>(
    rt: &impl Print,
    row: Row,
    out: &mut [u8; SIZE],
    transfer: T,
    comes_back: B,
)
    requires transfer { T.IsAlwaysCallable transfer }
    requires way_back { B.IsAlwaysCallable comes_back }
{
    out.fill(MARK);
    let t = transfer(&mut out[..row.room]);
    let w = t.unwrap_or(0);
    let sound = w <= row.room
        && out[w..].iter().all(|b| *b == MARK)
        && (t.is_err() || comes_back(&out[..w]));
    let res = match t {
        Ok(_) => 0,
        Err(refusal) => u8::from(refusal),
    };
    verdict(rt, row, res, w, sound);
}

// `read NAME ROOM RESULT BYTES`.
fn test_read(rt: HostRuntime, name: &[u8], row: Row, s: &mut Space) {
    let n = load(rt, name, b".hist", &mut s.file);
    let file = &s.file[..n];
    let back = &mut s.back;
    test_transfer(
        &rt,
        row,
        &mut s.out,
        |out| history::read(file, out),
        |h| comes_back(h, file, back),
    );
}

// `write LENGTH ROOM RESULT BYTES`.
fn test_write(rt: HostRuntime, n: usize, row: Row, s: &mut Space)
    requires { n ≤ 65536 }
{
    s.file[..n].fill(0);
    let h = &s.file[..n];
    let back = &mut s.back;
    test_transfer(
        &rt,
        row,
        &mut s.out,
        |out| history::write(h, out),
        |file| reads_as(file, h, back),
    );
}

// The board and the accounts after the records of a history.
fn audited(h: &[u8]) -> Audit {
    let (all, _) = h.as_chunks::<RECORD>();
    all.iter()
        .fold(account::start(), |a, r| a.send(records::decode(r)))
}

// Prints the account of each channel that has one.
fn show_accounts(rt: &impl Print, a: Audit) {
    for (i, (account, c)) in a.accounts.iter().zip(&a.board.channels).enumerate() {
        let n = account::balance_of(*account, *c);
        let Balance {
            made,
            handed,
            held,
            reported,
            unreported,
        } = n;
        if [made, handed, held, reported, unreported] != [0; 5] {
            let _ = println!(rt; "  {i} {made} {handed} {held} {reported} {unreported}");
        }
    }
}

// The history of a file, if it is read; else that is told.
fn history_of<'a>(rt: &impl Print, file: &[u8], out: &'a mut [u8; SIZE]) -> Option<&'a [u8]> {
    match history::read(file, out) {
        Ok(n) => Some(&out[..n]),
        Err(_) => {
            let _ = println!(rt; " is not read");
            None
        }
    }
}

// `audit NAME`.
fn test_audit(rt: HostRuntime, name: &[u8], s: &mut Space) {
    let n = load(rt, name, b".hist", &mut s.file);
    if let Some(h) = history_of(&rt, &s.file[..n], &mut s.out) {
        let _ = println!(rt; "");
        show_accounts(&rt, audited(h));
    }
}

// Whether a history of n records, a file of so many bytes and a log are as it is told.
fn meets(needs: Needs, n: usize, bytes: usize, log: &[u8]) -> bool {
    let lines = needs.lines as u64;
    BLOCK as u64 * needs.blocks as u64 == bytes as u64
        && needs.steps as u64 + lines == n as u64
        && lines + 1 == line_number(log, log.len()) as u64
        && log.len() as u64 <= needs.bytes as u64
}

// Prints what a history needs, and compares it with a file of so many bytes and its log.
fn show_needs(rt: &impl Print, h: &[u8], bytes: usize, log: &[u8]) {
    let needs = room::needs_of(h);
    let met = needs.result == 0 && meets(needs, h.len() / RECORD, bytes, log);
    let verdict = if met { "ok" } else { "differs" };
    let _ = println!(rt;
        " {} {} {} {} {verdict}",
        needs.blocks, needs.steps, needs.lines, needs.bytes
    );
}

// `needs NAME`.
fn test_needs(rt: HostRuntime, name: &[u8], s: &mut Space) {
    let n = load(rt, name, b".hist", &mut s.file);
    let m = load(rt, name, b".log", &mut s.back);
    if let Some(h) = history_of(&rt, &s.file[..n], &mut s.out) {
        show_needs(&rt, h, n, &s.back[..m]);
    }
}

// `long BLOCKS TAIL RESULT PLACE`.
fn test_long(rt: HostRuntime, n: usize, row: Row, s: &mut Space)
    requires { n ≤ 65536 }
{
    s.file[..row.room].fill(0);
    let log = log_long(n as u32, &s.file[..row.room], &mut s.out);
    let sound = is_place_line(log.place, log.result, &s.out[..log.at]);
    verdict(&rt, row, log.result, log.place as usize, sound);
}

// The number that a word is, 0 where there is none.
fn number(word: Option<&[u8]>) -> u64 {
    word.and_then(|w| scan::number(w)).unwrap_or(0)
}

impl<'a> Test<'a> {
    // The test in a line of the table, none where nothing stands behind its first word.
    fn of(line: &'a [u8]) -> Option<Test<'a>> {
        let mut words = line.split(|b| Between::Words.splits(*b));
        let kind = words.next()?;
        let name = words.next()?;
        let row = Row {
            room: size(number(words.next())),
            result: number(words.next()),
            bytes: number(words.next()),
        };
        Some(match kind {
            [b'l', _, _] => Test::Log(name),
            [b'l', ..] => Test::Long(number(Some(name)), row),
            [b't', ..] => Test::Turn(name),
            [b'a', ..] => Test::Audit(name),
            [b'n', ..] => Test::Needs(name),
            [b'r', ..] => Test::Read(name, row),
            _ => Test::Write(number(Some(name)), row),
        })
    }
}

// Runs the test in a line of the table.
fn run(rt: HostRuntime, line: &[u8], s: &mut Space) {
    let _ = rt.write_all(line);
    match Test::of(line) {
        Some(Test::Log(name)) => test_log(rt, name, s),
        Some(Test::Read(name, row)) => test_read(rt, name, row, s),
        Some(Test::Write(n, row)) => test_write(rt, size(n), row, s),
        Some(Test::Audit(name)) => test_audit(rt, name, s),
        Some(Test::Needs(name)) => test_needs(rt, name, s),
        Some(Test::Turn(name)) => test_turn(rt, name, s),
        Some(Test::Long(n, row)) => test_long(rt, size(n), row, s),
        None => {
            let _ = println!(rt; " no test");
        }
    }
}

fn main(rt: HostRuntime) {
    let mut table = [0u8; SIZE];
    let mut s = Space {
        file: [0; SIZE],
        out: [0; SIZE],
        back: [0; SIZE],
    };
    let Ok(n) = streams::read_all(rt, b"vectors", &mut table) else {
        return;
    };
    for line in table[..n].split_inclusive(|b| *b == b'\n') {
        run(rt, line.strip_suffix(b"\n").unwrap_or(line), &mut s);
    }
}
