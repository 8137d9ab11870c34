// Runs written histories and compares. Standard input lists their names, one on a line, and for
// each NAME the folder has NAME.txt, the history in the text form, NAME.log, what `boardlog` prints
// for it, and, where levels are looked at, NAME.levels: a line for each output, x0 for ExtOut of
// channel 0, d3 for the driven value of pin 3, p3 for its level, and behind it the steps, counted
// from 1, after which it is high: `x0 3-8 13`. A line that starts with # is a comment there. Each
// name is repeated with the number of answers and of levels that agree, and behind it stand the
// accounts of the captures of each channel that has one; a difference is told with the files, the
// lines, what was expected and what came. A file that cannot be read, or is longer than there is
// room for, is told in place of a run. What fails on standard input or output is told on standard
// error and ends the program.
#![tactic(auto)]

ghost use Rattle.std.specs.Prelude.{◌≡◌, ◌≤◌, IfSome};

use account::{Audit, Balance};
use arrayvec::{ArrayString, ArrayVec};
use board::Board;
use calls::Event;
use scan::Between;
use std::fmt::{self, Display, Formatter, Write};
use std::{io, str};
use streams::{EACCES, EISDIR, ENOENT, Error};
use textin::{Text, Wanted};

// The size of all buffers.
const SIZE: usize = 65536;

// The room of a byte and a number of up to 20 digits.
const SPAN: usize = 21;

// The room of a line of a log.
const LINE: usize = 126;

// The files of a history, and a line of its levels as it came.
#[derive(Drop)]
struct Files {
    text: [u8; SIZE],
    log: [u8; SIZE],
    levels: [u8; SIZE],
    came: ArrayString<SIZE>,
}

// What the program says on standard output, which is open until a write fails.
#[derive(Drop)]
struct Voice {
    rt: HostRuntime,
    open: bool,
}

impl Voice {
    fn say(&mut self, what: &[u8]) {
        if self.open
            && let Err(why) = streams::print(self.rt, what)
        {
            streams::tell(self.rt, b"scenarios", why);
            self.open = false;
        }
    }

    // What a line is for, and the line; an empty one is none.
    fn say_line(&mut self, what: &[u8], line: &[u8]) {
        self.say(what);
        self.say(if line.is_empty() { b"nothing" } else { line });
        self.say(b"\n");
    }
}

impl Write for Voice {
    fn write_str(&mut self, s: &str) -> fmt::Result {
        self.say(s.as_bytes());
        Ok(())
    }
}

// A log as far as the answers agree with it: what stands behind these lines, and how many they are.
#[derive(Clone, Copy)]
struct Log<'a> {
    rest: &'a [u8],
    lines: u64,
}

// The board after so many events, and the log.
#[derive(Clone, Copy)]
struct Course<'a> {
    board: Board,
    events: u64,
    log: Log<'a>,
}

// A line that came and is not the next one of the log.
type Came = ArrayVec<u8, LINE>;

// What is looked at: a bit of the driven values or of the levels of the pins, or ExtOut of a channel.
#[derive(Clone, Copy)]
enum Output {
    ExtOut(usize),
    Driven(u64),
    Level(u64),
}

// A span of steps in which an output is high.
#[derive(Clone, Copy)]
struct Span {
    first: u64,
    last: u64,
}

// The text of the spans that are closed, the steps so far, and the span that is open. The text is lent:
// one of this size takes longer to make and to hand on than most runs.
#[derive(Drop)]
struct Spans<'a> {
    text: &'a mut ArrayString<SIZE>,
    steps: u64,
    open: Option<Span>,
}

// Why the spans of an output cannot be told.
#[derive(Clone, Copy)]
enum Untold {
    NoOutput,
    TooMany,
}

impl Display for Untold {
    fn fmt<W: Write>(&self, f: &mut Formatter<W>) -> fmt::Result {
        f.write_str(match self {
            Untold::NoOutput => "no such output",
            Untold::TooMany => "more spans than fit 65536 bytes",
        })
    }
}

// The first line of a text, without its line feed.
fn first_line(text: &[u8]) -> &[u8] {
    text.split(|b| *b == b'\n').next().unwrap_or(text)
}

// Tells why the system did not give a file.
fn tell_error(voice: &mut Voice, e: io::Error) {
    voice.say(match e.raw_os_error() {
        Some(ENOENT) => b" is missing\n",
        Some(EISDIR) => b" is a folder\n",
        Some(EACCES) => b" may not be read\n",
        _ => b" cannot be read\n",
    });
}

// Tells why a file was not read whole.
fn tell_file(voice: &mut Voice, name: &[u8], ending: &[u8], error: Error) {
    voice.say(name);
    voice.say(ending);
    match error {
        Error::TooLong => {
            let _ = writeln!(voice, " has more than {SIZE} bytes");
        }
        Error::NameTooLong => {
            let most = streams::PATH;
            let _ = writeln!(voice, " is a name of more than {most} bytes");
        }
        Error::NotUtf8 => voice.say(b" cannot be read\n"),
        Error::Io(e) => tell_error(voice, e),
    }
}

// Whether there is no such file.
fn is_missing(error: Error) -> bool {
    matches!(error, Error::Io(e) if e.raw_os_error() == Some(ENOENT))
}

// Reads a file of a history, and answers its length. If it is not read whole, that is told, unless
// it is missing and not needed, which is an empty file.
fn load(
    voice: &mut Voice,
    name: &[u8],
    ending: &[u8],
    needed: bool,
    buf: &mut [u8; SIZE],
) -> Option<usize>
    ensures { IfSome result (λ n. n ≤ 65536) }
{
    match streams::load(voice.rt, name, ending, buf) {
        Ok(n) => Some(n),
        Err(cut) if !needed && is_missing(cut.error) => Some(0),
        Err(cut) => {
            tell_file(voice, name, ending, cut.error);
            None
        }
    }
}

// The board and the log before the first event.
fn start(log: &[u8]) -> Course<'_>
    ensures { result.log.rest.now ≡ log.now }
{
    Course {
        board: board::reset(),
        events: 0,
        log: Log {
            rest: log,
            lines: 0,
        },
    }
}

impl Course<'_> {
    // Sends an event, and goes on in the log by the line of its answer, which may be empty; one that
    // is not the next of the log is the error.
    fn send(&mut self, e: Event) -> Result<(), Came> {
        let mut came = Came::new();
        let o = board::apply(self.board, e);
        loglines::append_line(&mut came, self.events, e.kind, o.answer);
        self.board = o.board;
        self.events = self.events.wrapping_add(1);
        if came.as_slice().is_empty() {
            return Ok(());
        }
        let Some(rest) = self.log.rest.strip_prefix(came.as_slice()) else {
            return Err(came);
        };
        self.log = Log {
            rest,
            lines: self.log.lines.wrapping_add(1),
        };
        Ok(())
    }
}

// Tells a bad line of a text.
fn tell_bad(voice: &mut Voice, name: &[u8], line: u64, wanted: Wanted) {
    voice.say(name);
    let number = u32::from(wanted);
    let _ = writeln!(voice, ": line {line} of the text is bad, wanted {number}");
}

// Tells where a log differs.
fn tell_answer(voice: &mut Voice, name: &[u8], t: Text, log: Log<'_>, came: &[u8]) {
    voice.say(name);
    let number = log.lines.wrapping_add(1);
    let _ = writeln!(voice, ".log line {number}, at line {} of the text", t.lines);
    voice.say_line(b"  expected ", first_line(log.rest));
    voice.say_line(b"  came     ", first_line(came));
}

// Runs a text and compares its answers with the log. The answer is whether all agree.
fn run_answers(voice: &mut Voice, name: &[u8], text: &[u8], log: &[u8]) -> bool {
    let mut t = Text::new();
    let mut c = start(log);
    for line in text.split(|b| *b == b'\n') {
        let added = textin::add_line(t, line);
        t = added.text;
        let said = match (t.wanted, added.line) {
            (None, Ok(said)) => said,
            (Some(wanted), _) | (None, Err(wanted)) => {
                tell_bad(voice, name, t.lines, wanted);
                return false;
            }
        };
        for _ in 0..said.times {
            if let Err(came) = c.send(said.event) {
                tell_answer(voice, name, t, c.log, came.as_slice());
                return false;
            }
        }
    }
    if !c.log.rest.is_empty() {
        tell_answer(voice, name, t, c.log, b"");
        return false;
    }
    voice.say(name);
    let _ = write!(voice, ": {} answers", c.log.lines);
    true
}

impl Output {
    // The output that a word names, if there is one.
    fn of(word: &[u8]) -> Option<Output> {
        let (letter, digits) = word.split_first()?;
        let n = scan::figure(10, digits)?;
        match letter {
            b'x' if n < board::CHANNELS as u64 => Some(Output::ExtOut(n as usize)),
            b'd' if n < ports::PINS => Some(Output::Driven(words::only(n))),
            b'p' if n < ports::PINS => Some(Output::Level(words::only(n))),
            _ => None,
        }
    }

    // Whether it is high.
    fn is_high(self, b: &Board) -> bool {
        match self {
            Output::ExtOut(c) => b.channels.get(c).is_some_and(|c| c.extout),
            Output::Driven(bit) => b.pins.driven & bit != 0,
            Output::Level(bit) => b.pins.level & bit != 0,
        }
    }
}

impl Spans<'_> {
    // A byte and a number behind the text, if there is room for the longest.
    fn put(&mut self, mark: char, n: u64) -> fmt::Result {
        if self.text.as_str().len() > SIZE - SPAN {
            return Err(fmt::Error);
        }
        write!(self.text, "{mark}{n}")
    }

    // Closes the span that is open.
    fn close(&mut self) -> fmt::Result {
        match self.open.take() {
            Some(span) if span.first != span.last => self.put('-', span.last),
            _ => Ok(()),
        }
    }

    // After one more step, in which the output is high or low.
    fn step(&mut self, high: bool) -> fmt::Result {
        let last = self.steps.wrapping_add(1);
        self.steps = last;
        if !high {
            return self.close();
        }
        match self.open {
            Some(span) => self.open = Some(Span { last, ..span }),
            None => {
                self.put(' ', last)?;
                self.open = Some(Span { first: last, last });
            }
        }
        Ok(())
    }
}

// Runs a text, and writes the spans in which an output is high behind what is written already.
fn watch(text: &[u8], o: Output, s: &mut Spans<'_>) -> fmt::Result {
    let mut b = board::reset();
    for line in text.split(|b| *b == b'\n') {
        let Ok(said) = textin::read_line(line) else {
            continue;
        };
        for _ in 0..said.times {
            let r = board::apply(b, said.event);
            b = r.board;
            if said.event.kind == 0 && r.answer.result == 0 {
                s.step(o.is_high(&b))?;
            }
        }
    }
    s.close()
}

// What a line of the levels should be, by its first word and a run of the text.
fn level(text: &[u8], line: &[u8], came: &mut ArrayString<SIZE>) -> Result<(), Untold> {
    let word = line
        .split(|b| Between::Words.splits(*b))
        .next()
        .unwrap_or(line);
    let o = Output::of(word).ok_or(Untold::NoOutput)?;
    let name = str::from_utf8(word).map_err(|_| Untold::NoOutput)?;
    came.clear();
    came.try_push_str(name).map_err(|_| Untold::TooMany)?;
    let mut s = Spans {
        text: came,
        steps: 0,
        open: None,
    };
    watch(text, o, &mut s).map_err(|_| Untold::TooMany)?;
    if s.text.as_str().len() == SIZE {
        return Err(Untold::TooMany);
    }
    Ok(())
}

// Tells where the levels differ.
fn tell_level(voice: &mut Voice, name: &[u8], number: u64, line: &[u8], came: impl Display + Drop) {
    voice.say(b"\n");
    voice.say(name);
    let _ = writeln!(voice, ".levels line {number}");
    voice.say_line(b"  expected ", line);
    let _ = writeln!(voice, "  came     {came}");
}

// Whether a line of the levels agrees with the run; else the difference is told.
fn run_level(
    voice: &mut Voice,
    name: &[u8],
    number: u64,
    text: &[u8],
    line: &[u8],
    came: &mut ArrayString<SIZE>,
) -> bool {
    match level(text, line, came) {
        Ok(()) if came.as_str().as_bytes() == line => return true,
        Ok(()) => tell_level(voice, name, number, line, came.as_str()),
        Err(why) => tell_level(voice, name, number, line, why),
    }
    false
}

// Whether a line of the levels names an output.
fn is_level(line: &[u8]) -> bool {
    line.first().is_some_and(|b| *b != b'#')
}

// Looks at all outputs that the levels name, and tells how many agree.
fn look_all(
    voice: &mut Voice,
    name: &[u8],
    text: &[u8],
    levels: &[u8],
    came: &mut ArrayString<SIZE>,
) {
    let mut good: u64 = 0;
    for (line, number) in levels.split(|b| *b == b'\n').zip(1u64..) {
        if is_level(line) {
            if !run_level(voice, name, number, text, line, came) {
                return;
            }
            good = good.wrapping_add(1);
        }
    }
    let _ = writeln!(voice, ", {good} levels");
}

// Tells the account of each channel that has one.
fn tell_accounts(voice: &mut Voice, a: Audit) {
    for (i, (account, c)) in a.accounts.iter().zip(&a.board.channels).enumerate() {
        let Balance {
            made,
            handed,
            held,
            reported,
            unreported,
        } = account::balance_of(*account, *c);
        if [made, handed, held, reported, unreported] != [0; 5] {
            let _ = write!(
                voice,
                "  channel {i}: {made} made, {handed} handed out, {held} held, "
            );
            let _ = writeln!(voice, "{reported} reported, {unreported} unreported");
        }
    }
}

// Runs a text, and tells its accounts.
fn audit_text(voice: &mut Voice, text: &[u8]) {
    let mut a = account::start();
    for line in text.split(|b| *b == b'\n') {
        if let Ok(said) = textin::read_line(line) {
            for _ in 0..said.times {
                a = a.send(said.event);
            }
        }
    }
    tell_accounts(voice, a);
}

// Reads the files of one history; if all are read, runs it, compares its answers and then its
// levels, and audits it.
fn run(voice: &mut Voice, name: &[u8], files: &mut Files) -> Option<()> {
    let n = load(voice, name, b".txt", true, &mut files.text)?;
    let m = load(voice, name, b".log", true, &mut files.log)?;
    let k = load(voice, name, b".levels", false, &mut files.levels)?;
    let text = &files.text[..n];
    if run_answers(voice, name, text, &files.log[..m]) {
        look_all(voice, name, text, &files.levels[..k], &mut files.came);
        audit_text(voice, text);
    }
    Some(())
}

// Runs every history of a list, as long as standard output takes what is said.
fn run_all(voice: &mut Voice, list: &[u8], files: &mut Files) {
    for line in list.split_inclusive(|b| *b == b'\n') {
        let _ = run(voice, line.strip_suffix(b"\n").unwrap_or(line), files);
        if !voice.open {
            return;
        }
    }
}

// Runs every history that standard input names.
fn main(rt: HostRuntime) {
    if let Err(why) = streams::ready(rt) {
        streams::tell(rt, b"scenarios", why);
        return;
    }
    let mut list = [0u8; SIZE];
    let mut files = Files {
        text: [0; SIZE],
        log: [0; SIZE],
        levels: [0; SIZE],
        came: ArrayString::new(),
    };
    let mut voice = Voice { rt, open: true };
    if let Ok(n) = streams::read_all(rt, b"scenarios", &mut list) {
        run_all(&mut voice, &list[..n], &mut files);
    }
}
