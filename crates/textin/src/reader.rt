// A line, read word by word.
ghost use Rattle.std.specs.Prelude.{◌≡◌, ◌<◌, true, [], nat_lt};
ghost use Rattle.words.specs.Bits.{put_bit};
ghost use Rattle.calls.specs.Events.{call};
ghost use Rattle.scan.specs.declared.Between.TheVariants.{Words};
ghost use Rattle.scan.specs.Parts.{parts, between, over};
ghost use Rattle.textin.specs.Readings.{with_field, room, raised, place_of, at, starting, wanted_field, wanted_by, spoilt, take_kind, take_field, take_star, take_last, take_input, take_step, take_times, take_some, take_word, whole, finished, line_of};

use crate::{Line, Reading, Stage, Wanted};
use calls::Event;
use kinds::{Input, Named};
use scan::Between;

// V and W, the fields of a step.
const LEVELS: u32 = 0o65;

// One more than a field of 8 bits holds, than one of 32, and than the 18 levels of V.
const BYTE: u64 = 1 << 8;

const WORD: u64 = 1 << 32;

const INPUTS: u64 = 1 << 18;

// The kind alone.
fn of_kind(k: u8) -> Event
    ensures { result ≡ call k 0 0 }
{
    Event {
        kind: k,
        member: 0,
        selector: 0,
        spare: 0,
        v: 0,
        w: 0,
    }
}

// The event with field f at n, or as much of n as the field holds.
fn with_field(e: Event, f: u32, n: u64) -> Event
    ensures { result ≡ with_field e f n }
{
    let byte = (n % BYTE) as u8;
    match f {
        1 => Event { kind: byte, ..e },
        2 => Event { member: byte, ..e },
        3 => Event {
            selector: byte,
            ..e
        },
        4 => Event { spare: byte, ..e },
        5 => Event {
            v: (n % WORD) as u32,
            ..e
        },
        6 => Event { w: n, ..e },
        _ => e,
    }
}

// Whether field f holds n.
fn holds(f: u32, n: u64) -> bool
    ensures { result ≡ nat_lt n (room f) }
{
    match f {
        0..=4 => n < BYTE,
        5 => n < WORD,
        _ => true,
    }
}

// What is wanted where digit f comes next, that with the number f + 1. No table of fields has the
// digits 0 and 7.
fn wanted_field(f: u32) -> Wanted
    ensures { result ≡ wanted_field f }
{
    match f {
        0 => Wanted::FirstWord,
        1 => Wanted::Kind,
        2 => Wanted::Member,
        3 => Wanted::Selector,
        4 => Wanted::Spare,
        5 => Wanted::V,
        7 => Wanted::Star,
        _ => Wanted::W,
    }
}

// V with bit i up.
fn input_up(v: u32, i: u64) -> u32
    requires { i < 48 }
    ensures { result ≡ put_bit 18 i true v }
{
    (words::put(v as u64, i, true) % INPUTS) as u32
}

// The event with an input up.
fn raised(e: Event, u: Input) -> Event
    requires { place_of u < 48 }
    ensures { result ≡ raised e u }
{
    match u {
        Input::Line(i) => Event {
            v: input_up(e.v, i),
            ..e
        },
        Input::Pin(i) => Event {
            w: words::put(e.w, i, true),
            ..e
        },
    }
}

impl Stage {
    // What is wanted next.
    fn wanted(self) -> Wanted
        ensures { result ≡ wanted_by self }
    {
        match self {
            Stage::Start => Wanted::FirstWord,
            Stage::Fields(left) => {
                if left == 0 {
                    Wanted::Star
                } else if left == kinds::SELECTOR_LAST {
                    Wanted::LastSelector
                } else {
                    wanted_field(left % 8)
                }
            }
            Stage::Step => Wanted::InputOrV,
            Stage::Inputs => Wanted::Input,
            Stage::Times => Wanted::Times,
            Stage::End => Wanted::End,
            Stage::Bad(wanted) => wanted,
        }
    }

    // Whether the line may end here, behind an event: also before a selector that comes last.
    fn is_whole(self) -> bool
        ensures { result ≡ whole self }
    {
        match self {
            Stage::Fields(left) => left == 0 || left == kinds::SELECTOR_LAST,
            Stage::Step | Stage::Inputs | Stage::End => true,
            Stage::Start | Stage::Times | Stage::Bad(_) => false,
        }
    }
}

impl Reading {
    // A line at a stage, of an event of a kind alone.
    fn new(stage: Stage, kind: u8) -> Reading
        ensures { result ≡ at stage 1 (call kind 0 0) }
    {
        Reading {
            stage,
            times: 1,
            event: of_kind(kind),
        }
    }

    // The line at a stage.
    fn at(self, stage: Stage) -> Reading
        ensures { result ≡ at stage self.times self.event }
    {
        Reading { stage, ..self }
    }

    // A bad line.
    fn spoilt(self) -> Reading
        ensures { result ≡ spoilt self }
    {
        self.at(Stage::Bad(self.stage.wanted()))
    }

    // The first word of the line, by what it names.
    fn take_kind(self, w: &[u8]) -> Reading
        ensures { result ≡ take_kind self w.now }
    {
        match kinds::kind_of(w) {
            Some(Named::Kind(0)) => Reading::new(Stage::Step, 0),
            Some(Named::Kind(k)) => Reading::new(Stage::Fields(kinds::fields_of(k)), k),
            Some(Named::Raw) => Reading::new(Stage::Fields(kinds::RAW_FIELDS), 0),
            None => self.spoilt(),
        }
    }

    // The word is the number of the first field that is left.
    fn take_field(self, left: u32, w: &[u8]) -> Reading
        ensures { result ≡ take_field left self w.now }
    {
        let f = left % 8;
        match scan::number(w) {
            Some(n) if holds(f, n) => Reading {
                stage: Stage::Fields(left / 8),
                event: with_field(self.event, f, n),
                ..self
            },
            _ => self.at(Stage::Fields(left)).spoilt(),
        }
    }

    // The word is the star before a number of times.
    fn take_star(self, w: &[u8]) -> Reading
        ensures { result ≡ take_star self w.now }
    {
        if w == b"*".as_slice() {
            return self.at(Stage::Times);
        }
        self.spoilt()
    }

    // The word is a selector that comes last, or, where it is left out, the star.
    fn take_last(self, w: &[u8]) -> Reading
        ensures { result ≡ take_last self w.now }
    {
        match scan::number(w) {
            Some(_) => self.take_field(kinds::SELECTOR_LAST, w),
            None => self.take_star(w),
        }
    }

    // The word is an input that is up, or the star.
    fn take_input(self, w: &[u8]) -> Reading
        ensures { result ≡ take_input self w.now }
    {
        match kinds::input_of(w) {
            Some(u) => Reading {
                stage: Stage::Inputs,
                event: raised(self.event, u),
                ..self
            },
            None => self.take_star(w),
        }
    }

    // The first word behind `step`.
    fn take_step(self, w: &[u8]) -> Reading
        ensures { result ≡ take_step self w.now }
    {
        match scan::number(w) {
            Some(_) => self.take_field(LEVELS, w),
            None => self.take_input(w),
        }
    }

    // The word is a number of times.
    fn take_times(self, w: &[u8]) -> Reading
        ensures { result ≡ take_times self w.now }
    {
        match scan::number(w) {
            Some(n) if n != 0 && n < WORD => Reading {
                stage: Stage::End,
                times: n as u32,
                ..self
            },
            _ => self.spoilt(),
        }
    }

    // A word that is not empty.
    fn take_some(self, w: &[u8]) -> Reading
        ensures { result ≡ take_some self w.now }
    {
        match self.stage {
            Stage::Start => self.take_kind(w),
            Stage::Fields(left) => {
                if left == 0 {
                    self.take_star(w)
                } else if left == kinds::SELECTOR_LAST {
                    self.take_last(w)
                } else {
                    self.take_field(left, w)
                }
            }
            Stage::Step => self.take_step(w),
            Stage::Inputs => self.take_input(w),
            Stage::Times => self.take_times(w),
            Stage::End | Stage::Bad(_) => self.spoilt(),
        }
    }

    // A word, or nothing between two separators.
    fn take_word(self, w: &[u8]) -> Reading
        ensures { result ≡ take_word self w.now }
    {
        if w.is_empty() {
            return self;
        }
        self.take_some(w)
    }

    // What the line says.
    fn finished(self) -> Result<Line, Wanted>
        ensures { result ≡ finished self }
    {
        match self.stage {
            Stage::Start => Ok(Line {
                times: 0,
                event: of_kind(0),
            }),
            stage if stage.is_whole() => Ok(Line {
                times: self.times,
                event: self.event,
            }),
            stage => Err(stage.wanted()),
        }
    }
}

// What the words of a line say. A fold would hand the reading on at each separator, and a line of many
// takes half as long again.
fn read_words(words: &[u8]) -> Reading
    ensures { result ≡ over take_word starting (parts (between Words) [] words.now) }
{
    let mut s = Reading::new(Stage::Start, 0);
    for w in words.split(|&b| Between::Words.splits(b)) {
        s = s.take_word(w);
    }
    s
}

// What a line says, without its line feed.
pub fn read_line(l: &[u8]) -> Result<Line, Wanted>
    ensures { result ≡ line_of l.now }
{
    let n = scan::before(l, b'#');
    read_words(&l[..n]).finished()
}
