// The text form of a history, one event a line, as docs/TEXT.md describes it: from text to records.
// Every text and every buffer is taken; a refusal leaves the output as it was.
#![tactic(auto)]

ghost use Rattle.std.specs.Prelude.{◌≡◌, ◌%◌};
ghost use Rattle.textin.specs.Readings.{wanted_number};
ghost use Rattle.textin.specs.Texts.{no_text, code_of};

mod reader;
mod whole;

use calls::Event;
pub use reader::read_line;
pub use whole::{add_line, parse};

// What is wanted where a line is bad.
#[derive(Clone, Copy, PartialEq, Eq, Debug)]
pub enum Wanted {
    // A kind, by name or by number, or `raw`.
    FirstWord,
    // A field behind the first word.
    Kind,
    Member,
    Selector,
    Spare,
    V,
    W,
    // The star or the end of the line; behind `step` and behind an input there may be more.
    Star,
    InputOrV,
    Input,
    // How many times, or the end of the line.
    Times,
    End,
    // A line, or a history, that is not too long.
    ShortLine,
    FewEvents,
    // As the star, or a selector that comes last.
    LastSelector,
    // No line wants this (proofs/Listed.antt): the number that a text that is handed in may have.
    Other(u32),
}

// Its number.
impl From<Wanted> for u32 {
    ghost from_gives = { λ wanted number. number ≡ wanted_number wanted };

    fn from(wanted: Wanted) -> u32 {
        match wanted {
            Wanted::FirstWord => 1,
            Wanted::Kind => 2,
            Wanted::Member => 3,
            Wanted::Selector => 4,
            Wanted::Spare => 5,
            Wanted::V => 6,
            Wanted::W => 7,
            Wanted::Star => 8,
            Wanted::InputOrV => 9,
            Wanted::Input => 10,
            Wanted::Times => 11,
            Wanted::End => 12,
            Wanted::ShortLine => 13,
            Wanted::FewEvents => 14,
            Wanted::LastSelector => 15,
            Wanted::Other(number) => number,
        }
    }
}

// The same in a byte, which all have but a number that was handed in: of that the lowest byte.
impl From<Wanted> for u8 {
    ghost from_gives = { λ wanted number. number ≡ wanted_number wanted % 256 };

    fn from(wanted: Wanted) -> u8 {
        (u32::from(wanted) % 256) as u8
    }
}

// Where a line stands: at its start, before the fields that are left, in octal digits, behind
// `step`, behind an input, behind the star, at its end; or bad, and what was wanted.
#[derive(Clone, Copy)]
pub enum Stage {
    Start,
    Fields(u32),
    Step,
    Inputs,
    Times,
    End,
    Bad(Wanted),
}

// What the words of a line have said so far: where the line stands, how many times, and the event.
#[derive(Clone, Copy)]
pub struct Reading {
    pub stage: Stage,
    pub times: u32,
    pub event: Event,
}

// What a good line says: the event so many times, none where it has no words.
#[derive(Clone, Copy)]
pub struct Line {
    pub times: u32,
    pub event: Event,
}

// The lines of a text so far: how many, what was wanted in the last of them if it is bad, and the
// number of events.
#[derive(Clone, Copy)]
pub struct Text {
    pub lines: u64,
    pub wanted: Option<Wanted>,
    pub count: u64,
}

impl Text {
    // A text without a line.
    pub fn new() -> Text
        ensures { result ≡ no_text }
    {
        Text {
            lines: 0,
            wanted: None,
            count: 0,
        }
    }
}

// A text with one more line, and what this line says.
#[derive(Clone, Copy)]
pub struct Added {
    pub text: Text,
    pub line: Result<Line, Wanted>,
}

// Why a text is refused: a bad line, by its number, and what was wanted there; or no room for the
// records.
#[derive(Clone, Copy, PartialEq, Eq, Debug)]
pub enum Refusal {
    BadLine(u64, Wanted),
    NoRoom,
}

// The result that a refusal is told as.
impl From<Refusal> for u8 {
    ghost from_gives = { λ refusal number. number ≡ code_of refusal };

    fn from(refusal: Refusal) -> u8 {
        match refusal {
            Refusal::BadLine(_, _) => 11,
            Refusal::NoRoom => 10,
        }
    }
}
