// What is written: an answer, and the fields of a board that have a range.
use board::{Board, Outcome};
use calls::Answer;
use control::Core;
use counter::Channel;
use ports::{Pins, Virtuals};
use std::cmp::Ordering;
use std::fmt::{self, Display, Formatter, Write};

// A part of a board, written in whole lines.
#[derive(Clone, Copy)]
pub struct Lines<'a, T>(pub &'a T);

// The sign of a number in words.
fn sign(d: i32) -> &'static str {
    match d.cmp(&0) {
        Ordering::Less => "below 0",
        Ordering::Equal => "0",
        Ordering::Greater => "above 0",
    }
}

// The fields of a channel that have a range, of the reasons the first and the last, its count and
// its lost count.
impl Display for Lines<'_, Channel> {
    fn fmt<W: fmt::Write>(&self, f: &mut Formatter<W>) -> fmt::Result {
        let c = self.0;
        write!(
            f,
            "  mode {} route {} mask {} count {} kept {}",
            c.mode, c.route, c.mask, c.count, c.kept
        )?;
        writeln!(
            f,
            " carry {} held {} lost {} reasons {} {}",
            sign(c.carry),
            c.held,
            c.lost,
            c.reasons[0],
            c.reasons[15]
        )
    }
}

// Planes under a name.
#[derive(Clone, Copy)]
struct Planes<'a> {
    name: &'a str,
    words: &'a [u64],
}

// Those that are not 0, each behind its number; without any, nothing.
impl Display for Planes<'_> {
    fn fmt<W: fmt::Write>(&self, f: &mut Formatter<W>) -> fmt::Result {
        if self.words.iter().all(|word| *word == 0) {
            return Ok(());
        }
        write!(f, "  {}", self.name)?;
        for (j, word) in self.words.iter().enumerate() {
            if *word != 0 {
                write!(f, " {j}:{word}")?;
            }
        }
        writeln!(f)
    }
}

// The pins' words.
impl Display for Lines<'_, Pins> {
    fn fmt<W: fmt::Write>(&self, f: &mut Formatter<W>) -> fmt::Result {
        let x = self.0;
        write!(
            f,
            "  level {} driven {} own {} safedata {} safeenable {}",
            x.level, x.driven, x.own, x.safedata, x.safeenable
        )?;
        writeln!(f, " source {} {} {}", x.source0, x.source1, x.source2)?;
        let filter = Planes {
            name: "filter",
            words: &x.filters.filter,
        };
        let wait = Planes {
            name: "wait",
            words: &x.filters.wait,
        };
        write!(f, "{filter}{wait}")
    }
}

// The outputs' words.
impl Display for Lines<'_, Virtuals> {
    fn fmt<W: fmt::Write>(&self, f: &mut Formatter<W>) -> fmt::Result {
        let x = self.0;
        writeln!(
            f,
            "  outputs {} safedata {} safeenable {}",
            x.own, x.safedata, x.safeenable
        )
    }
}

// The board's own part.
impl Display for Lines<'_, Core> {
    fn fmt<W: fmt::Write>(&self, f: &mut Formatter<W>) -> fmt::Result {
        let k = self.0;
        let [i, j, l] = k.watchdog.intervals;
        let [p, q, r] = k.watchdog.rests;
        write!(
            f,
            "  prescaler {} timestamp {} control {}",
            k.clock.prescaler, k.clock.timestamp, k.safety.control
        )?;
        writeln!(
            f,
            " intervals {i} {j} {l} rests {p} {q} {r} expired {}",
            k.watchdog.expired
        )
    }
}

// The board, its channel 0 for all six.
impl Display for Lines<'_, Board> {
    fn fmt<W: fmt::Write>(&self, f: &mut Formatter<W>) -> fmt::Result {
        let b = self.0;
        write!(f, "{}", Lines(&b.channels[0]))?;
        write!(f, "{}", Lines(&b.pins))?;
        write!(f, "{}", Lines(&b.virtuals))?;
        write!(f, "{}", Lines(&b.core))
    }
}

// The four numbers of an answer.
pub fn show_answer(rt: &impl Print, name: &str, a: Answer) {
    let _ = println!(rt;
        "{name}: {} {} {} {}",
        a.result, a.value, a.timestamp, a.reason
    );
}

// The answer and the next board.
pub fn show(rt: &impl Print, name: &str, o: Outcome) {
    show_answer(rt, name, o.answer);
    let _ = print!(rt; "{}", Lines(&o.board));
}
