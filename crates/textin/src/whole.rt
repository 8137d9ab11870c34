// A whole text: checked line by line, then written as records.
ghost use Rattle.std.specs.Prelude.{◌≡◌, ◌+◌, ◌*◌, ◌≤◌, length};
ghost use Rattle.buffers.specs.Pieces.{put, joined};
ghost use Rattle.records.specs.Records.{record_of};
ghost use Rattle.textin.specs.Readings.{line_of};
ghost use Rattle.textin.specs.Texts.{fitting, add_line, checked, records_in, answered, output};

use crate::{Added, Line, Refusal, Text, Wanted, reader};
use buffers::RECORD;
use scan::Between;

// The bytes of the longest line, and the events of the longest history.
const LONGEST: usize = 65535;

const MOST: u64 = history::RECORDS as u64;

// What a line of so many bytes says behind so many events, if it is not too long and its events are
// not too many.
fn fitting(count: u64, size: usize, line: Result<Line, Wanted>) -> Result<Line, Wanted>
    ensures { result ≡ fitting count size line }
{
    if size > LONGEST {
        return Err(Wanted::ShortLine);
    }
    let said = line?;
    if count.saturating_add(said.times as u64) > MOST {
        return Err(Wanted::FewEvents);
    }
    Ok(said)
}

// One line more.
pub fn add_line(t: Text, l: &[u8]) -> Added
    ensures text { result.text ≡ add_line t l.now }
    ensures line { result.line ≡ line_of l.now }
{
    let line = reader::read_line(l);
    if t.wanted.is_some() {
        return Added { text: t, line };
    }
    let lines = t.lines.wrapping_add(1);
    let text = match fitting(t.count, l.len(), line) {
        Ok(said) => Text {
            lines,
            wanted: None,
            count: t.count + said.times as u64,
        },
        Err(wanted) => Text {
            lines,
            wanted: Some(wanted),
            count: t.count,
        },
    };
    Added { text, line }
}

// All lines of a text.
fn check(text: &[u8]) -> Text
    ensures { result ≡ checked text.now }
{
    text.split(|&b| Between::Lines.splits(b))
        .fold(Text::new(), |t, l| add_line(t, l).text)
}

// The records of what a line says, from place `at` on, and the place behind them: the loop goes by the
// number, from which each place is found.
fn put_records(out: &mut [u8], at: usize, line: Line) -> usize
    requires { at + 16 * line.times ≤ length out.old }
    ensures { (result ≡ at + 16 * line.times) × (out.new ≡ put out.old at (joined line.times (λ j. record_of line.event))) }
{
    for i in 0..line.times {
        records::put_record(out, at + RECORD * i as usize, line.event);
    }
    at + RECORD * line.times as usize
}

// The records of a text that was found good.
fn write(text: &[u8], out: &mut [u8])
    requires { length (records_in text.now) ≤ length out.old }
    ensures { out.new ≡ put out.old 0 (records_in text.now) }
{
    let mut at: usize = 0;
    for l in text.split(|&b| Between::Lines.splits(b)) {
        if let Ok(line) = reader::read_line(l) {
            at = put_records(out, at, line);
        }
    }
}

// The records of a text, at the start of out, and their length; or why it is refused: a line is bad
// or the events are too many, else out is too short.
pub fn parse(text: &[u8], out: &mut [u8]) -> Result<usize, Refusal>
    ensures answer { result ≡ answered (checked text.now) (length out.old) }
    ensures wrote { out.new ≡ output text.now out.old }
{
    let t = check(text);
    if let Some(wanted) = t.wanted {
        return Err(Refusal::BadLine(t.lines, wanted));
    }
    if ((out.len() / RECORD) as u64) < t.count {
        return Err(Refusal::NoRoom);
    }
    write(text, out);
    Ok(RECORD * t.count as usize)
}
