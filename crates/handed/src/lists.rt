// Lists of events on a board out of range: the last answer, and what is left of the board.
use crate::event;
use crate::show::show;
use board::{Board, Outcome};
use buffers::RECORD;
use calls::Event;

// The records of two events.
const TWO: usize = 2 * RECORD;

// Two events in a run, and the answer to the second.
fn run_two(board: Board, events: [Event; 2]) -> Outcome {
    let mut records = [0u8; TWO];
    let mut answers = [0u8; TWO];
    for (record, e) in records.chunks_exact_mut(RECORD).zip(events) {
        record.copy_from_slice(&records::encode(e));
    }
    let ran = runs::run(board, &records, &mut answers);
    Outcome {
        board: ran.board,
        answer: runs::answer_at(&answers, RECORD),
    }
}

// A run of no events, and its result.
fn run_none(board: Board) -> Outcome {
    let ran = runs::run(board, &[], &mut [0]);
    Outcome {
        board: ran.board,
        answer: calls::number(ran.result as u32, 0),
    }
}

// Refused events leave the very board, result 6 clears one lost count of it, an accepted event
// stores the repaired board.
pub fn show_lists(rt: &impl Print, board: Board) {
    let unknown = event(200, 0, 0);
    let bad_channel = event(10, 6, 0);
    let count = event(10, 1, 0);
    let snapshot = event(11, 0, 0);
    show(rt, "list of no events", run_none(board));
    for (name, events) in [
        ("unknown kind, channel 6", [unknown, bad_channel]),
        (
            "safe writes with SWE 0",
            [event(16, 47, 0), event(19, 0, 1)],
        ),
        ("snapshot read twice, captures lost", [snapshot, snapshot]),
        ("unknown kind, count read", [unknown, count]),
        ("count read, channel 6", [count, bad_channel]),
    ] {
        let _ = print!(rt; "list, ");
        show(rt, name, run_two(board, events));
    }
}
