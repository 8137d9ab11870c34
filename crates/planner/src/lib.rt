// Whole histories for programs in C or Rust: the archive that `tools/build planner` writes. A
// planner hands in a board and a list of records, and takes an answer for each of them; what the
// list needs as a history it can ask beforehand.
#![tactic(auto)]

ghost use Rattle.std.specs.Prelude.{◌≡◌};
ghost use Rattle.runs.specs.Answers.{Running};
ghost use Rattle.room.specs.Needs.{needs};

use board::Board;
use room::Needs;
use runs::Ran;

// Runs records of 16 bytes on any board, with an answer of 16 bytes for each from the start of out
// on, as `puntarys_apply` would event by event. Result 11: a record is not whole. Result 10: out has
// too little room. Then nothing happens.
#[unsafe(no_mangle)]
pub extern "C" fn puntarys_run(board: Board, records: &[u8], out: &mut [u8]) -> Ran
    ensures { Running board records.now out.old result.board result.result result.answered out.new }
{
    runs::run(board, records, out)
}

// What records of 16 bytes need as a history, without a board: the blocks of its file, the accepted
// steps, the lines of its log and the most bytes of these. Result 11: a record is not whole, or there
// are more than a file holds. Then all four are 0.
#[unsafe(no_mangle)]
pub extern "C" fn puntarys_needs(records: &[u8]) -> Needs
    ensures { result ≡ needs records.now }
{
    room::needs_of(records)
}
