// The board for programs in C or Rust, event by event: the archive that `tools/build service`
// writes. A service keeps the board and hands it in with each event.
#![tactic(auto)]

ghost use Rattle.std.specs.Prelude.{◌≡◌};
ghost use Rattle.board.specs.Respond.{outcome};
ghost use Rattle.board.specs.Handed.{reset_board, applied};

use board::{Board, Outcome};
use calls::Event;

// A board at reset.
#[unsafe(no_mangle)]
pub extern "C" fn puntarys_reset() -> Board
    ensures { result ≡ reset_board }
{
    board::reset()
}

// The answer of any event on any board, and the next board.
#[unsafe(no_mangle)]
pub extern "C" fn puntarys_apply(board: Board, event: Event) -> Outcome
    ensures { result ≡ outcome (applied board event) }
{
    board::apply(board, event)
}
