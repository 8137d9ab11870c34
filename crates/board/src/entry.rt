// The entry point: any board, any event.
ghost use Rattle.std.specs.Prelude.{◌≡◌, true};
ghost use Rattle.board.specs.Respond.{called, outcome};
ghost use Rattle.board.specs.Handed.{reset_board, in_range, repaired_board, lost_cleared, kept, applied};

use crate::{Board, CHANNELS, Outcome};
use calls::{Answer, Event, Refusal, Reply};

impl Board {
    // Each field outside its range counts as its value at reset. The six channels are written out here
    // and in `is_sound`: with `all` over them two goals of its proof did not close.
    pub fn repair(self) -> Board
        ensures { result ≡ repaired_board self }
    {
        let [c0, c1, c2, c3, c4, c5] = self.channels;
        Board {
            channels: [
                c0.repair(),
                c1.repair(),
                c2.repair(),
                c3.repair(),
                c4.repair(),
                c5.repair(),
            ],
            pins: self.pins.repair(),
            virtuals: self.virtuals.repair(),
            core: self.core.repair(),
        }
    }

    // Every field is in its range.
    pub fn is_sound(self) -> bool
        ensures { result ≡ in_range self }
    {
        let [c0, c1, c2, c3, c4, c5] = self.channels;
        c0.is_sound()
            & c1.is_sound()
            & c2.is_sound()
            & c3.is_sound()
            & c4.is_sound()
            & c5.is_sound()
            & self.pins.is_sound()
            & self.virtuals.is_sound()
            & self.core.is_sound()
    }

    // The lost count of a channel to 0.
    #[tactic(auto, unfolding(crate::specs::Handed::lost_cleared))]
    pub fn clear_lost(mut self, member: u8) -> Board
        ensures { result ≡ lost_cleared member self }
    {
        let m = member as usize;
        if m < CHANNELS {
            self.channels[m].lost = 0;
        }
        self
    }
}

// The repaired board; a sound one is handed back as it is.
fn mended(board: Board) -> Board
    ensures { result ≡ repaired_board board }
{
    if board.is_sound() {
        board
    } else {
        board.repair()
    }
}

// What stays of the board handed in, where the repaired one answers so and leaves that board.
#[tactic(auto, unfolding(crate::specs::Handed::kept))]
fn kept(board: Board, member: u8, answer: Answer, next: Board) -> Board
    ensures { result ≡ kept board member answer.result next }
{
    if answer.is_accepted() {
        next
    } else if answer.tells(Refusal::Lost) {
        board.clear_lost(member)
    } else {
        board
    }
}

// The reply to an event that is no accepted step.
fn replied(mut board: Board, event: Event) -> Reply<Board>
    requires { in_range board ≡ true }
    ensures { result ≡ called board event }
{
    let answer = board.call(event);
    Reply {
        state: board,
        answer,
    }
}

// The answer of any event on any board, and the next board.
pub fn apply(board: Board, event: Event) -> Outcome
    ensures { result ≡ outcome (applied board event) }
{
    let sound = mended(board);
    if calls::is_step(event) {
        return Outcome {
            board: sound.step(event.v, event.w),
            answer: calls::number(0, 0),
        };
    }
    let reply = replied(sound, event);
    Outcome {
        board: kept(board, event.member, reply.answer, reply.state),
        answer: reply.answer,
    }
}

// A board at reset.
#[tactic(auto, unfolding(crate::specs::Handed::reset_board))]
pub fn reset() -> Board
    ensures { result ≡ reset_board }
{
    Board {
        channels: [counter::reset(); CHANNELS],
        pins: ports::reset_pins(),
        virtuals: ports::reset_virtuals(),
        core: control::reset(),
    }
}
