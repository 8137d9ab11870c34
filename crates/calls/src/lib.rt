// Events and answers, the field checks, and the calls 1 to 30, each on the record of the channel,
// pin, virtual output or board part that it names. The calls come after the checks of fields and of
// SWE, which decide results 3 and 12 for all of them in one place.
#![tactic(auto)]

ghost use Rattle.std.specs.Prelude.{◌≡◌, eqb};
ghost use Rattle.calls.specs.Refused.{code_of};
ghost use Rattle.calls.specs.Reply.{number, refuse, accept, tell};

mod board_calls;
mod channel_calls;
mod fields;
mod kind;
mod pin_calls;
mod refusal;
mod virtual_calls;

pub use board_calls::board_call;
pub use channel_calls::channel_call;
pub use fields::{KINDS, LINES, fits, is_step};
pub use kind::{Kind, UnknownKind};
pub use pin_calls::pins_call;
pub use refusal::Refusal;
pub use virtual_calls::virtuals_call;

// The kind is a number, as C writes it; `Kind` is what it says.
#[repr(C)]
#[derive(Clone, Copy, Debug, PartialEq, Eq)]
pub struct Event {
    pub kind: u8,
    pub member: u8,
    pub selector: u8,
    pub spare: u8,
    pub v: u32,
    pub w: u64,
}

// The result is a number, as C reads it; `Refusal` is what it says.
#[repr(C)]
#[derive(Clone, Copy, Debug, PartialEq, Eq)]
pub struct Answer {
    pub result: u32,
    pub value: u32,
    pub timestamp: u32,
    pub reason: u32,
}

// The next record of what a call named, and the answer.
#[derive(Clone, Copy)]
pub struct Reply<S> {
    pub state: S,
    pub answer: Answer,
}

// A result and a value, timestamp and reason 0.
pub fn number(res: u32, value: u32) -> Answer
    ensures { result ≡ number res value }
{
    Answer {
        result: res,
        value,
        timestamp: 0,
        reason: 0,
    }
}

impl Answer {
    // The event was done.
    pub fn is_accepted(self) -> bool
        ensures { result ≡ eqb self.result 0 }
    {
        self.result == 0
    }

    // The event was refused for this.
    pub fn tells(self, refusal: Refusal) -> bool
        ensures { result ≡ eqb self.result (code_of refusal) }
    {
        self.result == u32::from(refusal)
    }
}

impl<S> Reply<S> {
    // Refused, and the record stays as it was.
    pub fn refuse(refusal: Refusal, state: S) -> Reply<S>
        ensures { result ≡ refuse (code_of refusal) state }
    {
        Reply {
            state,
            answer: number(u32::from(refusal), 0),
        }
    }

    // Accepted, and this is the next record.
    pub fn accept(state: S) -> Reply<S>
        ensures { result ≡ accept state }
    {
        Reply {
            state,
            answer: number(0, 0),
        }
    }

    // Accepted, with a value that is told.
    pub fn tell(value: u32, state: S) -> Reply<S>
        ensures { result ≡ tell value state }
    {
        Reply {
            state,
            answer: number(0, value),
        }
    }

    // The state takes its place, and the answer is handed out.
    pub fn store(self, place: &mut S) -> Answer
    where
        S: Drop,
        ensures state { place.new ≡ self.state }
        ensures answer { result ≡ self.answer }
    {
        *place = self.state;
        self.answer
    }
}
