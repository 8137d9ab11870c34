// The board: six channels, 48 pins, six virtual outputs and the board's own part. `apply` is the
// entry point: it takes every board and every event there is and answers as document 01 says.
#![tactic(auto)]

ghost use Rattle.board.specs.Respond.{respond};

mod entry;
mod respond;
mod step;

use calls::Answer;
use control::Core;
use counter::Channel;
pub use entry::{apply, reset};
use ports::{Pins, Virtuals};
pub use respond::{class_of, refusal};

// The number of channels.
pub const CHANNELS: usize = 6;

#[repr(C)]
#[derive(Clone, Copy)]
pub struct Board {
    pub channels: [Channel; CHANNELS],
    pub pins: Pins,
    pub virtuals: Virtuals,
    pub core: Core,
}

// The classes of kinds. `Unknown` is one of them and no `None`: `class_of` and `refusal_by` of specs/,
// over which the order of the checks is proved, go by it.
#[derive(Clone, Copy, Debug, PartialEq, Eq)]
pub enum Class {
    Step,
    OnChannel,
    OnPin,
    OnVirtual,
    OnBoard,
    Unknown,
}

#[repr(C)]
#[derive(Clone, Copy)]
pub struct Outcome {
    pub board: Board,
    pub answer: Answer,
}

// What every channel can see in a step: V, the ExtOuts of the last step, the ticks, the levels of
// the pins and of the virtual outputs, a bit for each; the timestamp, and whether it rises.
#[derive(Clone, Copy)]
pub struct Scene {
    pub lines: u64,
    pub outs: u64,
    pub ticks: u64,
    pub levels: u64,
    pub virtuals: u64,
    pub timestamp: u32,
    pub rises: bool,
}
