// The eight ticks in steps that no script reaches in a test's time, and in some that it does. The
// first step makes the prescaler 0. Each one behind it makes it an odd multiple of half a divisor:
// this divisor's tick is low, as those of the larger ones, and the ticks of the smaller ones are high.
use crate::{board_with, event};
use control::{Clock, Core};
use counter::Channel;

// What a channel with this XS samples in a step from this prescaler: 4 where its index is high.
fn sampled(prescaler: u32, xs: u32) -> u32 {
    let c = Channel {
        mode: xs,
        ..counter::reset()
    };
    let k = Core {
        clock: Clock {
            prescaler,
            timestamp: 0,
        },
        ..control::reset()
    };
    let stepped = board::apply(board_with(c, k), event(0, 0, 0));
    stepped.board.channels[0].kept
}

// A row: the index by XS 8 to 15.
fn show_row(rt: &impl Print, prescaler: u32) {
    let _ = print!(rt; "C30, XS 8 to 15 in a step from prescaler {prescaler}:");
    for xs in 8..16 {
        let _ = print!(rt; " {}", sampled(prescaler, xs));
    }
    let _ = println!(rt; "");
}

pub fn show_ticks(rt: &impl Print) {
    for prescaler in [
        499_999_999,
        249_999_999,
        74_999_999,
        7_499_999,
        749_999,
        74_999,
        7_499,
        749,
        74,
    ] {
        show_row(rt, prescaler);
    }
}
