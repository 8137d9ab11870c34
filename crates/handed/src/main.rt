// Boards handed in. First with every field outside its range: the answer, and what is stored of the
// board, by events that are accepted, refused, and answered 6, and by lists of these. Then each
// field that has a range by itself. Then boards that no script reaches in a test's time, or whose
// record tells more than a call does.
#![tactic(auto)]

mod accounts;
mod lists;
mod ranges;
mod show;
mod ticks;
mod waits;

use board::Board;
use calls::Event;
use control::{Clock, Core, Safety, Watchdog};
use counter::Channel;
use filters::Filters;
use ports::{Pins, Virtuals};
use show::show;

pub const ALL: u32 = u32::MAX;

pub const EVERY: u64 = u64::MAX;

// A channel with every field outside its range.
fn broken_channel(lost: u32) -> Channel {
    Channel {
        mode: ALL,
        preloads: [5, 6],
        compares: [7, 8],
        route: 255,
        mask: ALL,
        count: 9,
        running: false,
        armed: true,
        second: true,
        kept: ALL,
        extout: true,
        carry: -2,
        counts: [11; 16],
        timestamps: [12; 16],
        reasons: [4660; 16],
        held: 200,
        lost,
    }
}

// Clock, watchdog and safety likewise.
fn broken_core() -> Core {
    Core {
        clock: Clock {
            prescaler: ALL,
            timestamp: ALL,
        },
        watchdog: Watchdog {
            intervals: [0; control::STAGES],
            rests: [ALL; control::STAGES],
            expired: ALL,
            enabled: false,
        },
        safety: Safety {
            control: ALL,
            writes: false,
            safemode: true,
        },
    }
}

// Channel 0 has lost captures, channel 1 has none.
fn broken() -> Board {
    let c = broken_channel(3);
    let d = broken_channel(0);
    Board {
        channels: [c, d, d, d, d, d],
        pins: Pins {
            level: EVERY,
            driven: EVERY,
            own: EVERY,
            safedata: EVERY,
            safeenable: EVERY,
            source0: EVERY,
            source1: EVERY,
            source2: EVERY,
            filters: Filters {
                filter: [EVERY; filters::PLANES],
                wait: [EVERY; filters::PLANES],
            },
        },
        virtuals: Virtuals {
            own: EVERY,
            safedata: EVERY,
            safeenable: EVERY,
        },
        core: broken_core(),
    }
}

// A value with a change.
pub fn with<T, F: FnOnce(&mut T)>(mut x: T, change: F) -> T
    requires { F.IsAlwaysCallable change }
{
    change(&mut x);
    x
}

// A reset board with another channel 0 and another part of its own.
pub fn board_with(c: Channel, core: Core) -> Board {
    let mut b = board::reset();
    b.channels[0] = c;
    b.core = core;
    b
}

// The timestamp is at its greatest and rises in the next step; channel 0 runs, armed, with K 2.
fn before_the_wrap() -> Board {
    let c = Channel {
        mode: 32,
        running: true,
        armed: true,
        ..counter::reset()
    };
    let k = Core {
        clock: Clock {
            prescaler: 49,
            timestamp: ALL,
        },
        ..control::reset()
    };
    board_with(c, k)
}

// Preload 1 is selected though BP is 0.
fn second_without_bp() -> Board {
    let c = Channel {
        preloads: [10, 20],
        second: true,
        ..counter::reset()
    };
    board_with(c, control::reset())
}

// The watchdog is enabled, with these rests and so many stages expired; its intervals are 5, 6 and 7.
fn watched(rests: [u32; control::STAGES], expired: u32) -> Board {
    let k = Core {
        watchdog: Watchdog {
            intervals: [5, 6, 7],
            rests,
            expired,
            enabled: true,
        },
        ..control::reset()
    };
    board_with(counter::reset(), k)
}

// A call of a kind on a member with an argument. The kind stays a number: some that are tested are no
// kind.
pub fn event(kind: u8, member: u8, v: u32) -> Event {
    Event {
        kind,
        member,
        selector: 0,
        spare: 0,
        v,
        w: 0,
    }
}

// Events that are refused or answered 6 leave the board with every field outside its range.
fn show_refused(rt: &impl Print) {
    for (name, e) in [
        ("unknown kind", event(200, 0, 0)),
        ("channel 6", event(10, 6, 0)),
        ("count read with an argument", event(10, 0, 1)),
        ("safe write of a pin with SWE 0", event(15, 0, 1)),
        ("safe write of a virtual output with SWE 0", event(20, 5, 0)),
        ("filter write of 65,536", event(30, 5, 65536)),
        ("snapshot read, captures lost", event(11, 0, 0)),
        ("snapshot read, nothing lost", event(11, 1, 0)),
    ] {
        show(rt, name, board::apply(broken(), e));
    }
}

// Events that are accepted store the repaired board.
fn show_accepted(rt: &impl Print) {
    let b = broken();
    let swe = with(b, |b| b.core.safety.writes = true);
    for (name, b, e) in [
        ("count read", b, event(10, 1, 0)),
        ("mode write", b, event(1, 0, 48)),
        ("safe write of a pin with SWE 1", swe, event(15, 0, 1)),
        (
            "safe write of a virtual output with SWE 1",
            swe,
            event(20, 5, 0),
        ),
        ("filter write of 5", b, event(30, 47, 5)),
        ("status", b, event(29, 0, 0)),
        ("step", b, event(0, 0, 0)),
    ] {
        show(rt, name, board::apply(b, e));
    }
}

// Boards that no script reaches in a test's time, or whose record tells more than a call does.
fn show_points(rt: &impl Print) {
    let wrapped = board::apply(before_the_wrap(), event(0, 0, 0));
    show(rt, "C24, step", wrapped);
    let loaded = board::apply(second_without_bp(), event(9, 0, 0));
    show(rt, "C34, soft preload", loaded);
    let status = board::apply(loaded.board, event(12, 0, 0));
    show(rt, "C34, status", status);
    let interval = board::apply(board::reset(), event(25, 0, 7));
    show(rt, "W7, interval", interval);
}

// The status after a step, and what the step made of the watchdog.
fn show_step(rt: &impl Print, name: &str, b: Board) {
    let stepped = board::apply(b, event(0, 0, 0));
    show(rt, name, board::apply(stepped.board, event(29, 0, 0)));
}

// A stage with a rest of 0 that has not expired, the first one and one behind it; rests of stages
// that have expired.
fn show_stages(rt: &impl Print) {
    show_step(rt, "W9, status after a step", watched([0, 6, 7], 0));
    show_step(rt, "W9, behind an expired stage", watched([4, 0, 7], 1));
    show_step(rt, "all stages expired", watched([2, 3, 4], 3));
    let third = Event {
        selector: 2,
        ..event(25, 0, 9)
    };
    let interval = board::apply(board::reset(), third);
    show(rt, "R4, interval of stage 2", interval);
}

fn main(rt: HostRuntime) {
    show_refused(&rt);
    show_accepted(&rt);
    lists::show_lists(&rt, broken());
    ranges::show_ranges(&rt);
    show_points(&rt);
    show_stages(&rt);
    waits::show_waits(&rt);
    ticks::show_ticks(&rt);
    accounts::show_accounts(&rt);
}
