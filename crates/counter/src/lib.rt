// One channel of the board: its record, and what a step, a start, a capture and a preload make of
// it. Each function says by an equation which definition of specs/ its result is; none asks
// anything of a record, so a channel with fields outside their ranges is answered too. What a step
// calls for each channel is marked to be taken into the board's loop (docs/SPEED.md).
#![tactic(auto)]

ghost use Rattle.std.specs.Prelude.{◌≡◌, true, ◌==◌};
ghost use Rattle.counter.specs.Mode.{TE};
ghost use Rattle.counter.specs.Setters.{with_run};
ghost use Rattle.counter.specs.Queue.{captured, popped};
ghost use Rattle.counter.specs.Preload.{preloaded, started, selected};
ghost use Rattle.counter.specs.Advance.{look, counted, loaded, next_of, settled, step};
ghost use Rattle.counter.specs.Repair.{channel_in_range, repaired, reset_channel};

mod difference;
pub mod mode;
mod queue;
mod samples;
mod stages;

// The captures that a queue holds.
pub const QUEUE: usize = 16;

// Masks and reasons are below this, 9 bits.
pub const REASONS: u32 = 512;

// Reason bit 7, a soft snapshot, and bit 8, a quadrature error.
pub const SOFT: u32 = 128;

const ERROR: u32 = 256;

// Samples are below this, 4 bits.
const SAMPLES: u32 = 16;

// The routes, 0 to 54, and the one that is always 0.
pub const ROUTES: u32 = 55;

const UNROUTED: u32 = ROUTES - 1;

// A channel. `second` says that preload 1 is the selected one; `kept` is A + 2 B + 4 index +
// 8 ExtIn of the last step; `carry` is -1, 0 or +1; the queue's entries are the first `held`
// places of the three arrays, the oldest first. The three arrays and their length, like the numbers
// in place of types, are the layout that C sees.
#[repr(C)]
#[derive(Clone, Copy)]
pub struct Channel {
    pub mode: u32,
    pub preloads: [u32; 2],
    pub compares: [u32; 2],
    pub route: u32,
    pub mask: u32,
    pub count: u32,
    pub running: bool,
    pub armed: bool,
    pub second: bool,
    pub kept: u32,
    pub extout: bool,
    pub carry: i32,
    pub counts: [u32; QUEUE],
    pub timestamps: [u32; QUEUE],
    pub reasons: [u32; QUEUE],
    pub held: u32,
    pub lost: u32,
}

// What a channel's lines tell in a step: the difference, the reasons that do not come from the
// count, whether the index is high, and armed after the index's edge.
#[derive(Clone, Copy)]
pub struct Seen {
    pub d: i32,
    pub reasons: u32,
    pub high: bool,
    pub armed: bool,
}

// The count before a preload, all reasons of the step, the carry, and armed before a preload.
#[derive(Clone, Copy)]
pub struct Counted {
    pub count: u32,
    pub reasons: u32,
    pub carry: i32,
    pub armed: bool,
}

// The count, the selection and armed after a preload, or as they were without one.
#[derive(Clone, Copy)]
pub struct Loaded {
    pub count: u32,
    pub second: bool,
    pub armed: bool,
}

// What a step makes of a channel's small fields, but for ExtOut: `seen` is the count before a
// preload, which a capture holds, and `caught` the reasons of that capture, 0 for none: they are the
// masked reasons as `masked` of specs/ gives them, and an `Option` would be a second form of 0.
#[derive(Clone, Copy)]
pub struct Next {
    pub count: u32,
    pub seen: u32,
    pub caught: u32,
    pub carry: i32,
    pub armed: bool,
    pub second: bool,
}

// What a capture tells whoever made it: the channel after it, and whether its entry was stored.
#[derive(Clone, Copy)]
pub struct Capture {
    pub channel: Channel,
    pub stored: bool,
}

impl Channel {
    // One capture more, stored, or the lost count one higher.
    #[inline]
    pub fn capture(mut self, count: u32, timestamp: u32, reason: u32) -> Capture
        ensures { result ≡ captured count timestamp reason self }
    {
        let held = self.held;
        let stored = held < queue::ROOM;
        if stored {
            self.counts = queue::put(self.counts, held, count);
            self.timestamps = queue::put(self.timestamps, held, timestamp);
            self.reasons = queue::put(self.reasons, held, reason);
            self.held = held + 1;
        } else {
            self.lost = self.lost.saturating_add(1);
        }
        Capture {
            channel: self,
            stored,
        }
    }

    // The queue without its oldest entry.
    pub fn pop(mut self) -> Channel
        ensures { result ≡ popped self }
    {
        self.counts = queue::shift(self.counts);
        self.timestamps = queue::shift(self.timestamps);
        self.reasons = queue::shift(self.reasons);
        self.held = self.held.saturating_sub(1);
        self
    }

    // A preload outside a step, where NR allows it.
    pub fn preload(mut self) -> Channel
        ensures { result ≡ preloaded self }
    {
        if stages::allowed(self.mode, self.count) {
            self.count = self.selected();
            self.second = stages::flipped(self.mode, self.second);
            self.armed = stages::armed_by_load(self.mode, self.armed);
        }
        self
    }

    // The selected preload register.
    fn selected(self) -> u32
        ensures { result ≡ selected self }
    {
        if self.second {
            self.preloads[1]
        } else {
            self.preloads[0]
        }
    }

    // A halted channel runs, armed where TE is 0.
    fn begin(mut self) -> Channel
        ensures { result ≡ with_run true (TE self.mode == 0) self }
    {
        self.running = true;
        self.armed = mode::te(self.mode) == 0;
        self
    }

    // The start of a halted channel, with its preload where TP 24 is set; a running one stays as it is.
    pub fn start(self) -> Channel
        ensures { result ≡ started self }
    {
        if self.running {
            return self;
        }
        if mode::tp(self.mode, 24) {
            self.begin().preload()
        } else {
            self.begin()
        }
    }

    // What the samples A + 2 B + 4 index + 8 ExtIn tell, with the neighbour's carry and whether the
    // timestamp rises; of a halted channel nothing.
    #[inline(always)]
    pub fn look(self, now: u32, carried: i32, rises: bool) -> Seen
        ensures { result ≡ look now carried rises self }
    {
        if self.running {
            let armed = stages::armed_by_edge(self.mode, self.armed, self.kept, now);
            let turn = difference::clock(mode::k(self.mode), self.kept, now, rises, carried);
            let d = difference::reversed(mode::ud(self.mode), turn.unwrap_or(0));
            return Seen {
                d: difference::gate(stages::counts(self.mode, armed, now), d),
                reasons: stages::edge_reasons(self.kept, now) | (ERROR * u32::from(turn.is_none())),
                high: samples::index(now),
                armed,
            };
        }
        Seen {
            d: 0,
            reasons: 0,
            high: false,
            armed: self.armed,
        }
    }

    // The count with matches, zero and carry.
    fn count_on(self, s: Seen) -> Counted
        ensures { result ≡ counted s self }
    {
        let d = s.d;
        if d == 0 {
            return Counted {
                count: self.count,
                reasons: s.reasons,
                carry: 0,
                armed: s.armed,
            };
        }
        let n = difference::moved(self.count, d);
        let match0 = n == self.compares[0];
        let match1 = n == self.compares[1];
        let zero = n == 0;
        Counted {
            count: n,
            reasons: words::flags(match0, match1, zero, false) | s.reasons,
            carry: difference::carry_of(self.count, d),
            armed: s.armed & !(zero & (mode::td(self.mode) == 2)),
        }
    }

    // The preload, where an event of TP asks for one and it is allowed.
    fn load(self, now: u32, high: bool, k: Counted) -> Loaded
        ensures { result ≡ loaded now high k self }
    {
        if stages::asked(self.mode, k.reasons, high) {
            if stages::allowed_now(self.mode, k.count, now) {
                return Loaded {
                    count: self.selected(),
                    second: stages::flipped(self.mode, self.second),
                    armed: stages::armed_by_load(self.mode, k.armed),
                };
            }
        }
        Loaded {
            count: k.count,
            second: self.second,
            armed: k.armed,
        }
    }

    // What the stages make of the small fields.
    fn next(self, now: u32, s: Seen) -> Next
        ensures { result ≡ next_of now s self }
    {
        let k = self.count_on(s);
        let caught = stages::masked(self.mask, k.reasons);
        let l = self.load(now, s.high, k);
        Next {
            count: l.count,
            seen: k.count,
            caught,
            carry: k.carry,
            armed: l.armed,
            second: l.second,
        }
    }

    // The record after a step that made `n` of the small fields: one capture for the reasons caught,
    // and ExtOut by what it told.
    fn settle(mut self, now: u32, timestamp: u32, n: Next) -> Channel
        ensures { result ≡ settled now timestamp n self }
    {
        let mut pulse = false;
        if n.caught != 0 {
            let told = self.capture(n.seen, timestamp, n.caught);
            self = told.channel;
            if told.stored {
                pulse = stages::is_match(n.caught);
            }
        }
        self.count = n.count;
        self.carry = n.carry;
        self.armed = n.armed;
        self.second = n.second;
        self.extout = stages::output(self.mode, pulse, n.second, n.count);
        self.kept = now;
        self
    }

    // One step, from what the lines tell: the next record.
    #[inline(always)]
    pub fn step(self, now: u32, timestamp: u32, s: Seen) -> Channel
        ensures { result ≡ step now timestamp s self }
    {
        let n = self.next(now, s);
        self.settle(now, timestamp, n)
    }

    // Every field is in its range.
    pub fn is_sound(self) -> bool
        ensures { result ≡ channel_in_range self }
    {
        mode::is_good(self.mode)
            & (self.route < ROUTES)
            & (self.mask < REASONS)
            & (self.kept < SAMPLES)
            & (self.held < queue::LENGTHS)
            & difference::is_carry(self.carry)
            & words::are_below(REASONS, &self.reasons)
    }

    // A channel handed in: a field outside its range counts as its value at reset.
    pub fn repair(mut self) -> Channel
        ensures { result ≡ repaired self }
    {
        self.mode = mode::in_range(self.mode);
        self.route = words::below(ROUTES, UNROUTED, self.route);
        self.mask = words::below(REASONS, 0, self.mask);
        self.kept = words::below(SAMPLES, 0, self.kept);
        self.carry = difference::in_carry(self.carry);
        self.reasons = queue::in_reasons(self.reasons);
        self.held = words::below(queue::LENGTHS, 0, self.held);
        self
    }
}

// A channel at reset.
pub fn reset() -> Channel
    ensures { result ≡ reset_channel }
{
    Channel {
        mode: 0,
        preloads: [0; 2],
        compares: [0; 2],
        route: UNROUTED,
        mask: 0,
        count: 0,
        running: false,
        armed: false,
        second: false,
        kept: 0,
        extout: false,
        carry: 0,
        counts: [0; QUEUE],
        timestamps: [0; QUEUE],
        reasons: [0; QUEUE],
        held: 0,
        lost: 0,
    }
}
