// The board's own part: the clock with its ticks, the watchdog, and safemode with what sets it.
#![tactic(auto)]

ghost use Rattle.std.specs.Prelude.{◌≡◌, ◌/◌, ◌^◌, ◌<◌};
ghost use Rattle.control.specs.Clock.{prescaler_next, rises_at, advanced, tick, ticks, repaired_clock};
ghost use Rattle.words.specs.Range.{or_reset};
ghost use Rattle.control.specs.Watchdog.{has_expired, rests_after, expired_after, watched, kicked, switched, with_interval, reset_interval, is_interval, watchdog_in_range, repaired_watchdog};
ghost use Rattle.control.specs.Safety.{pin_triggers, active_level, watchdog_triggers, guarded, repaired_safety};
ghost use Rattle.control.specs.Whole.{core_in_range, repaired_core, reset_core};

// The steps of the prescaler's round, 10 seconds.
const PRESCALE: u32 = 500_000_000;

// The steps of a microsecond: the timestamp rises.
const MICROSECOND: u32 = 50;

// The ticks, and the divisor of each: the tick is high where it divides the prescaler.
const TICKS: usize = 8;

const DIVISORS: [u32; TICKS] = [
    500_000_000,
    50_000_000,
    5_000_000,
    500_000,
    50_000,
    5_000,
    500,
    50,
];

// The stages of the watchdog, and the interval of each at reset.
pub const STAGES: usize = 3;

const INTERVAL: u32 = 50_000_000;

// How many of them have expired is below this.
const EXPIRED: u32 = STAGES as u32 + 1;

// Control words are below this, 3 bits.
pub const CONTROLS: u32 = 8;

#[repr(C)]
#[derive(Clone, Copy)]
pub struct Clock {
    pub prescaler: u32,
    pub timestamp: u32,
}

// Each stage has its interval and its rest. `expired` is how many stages have expired: the first so
// many, since a stage runs only when the one before it has expired. The two arrays are the layout
// that C sees.
#[repr(C)]
#[derive(Clone, Copy)]
pub struct Watchdog {
    pub intervals: [u32; STAGES],
    pub rests: [u32; STAGES],
    pub expired: u32,
    pub enabled: bool,
}

// `writes` is SWE: safe writes are allowed.
#[repr(C)]
#[derive(Clone, Copy)]
pub struct Safety {
    pub control: u32,
    pub writes: bool,
    pub safemode: bool,
}

#[repr(C)]
#[derive(Clone, Copy)]
pub struct Core {
    pub clock: Clock,
    pub watchdog: Watchdog,
    pub safety: Safety,
}

impl Clock {
    // Part 1 of a step.
    pub fn advance(self) -> Clock
        ensures { result ≡ advanced self }
    {
        let prescaler = next_prescaler(self.prescaler);
        if rises_at(prescaler) {
            Clock {
                prescaler,
                timestamp: self.timestamp.wrapping_add(1),
            }
        } else {
            Clock {
                prescaler,
                timestamp: self.timestamp,
            }
        }
    }

    // A clock handed in.
    pub fn repair(mut self) -> Clock
        ensures { result ≡ repaired_clock self }
    {
        self.prescaler = words::below(PRESCALE, 0, self.prescaler);
        self
    }
}

// The prescaler of the next step.
fn next_prescaler(p: u32) -> u32
    ensures { result ≡ prescaler_next p }
{
    if p < PRESCALE - 1 {
        p + 1
    } else {
        (p % PRESCALE + 1) % PRESCALE
    }
}

// The timestamp rises in a step with this prescaler.
pub fn rises_at(p: u32) -> bool
    ensures { result ≡ rises_at p }
{
    p % MICROSECOND == 0
}

// The divisor of tick x, of XS 8 + x, from the table.
fn divisor(x: usize) -> u32
    requires { x < 8 }
    ensures { result ≡ 500_000_000 / 10 ^ x }
{
    DIVISORS[x]
}

// Tick x is high in a step with this prescaler.
fn tick(p: u32, x: usize) -> bool
    requires { x < 8 }
    ensures { result ≡ tick p x }
{
    p % divisor(x) == 0
}

// The eight ticks: bit x is tick x. Each divisor divides those before it, so that no tick is high
// before one that is low: from the last to the first, all are found at the first that is low. In most
// steps that is the last, since 50 does not divide their prescaler.
pub fn ticks(p: u32) -> u64
    ensures { result ≡ ticks p }
{
    let mut found: u64 = 0;
    for x in (0..TICKS).rev() {
        if !tick(p, x) {
            return found;
        }
        found = found | (1 << x as u64);
    }
    found
}

// The rests after a step: a stage runs where it is the first or the one before it has expired. A
// match for each number, since a loop over the stages takes more (docs/SPEED.md).
fn rests_after(expired: u32, rests: [u32; STAGES]) -> [u32; STAGES]
    ensures { result ≡ rests_after 3 expired rests }
{
    let first = rests[0].saturating_sub(1);
    match expired {
        0 => [first, rests[1], rests[2]],
        1 => [first, rests[1].saturating_sub(1), rests[2]],
        _ => [
            first,
            rests[1].saturating_sub(1),
            rests[2].saturating_sub(1),
        ],
    }
}

// How many stages have expired after a step: one more where the first that has not reaches 0.
fn expired_after(expired: u32, rests: [u32; STAGES]) -> u32
    ensures { result ≡ expired_after 3 expired rests }
{
    match expired {
        0 => u32::from(rests[0] == 1),
        1 => 1 + u32::from(rests[1] == 1),
        2 => 2 + u32::from(rests[2] == 1),
        _ => expired,
    }
}

// An interval handed in.
fn sound_interval(n: u32) -> u32
    ensures { result ≡ or_reset is_interval reset_interval n }
{
    if 0 < n { n } else { INTERVAL }
}

impl Watchdog {
    // Stage `stage` has expired.
    pub fn has_expired(self, stage: u32) -> bool
        ensures { result ≡ has_expired self stage }
    {
        stage < self.expired
    }

    // Part 3 of a step: what has expired is read before it.
    pub fn watch(mut self) -> Watchdog
        ensures { result ≡ watched self }
    {
        if self.enabled {
            let expired = expired_after(self.expired, self.rests);
            self.rests = rests_after(self.expired, self.rests);
            self.expired = expired;
        }
        self
    }

    // The rests to the intervals, and all expiry ended.
    pub fn kick(mut self) -> Watchdog
        ensures { result ≡ kicked self }
    {
        // By a variable, since no proof covers an array that is stored from field to field.
        let full = self.intervals;
        self.rests = full;
        self.expired = 0;
        self
    }

    // Enabled or disabled.
    pub fn switch(mut self, on: bool) -> Watchdog
        ensures { result ≡ switched on self }
    {
        if on {
            if self.enabled {
                return self;
            }
            self.enabled = true;
            return self.kick();
        }
        self.enabled = false;
        self
    }

    // The interval of a stage at n, by its place: what `get_mut` lends says nothing of the array
    // afterwards.
    pub fn set_interval(mut self, stage: u8, n: u32) -> Watchdog
        ensures { result ≡ with_interval stage n self }
    {
        let at = usize::from(stage);
        if at < STAGES {
            self.intervals[at] = n;
        }
        self
    }

    // Every field is in its range.
    fn is_sound(self) -> bool
        ensures { result ≡ watchdog_in_range self }
    {
        self.intervals.iter().all(|&n| 0 < n) & (self.expired < EXPIRED)
    }

    // A watchdog handed in.
    pub fn repair(mut self) -> Watchdog
        ensures { result ≡ repaired_watchdog self }
    {
        self.intervals = self.intervals.map(sound_interval);
        self.expired = words::below(EXPIRED, 0, self.expired);
        self
    }
}

// Each control bit has a function of its definition's name.

// Control bit 0: pin 47 triggers safemode.
fn pin_triggers(c: u32) -> bool
    ensures { result ≡ pin_triggers c }
{
    words::bit_at(c, 0)
}

// Control bit 1: the level at which pin 47 triggers.
fn active_level(c: u32) -> bool
    ensures { result ≡ active_level c }
{
    words::bit_at(c, 1)
}

// Control bit 2: an expired stage 0 of the watchdog triggers safemode.
fn watchdog_triggers(c: u32) -> bool
    ensures { result ≡ watchdog_triggers c }
{
    words::bit_at(c, 2)
}

impl Safety {
    // Part 4 of a step.
    pub fn guard(mut self, expired: bool, pin47: bool) -> Safety
        ensures { result ≡ guarded expired pin47 self }
    {
        let c = self.control;
        if watchdog_triggers(c) {
            self.safemode = self.safemode | expired;
        }
        if pin_triggers(c) {
            self.safemode = self.safemode | (pin47 == active_level(c));
        }
        self
    }

    // Safety handed in.
    pub fn repair(mut self) -> Safety
        ensures { result ≡ repaired_safety self }
    {
        self.control = words::below(CONTROLS, 0, self.control);
        self
    }
}

impl Core {
    // Every field is in its range.
    pub fn is_sound(self) -> bool
        ensures { result ≡ core_in_range self }
    {
        (self.clock.prescaler < PRESCALE)
            & self.watchdog.is_sound()
            & (self.safety.control < CONTROLS)
    }

    // The board's own part handed in.
    pub fn repair(self) -> Core
        ensures { result ≡ repaired_core self }
    {
        Core {
            clock: self.clock.repair(),
            watchdog: self.watchdog.repair(),
            safety: self.safety.repair(),
        }
    }
}

// The board's own part at reset.
pub fn reset() -> Core
    ensures { result ≡ reset_core }
{
    Core {
        clock: Clock {
            prescaler: 0,
            timestamp: 0,
        },
        watchdog: Watchdog {
            intervals: [INTERVAL; STAGES],
            rests: [0; STAGES],
            expired: 0,
            enabled: false,
        },
        safety: Safety {
            control: 0,
            writes: false,
            safemode: false,
        },
    }
}
