// A step, in the six parts of document 01.
ghost use Rattle.std.specs.Prelude.{◌≡◌, ◌<◌};
ghost use Rattle.control.specs.Watchdog.{watched};
ghost use Rattle.board.specs.Inputs.{extouts, index_of, carried_by, samples_of, all_next};
ghost use Rattle.board.specs.Step.{scene_of, core_next, stepped};

use crate::{Board, CHANNELS, Scene};
use control::{Clock, Core};
use counter::Channel;

// The pin that can trigger safemode.
const TRIGGER: u64 = 47;

// Bit c is ExtOut of channel c.
fn extouts(cs: [Channel; CHANNELS]) -> u64
    ensures { result ≡ extouts cs }
{
    let low = words::flags(cs[0].extout, cs[1].extout, cs[2].extout, cs[3].extout);
    let high = words::flags(cs[4].extout, cs[5].extout, false, false);
    (low + 16 * high) as u64
}

// The index, as XS gives it.
fn index_of(x: u32, ix: bool, outs: u64, ticks: u64) -> bool
    requires { x < 16 }
    ensures { result ≡ index_of x ix outs ticks }
{
    if x < 2 {
        ix != (x == 1)
    } else {
        if x < 8 {
            words::bit(outs, (x - 2) as u64)
        } else {
            words::bit(ticks, (x - 8) as u64)
        }
    }
}

// The neighbour's carry where K is 4.
fn carried_by(mode: u32, carry: i32) -> i32
    ensures { result ≡ carried_by mode carry }
{
    if counter::mode::k(mode) == 4 {
        carry
    } else {
        0
    }
}

// The samples of channel c: A + 2 B + 4 index + 8 ExtIn.
fn samples(s: Scene, c: u64, mode: u32, route: u32) -> u32
    requires { c < 6 }
    ensures { result ≡ samples_of s c mode route }
{
    let a = words::bit(s.lines, 3 * c);
    let b = words::bit(s.lines, 3 * c + 1);
    let ix = words::bit(s.lines, 3 * c + 2);
    let index = index_of(counter::mode::xs(mode), ix, s.outs, s.ticks);
    let level = ports::route_level(s.levels, s.virtuals, route as u64);
    let extin = level != counter::mode::ip(mode);
    words::flags(a, b, index, extin)
}

// Part 5: each channel from the old array, into a new one. The calls are written out six times, so
// that each channel's record stays where it is (docs/SPEED.md).
fn advance_all(old: [Channel; CHANNELS], s: Scene) -> [Channel; CHANNELS]
    ensures { result ≡ all_next s old }
{
    let o0 = old[0];
    let o1 = old[1];
    let o2 = old[2];
    let o3 = old[3];
    let o4 = old[4];
    let o5 = old[5];
    let w0 = samples(s, 0, o0.mode, o0.route);
    let s0 = o0.look(w0, carried_by(o0.mode, o5.carry), s.rises);
    let c0 = o0.step(w0, s.timestamp, s0);
    let w1 = samples(s, 1, o1.mode, o1.route);
    let s1 = o1.look(w1, carried_by(o1.mode, o0.carry), s.rises);
    let c1 = o1.step(w1, s.timestamp, s1);
    let w2 = samples(s, 2, o2.mode, o2.route);
    let s2 = o2.look(w2, carried_by(o2.mode, o1.carry), s.rises);
    let c2 = o2.step(w2, s.timestamp, s2);
    let w3 = samples(s, 3, o3.mode, o3.route);
    let s3 = o3.look(w3, carried_by(o3.mode, o2.carry), s.rises);
    let c3 = o3.step(w3, s.timestamp, s3);
    let w4 = samples(s, 4, o4.mode, o4.route);
    let s4 = o4.look(w4, carried_by(o4.mode, o3.carry), s.rises);
    let c4 = o4.step(w4, s.timestamp, s4);
    let w5 = samples(s, 5, o5.mode, o5.route);
    let s5 = o5.look(w5, carried_by(o5.mode, o4.carry), s.rises);
    let c5 = o5.step(w5, s.timestamp, s5);
    [c0, c1, c2, c3, c4, c5]
}

// What every channel can see.
fn scene(v: u32, outs: u64, clock: Clock, levels: u64, virtuals: u64) -> Scene
    ensures { result ≡ scene_of v outs clock levels virtuals }
{
    Scene {
        lines: v as u64,
        outs: outs,
        ticks: control::ticks(clock.prescaler),
        levels: levels,
        virtuals: virtuals,
        timestamp: clock.timestamp,
        rises: control::rises_at(clock.prescaler),
    }
}

// Parts 1, 3 and 4: the clock, the watchdog, then safemode.
fn advance_core(k: Core, pin47: bool) -> Core
    ensures { result ≡ core_next watched pin47 k }
{
    let clock = k.clock;
    let watchdog = k.watchdog;
    let safety = k.safety;
    let dog = watchdog.watch();
    Core {
        clock: clock.advance(),
        watchdog: dog,
        safety: safety.guard(dog.has_expired(0), pin47),
    }
}

impl Board {
    // A step of 20 ns with the lines V and the external levels W.
    pub fn step(self, v: u32, w: u64) -> Board
        ensures { result ≡ stepped v w self }
    {
        let earlier = self.pins;
        let pins = earlier.sense(w);
        let own = self.core;
        let core = advance_core(own, words::bit(pins.level, TRIGGER));
        let outputs = self.virtuals;
        let virtuals = outputs.levels(core.safety.safemode);
        let old = self.channels;
        let clock = core.clock;
        let s = scene(v, extouts(old), clock, pins.level, virtuals);
        let next = advance_all(old, s);
        let driven = pins.drive(extouts(next), core.safety.safemode);
        Board {
            channels: next,
            pins: driven,
            virtuals: outputs,
            core: core,
        }
    }
}
