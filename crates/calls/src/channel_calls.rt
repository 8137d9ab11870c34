// Calls 1 to 12, on the channel's own record.
ghost use Rattle.std.specs.Prelude.{◌≡◌};
ghost use Rattle.calls.specs.Reply.{reply};
ghost use Rattle.calls.specs.ChannelCalls.{mode_write, register_write, preload_write, compare_write, route_write, mask_write, start, halt, snapshot, soft_preload, count_read, snapshot_read, channel_status, channel_call};

use crate::{Answer, Event, Kind, Refusal, Reply};
use counter::Channel;

// Each call is a function of its own, and sets its fields in a channel of its own: what an arm of one
// function makes has a place among the values of every call, which is filled with blanks each time
// (docs/SPEED.md).

// Call 1.
#[tactic(auto, unfolding(crate::specs::ChannelCalls::mode_write))]
fn mode_write(v: u32, mut c: Channel) -> Reply<Channel>
    ensures { result ≡ mode_write v c }
{
    if c.running {
        return Reply::refuse(Refusal::Running, c);
    }
    c.mode = v;
    c.second = false;
    Reply::accept(c)
}

// A pair of registers with `v` in the one that the selector names.
#[tactic(auto, unfolding(crate::specs::ChannelCalls::register_write))]
fn register_write(mut registers: [u32; 2], selector: u8, v: u32) -> [u32; 2]
    ensures { result ≡ register_write selector v registers }
{
    if selector == 0 {
        registers[0] = v;
    } else {
        registers[1] = v;
    }
    registers
}

// Call 2.
fn preload_write(selector: u8, v: u32, mut c: Channel) -> Reply<Channel>
    ensures { result ≡ preload_write selector v c }
{
    c.preloads = register_write(c.preloads, selector, v);
    Reply::accept(c)
}

// Call 3.
fn compare_write(selector: u8, v: u32, mut c: Channel) -> Reply<Channel>
    ensures { result ≡ compare_write selector v c }
{
    c.compares = register_write(c.compares, selector, v);
    Reply::accept(c)
}

// Call 4.
#[tactic(auto, unfolding(crate::specs::ChannelCalls::route_write))]
fn route_write(v: u32, mut c: Channel) -> Reply<Channel>
    ensures { result ≡ route_write v c }
{
    if c.running {
        return Reply::refuse(Refusal::Running, c);
    }
    c.route = v;
    Reply::accept(c)
}

// Call 5.
fn mask_write(v: u32, mut c: Channel) -> Reply<Channel>
    ensures { result ≡ mask_write v c }
{
    c.mask = v;
    Reply::accept(c)
}

// Call 6.
fn start(c: Channel) -> Reply<Channel>
    ensures { result ≡ start c }
{
    Reply::accept(c.start())
}

// Call 7.
fn halt(mut c: Channel) -> Reply<Channel>
    ensures { result ≡ halt c }
{
    c.running = false;
    Reply::accept(c)
}

// Call 8.
fn snapshot(timestamp: u32, c: Channel) -> Reply<Channel>
    ensures { result ≡ snapshot timestamp c }
{
    Reply::accept(c.capture(c.count, timestamp, counter::SOFT).channel)
}

// Call 9.
fn soft_preload(c: Channel) -> Reply<Channel>
    ensures { result ≡ soft_preload c }
{
    Reply::accept(c.preload())
}

// Call 10.
fn count_read(c: Channel) -> Reply<Channel>
    ensures { result ≡ count_read c }
{
    Reply::tell(c.count, c)
}

// Call 11.
#[tactic(auto, unfolding(crate::specs::ChannelCalls::snapshot_read))]
fn snapshot_read(mut c: Channel) -> Reply<Channel>
    ensures { result ≡ snapshot_read c }
{
    let lost = c.lost;
    if 0 < lost {
        c.lost = 0;
        return Reply {
            state: c,
            answer: crate::number(u32::from(Refusal::Lost), lost),
        };
    }
    if c.held == 0 {
        return Reply::refuse(Refusal::Empty, c);
    }
    Reply {
        state: c.pop(),
        answer: Answer {
            result: 0,
            value: c.counts[0],
            timestamp: c.timestamps[0],
            reason: c.reasons[0],
        },
    }
}

// Call 12.
fn status(c: Channel) -> Reply<Channel>
    ensures { result ≡ channel_status c }
{
    Reply::tell(words::flags(c.running, c.armed, c.second, false), c)
}

// The call of an event on its channel, at the board's timestamp. Each call is stored by itself: what of
// the channel it leaves as it was is then not copied (docs/SPEED.md).
#[tactic(auto, unfolding(crate::specs::ChannelCalls::channel_call))]
pub fn channel_call(timestamp: u32, e: Event, place: &mut Channel) -> Answer
    ensures { reply place.new result ≡ channel_call timestamp e place.old }
{
    let c = *place;
    match Kind::try_from(e.kind) {
        Ok(Kind::ModeWrite) => mode_write(e.v, c).store(place),
        Ok(Kind::PreloadWrite) => preload_write(e.selector, e.v, c).store(place),
        Ok(Kind::CompareWrite) => compare_write(e.selector, e.v, c).store(place),
        Ok(Kind::RouteWrite) => route_write(e.v, c).store(place),
        Ok(Kind::MaskWrite) => mask_write(e.v, c).store(place),
        Ok(Kind::Start) => start(c).store(place),
        Ok(Kind::Halt) => halt(c).store(place),
        Ok(Kind::Snapshot) => snapshot(timestamp, c).store(place),
        Ok(Kind::SoftPreload) => soft_preload(c).store(place),
        Ok(Kind::CountRead) => count_read(c).store(place),
        Ok(Kind::SnapshotRead) => snapshot_read(c).store(place),
        _ => status(c).store(place),
    }
}
