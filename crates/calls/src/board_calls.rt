// Calls 22 to 29, on the board's own part.
ghost use Rattle.std.specs.Prelude.{◌≡◌};
ghost use Rattle.control.specs.Whole.{with_watchdog, with_safety};
ghost use Rattle.calls.specs.Reply.{accept};
ghost use Rattle.calls.specs.BoardCalls.{interval_write, board_status, board_call};

use crate::{Event, Kind, Refusal, Reply};
use control::{Core, Safety, Watchdog};

// Accepted, with this watchdog.
fn with_watchdog(watchdog: Watchdog, k: Core) -> Reply<Core>
    ensures { result ≡ accept (with_watchdog watchdog k) }
{
    Reply::accept(Core { watchdog, ..k })
}

// Accepted, with this safety: another field than the watchdog, which no parameter can name.
fn with_safety(safety: Safety, k: Core) -> Reply<Core>
    ensures { result ≡ accept (with_safety safety k) }
{
    Reply::accept(Core { safety, ..k })
}

// Call 25.
#[tactic(auto, unfolding(crate::specs::BoardCalls::interval_write))]
fn interval_write(stage: u8, v: u32, k: Core) -> Reply<Core>
    ensures { result ≡ interval_write stage v k }
{
    if k.watchdog.enabled {
        return Reply::refuse(Refusal::Enabled, k);
    }
    with_watchdog(k.watchdog.set_interval(stage, v), k)
}

// Call 29.
fn status(k: Core) -> Reply<Core>
    ensures { result ≡ board_status k }
{
    let d = k.watchdog;
    let low = words::flags(
        k.safety.safemode,
        d.has_expired(0),
        k.safety.writes,
        d.enabled,
    );
    let high = words::flags(d.has_expired(1), d.has_expired(2), false, false);
    Reply::tell(low + 16 * high, k)
}

// The call of an event on the board's own part.
#[tactic(auto, unfolding(crate::specs::BoardCalls::board_call))]
pub fn board_call(e: Event, k: Core) -> Reply<Core>
    ensures { result ≡ board_call e k }
{
    let (safety, watchdog) = (k.safety, k.watchdog);
    match Kind::try_from(e.kind) {
        Ok(Kind::ControlWrite) => with_safety(
            Safety {
                control: e.v,
                ..safety
            },
            k,
        ),
        Ok(Kind::SweWrite) => with_safety(
            Safety {
                writes: e.v == 1,
                ..safety
            },
            k,
        ),
        Ok(Kind::SafemodeClear) => with_safety(
            Safety {
                safemode: false,
                ..safety
            },
            k,
        ),
        Ok(Kind::IntervalWrite) => interval_write(e.selector, e.v, k),
        Ok(Kind::WatchdogEnableWrite) => with_watchdog(watchdog.switch(e.v == 1), k),
        Ok(Kind::WatchdogKick) => with_watchdog(watchdog.kick(), k),
        Ok(Kind::TimestampRead) => Reply::tell(k.clock.timestamp, k),
        _ => status(k),
    }
}
