// Calls 13 to 17, on the pin's own record and on it among all pins, and call 30, on the filters of
// all pins, since a pin's own record does not hold its filter.
ghost use Rattle.std.specs.Prelude.{◌≡◌, true, ◌<◌};
ghost use Rattle.ports.specs.Pins.{pins_in_range};
ghost use Rattle.calls.specs.PinCalls.{pin_call, pins_call};

use crate::{Event, Kind, Reply};
use ports::{Pin, Pins};

// The call of an event on its pin.
#[tactic(auto, unfolding(crate::specs::PinCalls::pin_call))]
fn pin_call(e: Event, p: Pin) -> Reply<Pin>
    ensures { result ≡ pin_call e p }
{
    let on = e.v == 1;
    match Kind::try_from(e.kind) {
        Ok(Kind::SourceWrite) => Reply::accept(Pin { source: e.v, ..p }),
        Ok(Kind::PinDataWrite) => Reply::accept(Pin { own: on, ..p }),
        Ok(Kind::PinSafeDataWrite) => Reply::accept(Pin { safedata: on, ..p }),
        Ok(Kind::PinSafeEnableWrite) => Reply::accept(Pin {
            safeenable: on,
            ..p
        }),
        _ => Reply::tell(u32::from(p.level), p),
    }
}

// The call of an event on the pin that it names, put back among all pins. A call but 30 leaves the
// planes of the filters as they are, so these have to be in range.
pub fn pins_call(e: Event, pins: Pins) -> Reply<Pins>
    requires member { e.member < 48 }
    requires sound { pins_in_range pins ≡ true }
    ensures { result ≡ pins_call e pins }
{
    let m = e.member as u64;
    match Kind::try_from(e.kind) {
        Ok(Kind::FilterWrite) => Reply::accept(pins.write_filter(m, e.v)),
        _ => {
            let called = pin_call(e, pins.at(m));
            Reply {
                state: pins.put(m, called.state),
                answer: called.answer,
            }
        }
    }
}
