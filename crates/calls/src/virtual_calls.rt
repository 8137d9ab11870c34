// Calls 18 to 21, on the virtual output's own record and on it among all outputs.
ghost use Rattle.std.specs.Prelude.{◌≡◌, ◌<◌};
ghost use Rattle.calls.specs.VirtualCalls.{virtual_call, virtuals_call};

use crate::{Event, Kind, Reply};
use ports::{Virtual, Virtuals};

// The call of an event on its virtual output.
#[tactic(auto, unfolding(crate::specs::VirtualCalls::virtual_call))]
fn virtual_call(e: Event, o: Virtual) -> Reply<Virtual>
    ensures { result ≡ virtual_call e o }
{
    let on = e.v == 1;
    match Kind::try_from(e.kind) {
        Ok(Kind::VirtualDataWrite) => Reply::accept(Virtual { own: on, ..o }),
        Ok(Kind::VirtualSafeDataWrite) => Reply::accept(Virtual { safedata: on, ..o }),
        Ok(Kind::VirtualSafeEnableWrite) => Reply::accept(Virtual {
            safeenable: on,
            ..o
        }),
        _ => Reply::tell(u32::from(o.own), o),
    }
}

// The call of an event on the output that it names, put back among all outputs.
pub fn virtuals_call(e: Event, outputs: Virtuals) -> Reply<Virtuals>
    requires { e.member < 6 }
    ensures { result ≡ virtuals_call e outputs }
{
    let m = e.member as u64;
    let called = virtual_call(e, outputs.at(m));
    Reply {
        state: outputs.put(m, called.state),
        answer: called.answer,
    }
}
