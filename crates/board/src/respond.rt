// Every event but an accepted step, on a board whose fields are in their ranges.
ghost use Rattle.std.specs.Prelude.{◌≡◌, true};
ghost use Rattle.calls.specs.Refused.{result_of};
ghost use Rattle.calls.specs.Reply.{reply};
ghost use Rattle.board.specs.Respond.{class_of, is_safe_write, refusal_in, refusal_by, called};
ghost use Rattle.board.specs.Handed.{in_range};

use crate::{Board, Class};
use calls::{Answer, Event, Kind, Refusal};

// How many members the calls of a class have.
const CHANNEL_MEMBERS: u8 = crate::CHANNELS as u8;

const PIN_MEMBERS: u8 = ports::PINS as u8;

const VIRTUAL_MEMBERS: u8 = ports::VIRTUALS as u8;

const BOARD_MEMBERS: u8 = 1;

impl Board {
    // Every event but an accepted step, and its answer. What the event names is taken out of the board
    // and put back, so that the board stays where it is. It trusts the board, so it is not public.
    pub(crate) fn call(&mut self, e: Event) -> Answer
        requires { in_range self.old ≡ true }
        ensures { reply self.new result ≡ called self.old e }
    {
        let class = class_of(e.kind);
        if let Some(refusal) = refusal(class, self.core.safety.writes, e) {
            return calls::number(u32::from(refusal), 0);
        }
        match class {
            Class::OnChannel => {
                let m = e.member as usize;
                let timestamp = self.core.clock.timestamp;
                calls::channel_call(timestamp, e, &mut self.channels[m])
            }
            Class::OnPin => calls::pins_call(e, self.pins).store(&mut self.pins),
            Class::OnVirtual => calls::virtuals_call(e, self.virtuals).store(&mut self.virtuals),
            _ => calls::board_call(e, self.core).store(&mut self.core),
        }
    }
}

// The class of a kind: a match over the call's number, with ranges (docs/DECISIONS.md).
pub fn class_of(kind: u8) -> Class
    ensures { result ≡ class_of kind }
{
    match kind {
        0 => Class::Step,
        1..=12 => Class::OnChannel,
        13..=17 | 30 => Class::OnPin,
        18..=21 => Class::OnVirtual,
        22..=29 => Class::OnBoard,
        _ => Class::Unknown,
    }
}

// A safe write, on a pin or a virtual output.
fn is_safe_write(kind: u8) -> bool
    ensures { result ≡ is_safe_write kind }
{
    matches!(
        Kind::try_from(kind),
        Ok(
            Kind::PinSafeDataWrite
                | Kind::PinSafeEnableWrite
                | Kind::VirtualSafeDataWrite
                | Kind::VirtualSafeEnableWrite
        )
    )
}

// What is found of a call of a class with so many members: the member is not one of them, a field
// does not fit, or SWE bars it.
#[tactic(auto, unfolding(crate::specs::Respond::refusal_in))]
fn refusal_in(members: u8, writes: bool, e: Event) -> Option<Refusal>
    ensures { result_of result ≡ refusal_in members writes e }
{
    if e.member >= members {
        Some(Refusal::Member)
    } else if !calls::fits(e) {
        Some(Refusal::Field)
    } else if is_safe_write(e.kind) && !writes {
        Some(Refusal::Barred)
    } else {
        None
    }
}

// What the checks on kind, member, fields and SWE find of an event that is no accepted step. A step
// is here because its fields did not fit.
#[tactic(auto, unfolding(crate::specs::Respond::refusal_by))]
pub fn refusal(class: Class, writes: bool, e: Event) -> Option<Refusal>
    ensures { result_of result ≡ refusal_by class writes e }
{
    match class {
        Class::Step => Some(Refusal::Field),
        Class::OnChannel => refusal_in(CHANNEL_MEMBERS, writes, e),
        Class::OnPin => refusal_in(PIN_MEMBERS, writes, e),
        Class::OnVirtual => refusal_in(VIRTUAL_MEMBERS, writes, e),
        Class::OnBoard => refusal_in(BOARD_MEMBERS, writes, e),
        Class::Unknown => Some(Refusal::Kind),
    }
}
