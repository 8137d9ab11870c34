// Result 3: the field checks of a step and of each call.
ghost use Rattle.std.specs.Prelude.{◌≡◌};
ghost use Rattle.calls.specs.Kinds.{number_of};
ghost use Rattle.calls.specs.Fields.{step_fits, is_step, limit, selectors, fits};

use crate::{Event, Kind};

// The kinds, 0 to 30.
pub const KINDS: u8 = 31;

// V of a step is below this, three lines of six channels.
pub const LINES: u32 = 1 << 18;

// Every V is below this.
const ANY: u64 = 1 << 32;

// V of one bit is below this, and V where it is unused.
const BIT: u64 = 2;

const UNUSED: u64 = 1;

impl Kind {
    // V of a call is below this; a step is no call.
    #[tactic(auto, unfolding(crate::specs::Fields::limit, crate::specs::Fields::limits))]
    fn limit(self) -> u64
        ensures { result ≡ limit (number_of self) }
    {
        match self {
            Kind::Step => 0,
            Kind::ModeWrite => counter::mode::WORDS as u64,
            Kind::PreloadWrite | Kind::CompareWrite | Kind::IntervalWrite => ANY,
            Kind::RouteWrite => counter::ROUTES as u64,
            Kind::MaskWrite => counter::REASONS as u64,
            Kind::SourceWrite => ports::SOURCES as u64,
            Kind::PinDataWrite | Kind::PinSafeDataWrite | Kind::PinSafeEnableWrite => BIT,
            Kind::VirtualDataWrite | Kind::VirtualSafeDataWrite | Kind::VirtualSafeEnableWrite => {
                BIT
            }
            Kind::ControlWrite => control::CONTROLS as u64,
            Kind::SweWrite | Kind::WatchdogEnableWrite => BIT,
            Kind::FilterWrite => ports::FILTERS as u64,
            _ => UNUSED,
        }
    }

    // The selector is below this.
    #[tactic(auto, unfolding(crate::specs::Fields::selectors))]
    fn selectors(self) -> u8
        ensures { result ≡ selectors (number_of self) }
    {
        match self {
            Kind::PreloadWrite | Kind::CompareWrite => 2,
            Kind::IntervalWrite => control::STAGES as u8,
            _ => 1,
        }
    }
}

// Every field of a call is as its kind wants it.
#[tactic(auto, unfolding(crate::specs::Fields::fits))]
pub fn fits(e: Event) -> bool
    ensures { result ≡ fits e }
{
    let Ok(kind) = Kind::try_from(e.kind) else {
        return false;
    };
    let good = match kind {
        Kind::ModeWrite => counter::mode::is_good(e.v),
        Kind::IntervalWrite => e.v != 0,
        _ => true,
    };
    e.spare == 0 && e.selector < kind.selectors() && e.w == 0 && (e.v as u64) < kind.limit() && good
}

// Every field of a step is as it wants it.
#[tactic(auto, unfolding(crate::specs::Fields::step_fits))]
fn step_fits(e: Event) -> bool
    ensures { result ≡ step_fits e }
{
    (e.member == 0) & (e.selector == 0) & (e.spare == 0) & (e.v < LINES) & (e.w < words::WORDS)
}

// A step that is accepted.
pub fn is_step(e: Event) -> bool
    ensures { result ≡ is_step e }
{
    (e.kind == Kind::Step as u8) & step_fits(e)
}
