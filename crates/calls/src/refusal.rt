// Why an event is refused.
ghost use Rattle.calls.specs.Refused.{HasCode};

// The refusals, each with the result that tells it.
#[derive(Clone, Copy, Debug, PartialEq, Eq)]
pub enum Refusal {
    // A member that is not there.
    Member = 1,
    // A kind that is not known.
    Kind = 2,
    // A field that does not fit its kind.
    Field = 3,
    // The channel runs.
    Running = 4,
    // The queue holds nothing.
    Empty = 5,
    // Captures were lost, and the value is how many.
    Lost = 6,
    // The watchdog is enabled.
    Enabled = 7,
    // SWE bars a safe write.
    Barred = 12,
}

impl From<Refusal> for u32 {
    ghost from_gives = { HasCode };

    fn from(refusal: Refusal) -> u32 {
        refusal as u32
    }
}
