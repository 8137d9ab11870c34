// What an event is: a step, or one of the calls 1 to 30, by the number in its record.
ghost use Rattle.calls.specs.Kinds.{IsKind};

// The kinds, in the order of their numbers.
#[derive(Clone, Copy, Debug, PartialEq, Eq)]
pub enum Kind {
    Step,
    ModeWrite,
    PreloadWrite,
    CompareWrite,
    RouteWrite,
    MaskWrite,
    Start,
    Halt,
    Snapshot,
    SoftPreload,
    CountRead,
    SnapshotRead,
    ChannelStatus,
    SourceWrite,
    PinDataWrite,
    PinSafeDataWrite,
    PinSafeEnableWrite,
    PinLevelRead,
    VirtualDataWrite,
    VirtualSafeDataWrite,
    VirtualSafeEnableWrite,
    VirtualDataRead,
    ControlWrite,
    SweWrite,
    SafemodeClear,
    IntervalWrite,
    WatchdogEnableWrite,
    WatchdogKick,
    TimestampRead,
    BoardStatus,
    FilterWrite,
}

// A number that is no kind's.
#[derive(Clone, Copy, Debug, PartialEq, Eq)]
pub struct UnknownKind;

impl TryFrom<u8> for Kind {
    type Error = UnknownKind;

    ghost try_from_gives = { IsKind };

    fn try_from(number: u8) -> Result<Kind, UnknownKind> {
        let kind = match number {
            0 => Kind::Step,
            1 => Kind::ModeWrite,
            2 => Kind::PreloadWrite,
            3 => Kind::CompareWrite,
            4 => Kind::RouteWrite,
            5 => Kind::MaskWrite,
            6 => Kind::Start,
            7 => Kind::Halt,
            8 => Kind::Snapshot,
            9 => Kind::SoftPreload,
            10 => Kind::CountRead,
            11 => Kind::SnapshotRead,
            12 => Kind::ChannelStatus,
            13 => Kind::SourceWrite,
            14 => Kind::PinDataWrite,
            15 => Kind::PinSafeDataWrite,
            16 => Kind::PinSafeEnableWrite,
            17 => Kind::PinLevelRead,
            18 => Kind::VirtualDataWrite,
            19 => Kind::VirtualSafeDataWrite,
            20 => Kind::VirtualSafeEnableWrite,
            21 => Kind::VirtualDataRead,
            22 => Kind::ControlWrite,
            23 => Kind::SweWrite,
            24 => Kind::SafemodeClear,
            25 => Kind::IntervalWrite,
            26 => Kind::WatchdogEnableWrite,
            27 => Kind::WatchdogKick,
            28 => Kind::TimestampRead,
            29 => Kind::BoardStatus,
            30 => Kind::FilterWrite,
            _ => return Err(UnknownKind),
        };
        Ok(kind)
    }
}
