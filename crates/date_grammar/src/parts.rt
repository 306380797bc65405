//! The parts of a date, as numbers.

/// A day by its parts, which the calendar need not have.
#[derive(Clone, Copy)]
pub struct CalendarDay {
    pub year: u16,
    /// From 1 for January.
    pub month: u8,
    pub day: u8,
}

/// A time of the day (RFC 5322 §3.3, time-of-day).
#[derive(Clone, Copy)]
pub struct TimeOfDay {
    pub hour: u8,
    pub minute: u8,
    /// Up to 60, a leap second.
    pub second: u8,
}

/// How far a zone is from universal time. `-0000`, which tells nothing of the zone (RFC 5322 §3.3), is behind by 0 minutes.
#[derive(Clone, Copy)]
pub struct Zone {
    pub behind: bool,
    pub minutes: u16,
}

/// A day, a time of that day, and the zone where they are so (RFC 5322 §3.3, date-time).
#[derive(Clone, Copy)]
pub struct DateTime {
    pub day: CalendarDay,
    pub time: TimeOfDay,
    pub zone: Zone,
}

/// A moment with the zone that it is told in.
#[derive(Clone, Copy, Debug, PartialEq, Eq)]
pub struct Stamp {
    /// Since 1970-01-01 00:00:00 +0000.
    pub seconds: i64,
    /// The minutes that the zone is ahead of universal time.
    pub zone: i16,
}
