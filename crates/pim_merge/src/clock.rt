//! The moments of records.

ghost use Rattle.std.specs.Prelude.{◌≡◌, ◌≤◌, Some};
ghost use Rattle.pim_time.specs.Text.{millis_of};
ghost use Rattle.pim_merge.specs.Merge.{clock_by, clock_after, is_past, moment_at, moment_of};

use pim_time::Time;

/// The clock of a merge, which begins with the first record that is taken.
#[derive(Clone, Copy, Debug, PartialEq, Eq)]
pub struct Clock {
    /// The time of that record, in milliseconds since 1970.
    pub begin: u64,
    /// The moment of the merge, in milliseconds since `begin`.
    pub moment: u64,
}

impl Clock {
    /// The clock after a record of this time, in milliseconds since 1970. A time that runs back
    /// leaves the moment.
    pub(crate) fn by(clock: Option<Clock>, time: u64) -> Clock
        ensures { result ≡ clock_by clock time }
    {
        match clock {
            None => Clock {
                begin: time,
                moment: 0,
            },
            Some(Clock { begin, moment }) => Clock {
                begin,
                moment: moment.max(time.saturating_sub(begin)),
            },
        }
    }

    /// The clock after a record of this time. One without a time leaves it.
    pub(crate) fn after(clock: Option<Clock>, time: Option<u64>) -> Option<Clock>
        ensures { result ≡ clock_after clock time }
    {
        match time {
            Some(time) => Some(Clock::by(clock, time)),
            None => clock,
        }
    }

    /// Whether the moment is later than this time. Without a time it is not.
    pub(crate) fn is_past(self, last: Option<Time>) -> bool
        ensures { result ≡ is_past last (Some self) }
    {
        match last {
            None => false,
            Some(Time::Moment(last)) => last < self.moment,
            Some(Time::Epoch(last)) => {
                u128::from(last) < u128::from(self.begin) + u128::from(self.moment)
            }
        }
    }
}

/// The moment of a clock, in milliseconds since the first record; 0 before it.
pub(crate) fn moment_of(clock: Option<Clock>) -> u64
    ensures { result ≡ moment_of clock }
{
    match clock {
        Some(clock) => clock.moment,
        None => 0,
    }
}

/// The moment of a time, in milliseconds since the first record, by the clock of the records that
/// were taken.
pub(crate) fn moment_at(clock: Option<Clock>, last: Time) -> u64
    ensures moment { result ≡ moment_at last clock }
    ensures bound { result ≤ millis_of last }
{
    match (last, clock) {
        (Time::Moment(last), _) => last,
        (Time::Epoch(_), None) => 0,
        (Time::Epoch(last), Some(Clock { begin, .. })) => last.saturating_sub(begin),
    }
}
