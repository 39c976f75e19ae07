//! The reader of times.

ghost use Rattle.std.specs.Prelude.{◌≡◌, ℕ, ◌*◌, ◌<◌, ◌≤◌, ◌^◌, ◌⊎◌, List, ◌∷◌};
ghost use Rattle.std.specs.Prelude.{Some, IfSome, MatchOption};
ghost use Rattle.pim_time.specs.Text.{IsNumber, IsUnit, IsSpan, IsZone, IsEnd, IsSeconds, IsDate};
ghost use Rattle.pim_time.specs.Text.{IsTime, millis_of};
ghost use Rattle.pim_time.specs.Pieces.{IsDay, IsClock, IsSecond, IsHours};
ghost use Rattle.pim_time.specs.declared.reading.Time.{Time as TheTime};

use crate::calendar::{Date, days_of};
use crate::cuts::{cut_at_point, cut_at_zone, strip_mark};
use crate::digits::{Cut, read_number, read_part, read_two, read_two_after, read_year};

/// A time that a user names.
#[derive(Clone, Copy, Debug, PartialEq, Eq)]
pub enum Time {
    /// Milliseconds since the first record of the captures.
    Moment(u64),
    /// Milliseconds since 1970-01-01T00:00:00Z.
    Epoch(u64),
}

/// Returns the milliseconds of a unit of time.
fn unit_of(byte: u8) -> Option<u64>
    ensures read { IfSome result (λ millis. IsUnit byte millis) }
    ensures only { (millis : ℕ) → IsUnit byte millis → result ≡ Some millis }
    ensures most { IfSome result (λ millis. millis ≤ 3_600_000) }
{
    match byte {
        b's' => Some(1000),
        b'm' => Some(60_000),
        b'h' => Some(3_600_000),
        _ => None,
    }
}

/// Returns the milliseconds of a whole number of a unit.
fn read_span(text: &[u8]) -> Option<u64>
    ensures read { IfSome result (λ millis. IsSpan text.now millis) }
    ensures only { (millis : ℕ) → IsSpan text.now millis → result ≡ Some millis }
    ensures below { IfSome result (λ millis. millis < 10 ^ 15) }
{
    let (last, front) = text.split_last()?;
    let unit = unit_of(*last)?;
    let number = read_number(front, 10)?;
    let millis = number * unit;
    if millis < 1_000_000_000_000_000 {
        Some(millis)
    } else {
        None
    }
}

/// Returns the milliseconds since the first record that a text names.
fn read_moment(text: &[u8]) -> Option<u64>
    ensures read { IfSome result (λ millis. IsNumber 13 text.now millis ⊎ IsSpan text.now millis) }
    ensures only { (millis : ℕ) → IsNumber 13 text.now millis ⊎ IsSpan text.now millis →
        result ≡ Some millis }
    ensures below { IfSome result (λ millis. millis < 10 ^ 15) }
{
    match read_number(text, 13) {
        Some(millis) => Some(millis),
        None => read_span(text),
    }
}

/// Returns the milliseconds since 1970 of seconds with a point.
fn read_seconds(text: &[u8]) -> Option<u64>
    ensures read { IfSome result (λ millis. IsSeconds text.now millis) }
    ensures only { (millis : ℕ) → IsSeconds text.now millis → result ≡ Some millis }
    ensures below { IfSome result (λ millis. millis < 10 ^ 15) }
{
    let parts = cut_at_point(text)?;
    let seconds = read_number(parts.front, 10)?;
    let part = read_part(parts.behind)?;
    Some(seconds * 1000 + part)
}

/// Returns the days since 1970 of the date at the front of a text.
fn read_day(text: &[u8]) -> Option<Cut<'_>>
    ensures read { IfSome result (λ cut. IsDay text.now cut.number cut.behind.now) }
    ensures only { (n : ℕ) (behind : List ℕ) → IsDay text.now n behind →
        MatchOption result ⊥ (λ cut. (cut.number ≡ n) × (cut.behind.now ≡ behind)) }
    ensures below { IfSome result (λ cut. cut.number < 3_000_000) }
{
    let year = read_year(text)?;
    let month = read_two_after(b'-', year.behind)?;
    let day = read_two_after(b'-', month.behind)?;
    let number = days_of(Date {
        year: year.number,
        month: month.number,
        day: day.number,
    })?;
    Some(Cut {
        number,
        behind: day.behind,
    })
}

/// Returns the seconds since midnight of the time of day at the front of a text.
fn read_clock(text: &[u8]) -> Option<Cut<'_>>
    ensures read { IfSome result (λ cut. IsClock text.now cut.number cut.behind.now) }
    ensures only { (n : ℕ) (behind : List ℕ) → IsClock text.now n behind →
        MatchOption result ⊥ (λ cut. (cut.number ≡ n) × (cut.behind.now ≡ behind)) }
{
    let hour = read_two(text)?;
    let minute = read_two_after(b':', hour.behind)?;
    let second = read_two_after(b':', minute.behind)?;
    if hour.number >= 24 || minute.number >= 60 || second.number >= 60 {
        return None;
    }
    Some(Cut {
        number: (hour.number * 60 + minute.number) * 60 + second.number,
        behind: second.behind,
    })
}

/// Returns the seconds since 1970 of the date and time of day at the front of a text.
fn read_second(text: &[u8]) -> Option<Cut<'_>>
    ensures read { IfSome result (λ cut. IsSecond text.now cut.number cut.behind.now) }
    ensures only { (n : ℕ) (behind : List ℕ) → IsSecond text.now n behind →
        MatchOption result ⊥ (λ cut. (cut.number ≡ n) × (cut.behind.now ≡ behind)) }
    ensures below { IfSome result (λ cut. cut.number < 3_000_000 * 86_400) }
{
    let day = read_day(text)?;
    let behind = strip_mark(day.behind)?;
    let clock = read_clock(behind)?;
    Some(Cut {
        number: day.number * 86_400 + clock.number,
        behind: clock.behind,
    })
}

/// Returns the part of a second, in milliseconds, that ends a date. It may lack.
fn read_end(text: &[u8]) -> Option<u64>
    ensures read { IfSome result (λ millis. IsEnd text.now millis) }
    ensures only { (millis : ℕ) → IsEnd text.now millis → result ≡ Some millis }
    ensures below { IfSome result (λ millis. millis < 1000) }
{
    if text.is_empty() {
        Some(0)
    } else {
        read_part(text)
    }
}

/// Returns the minutes that `HH:MM` writes, below 24 hours.
fn read_hours(text: &[u8]) -> Option<u64>
    ensures read { IfSome result (λ minutes. IsHours text.now minutes) }
    ensures only { (minutes : ℕ) → IsHours text.now minutes → result ≡ Some minutes }
{
    let hour = read_two(text)?;
    let minute = read_two_after(b':', hour.behind)?;
    if !minute.behind.is_empty() || hour.number >= 24 || minute.number >= 60 {
        return None;
    }
    Some(hour.number * 60 + minute.number)
}

/// Returns the seconds since 1970-01-01T00:00:00Z at which the clocks of a zone show `clock`, which
/// is in seconds since 1970-01-01T00:00:00.
fn read_zone(text: &[u8], clock: u64) -> Option<u64>
    requires { clock < 3_000_000 * 86_400 }
    ensures read { IfSome result (λ seconds. IsZone text.now clock seconds) }
    ensures only { (seconds : ℕ) → IsZone text.now clock seconds → result ≡ Some seconds }
    ensures below { IfSome result (λ seconds. seconds < 3_000_001 * 86_400) }
{
    let (sign, tail) = text.split_first()?;
    if *sign == b'Z' && tail.is_empty() {
        return Some(clock);
    }
    let minutes = read_hours(tail)?;
    match *sign {
        b'+' => clock.checked_sub(minutes * 60),
        b'-' => Some(clock + minutes * 60),
        _ => None,
    }
}

/// Returns the milliseconds since 1970 of a date.
fn read_date(text: &[u8]) -> Option<u64>
    ensures read { IfSome result (λ millis. IsDate text.now millis) }
    ensures only { (millis : ℕ) → IsDate text.now millis → result ≡ Some millis }
    ensures below { IfSome result (λ millis. millis < 10 ^ 15) }
{
    let parts = cut_at_zone(text)?;
    let clock = read_second(parts.front)?;
    let part = read_end(clock.behind)?;
    let seconds = read_zone(parts.behind, clock.number)?;
    Some(seconds * 1000 + part)
}

/// Returns the time that a text names, or `None` where it names none. The forms:
/// - one to 13 digits: milliseconds since the first record, as `42239`;
/// - one to 10 digits and `s`, `m` or `h`: seconds, minutes or hours since the first record, as
///   `90s`;
/// - one to 10 digits, a point, one to 9 digits: seconds since 1970, as `1795329744.5`;
/// - a date from 1970 to 9999, as `2026-11-22T06:42:24.5Z` (RFC 3339, 5.6, in capitals). A space
///   may stand in place of `T`, and an offset from UTC in place of `Z`, as `+01:00`. The point with
///   its one to 9 digits may lack. There is no second 60, and no time before 1970.
///
/// What the digits write beyond milliseconds is cut. Each time is below 10^15 milliseconds.
pub fn read_time(text: &str) -> Option<Time>
    ensures read { IfSome result (λ time. IsTime text.now time) }
    ensures only { (time : TheTime) → IsTime text.now time → result ≡ Some time }
    ensures below { IfSome result (λ time. millis_of time < 10 ^ 15) }
{
    let text = text.as_bytes();
    if let Some(millis) = read_moment(text) {
        return Some(Time::Moment(millis));
    }
    if let Some(millis) = read_seconds(text) {
        return Some(Time::Epoch(millis));
    }
    let millis = read_date(text)?;
    Some(Time::Epoch(millis))
}
