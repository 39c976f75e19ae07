//! The Gregorian calendar from 1970-01-01 on.

ghost use Rattle.std.specs.Prelude.{◌≡◌, ℕ, ◌+◌, ◌-◌, ◌*◌, ◌^◌, ◌<◌, ◌≤◌, ◌↔◌};
ghost use Rattle.std.specs.Prelude.{Some, IfSome, IsTrue};
ghost use Rattle.pim_time.specs.Calendar.{is_leap, days_in_month, next_month, date_of};
ghost use Rattle.pim_time.specs.Dates.{IsCivil, first_day};

/// A day of the calendar.
#[derive(Clone, Copy, Debug, PartialEq, Eq)]
pub struct Date {
    /// The year, from 1970.
    pub year: u64,
    /// The month, from 1.
    pub month: u64,
    /// The day of the month, from 1.
    pub day: u64,
}

/// A year and the days that are left of a walk at its start.
#[derive(Clone, Copy)]
struct Left {
    year: u64,
    days: u64,
}

/// Returns whether a year is a leap year.
fn is_leap(year: u64) -> bool
    ensures { result ≡ is_leap year }
{
    year % 4 == 0 && (year % 100 != 0 || year % 400 == 0)
}

/// Returns the number of days of a month.
fn days_in_month(year: u64, month: u64) -> u64
    ensures days { result ≡ days_in_month year month }
    ensures least { 28 ≤ result }
    ensures most { result ≤ 31 }
{
    match month {
        2 => { if is_leap(year) { 29 } else { 28 } }
        4 | 6 | 9 | 11 => 30,
        _ => 31,
    }
}

/// Returns the number of days of a year. The months other than February have 337.
fn days_in_year(year: u64) -> u64
    ensures days { result ≡ 337 + days_in_month year 2 }
    ensures least { 365 ≤ result }
    ensures most { result ≤ 366 }
{
    337 + days_in_month(year, 2)
}

/// Returns the first day of the month after that of a date.
fn next_month(date: Date) -> Date
    requires year { date.year < 2 ^ 63 }
    requires month { date.month ≤ 12 }
    ensures { result ≡ next_month date }
{
    if date.month < 12 {
        Date {
            year: date.year,
            month: date.month + 1,
            day: 1,
        }
    } else {
        Date {
            year: date.year + 1,
            month: 1,
            day: 1,
        }
    }
}

/// Walks from 1970 by whole years, until at most a year is left.
fn walk_years(days: u64) -> Left
    requires { days < 2_932_897 }
    ensures start { date_of (days - result.days) ≡ first_day result.year 1 }
    ensures within { result.days ≤ days }
    ensures year { result.year + result.days ≤ 1970 + days }
{
    let mut year = 1970;
    let mut left = days;
    while left >= 366 {
        left -= days_in_year(year);
        year += 1;
    }
    Left { year, days: left }
}

/// Returns the date this many days after 1970-01-01, before the year 10000.
pub(crate) fn date_of(days: u64) -> Date
    requires { days < 2_932_897 }
    ensures date { result ≡ date_of days }
    ensures year { result.year < 10_000 }
    ensures month { result.month ≤ 12 }
    ensures day { result.day ≤ 31 }
{
    let start = walk_years(days);
    let mut left = start.days;
    let mut date = Date {
        year: start.year,
        month: 1,
        day: 1,
    };
    while left >= days_in_month(date.year, date.month) {
        left -= days_in_month(date.year, date.month);
        date = next_month(date);
    }
    Date {
        year: date.year,
        month: date.month,
        day: 1 + left,
    }
}

/// Returns the days from 1970-01-01 to the first day of a year.
fn days_before_year(year: u64) -> u64
    requires from { 1970 ≤ year }
    requires below { year < 10_000 }
    ensures days { date_of result ≡ first_day year 1 }
    ensures bound { result ≤ 366 * (year - 1970) }
{
    let mut days = 0;
    for passed in 1970..year {
        days += days_in_year(passed);
    }
    days
}

/// Returns the days from 1970-01-01 to the first day of a month.
fn days_before_month(year: u64, month: u64) -> u64
    requires from { 1970 ≤ year }
    requires below { year < 10_000 }
    requires first { 1 ≤ month }
    requires last { month ≤ 12 }
    ensures days { date_of result ≡ first_day year month }
    ensures bound { result ≤ 366 * (year - 1970) + 31 * (month - 1) }
{
    let mut days = days_before_year(year);
    for passed in 1..month {
        days += days_in_month(year, passed);
    }
    days
}

/// Returns whether a month of the calendar from 1970 on has a day.
fn is_day(date: Date) -> bool
    ensures { IsTrue result ↔ IsCivil date }
{
    date.year >= 1970
        && date.month >= 1
        && date.month <= 12
        && date.day >= 1
        && date.day <= days_in_month(date.year, date.month)
}

/// Returns the days from 1970-01-01 to a date, or `None` where the calendar has no such day.
pub(crate) fn days_of(date: Date) -> Option<u64>
    requires { date.year < 10_000 }
    ensures read { IfSome result (λ days. date_of days ≡ date) }
    ensures only { (days : ℕ) → date_of days ≡ date → result ≡ Some days }
    ensures bound { IfSome result (λ days. days < 3_000_000) }
{
    if is_day(date) {
        Some(days_before_month(date.year, date.month) + (date.day - 1))
    } else {
        None
    }
}
