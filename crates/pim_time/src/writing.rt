//! The writers of times since 1970.

ghost use Rattle.std.specs.Prelude.{◌≡◌, ◌+◌, ◌++◌, ◌<◌, ◌≤◌, length, drop};
ghost use Rattle.pim_time.specs.Text.{day_text, clock_text, millis_text, date_text, seconds_text};

use crate::calendar::{Date, date_of};
use itoa::Buffer;

/// Returns the digit of a number below 10.
fn digit(number: u64) -> u8
    requires { number < 10 }
    ensures { result ≡ 48 + number }
{
    b'0' + number as u8
}

/// Writes `YYYY-MM-DD`.
fn write_day(date: Date, out: &mut [u8])
    requires length { length out.old ≡ 10 }
    requires year { date.year < 10_000 }
    requires month { date.month ≤ 12 }
    requires day { date.day ≤ 31 }
    ensures { out.new ≡ day_text date }
{
    out.copy_from_slice(&[
        digit(date.year / 1000),
        digit(date.year / 100 % 10),
        digit(date.year % 100 / 10),
        digit(date.year % 10),
        b'-',
        digit(date.month / 10),
        digit(date.month % 10),
        b'-',
        digit(date.day / 10),
        digit(date.day % 10),
    ]);
}

/// Writes `HH:MM:SS`, of the seconds since the day began.
fn write_clock(seconds: u64, out: &mut [u8])
    requires length { length out.old ≡ 8 }
    requires seconds { seconds < 86_400 }
    ensures { out.new ≡ clock_text seconds }
{
    let minutes = seconds / 60 % 60;
    out.copy_from_slice(&[
        digit(seconds / 3600 / 10),
        digit(seconds / 3600 % 10),
        b':',
        digit(minutes / 10),
        digit(minutes % 10),
        b':',
        digit(seconds % 60 / 10),
        digit(seconds % 60 % 10),
    ]);
}

/// Writes a point and three digits, of the milliseconds since the second began.
fn write_millis(millis: u64, out: &mut [u8])
    requires length { length out.old ≡ 4 }
    requires millis { millis < 1000 }
    ensures { out.new ≡ millis_text millis }
{
    out.copy_from_slice(&[
        b'.',
        digit(millis / 100),
        digit(millis % 100 / 10),
        digit(millis % 10),
    ]);
}

/// Writes milliseconds since 1970 as seconds, with three digits after the point, at the front of
/// the buffer, as `1795329735.239`. Returns the number of bytes. The rest of the buffer is
/// unchanged.
pub fn write_seconds(millis: u64, out: &mut [u8; 24]) -> usize
    ensures short { result ≤ 24 }
    ensures length { result ≡ length (seconds_text millis) }
    ensures text { out.new ≡ seconds_text millis ++ drop result out.old }
{
    let mut buffer = Buffer::new();
    let seconds = buffer.format(millis / 1000).as_bytes();
    let (front, rest) = out.split_at_mut(seconds.len());
    front.copy_from_slice(seconds);
    let (part, _) = rest.split_at_mut(4);
    write_millis(millis % 1000, part);
    seconds.len() + 4
}

/// Writes milliseconds since 1970 as a UTC date, as `2026-11-22T06:42:15.239Z` (RFC 3339, 5.6).
pub fn write_date(millis: u64, out: &mut [u8; 24])
    requires { millis < 253_402_300_800_000 }
    ensures { out.new ≡ date_text millis }
{
    let seconds = millis / 1000;
    let (day, rest) = out.split_at_mut(10);
    write_day(date_of(seconds / 86_400), day);
    let (mark, rest) = rest.split_at_mut(1);
    mark.copy_from_slice(b"T");
    let (clock, rest) = rest.split_at_mut(8);
    write_clock(seconds % 86_400, clock);
    let (part, end) = rest.split_at_mut(4);
    write_millis(millis % 1000, part);
    end.copy_from_slice(b"Z");
}
