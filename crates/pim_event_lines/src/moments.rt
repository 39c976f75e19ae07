//! The moments of events, as text.

ghost use Rattle.std.specs.Prelude.{◌≡◌, ◌≤◌, length};
ghost use Rattle.pim_event_lines.specs.Moments.{utc_text, epoch_text, date_or_dash, moment_text};
ghost use Rattle.pim_time.specs.Text.{seconds_text};

use itoa::Buffer;
use pim_lines::put_front;
use pim_time::{TimeForm, write_date, write_seconds};
use std::marker::Model;

/// The first millisecond of the year 10000, which a date of four digits can't name.
const YEAR_10000: u64 = 253_402_300_800_000;

/// The text of a moment. Contracts see the text.
#[derive(Drop)]
pub struct Stamp {
    text: [u8; 24],
    length: usize,
}

impl Model for Stamp {
    ghost use Rattle.std.specs.Prelude.{ℕ, List, ◌≤◌, take};

    ghost Value = { List ℕ };

    ghost view = { λ stamp. take stamp.length stamp.text };

    ghost invariant = { λ stamp. stamp.length ≤ 24 };
}

impl Stamp {
    /// A text of at most 24 bytes.
    fn copied(bytes: &[u8]) -> Stamp
        requires { length bytes.now ≤ 24 }
        ensures { result ≡ bytes.now }
    {
        let mut text = [0; 24];
        let length = bytes.len();
        put_front(&mut text, bytes);
        Stamp { text, length }
    }

    /// The seconds since 1970 of a time, in milliseconds since 1970.
    pub fn seconds(millis: u64) -> Stamp
        ensures { result ≡ seconds_text millis }
    {
        let mut text = [0; 24];
        let length = write_seconds(millis, &mut text);
        Stamp { text, length }
    }

    /// A UTC date; seconds since 1970 from the year 10000 on.
    fn utc(millis: u64) -> Stamp
        ensures { result ≡ utc_text millis }
    {
        if millis >= YEAR_10000 {
            return Stamp::seconds(millis);
        }
        let mut text = [0; 24];
        write_date(millis, &mut text);
        Stamp { text, length: 24 }
    }

    /// Seconds since 1970, or `-`.
    fn epoch(epoch: Option<u64>) -> Stamp
        ensures { result ≡ epoch_text epoch }
    {
        match epoch {
            Some(millis) => Stamp::seconds(millis),
            None => Stamp::copied(b"-"),
        }
    }

    /// A UTC date, or `-`.
    fn date(epoch: Option<u64>) -> Stamp
        ensures { result ≡ date_or_dash epoch }
    {
        match epoch {
            Some(millis) => Stamp::utc(millis),
            None => Stamp::copied(b"-"),
        }
    }

    /// A moment in this form: `ms` in milliseconds since the first record, and `epoch` in
    /// milliseconds since 1970, if it has such a time.
    pub fn of(form: TimeForm, ms: u64, epoch: Option<u64>) -> Stamp
        ensures { result ≡ moment_text form ms epoch }
    {
        match form {
            TimeForm::Ms => {
                let mut digits = Buffer::new();
                Stamp::copied(digits.format(ms).as_bytes())
            }
            TimeForm::Epoch => Stamp::epoch(epoch),
            TimeForm::Utc => Stamp::date(epoch),
        }
    }

    /// The text.
    pub fn text(&self) -> &[u8]
        ensures { result.now ≡ self.now }
    {
        &self.text[..self.length]
    }
}
