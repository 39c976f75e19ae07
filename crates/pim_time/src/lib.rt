//! Times as users write and read them.
//!
//! - `read_time` reads a text of one of four forms: milliseconds since the first record, a number
//!   of seconds, minutes or hours since it, seconds since 1970, or a date with its zone (RFC 3339,
//!   5.6). It returns `None` exactly if the text has none of these forms, and a text names at most
//!   one time. The plain forms, which were the only ones at first, name what they always named.
//! - `write_seconds` and `write_date` write milliseconds since 1970 in one spelling, which
//!   `read_time` reads as the same time.
//! - `TimeForm` says in which of these forms a user wants moments.
//!
//! The definition of the calendar counts day by day; the code goes by years and months. Leap
//! seconds do not exist here, as in the stamps of captures.
//! Callers: `pim_merge`, `pim_words`, and the crates of events.
#![tactic(auto)]

mod calendar;
mod cuts;
mod digits;
mod form;
pub mod laws;
mod reading;
mod writing;

pub use form::TimeForm;
pub use reading::{Time, read_time};
pub use writing::{write_date, write_seconds};
