//! How a moment is written as text.

/// How the moments of events are written as text (`--time`).
#[derive(Clone, Copy, Debug, PartialEq, Eq)]
pub enum TimeForm {
    /// Milliseconds since the first record, as in `42239`.
    Ms,
    /// Seconds since 1970, as in `1795329735.239`; `-` if there is no record.
    Epoch,
    /// A UTC date, as in `2026-11-22T06:42:15.239Z`; `-` if there is no record.
    Utc,
}
