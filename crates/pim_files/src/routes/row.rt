//! The row that a line states.

ghost use Rattle.std.specs.Prelude.{◌≡◌, ◌<◌, ℕ, IfSome, IfNone};
ghost use Rattle.pim_addr.specs.Routes.{Row};
ghost use Rattle.pim_addr.specs.RouteRows.{row_seen};
ghost use Rattle.pim_files.specs.RoutesFile.{IsDecimal, Leads, IsRow, bits_of};
ghost use Rattle.pim_files.specs.RoutesSeen.{file_row_seen};

use pim_addr::{Family, Route, read_text, text_names_one_address};
use std::str;

/// A row with the map of the table that it belongs to.
#[derive(Clone, Copy, Debug, PartialEq, Eq)]
pub enum FileRow<R> {
    /// A row that leads groups to their RP.
    Rp(R),
    /// A row that leads addresses to an upstream neighbour.
    Via(R),
}

/// Returns the number of a decimal without leading zeros, up to 255.
fn read_length(text: &str) -> Option<u8>
    ensures read { IfSome result (λ number. IsDecimal text.now number) }
    ensures unread { IfNone result ((number : ℕ) → IsDecimal text.now number → 255 < number) }
{
    let digits = text.as_bytes();
    if digits.is_empty() || digits[0] == b'+' {
        return None;
    }
    if digits[0] == b'0' && digits.len() > 1 {
        return None;
    }
    match text.parse::<u8>() {
        Ok(number) => Some(number),
        Err(_) => None,
    }
}

/// Returns the row of `ADDRESS/LENGTH ADDRESS`, if the text states one with at most 255 bits.
fn read_led<F: Family>(text: &str) -> Option<Route<F::Addr>>
    ensures read { IfSome result (λ route. Leads F.family text.now (row_seen F.bytes_of route)) }
    ensures only { IfSome result (λ route. (row : Row) → Leads F.family text.now row
        → row ≡ row_seen F.bytes_of route) }
    ensures unread { IfNone result ((row : Row) → Leads F.family text.now row → 255 < row.0.bits) }
{
    text_names_one_address();
    let (prefix, behind) = text.split_once('/')?;
    let (length, to) = behind.split_once(' ')?;
    Some(Route {
        prefix: read_text::<F>(prefix)?,
        length: read_length(length)?,
        to: read_text::<F>(to)?,
    })
}

/// Returns the row that a line states, if it states one with at most 255 bits. LENGTH may be
/// greater than an address allows: the table then refuses the row.
pub(crate) fn read_row<F: Family>(line: &[u8]) -> Option<FileRow<Route<F::Addr>>>
    ensures read { IfSome result (λ row. IsRow F.family line.now (file_row_seen F.bytes_of row)) }
    ensures only { IfSome result (λ row. (other : FileRow Row) → IsRow F.family line.now other
        → other ≡ file_row_seen F.bytes_of row) }
    ensures unread { IfNone result ((row : FileRow Row) → IsRow F.family line.now row → 255
        < bits_of row) }
{
    let Ok(line) = str::from_utf8(line) else {
        return None;
    };
    if let Some(led) = line.strip_prefix("rp ") {
        return Some(FileRow::Rp(read_led::<F>(led)?));
    }
    let led = line.strip_prefix("via ")?;
    Some(FileRow::Via(read_led::<F>(led)?))
}
