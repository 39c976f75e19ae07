//! The lines of an audit, as text and as JSON.
//!
//! - `AuditTextPrinter` and `AuditJsonPrinter` write each line that is shown, and nothing of any
//!   other.
//!
//! `specs/AuditText.antt` and `specs/AuditJson.antt` define each line byte by byte. It depends on
//! nothing but the line, the names of the ports and of their files, the form of moments, the time of
//! moment 0 and the upstream neighbour. At Ok the whole line was written. If the device fails, a
//! prefix of it was.
//!
//! Lines need no memory, since they are written in pieces. Callers: `pim_commands`.
#![tactic(auto)]

mod json_lines;
mod json_printer;
mod text_lines;
mod text_printer;
mod words;

pub use json_printer::AuditJsonPrinter;
pub use text_printer::AuditTextPrinter;
