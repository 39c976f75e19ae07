//! What an audit of a router says, and which of it is shown.
//!
//! - `AuditLine` is a value: what is said, at which moment, and of which record.
//! - `AuditFilter` says which lines a user wants to see; `is_shown` returns whether a line is one
//!   of them, and `is_counted` whether it counts in the totals.
//! - `AuditWriter` takes lines, and writes a text of each to a device; `write_lines` gives it all
//!   lines of a list.
//!
//! The crate does not compute lines. It is separate from their texts, so that what computes them
//! does not wait for the proofs of texts. Callers: `pim_audit` and `pim_audit_lines`.
#![tactic(auto)]

mod filter;
mod line;
mod writer;

pub use filter::{AuditFilter, is_counted, is_shown};
pub use line::{AuditEvent, AuditLine, AuditTotals, Loss, MessageOrigin};
pub use writer::{AuditWriter, write_lines};
