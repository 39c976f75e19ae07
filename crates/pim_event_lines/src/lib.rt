//! The lines of the events of a trace, as text and as JSON.
//!
//! - `TextPrinter` and `JsonPrinter` write the line of each event that is shown, and nothing of any
//!   other.
//!
//! `specs/TextLine.antt` and `specs/JsonLine.antt` define the line of each event byte by byte. It
//! depends on nothing but the event, the names of the ports and of their files, and the form of
//! moments. At Ok the whole line was written. If the device fails, a prefix of it was.
//!
//! Lines need no memory, since they are written in pieces. Callers: `pim_commands`. The lines of
//! an audit (`pim_audit_lines`) have the same heads, moments, machines and restarts.
#![tactic(auto)]

mod counts;
mod files;
mod json_machines;
mod json_packets;
mod json_printer;
mod json_state;
mod moments;
mod text_machines;
mod text_packets;
mod text_printer;
mod text_state;
mod words;

pub use files::{FileName, FileNames, file_of, files_of, if_several};
pub use json_packets::write_restart_json;
pub use json_printer::{JsonPrinter, write_json_head};
pub use moments::Stamp;
pub use text_packets::write_restart_line;
pub use text_printer::{TextPrinter, write_text_head};
pub use words::{ShortWhat, Word, kind_word, show_what};
