//! The lines of reports and answers: what became of a packet, echoes and refreshes, records,
//! demand, messages, and the final state of a router.
//!
//! `specs/` defines each line byte by byte. At Ok the whole text was written. If the device fails,
//! a prefix of it was, and only then does the device's count of failures rise.
//! - `write_packet_line` and `write_verdict_line` write the verdict on a packet,
//!   `write_verdict_words` its words, and `write_malformed_words` those of its fault.
//! - `write_echo_line` and `write_refresh_line` write what a router reports when time passes.
//! - `write_record_line`, `write_demand` and `write_messages` write a machine's record, the demand
//!   of a normal form, and messages as hexadecimal digits.
//! - `write_state` writes the final state of a router: its records, its demand and the counts.
//!
//! Lines need no memory, since they are written in pieces; `write_state` makes a normal form. The
//! crate is separate from the replay of captures, so that a session needs no capture.
//! Callers: `pim_replay`, `pim_exchange` and `pim_answers`.
#![tactic(auto)]

mod demand_text;
mod echo_line;
mod malformed;
mod message_text;
mod packet_line;
mod record_line;
mod refresh_line;
mod said;
mod same;
mod state_text;

pub use demand_text::write_demand;
pub use echo_line::write_echo_line;
pub use malformed::write_malformed_words;
pub use message_text::write_messages;
pub use packet_line::{heard_words, write_packet_line, write_verdict_line, write_verdict_words};
pub use record_line::{state_name, write_record_line};
pub use refresh_line::write_refresh_line;
pub use same::same_line;
pub use state_text::{Counts, StateFault, write_state};
