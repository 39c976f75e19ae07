//! The text of a Hello or a Join/Prune message: lines of words, decimals and addresses.
//!
//! - `message_text` and `hello_text` write the text of a message that was read; `check` prints it.
//!   `partial_text` writes the lines of a Join/Prune body that precede a fault.
//! - `read_message_text` reads such a text. `Err(n)`: line n, from 1, is the first wrong one.
//! - `spell` writes the body of the message that a text states, legal or not. `build_message` seals
//!   it and refuses what a receiver refuses. `read_text` reads a text of at most 8 MiB from any
//!   `Feed`.
//! - By the laws, the text that is written of a message states that message, and a text states one
//!   message or has one first wrong line.
//!
//! A reader keeps what is expected next, and no message. Callers: `pim_answers`, `pim_request` and
//! `pim_commands`.
#![tactic(auto)]

mod build;
mod fields;
mod hello_law;
mod hello_lines;
mod join_prune_lines;
pub mod laws;
mod line;
mod line_walk;
mod message;
mod one_reading;
mod partial_lines;
mod pieces;
mod reading;
mod reading_lines;
mod spelling;
mod spelling_hello;
mod spelling_lines;
mod steps;

pub use build::{BuildFault, build_message, read_text};
pub use fields::{read_address, read_decimal};
pub use hello_law::hello_text_states_it;
pub use hello_lines::hello_text;
pub use join_prune_lines::message_text;
pub use line::Stated;
pub use message::{Spelled, TextFault, spell, stated_in};
pub use partial_lines::partial_text;
pub use pieces::type_text;
pub use reading::read_message_text;
