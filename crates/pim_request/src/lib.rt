//! The input of a session: its lines and texts, and the command that each line states.
//!
//! - `InputItems::next` reads the next item of a device: a line, or the text that a `from` line
//!   begins. It passes the answers on before each read. Where the bytes of the device are known,
//!   the items are those of `items_of` in `specs/Items.antt`, however the device cuts them.
//! - `read_command` and `read_sender` read the words of a line. Its first wrong word is the first
//!   with which the words so far begin no form of the command.
//! - `decode_hex` replaces a buffer, which has room for them, by the bytes of its digits.
//!
//! After an error what was read is lost, and each later call fails too. No item needs memory: the
//! room for a line and for a text is made in advance. A command borrows its name or its digits from
//! the line. The crate knows no router. Callers: `pim_answers`, `pim_session` and `pim_main`.
#![tactic(auto)]

mod answers;
mod command;
mod commands;
mod held_text;
mod hex;
mod input;
mod items;
pub mod laws;
mod reading;
mod slots;
mod sort;
mod tails;
mod words;

pub use answers::Answers;
pub use command::{
    AnyWriting, Command, Comparison, KeptWhat, Packet, PortRow, RouteRow, Sender, WordsFault,
};
pub use hex::decode_hex;
pub use input::Stopped;
pub use items::{InputItems, Item, TextItem};
pub use reading::{read_command, read_sender};
