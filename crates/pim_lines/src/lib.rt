//! What lines are made of: pieces, numbers, texts of addresses, hexadecimal digits, and the names
//! of ports.
//!
//! - `write_pieces` writes a text piece by piece, `write_hex` writes bytes as hexadecimal digits,
//!   and `number_or` has the text of a number.
//! - `Shown` has the text of an address, `ShortText` the short one, that of RFC 5952 for IPv6.
//! - `AnyAddress` is an address of either family, and `read_any_address` reads it.
//! - `Name` is the name of a port. It has no byte that a JSON string has to escape.
//!
//! Reports, events, faults, texts of messages and the words of a command line use them. Nothing
//! here needs memory.
#![tactic(auto)]

mod buffers;
mod either;
mod hex;
mod name;
mod pieces;
mod short_text;

pub use buffers::put_front;
pub use either::{AnyAddress, any_address, of_family, read_any_address};
pub use hex::write_hex;
pub use name::{Name, is_port_name};
pub use pieces::{Shown, number_or, write_pieces};
pub use short_text::{ShortText, run_is_longest, short_text_names};
