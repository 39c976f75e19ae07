//! Whether routers want the same of an upstream neighbour after their replays, and the messages by
//! which they request it.
//!
//! - `same_into` writes whether two routers want the same.
//! - `mirror_into` writes the canonical messages of a final state, then `agrees`, and `emit_into`
//!   the bytes of these messages alone, each after two bytes with its length.
//! - `change_into` writes the messages of the change between two final states, then `agrees`.
//!
//! Each call replays its captures quietly (`pim_replay`), then does its step. It writes nothing
//! after a fault of a capture, or if a star is too big (`TooBig`). If the device fails, a prefix of
//! the text was written. `agrees` says that a fresh router that heard the messages has the messages
//! it should have. It comes only if that router has room; otherwise the result is `Full`, after the
//! messages. Callers: `pim_commands`.
#![tactic(auto)]

mod both;
mod change_hearing;
mod change_text;
mod emit;
mod fault;
mod fresh_hearing;
mod mirror_text;
mod options;
mod same;

pub use change_text::change_into;
pub use emit::emit_into;
pub use fault::ExchangeFault;
pub use mirror_text::mirror_into;
pub use options::ExchangeOptions;
pub use same::same_into;
