//! The header of PIM messages and its checksum (RFC 7761, 4.9).
//!
//! - `open` returns the bytes after the header, or the type alone for a message that is no Hello
//!   and no Join/Prune, or the first fault in the order of `FrameFault`.
//! - `seal` writes the header before a body, with a correct checksum.
//! - `all_routers` returns ALL-PIM-ROUTERS.
//!
//! A Hello or a Join/Prune must come to ALL-PIM-ROUTERS; another destination is a sign of forgery
//! or of a broken sender. Senders differ on the two zeros of one's complement, so checksums of
//! 0x0000 and 0xffff are both accepted. The caller passes messages below 2^32 bytes. No call takes
//! memory. Callers: `pim_router`, and all crates that write messages.
#![tactic(auto)]

mod checksum;
mod frame;

pub use frame::{
    Body, FrameFault, MessageType, all_routers, one_checksum, open, seal, sealed_opens,
    some_message_is_sealed,
};
