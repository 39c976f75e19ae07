//! Makes the canonical Join/Prune messages of the demand toward an upstream neighbour straight from
//! the records of the ports (RFC 7761, 4.1 and 4.9.5), without a normal form. They are the messages
//! that `pack` of `pim_form` gives for the same state.
//!
//! - `write_canonical` writes them to a device, each after two bytes of its length. It takes no
//!   memory: each message is made in the caller's buffer.
//! - `canonical_messages` keeps them in memory.
//! - `star_too_big` returns the least group whose star is too big for a message alone, and
//!   `new_star_too_big` that of the stars that are announced anew. `TooBig` comes exactly with
//!   these.
//!
//! Contracts see the demand as its normal form; the code looks the form up in the records. The
//! crate is apart from `pim_form`, so that others needn't wait for it. Callers: `pim_router`,
//! `pim_exchange`.
#![tactic(auto)]

mod ahead;
mod canonical;
mod demand;
mod draft;
mod fault;
mod hints;
mod kept;
mod least;
mod machines;
mod message;
mod nearby;
mod new_star;
mod piece;
mod position;
mod rpts;
mod sending;
mod set;
mod stars;

pub use canonical::write_canonical;
pub use fault::WriteFault;
pub use kept::canonical_messages;
pub use new_star::{new_star_too_big, star_too_big};
