//! Triggered Join/Prune messages: the change from what an upstream neighbour was last sent to what
//! is wanted (RFC 7761, 4.5.4, 4.5.5 and 4.5.7).
//!
//! - `changed` returns the units of the change between two normal forms, in the order of the
//!   definition.
//! - `too_big` returns the least group with a new star that exceeds a budget. It allocates nothing.
//! - `triggered` returns the messages of the change. `TooBig` comes exactly if `too_big` returns a
//!   group, before anything is allocated; any other refusal is `Memory`.
//!
//! The caller of `triggered` sees to it that both forms want only what is requested from the
//! writer's upstream neighbour. By the laws, equal forms have no change, and a change has at most
//! one list of messages, which are read without a fault. Callers: `pim_router`.
#![tactic(auto)]

mod action;
mod changes;
mod entries;
mod fitting;
pub mod laws;
mod message;
mod packing;
mod runs;
mod unit;

pub use changes::changed;
pub use fitting::too_big;
pub use packing::triggered;
pub use unit::{Action, ActionKind, Unit};
