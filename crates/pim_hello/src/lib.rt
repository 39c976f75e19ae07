//! Hello messages of PIM sparse mode (RFC 7761, 4.3 and 4.9.2), and the neighbours of a port.
//!
//! - `Hello::read` returns what the last option of each known type says, or the first fault.
//!   `Hello::put` writes the options that are present; they are read as the same message.
//! - `Neighbours`, one for each port, is a map from an address to its last accepted Hello. `hear`
//!   changes its sender's entry alone, `expire` removes those whose time is over.
//! - `Neighbours::override_interval` is J/P_Override_Interval(I), at most 98,302 ms.
//!
//! A port has at most 1,024 neighbours, so that no flood of Hellos takes all memory. A goodbye
//! needs no memory and returns `Gone` for any sender. Addresses of the other family in an Address
//! List are skipped, since a widely used daemon sends them. Moments are milliseconds up to 10^15,
//! the caller's condition. Callers: `pim_router`, `pim_text` and the mirror.
#![tactic(auto)]

mod addresses;
mod delay;
mod delays_heard;
mod fault;
mod heard;
mod hearing;
mod hello;
mod interval;
pub mod laws;
mod neighbours;
mod option;
mod parameters;
mod roster;
mod row;
mod walk;
mod writing;

pub use addresses::Addresses;
pub use delay::LanDelay;
pub use fault::{HelloFault, HelloKind};
pub use heard::{Heard, NeighbourFault};
pub use hello::{Hello, reads_back};
pub use interval::PortDelays;
pub use neighbours::Neighbours;
pub use parameters::Parameters;
pub use walk::{KnownNeighbour, KnownNeighbours};
