//! A router of PIM sparse mode (RFC 7761) as far as it receives packets: its ports, their
//! neighbours and downstream machines, and its time. Calls return what the caller is to send.
//!
//! - `Router::new` returns the first fault of a configuration, or a router at the moment 0.
//! - `take_packet` returns the first verdict that applies. It is `read_message` and then
//!   `take_read`, for callers that look at the message themselves. A refusal changes nothing.
//! - `run_to` lets time pass up to a moment or the next PruneEcho or refresh, `fire_to` up to the
//!   next timer. `next_timeout` returns when the next neighbour goes.
//! - `canonical` returns the messages of the demand toward an upstream neighbour, `triggered` those
//!   of its change. `same_wants` compares the demand of two routers.
//!
//! A port has at most 1,024 neighbours and its limit of records. Callers: all runs and sessions.
#![tactic(auto)]

mod canonical;
mod change;
mod config;
pub mod laws;
mod message;
mod one_list;
mod router;
mod step;
mod verdict;

pub use canonical::same_wants;
pub use config::{Config, ConfigFault, PortConfig};
pub use message::{PimMessage, read_message};
pub use router::Router;
pub use step::Step;
pub use verdict::{Malformed, Store, Verdict};
