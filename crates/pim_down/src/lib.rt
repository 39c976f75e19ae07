//! The downstream per-interface state machines of PIM sparse mode (RFC 7761, 4.5.1 to 4.5.3,
//! Figures 2 to 4): (*,G), (S,G) and (S,G,rpt) of each port, with Expiry Timer and Prune-Pending
//! Timer.
//!
//! - `Ports::hear` does what the tables say, event by event, then End of Message. A Join(*,G)
//!   counts only with RP(G). `Full` or `Memory` change nothing.
//! - `Ports::run_to` runs up to a moment or the first PruneEcho, `fire_to` to the first timer that
//!   fires. `next_due` returns when the first timer fires.
//!
//! The caller ensures: 1 to 64 ports, a limit of 1 to 100,000 records, a port that exists, an
//! override interval of at most 98,302 ms, and a moment of at most 10^15 ms. Between calls
//! `is_sound` holds: the records are in key order and within the limit, and none is in a Tmp state.
//! The code holds deadlines, with a list for each kind of timer, so a run looks only at the first
//! timers. Callers: `pim_router` and `pim_form`; `laws` has what others prove with.
#![tactic(auto)]

mod hearing;
pub mod laws;
mod machines;
mod ports;
mod records;
mod running;

pub use hearing::end::has_star_join;
pub use hearing::hear::event_of;
pub use machines::event::{Event, Timing};
pub use machines::fault::HearFault;
pub use machines::key::{Key, What, compare_addresses, compare_whats};
pub use machines::machine::{Machine, Pending, Record, State};
pub use machines::step::{Firing, Step, Timer};
pub use ports::Ports;
pub use records::group::GroupMachines;
pub use records::near::Near;
pub use records::walk::Records;
