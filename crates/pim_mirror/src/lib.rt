//! The mirror: a fresh router that hears canonical messages alone, and then has the same demand by
//! the same messages.
//!
//! - `fits` returns whether the router, its neighbours, and the deliveries and their times meet the
//!   conditions of the record `Fits`.
//! - `mirror` returns the router at its final moment, or `Full`, or `Memory`. Where the messages
//!   are canonical ones of a state, it holds exactly the machines of their form, reports no
//!   PruneEcho, and `Full` says that all entries together pass the limit of records.
//! - `hear_deliveries` lets a router of one port hear deliveries, and go on to a last moment.
//!
//! The law `headline` joins what two states want, their messages, and a fresh router that hears the
//! messages of one of them. Callers: `pim_exchange`, and the laws of `pim_moving`.
#![tactic(auto)]

mod config;
mod fitting;
mod fresh;
mod headline_laws;
mod hello_laws;
pub mod laws;
mod meeting;
mod mirror_laws;
mod mirroring;

pub use config::{Delivery, FreshConfig, OtherNeighbour};
pub use fitting::fits;
pub use mirroring::{MirrorFault, are_short, hear_deliveries, mirror};
