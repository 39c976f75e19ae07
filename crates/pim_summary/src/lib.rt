//! Summarizes a capture without knowing a router or an RP.
//!
//! A `Summary` is a fold over the events of a capture (`pim_capture::Event`), in memory that has a
//! bound: links, the sources of PIM messages, the upstream neighbours that Join/Prune messages
//! name, and the RPs that Joins(*,G) name, with counts of each. It has no caller yet
//! (`drafts/summary.md`).
#![tactic(auto)]

mod counting;
mod facts;
mod links;
mod listed;
mod routers;
mod skipped;
mod upstreams;

pub use facts::{
    FirstMalformed, HelloFacts, LinkFacts, Malformed, RouterFacts, RpFacts, SentFacts,
    SkippedFacts, Summary, UpstreamFacts,
};
