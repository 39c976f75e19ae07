//! The run of a router over the merge of its captures, turn by turn.
//!
//! `run` takes the turns of a merge up to the end of its run. `Hooks` say what happens at each: the
//! replay and the trace are hooks of it. A new command that goes over captures is one more.
//!
//! A run stops at the first fault (`RunFault`). The caller then lets time pass up to the end of the
//! run, or ends with the fault.
//!
//! `pim_replay` and `pim_trace` call it.
#![tactic(auto)]

mod engine;
mod fault;
mod hooks;

pub use engine::run;
pub use fault::{RunFault, TurnFault};
pub use hooks::Hooks;
