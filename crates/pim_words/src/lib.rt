//! What the words of a command line ask for.
//!
//! - `plan` reads the words of `check`, `build`, `replay`, `trace`, `audit`, `same`, `mirror`,
//!   `emit` and `change`, and opens nothing. It returns the task with all defaults, or the first
//!   fault in the order that `plan` lists, or `Memory`. Faults and plans borrow from the command
//!   line.
//! - `given_table` makes the route table of an RP and an upstream neighbour.
//!
//! All addresses of a task are of one family, and its numbers are in their ranges. A port has a
//! link where its file is read as any container; there `+FILE` names a further file of the port of
//! the word before it, and `-` names standard input (`specs/Links.antt`).
//!
//! `clap` finds the options and checks the ranges of numbers, so its faults come first. The
//! defaults, `--after` beside `--at`, and the value of `--time` are judged here. Callers:
//! `pim_files`, `pim_faults`, `pim_commands` and `pim_main`.
#![tactic(auto)]

mod commands;
mod fault;
mod given;
mod inputs;
mod judging;
mod label;
mod links;
mod more;
mod picks;
mod planning;
mod port;
mod port_word;
mod reading;
mod shown;
mod table;
mod task;
mod typed;

pub use fault::{CommandFault, ConfigCause, Refusal, RouterSide};
pub use inputs::{STANDARD_INPUT, reads_any};
pub use judging::is_of;
pub use pim_capture::Vlan;
pub use planning::plan;
pub use table::given_table;
pub use task::{
    Auditing, Captures, CommandKind, CommandPlan, LinkWord, More, Port, Task, Tracing, Writing,
};
