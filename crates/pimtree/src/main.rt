//! `pimtree` reads PIM sparse mode messages for a person.
//!
//! `check` prints a message on standard input, or its fault. `build` writes the bytes of a message
//! whose text is on standard input. `replay` prints what became of each packet of a router's
//! captures, and the state that the router held at the end. `trace` prints each change of each
//! machine, with its cause. `same` prints whether two routers want the same traffic. `mirror`
//! prints the messages that make a fresh router want what this one wants. `emit` writes the bytes
//! of the messages by which this one asks its upstream neighbour. `change` prints the messages that
//! move an upstream neighbour from what one router wants to what another one wants. `session`
//! answers the commands on standard input, a line each.
//!
//! `pim_main` has all but `main`. The words in `args` are those of the gate's run: two routers
//! differ, each has two ports, and the table comes from a file of routes. So the status is 1.
#![tactic(auto)]

use pim_main::run_program;
use std::process::ExitCode;

fn main(rt: HostRuntime) -> ExitCode {
    run_program(&rt)
}
