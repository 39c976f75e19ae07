//! The tests of `pim_form`, `pim_emit`, `pim_change`, `pim_router` and `pim_mirror` that are no
//! scenarios, and those of the JSON lines of events. They are a crate of their own, so that a check
//! proves the libraries once and not a second time with their tests. They are one crate, since each
//! one takes a minute for its libraries.
#![tactic(auto)]

#[cfg(test)]
mod tests;
