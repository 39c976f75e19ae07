//! The tests of `pim_down` and of what it stands on, and those of what reads devices, files, bodies
//! and captures. They are a crate of their own, so that a check proves these libraries once and not
//! a second time with their tests, and one crate, since each one takes a minute for its libraries.
#![tactic(auto)]

#[cfg(test)]
mod tests;
