//! The tests of the program's libraries, in a crate of their own: `pim_words`, `pim_replay` and
//! `pim_commands` are proved once and not a second time with them.
#![tactic(auto)]

#[cfg(test)]
mod tests;
