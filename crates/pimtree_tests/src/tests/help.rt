//! How wide the help texts are.

use clap::error::ErrorKind;
use pim_words::{CommandFault, plan};
use std::alloc::Global;

/// The most columns of a line of help.
const WIDTH: usize = 80;

/// The words that ask for each help text.
const PAGES: [&[&str]; 11] = [
    &["p", "--help"],
    &["p", "check", "--help"],
    &["p", "build", "--help"],
    &["p", "replay", "--help"],
    &["p", "trace", "--help"],
    &["p", "audit", "--help"],
    &["p", "same", "--help"],
    &["p", "mirror", "--help"],
    &["p", "emit", "--help"],
    &["p", "change", "--help"],
    &["p", "session", "--help"],
];

/// Whether each line is narrow enough.
fn has_narrow_lines(text: &str) -> bool {
    text.lines().all(|line| line.chars().count() <= WIDTH)
}

/// Whether a fault is a help text whose lines are narrow enough.
fn is_narrow_help(fault: &CommandFault<'_>) -> bool {
    match fault {
        CommandFault::Clap(refusal) => {
            refusal.kind == ErrorKind::DisplayHelp && has_narrow_lines(&refusal.text)
        }
        _ => false,
    }
}

/// Whether the words ask for a help text whose lines are narrow enough.
fn is_narrow(alloc: Global, words: &[&str]) -> bool {
    match plan(alloc, words) {
        Ok(_) => false,
        Err(fault) => is_narrow_help(&fault),
    }
}

#[test]
fn help_is_at_most_80_columns_wide(rt: HostRuntime) {
    let wide = PAGES.iter().position(|words| !is_narrow(rt.alloc(), words));
    assert_eq!(rt; wide, None);
}
