//! A session: the engine as a program that is given commands, a line each, and answers in lines.
//!
//! `session_into` reads commands to the end of the input and answers them in order. Its contract
//! says which text was written: that of `IsDialog` over the items of the input
//! (`specs/Dialog.antt`), a fold of the commands over the state of a session. A session has a
//! set-up before its start, then a router, and what is kept under names. A fault changes nothing;
//! if a device fails, a prefix of such a text was written.
//!
//! The answers of a router are those of `pim_answers`; the lines of the input and their words are
//! those of `pim_request`. Room for the longest item, and at `start` for the longest message, is
//! made in advance. So `fault memory` never comes in place of a fault of words, lines, families or
//! ports. By a law, two dialogs of the same items that nowhere answer it are the same.
//! Callers: `pim_main`.
#![tactic(auto)]

pub mod laws;
mod request;
mod routers;
mod serving;
mod session;
mod setup;

pub use session::session_into;
