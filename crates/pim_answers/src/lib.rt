//! The answers of a router to the commands of a session, and what is kept under names.
//!
//! - `answer_packet` and `answer_from` let a port take a packet, and `answer_run` lets time pass.
//! - `answer_now`, `answer_next`, `answer_state`, `answer_wants` and `answer_neighbours` report
//!   what the router holds.
//! - `answer_messages` writes the canonical messages to an upstream neighbour. `form_to_keep` makes
//!   the form that `KeptForms` keep; `answer_change` and `answer_same` compare the demand of now
//!   with it.
//!
//! Each writes its lines and `ok`, or one line with the first fault, and a refusal changes nothing.
//! If the device fails, a prefix of the text was written. `KeptForms` know no router, so that they
//! outlive each. By the laws, two answers of a command to one state, neither of them `memory`, are
//! the same. Callers: `pim_session`.
#![tactic(auto)]

mod demanding;
mod fault;
mod kept;
pub mod laws;
mod neighbours;
mod packets;
mod reports;
mod room;
mod running;

pub use demanding::{answer_change, answer_messages, answer_same, form_to_keep};
pub use fault::{AnswerFault, write_done, write_fault, write_ok};
pub use kept::{AnyForm, FoundForm, KeptForm, KeptForms, StarRp};
pub use packets::{FromText, answer_from, answer_packet};
pub use reports::{answer_neighbours, answer_next, answer_now, answer_state, answer_wants};
pub use room::Room;
pub use running::answer_run;
