//! Demand: which traffic the downstream machines want (RFC 7761, 4.1), its normal form, and the
//! Join/Prune messages that request it.
//!
//! - `wants` is the demand of a `Ports`. `NormalForm::of` returns its normal form,
//!   `NormalForm::toward` that of what is requested from one neighbour. A form lists groups, each
//!   with its star, the exceptions of the star, and its sources.
//! - `pack` returns the canonical messages of a form. `TooBig` names the least group whose star,
//!   with its exceptions, exceeds the budget.
//! - `settled` returns whether the machines of a port are exactly those that a form requests.
//!
//! By the laws, canonical messages of two states to one neighbour are byte-equal exactly if both
//! request the same from it. A star lists at most 100,000 exceptions, so that some valid source is
//! always outside of them. Callers: `pim_router`, `pim_emit`, `pim_change` and `pim_exchange`.
#![tactic(auto)]

mod collect;
mod demand;
mod fault;
mod filling;
mod form;
mod groups;
mod kept_toward;
pub mod laws;
mod merge;
mod messages;
mod packing;
mod place;
mod plan;
mod settling;
mod sizes;
mod sorted;
mod toward;
mod toward_laws;
mod tree;
mod wanting;
mod writer;
mod written;

pub use fault::FormFault;
pub use form::{NormalForm, normal_again};
pub use groups::{GroupView, Groups};
pub use messages::Messages;
pub use packing::pack;
pub use settling::settled;
pub use sizes::{MOST_GROUPS, message_size, star_fits};
pub use toward::{is_neighbour, is_toward, rpf_neighbour};
pub use tree::Tree;
pub use wanting::{is_pruned, wants};
pub use writer::{Writer, WriterFault};
