//! Join/Prune messages of PIM sparse mode (RFC 7761, 4.9.5), read in place and written part by
//! part.
//!
//! - `JpView::read` returns the message that a body spells, or the fault of least offset and,
//!   there, of least number. The iterators give its group sets and their entries in order.
//! - `put_head`, `put_set`, `put_group_and_counts` and `put_entry` write the canonical spelling.
//! - `clashes` looks for a source that a set both joins and prunes by entries of one type. That is
//!   a fault, since their order would decide; so are a second (*,G) entry in a set, and bytes after
//!   the last set. All else that can be obeyed is legal.
//!
//! B, Z, S and the reserved bits are ignored. The caller compares the upstream neighbour with its
//! own. No function allocates. Callers: `pim_router`, `pim_text`, and all crates that write
//! messages.
#![tactic(auto)]

mod clashes;
mod debug;
mod entries;
mod entry;
mod fault;
pub mod laws;
mod reading;
mod sets;
mod view;
mod walking;
mod writing;

pub use entries::Entries;
pub use entry::Entry;
pub use fault::{JpFault, JpKind};
pub use sets::{SetView, Sets};
pub use view::JpView;
pub use writing::{
    head_length, put_entry, put_entry_at, put_group_and_counts, put_head, put_set, set_length,
};
