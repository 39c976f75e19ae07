//! A list in order whose items are in a slab, each with a number. The numbers are in blocks, in the
//! order of the list, so an edit moves no item. The crate knows nothing of PIM.
//!
//! - `insert_within` is `insert` of std on the list, `remove` its `remove`, and `set` replaces an
//!   item.
//! - `reserve(n)` at Ok leaves a capacity for n more items. It alone can run out of memory; the
//!   items and all places then stay.
//! - `find` and `find_near` return an item that compares equal, or a gap between a lesser and a
//!   greater item. They require no order of the list.
//! - `number_of` returns the number of an item in the slab, which it keeps while it is there.
//!
//! Contracts see the list of the items, and a place as the number of items before it. Callers:
//! `pim_down`, and `pim_trace` for its ledger.
#![tactic(auto)]

mod probe;
mod slab_list;
mod walk;

pub use slab_list::SortedSlab;
pub use walk::Walk;
