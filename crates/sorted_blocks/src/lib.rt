//! A list in order, kept in blocks of up to B = 2 * `HALF` items; `HALF` is 1 to 65,536. It knows
//! nothing of PIM, and of its items only that they are `Copy`.
//!
//! - `insert_within` is `insert` of std on the list, and `remove` is its `remove`.
//!   `insert_in_block` and `remove_in_block` change several items of one block by one move.
//! - `reserve_capacity(n)` at Ok leaves a capacity for n more items, which the edits keep. It alone
//!   can run out of memory. The list and its places then stay.
//! - `find` and `find_near` return an item that compares equal, or a gap between a lesser and a
//!   greater item. They require no order of the list.
//!
//! Contracts see the list of the items, and a place as the number of items before it. A change
//! costs about log n comparisons and moves the items of one block or two; one long vector would
//! move half of its items. Callers: `sorted_slab`.
#![tactic(auto)]

mod block;
mod blocks;
mod edits;
mod find;
mod items;
pub mod laws;
mod memory;
mod place;
mod probe;
mod store;
mod walk;

pub use blocks::Blocks;
pub use items::Items;
pub use place::Place;
pub use probe::Probe;
