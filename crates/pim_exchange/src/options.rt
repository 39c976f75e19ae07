//! What the calls need besides the routers.

use pim_addr::Family;
use pim_form::Writer;
use pim_merge::End;
use std::alloc::Global;

/// What an exchange of messages needs besides the replayed routers and their captures.
#[derive(Drop)]
pub struct ExchangeOptions<'a, F: Family> {
    /// The memory.
    pub alloc: Global,
    /// The end of each replay.
    pub end: End,
    /// The writer of the messages to the upstream neighbour.
    pub by: &'a Writer<F>,
    /// The most records of the fresh router, 1 to 100,000. `same_into` makes none.
    pub limit: usize,
}
