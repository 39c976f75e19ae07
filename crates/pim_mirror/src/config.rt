//! A fresh router's configuration and the deliveries to it. The port is a slice, as in a router's
//! configuration, so that the router can borrow it; `fits` tests that there is one port.

use pim_addr::{Family, Routes};
use pim_hello::Parameters;
use pim_router::PortConfig;

/// A neighbour on the fresh router's port beside the sender.
#[derive(Clone, Copy, Debug, PartialEq, Eq)]
pub struct OtherNeighbour<A> {
    /// The source address of its Hello.
    pub address: A,
    /// The parameters of its Hello. There is no Address List, since a router keeps none.
    pub hello: Parameters,
}

/// One delivery of a message to the fresh router.
#[derive(Clone, Copy, Debug, PartialEq, Eq)]
pub struct Delivery {
    /// The number of the message, from 0.
    pub message: usize,
    /// The time since the router began, in milliseconds.
    pub moment: u64,
}

/// A fresh router and what comes to it: at the moment 0 the Hellos of the sender and of the other
/// neighbours, then the sender's messages.
#[derive(Drop)]
pub struct FreshConfig<'a, F: Family> {
    /// The router's only port: the address to which the messages are directed, and its own delays.
    pub ports: &'a [PortConfig<F::Addr>],
    /// The router's route table, which is to equal the sender's.
    pub routes: &'a Routes<F>,
    /// The most records that the port may hold: 1 to 100,000.
    pub limit: usize,
    /// The source address of the messages.
    pub sender: F::Addr,
    /// The other neighbours on the port, at most 1,023.
    pub others: &'a [OtherNeighbour<F::Addr>],
    /// The deliveries in order of their moments. Each message may come more than once, in any order
    /// of their numbers.
    pub deliveries: &'a [Delivery],
}
