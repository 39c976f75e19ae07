//! What a Join/Prune message does to the machines of a port: its entries in their order, then End
//! of Message.

pub(crate) mod end;
pub(crate) mod hear;
pub(crate) mod listed;
pub(crate) mod message;
pub(crate) mod ordered;
pub(crate) mod refresh;
pub(crate) mod scattered;
