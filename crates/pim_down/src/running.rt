//! What time does to the machines: the timers that are due fire, in their order.

pub(crate) mod run;
pub(crate) mod timers;
