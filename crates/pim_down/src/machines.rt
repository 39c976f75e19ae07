//! The state machines of RFC 7761, 4.5.1 to 4.5.3: their keys, states and timers, what each event
//! does to one of them (Figures 2 to 4), and the laws of all.

pub(crate) mod event;
pub(crate) mod fault;
pub(crate) mod held;
pub(crate) mod key;
pub(crate) mod machine;
pub(crate) mod step;
