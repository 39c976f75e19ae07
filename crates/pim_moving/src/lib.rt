//! Laws on a router that hears how the demand of its downstream neighbour changes (RFC 7761, 4.5).
//! Nothing in this crate is to be called.
//!
//! A router of one port is settled at one form. It knows the writer, whose upstream neighbour it
//! is, and has the same RPs. It is given the packets of the change to another form, in any order,
//! each at least once and nothing else. Then it is given a moment from the final one of these
//! deliveries on. It has room, and no neighbour's time and no Expiry Timer ends. Then it is settled
//! at the other form and wants exactly what that form means (`change_moves_a_router`). No Expiry
//! Timer ends if each has more left than there is until the last moment (`long_timers_last`).
//!
//! A router that `mirror` of `pim_mirror` returns is settled at its form. None of its Expiry Timers
//! ends while each message came less than its holdtime ago (`mirror_is_settled`).
//!
//! If each star of a form fits a message, so does each star that a change to it says
//! (`change_fits`).
#![tactic(auto)]

pub mod laws;
