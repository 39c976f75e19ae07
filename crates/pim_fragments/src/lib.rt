//! Puts fragments of IP packets together, so that large PIM messages are read (RFC 791, 3.2; RFC
//! 8200, 4.5).
//!
//! - `part_of` judges an IP packet: it is a whole one, as `judge_packet` of `pim_capture` says, or
//!   a fragment. It walks over the headers of IPv6 that stand before PIM.
//! - `Fragments` has the packets of one port of which fragments are held: at most sixteen, with at
//!   most 65,535 bytes each. The oldest goes first, and each goes after thirty seconds.
//! - `Fragments::take` returns the payload of a packet that its fragments make, without a hole and
//!   without an overlap (RFC 5722). The packets are a function of the fragments, their keys and
//!   their moments (`specs/Packets.antt`, `specs/Pieces.antt`). If memory is refused, nothing has
//!   changed.
//! - `Fragments::incomplete` counts the packets that are incomplete or went before they were whole.
//! - `pim_begins` finds PIM in such a payload.
#![tactic(auto)]

mod fragments;
mod headers;
mod parts;
mod pieces;

pub use fragments::Fragments;
pub use headers::Fragment;
pub use parts::{Part, part_of, pim_begins, whole_packets_are_as_judged};
