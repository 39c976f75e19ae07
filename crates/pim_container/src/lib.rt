//! Reads captures as tools write them, classic pcap or pcapng, as a stream of PIM packets and of
//! fragments of packets.
//!
//! - `Reader::next` returns one event a call, over any `Feed`. The events are a function of the
//!   bytes of the file, however the device cuts them (`answers` in `specs/Pieces.antt`).
//!   `Reader::exchange` goes on with the next file of a capture.
//! - `place_of` in `specs/Link.antt` has the links: Ethernet, raw IP, Linux cooked captures and BSD
//!   loopbacks, with at most two VLAN tags.
//! - `Chooser` takes packets of one VLAN or interface. It returns a fault where packets have more
//!   than one and none is chosen, or where a chosen number means two names.
//!
//! A block above 16,777,216 bytes is refused before it is read. For classic files of one link
//! `pim_capture` returns the same (the laws `classic_agrees`, `classic_agrees_exactly`). Callers:
//! `pim_merge`.
#![tactic(auto)]

mod block;
mod choice;
mod classic;
mod container;
mod event;
mod fault;
mod interface;
pub mod laws;
mod link;
mod packet;
mod piece;
mod place;
mod reader;
mod tags;

pub use choice::{Choice, Chooser, Mixed};
pub use event::{ContainerEvent, Origin};
pub use fault::ContainerFault;
pub use pim_capture::{InterfaceChoice, InterfaceName, Vlan};
pub use reader::Reader;
