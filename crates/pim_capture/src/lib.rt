//! Reads classic pcap captures as a stream of PIM packets.
//!
//! `Capture::next` returns one event a call, over any `Feed`: a record with a PIM packet, a record
//! without a whole one and the reason, or the end of the file. The events are a function of the
//! bytes of the file, however the reader cuts them (`answers` in `specs/Capture.antt`). Only a
//! failed read and refused memory don't follow from the bytes.
//!
//! The buffer is the caller's; after a packet it holds the record's bytes. A captured length above
//! 262,144 is refused before the bytes are read. A record after 4,294,967,295 others counts as a
//! failed read, so that no count wraps. A pcapng file is refused (`Magic`).
//!
//! `judge_packet` judges an IP packet alone. Callers: `pim_container`, which reads more links and
//! pcapng, and `pim_merge`.
#![tactic(auto)]

mod capture;
mod event;
mod fault;
mod frame;
mod header;
mod incomplete;
mod interface;
mod link;
mod record;
mod vlan;

pub use capture::Capture;
pub use event::{Event, Ip, Why};
pub use fault::CaptureFault;
pub use frame::judge_packet;
pub use incomplete::{Incomplete, RecordPlace};
pub use interface::{InterfaceChoice, InterfaceName};
pub use link::Link;
pub use vlan::Vlan;
