//! Addresses of IPv4 and IPv6, their encoded forms in PIM messages (RFC 7761, 4.9.1), their text,
//! and route tables. The crate also exports the devices of `pim_device`.
//!
//! - `Family`: contracts see an address as its list of bytes, so no definition above is generic.
//! - Encoded addresses: a `read_` function returns the value at the front of the bytes, or the
//!   first fault. A `put_` function writes the one canonical spelling.
//! - Text: `write_text` writes the one text of an address, `read_text` reads any text of one.
//! - `Routes`: `rp_of` is RP(G), `via` the upstream neighbour, each by the longest match. `add_rp`
//!   and `add_via` return the first fault of a row, or `Memory`; a refusal changes nothing.
//!
//! Of these calls, only `add_rp` and `add_via` take memory. Callers: all crates.
#![tactic(auto)]

mod below;
mod encoded;
mod family;
pub mod laws;
mod order;
mod parsed;
mod ranges;
mod route;
mod route_fault;
mod route_map;
mod route_rows;
mod routes;
mod rows;
mod text;
mod written;

pub use below::count_below;
pub use encoded::{
    AddrFault, SourceAddress, SourceBits, group_length, read_group, read_source, read_unicast,
    source_length, unicast_length,
};
pub use family::{AddressFamily, Family, V4, V6, numbers_are_in_order};
pub use order::first_of_parts_is_least;
pub use parsed::{read_text, text_names_one_address, written_text_names};
pub use pim_device::{
    Counted, Drain, Failed, Feed, ScriptedDrain, ScriptedFeed, read_up_to, write_all,
};
pub use route::Route;
pub use route_fault::RouteFault;
pub use route_rows::RouteRows;
pub use routes::{Routes, group_bits};
pub use text::write_text;
pub use written::{
    group_reads_back, put_group, put_source, put_unicast, source_reads_back, unicast_reads_back,
};
