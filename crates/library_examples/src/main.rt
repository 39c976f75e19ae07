//! How the libraries are used from code, in two examples: from the bytes of a message to the state
//! of a port, and a routing daemon in small, from packets to the messages that it sends.
#![tactic(auto)]

mod bytes_to_state;
mod packets_to_messages;

use anyhow::Result;
use bytes_to_state::write_state;
use packets_to_messages::write_messages;

/// Runs one after the other.
fn main(rt: HostRuntime) -> Result<()> {
    write_state(&rt)?;
    write_messages(&rt)
}
