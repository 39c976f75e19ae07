//! Links of packets.

use crate::interface::InterfaceChoice;
use crate::vlan::Vlan;

/// The link of a packet, as `--vlan` and `--interface` choose it.
#[derive(Clone, Copy, Debug, PartialEq, Eq)]
pub struct Link {
    /// Its VLAN.
    pub vlan: Vlan,
    /// Its interface.
    pub interface: InterfaceChoice,
}
