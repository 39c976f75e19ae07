//! The faults of a capture.

ghost use Rattle.std.specs.Prelude.{◌≡◌};
ghost use Rattle.pim_capture.specs.declared.fault.CaptureFault.TheVariants.{Read, Memory};

use crate::interface::InterfaceName;
use crate::vlan::Vlan;
use pim_addr::Failed;
use std::alloc::AllocError;
use thiserror::Error;

/// Why a capture can't be read any further. Every later call returns `Failed`. Readers of other
/// files than classic ones return the last seven too; `Capture` never does.
#[derive(Clone, Copy, Debug, PartialEq, Eq, Error)]
pub enum CaptureFault {
    /// It doesn't begin with the magic of a classic pcap file.
    #[error("magic")]
    Magic,
    /// Its link type is neither Ethernet nor raw IP.
    #[error("link-type")]
    LinkType,
    /// It ends inside the file header or inside a record.
    #[error("truncated")]
    Truncated,
    /// A record's captured length is above 262,144 bytes. None of them was read.
    #[error("too-long")]
    TooLong,
    /// The reader failed, or a record begins after 4,294,967,295 others.
    #[error("read")]
    Read,
    /// The buffer couldn't grow.
    #[error("memory")]
    Memory,
    /// An earlier call returned a fault.
    #[error("failed")]
    Failed,
    /// A block of a pcapng file contradicts itself.
    #[error("block")]
    Block,
    /// The time of a packet is before 1970 or after 4,294,971,589,967 ms.
    #[error("time")]
    Time,
    /// The packets have more than one VLAN, and none is chosen.
    #[error("vlans")]
    Vlans {
        /// The VLAN of the first packet.
        first: Vlan,
        /// That of the first packet of another VLAN.
        other: Vlan,
    },
    /// The packets have more than one interface, and none is chosen.
    #[error("interfaces")]
    Interfaces {
        /// The number of the interface of the first packet.
        first: u32,
        /// That of the first packet of another interface.
        other: u32,
    },
    /// The packets have interfaces of more than one name, and none is chosen.
    #[error("interfaces")]
    InterfaceNames {
        /// The name of the interface of the first packet.
        first: InterfaceName,
        /// That of the first packet of an interface with another name.
        other: InterfaceName,
    },
    /// Its link type has this number, which isn't read.
    #[error("link-type {0}")]
    LinkNumber(u16),
    /// It is a file that gzip compressed.
    #[error("gzip")]
    Gzip,
}

impl From<Failed> for CaptureFault {
    ghost from_gives = { λ _ fault. fault ≡ Read };

    fn from(_failed: Failed) -> CaptureFault {
        CaptureFault::Read
    }
}

impl From<AllocError> for CaptureFault {
    ghost from_gives = { λ _ fault. fault ≡ Memory };

    fn from(_error: AllocError) -> CaptureFault {
        CaptureFault::Memory
    }
}
