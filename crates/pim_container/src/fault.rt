//! The faults of a capture.

ghost use Rattle.std.specs.Prelude.{◌≡◌};
ghost use Rattle.pim_container.specs.declared.fault.ContainerFault.TheVariants.{Read, Memory};

use pim_addr::Failed;
use std::alloc::AllocError;
use thiserror::Error;

/// Why a capture can't be read any further. Every later call returns `Failed`.
#[derive(Clone, Copy, Debug, PartialEq, Eq, Error)]
pub enum ContainerFault {
    /// It begins with the magic of neither container, or a section with no known byte order.
    #[error("magic")]
    Magic,
    /// It is a file that gzip compressed.
    #[error("gzip")]
    Gzip,
    /// A classic file has this link type, which isn't read.
    #[error("link-type")]
    LinkType(u16),
    /// It ends inside its header, a record or a block.
    #[error("truncated")]
    Truncated,
    /// A record's captured length is above 262,144 bytes, or a block's length above 16,777,216.
    #[error("too-long")]
    TooLong,
    /// A block is shorter than its head, or its lengths are unequal or no multiples of four. Or an
    /// option is cut, or a packet is longer than its block, or of an interface that isn't
    /// described. Or a section has another major version than 1, or describes more than 65,535
    /// interfaces, or these in more than 67,108,864 bytes.
    #[error("block")]
    Block,
    /// The time of a packet is before 1970 or after 4,294,971,589,967 ms.
    #[error("time")]
    Time,
    /// The reader failed, or a piece begins after 4,294,967,295 others.
    #[error("read")]
    Read,
    /// Memory was refused.
    #[error("memory")]
    Memory,
    /// An earlier call returned a fault.
    #[error("failed")]
    Failed,
}

impl From<Failed> for ContainerFault {
    ghost from_gives = { λ _ fault. fault ≡ Read };

    fn from(_failed: Failed) -> ContainerFault {
        ContainerFault::Read
    }
}

impl From<AllocError> for ContainerFault {
    ghost from_gives = { λ _ fault. fault ≡ Memory };

    fn from(_error: AllocError) -> ContainerFault {
        ContainerFault::Memory
    }
}
