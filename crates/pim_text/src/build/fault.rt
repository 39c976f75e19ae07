//! The faults of building a message.

ghost use Rattle.std.specs.Prelude.{◌≡◌};
ghost use Rattle.pim_text.specs.Building.{text_fault};

use crate::message::TextFault;
use pim_frame::FrameFault;
use pim_hello::HelloFault;
use pim_jp::JpFault;
use thiserror::Error;

/// Why there is no message.
#[derive(Clone, Copy, Debug, PartialEq, Eq, Error)]
pub enum BuildFault {
    /// The text can't be read.
    #[error("input read")]
    Read,
    /// The text has more than 8,388,608 bytes, or the message more than 65,536.
    #[error("text too-long")]
    TooLong,
    /// The line with this number, from 1, is the first wrong one, or the one that is missing at the
    /// end.
    #[error("text line {0}")]
    Line(usize),
    /// An address of the text is not of the family.
    #[error("family")]
    Family,
    /// A receiver refuses the header of the message.
    #[error("frame {0}")]
    Frame(FrameFault),
    /// A receiver refuses the body of the Hello.
    #[error("hello {0}")]
    Hello(HelloFault),
    /// A receiver refuses the body of the Join/Prune message.
    #[error("join/prune {0}")]
    JoinPrune(JpFault),
    /// Memory ran out.
    #[error("memory")]
    Memory,
}

/// Returns the fault of a text, as one of building.
pub(crate) fn text_fault(fault: TextFault) -> BuildFault
    ensures { result ≡ text_fault fault }
{
    match fault {
        TextFault::Line(number) => BuildFault::Line(number),
        TextFault::Family => BuildFault::Family,
        TextFault::TooLong => BuildFault::TooLong,
        TextFault::Memory => BuildFault::Memory,
    }
}
