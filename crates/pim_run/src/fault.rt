//! Why a run stops.

ghost use Rattle.std.specs.Prelude.{◌≡◌};
ghost use Rattle.pim_run.specs.Faults.{stopped_by, of_turn};

use pim_capture::CaptureFault;
use pim_merge::MergeFault;

/// Why a run stopped.
#[derive(Clone, Copy, Debug, PartialEq, Eq)]
pub enum RunFault {
    /// The next answer of a capture is this fault, or a read of it failed. It is never `Memory`. If
    /// several captures have a fault, it is that of the first one.
    Capture(MergeFault),
    /// The device failed.
    Output,
    /// Memory was refused.
    Memory,
}

/// Why a turn isn't taken.
#[derive(Clone, Copy, Debug, PartialEq, Eq)]
pub enum TurnFault {
    /// The device failed.
    Output,
    /// Memory was refused.
    Memory,
}

/// Why a run stops at this fault of its merge.
pub(crate) fn stopped_by(fault: MergeFault) -> RunFault
    ensures { result ≡ stopped_by fault }
{
    match fault.fault {
        CaptureFault::Memory => RunFault::Memory,
        _ => RunFault::Capture(fault),
    }
}

/// Why a run stops when a turn isn't taken.
pub(crate) fn of_turn(fault: TurnFault) -> RunFault
    ensures { result ≡ of_turn fault }
{
    match fault {
        TurnFault::Output => RunFault::Output,
        TurnFault::Memory => RunFault::Memory,
    }
}
