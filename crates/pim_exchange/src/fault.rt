//! Why a call of this crate fails.

ghost use Rattle.std.specs.Prelude.{◌≡◌};
ghost use Rattle.pim_exchange.specs.Fault.{of_form, of_mirror, of_second};

use pim_addr::Family;
use pim_form::FormFault;
use pim_merge::MergeFault;
use pim_mirror::MirrorFault;
use pim_run::RunFault;

/// Why a call fails. `A` is the type of an address.
#[derive(Clone, Copy, Debug, PartialEq, Eq)]
pub enum ExchangeFault<A> {
    /// A replay stopped, memory was refused, or the device failed. Of two routers, it is the first
    /// one's replay.
    Replay(RunFault),
    /// The second router's replay stopped at this fault of one of its captures. A call with one
    /// router never returns it.
    Second(MergeFault),
    /// The star of this group, with all its exceptions, doesn't fit a message of the writer's
    /// budget.
    TooBig(A),
    /// The fresh router has no room for all messages. A call without a fresh router never returns
    /// it.
    Full {
        /// In `mirror_into`: the number of entries of the messages up to the first one that passes
        /// the limit. In `change_into`: what the first message without room needed.
        needed: usize,
    },
}

/// Why a call fails when the second router's replay stops.
pub(crate) fn of_second<A>(fault: RunFault) -> ExchangeFault<A>
    ensures { result ≡ of_second fault }
{
    match fault {
        RunFault::Capture(reported) => ExchangeFault::Second(reported),
        _ => ExchangeFault::Replay(fault),
    }
}

/// Why a call fails when the demands can't be compared or written. The tables are the same, so
/// `Tables` can't occur.
pub(crate) fn of_form<F: Family>(fault: FormFault<F>) -> ExchangeFault<F::Addr>
    ensures { result ≡ of_form fault }
{
    match fault {
        FormFault::TooBig(group) => ExchangeFault::TooBig(group),
        FormFault::Memory | FormFault::Tables => ExchangeFault::Replay(RunFault::Memory),
    }
}

/// Why a call fails when the fresh router doesn't hear the messages.
pub(crate) fn of_mirror<A>(fault: MirrorFault) -> ExchangeFault<A>
    ensures { result ≡ of_mirror fault }
{
    match fault {
        MirrorFault::Full { needed } => ExchangeFault::Full { needed },
        MirrorFault::Memory => ExchangeFault::Replay(RunFault::Memory),
    }
}
